//! Laws of streams. Each function has a body without effect: its contract is the law.
ghost use Rattle.std.specs.Prelude.{◌≡◌, ◌++◌, List, ℕ};
ghost use Rattle.std.specs.List.{concat};
ghost use Rattle.readers.specs.Reading.{AreBytes};
ghost use Rattle.erl_handshake.specs.declared.identity.Identity.{Identity};
ghost use Rattle.conn_core.specs.declared.arrival.Arrival.{Arrival};
ghost use Rattle.conn_core.specs.declared.side.Side.{Side};
ghost use Rattle.conn_pieces.specs.Streams.{AreWhole, GivesAll, GivesInPieces, Taking, Takes};

/// Proves that a stream in pieces gives the items of the whole stream. An item taken of its
/// beginning, or a fault, is taken of the whole stream, whatever follows (`given`). Each whole
/// item taken of the stream is taken of each beginning that has it (`taken`). The side may change
/// between two items.
pub fn pieces_are_the_stream()
    ensures given { (own : Identity) (front more rest : List ℕ) (takings : List Taking) → Takes own front takings rest → Takes own (front ++ more) takings (rest ++ more) }
    ensures taken { (own : Identity) (front more rest : List ℕ) (takings : List Taking) → AreWhole takings → Takes own (front ++ more) takings (rest ++ more) → Takes own front takings rest }
{}

/// Proves that the cuts of a stream don't matter. Feed it in any pieces, empty ones too, and take
/// every whole item before the first piece, between any two and behind the last. The items, the
/// side and the bytes left are then those of the whole stream fed at once (`whole`). One stream
/// has only one such result (`once`).
pub fn fed_in_pieces()
    ensures whole { (own : Identity) (word : ℕ) (side : Side) (kept : List ℕ) (pieces : List (List ℕ)) (arrivals : List Arrival) (end : Side) (rest : List ℕ) → GivesInPieces own word side kept pieces arrivals end rest → GivesAll own word side (kept ++ concat pieces) arrivals end rest }
    ensures once { (own : Identity) (word : ℕ) (side : Side) (stream : List ℕ) (arrivals others : List Arrival) (end last : Side) (rest left : List ℕ) → AreBytes stream → GivesAll own word side stream arrivals end rest → GivesAll own word side stream others last left → (others ≡ arrivals) × (last ≡ end) × (left ≡ rest) }
{
    conn_core::one_arrival();
}
