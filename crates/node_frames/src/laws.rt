//! The laws: the bytes of an item tell its kind. Each function does nothing: its contract is the law.
ghost use Rattle.std.specs.Prelude.{◌≡◌, Some};
ghost use Rattle.dist_model.specs.Items.{Item, kind_of};
ghost use Rattle.node_frames.specs.Beginnings.{BeginningIsNeeded, BeginningIsTold, BeginningStays, ShortHasNo112};
ghost use Rattle.node_frames.specs.Kinds.{kind_in};
ghost use Rattle.node_frames.specs.Frames.{IsSpelled, bytes_of};

/// Proves that of each item that is sent, whatever follows it, the first bytes tell a message of the handshake
/// from a frame. More bytes tell the same, and fewer than are needed tell nothing. The fifth byte of a message
/// of 16 bytes or fewer, the two of its length counted, isn't 112, as that of a signal's frame is.
#[tactic(auto, using(crate::proofs::Beginnings::beginning_is_told, crate::proofs::Beginnings::beginning_stays, crate::proofs::Beginnings::beginning_is_needed, crate::proofs::Beginnings::short_has_no_112))]
pub fn beginning_is_told()
    ensures told { BeginningIsTold }
    ensures stays { BeginningStays }
    ensures needed { BeginningIsNeeded }
    ensures short { ShortHasNo112 }
{}

/// Of each item that is sent, be it a message of the handshake, a tick or a signal, its bytes tell its
/// kind.
pub fn kind_is_told()
    ensures { (item : Item) → IsSpelled item → kind_in (bytes_of item) ≡ Some (kind_of item) }
{}
