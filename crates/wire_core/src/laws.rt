//! The laws of items in pieces. Each function does nothing: its contract is the law.
ghost use Rattle.wire_core.specs.Gathering.{FrontIsNeeded, FrontIsTold, FrontStays, IsCutBehind, IsWholeByFront};

/// Proves that the bytes at the front of an item tell how many it has, whatever follows. More bytes tell the
/// same. Nothing is told by fewer than two, by fewer than four where these two make 0 or 1, or by fewer than
/// five where they make 2 to 16.
#[tactic(auto, using(crate::proofs::Fronts::front_is_told, crate::proofs::Fronts::front_stays, crate::proofs::Fronts::front_is_needed))]
pub fn front_is_told()
    ensures told { FrontIsTold }
    ensures stays { FrontStays }
    ensures needed { FrontIsNeeded }
{}

/// By that length what was cut from items is put together again as it was: behind the items that were put
/// together stands what is cut from the others, and it is an item once it is as long as it says.
#[tactic(auto, using(crate::proofs::WholeItems::cut_behind, crate::proofs::WholeItems::whole_item))]
pub fn pieces_are_gathered()
    ensures behind { IsCutBehind }
    ensures whole { IsWholeByFront }
{}
