//! What a node's end of a connection is to its book. Each function does nothing: its contract is the law.
ghost use Rattle.wire_core.specs.Standing.{FetchShifts, FlushShifts, FreshStands};

/// A new port stands for one through which nothing went (`fresh`). Where a piece is put (`flush`), or one
/// is taken (`fetch`), it stands for a port that has shifted as a book's may between two entries: what was
/// put and then the outbox is what it was, and what was taken is in the slot behind what was there. In the
/// midst of a parcel nothing shifts.
#[tactic(auto, using(crate::proofs::SameItems::fresh_stands, crate::proofs::SameItems::flush_shifts, crate::proofs::SameItems::fetch_shifts))]
pub fn ports_shift()
    ensures fresh { FreshStands }
    ensures flush { FlushShifts }
    ensures fetch { FetchShifts }
{}
