//! The test that a cluster has come to rest.

use crate::desk::{Desk, Shared};
use std::sync::Wait;
use std::sync::atomic::Ordering;

/// The outcome of waiting for a cluster to come to rest.
#[derive(Clone, Copy, Debug, Drop, PartialEq, Eq)]
pub enum Settled {
    /// No thread has anything to do, and no call is in progress.
    Settled,
    /// A thread still had something to do when the turns were used up.
    StillBusy,
}

/// The state of desks in one look.
#[derive(Clone, Copy, Debug, Drop, PartialEq, Eq)]
pub(crate) struct Found {
    /// The number of times that nodes were rung, modulo 2^64.
    pub(crate) rings: u64,
    /// A call is in progress, or a node was rung since a turn last found nothing to do.
    pub(crate) is_busy: bool,
}

impl Found {
    /// Looks at the counts of a desk. Reads the count of idle rings first: a ring between both reads leaves
    /// the desk busy.
    pub(crate) fn of(desk: &Desk) -> Found {
        let calls = desk.calls.load(Ordering::SeqCst);
        let idle = desk.idle.load(Ordering::SeqCst);
        let rings = desk.rings.load(Ordering::SeqCst);
        Found {
            rings,
            is_busy: calls != 0 || idle != rings,
        }
    }
}

// Looks at a desk between two turns. A desk that is busy in the midst of a turn needs no lock.
fn look_at<R: Wait>(rt: &R, desk: &Desk) -> Found {
    let found = Found::of(desk);
    if found.is_busy {
        return found;
    }
    let guard = desk.book.lock(rt);
    let found = Found::of(desk);
    drop(guard);
    found
}

/// Looks at the desks up to the first that is busy, and changes nothing.
///
/// Two looks that find no desk busy, and as many rings, mean that at one moment between them there was
/// nothing to do: a node that was rung counts as busy until a turn has found nothing to do.
pub(crate) fn look<R: Wait, G>(rt: &R, shared: &Shared<G>) -> Found {
    let mut rings = 0u64;
    for desk in &shared.desks {
        let found = look_at(rt, desk);
        if found.is_busy {
            return found;
        }
        rings = rings.wrapping_add(found.rings);
    }
    Found {
        rings,
        is_busy: false,
    }
}

/// Looks until two looks in a row find no desk busy, and as many rings, at most `max_looks` times.
pub(crate) fn wait<R: Wait, G>(rt: &R, shared: &Shared<G>, max_looks: u64) -> Settled {
    let mut last = None;
    for _ in 0..max_looks {
        // Read first: a node that comes to rest during the look ends the wait.
        let rests = shared.rests.load(Ordering::SeqCst);
        let found = look(rt, shared);
        if found.is_busy {
            shared.wait_for_rest(rt, rests);
        } else if last == Some(found) {
            return Settled::Settled;
        }
        last = Some(found);
    }
    Settled::StillBusy
}
