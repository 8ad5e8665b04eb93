//! The gates of the tests.

use crate::ground::ENOUGH;
use cluster_run::Gate;
use std::alloc::Global;
use std::sync::Arc;
use std::sync::atomic::{AtomicBool, AtomicU64, Ordering};
use std::thread;

/// The number of turns for which the first node's thread stays inside at most.
const TURNS: u64 = 1_000_000;

/// A step of the first node, during which the second node is called and goes on.
#[derive(Drop)]
pub struct Meeting {
    is_inside: AtomicBool,
    have_met: AtomicBool,
    // The length of the second node's history right after its call, and 2^64 - 1 before that.
    called: AtomicU64,
    // The length of it when the second node's thread came last to the gate.
    entered: AtomicU64,
}

impl Meeting {
    pub fn new() -> Meeting {
        Meeting {
            is_inside: AtomicBool::new(false),
            have_met: AtomicBool::new(false),
            called: AtomicU64::new(u64::MAX),
            entered: AtomicU64::new(0),
        }
    }

    /// Waits until the first node's thread is inside. Returns false if it does not come.
    pub fn is_inside_soon(&self) -> bool {
        becomes(&self.is_inside)
    }

    /// Tells that a call of the second node was answered, and left its history with this length.
    pub fn was_called(&self, entries: u64) {
        self.called.store(entries, Ordering::SeqCst);
    }

    /// Returns true if the second node went on while the first node's thread was inside.
    pub fn have_met(&self) -> bool {
        self.have_met.load(Ordering::SeqCst)
    }

    // Stays inside, the first time, until the second node has gone on.
    fn first_enters(&self) {
        if self.is_inside.swap(true, Ordering::SeqCst) {
            return;
        }
        for _ in 0..TURNS {
            if self.entered.load(Ordering::SeqCst) > self.called.load(Ordering::SeqCst) {
                self.have_met.store(true, Ordering::SeqCst);
                return;
            }
            thread::yield_now();
        }
    }
}

/// Waits until a flag is set. Returns false if it is not set in time.
pub fn becomes(flag: &AtomicBool) -> bool {
    for _ in 0..ENOUGH {
        if flag.load(Ordering::SeqCst) {
            return true;
        }
        thread::yield_now();
    }
    false
}

/// A gate of two nodes that stand in a meeting.
#[derive(Drop)]
pub struct Meet {
    pub meeting: Arc<Meeting, Global>,
}

impl Gate for Meet {
    fn inside(&self, node: usize, entries: u64) {
        if node == 0 {
            self.meeting.first_enters();
        } else {
            self.meeting.entered.store(entries, Ordering::SeqCst);
        }
    }
}

/// A gate that sets the length of the pieces on the wires.
#[derive(Clone, Copy, Debug, Drop)]
pub struct Pieces {
    /// The greatest length, in bytes.
    pub greatest: usize,
}

/// Pieces as long as they may be.
pub const LONG_PIECES: Pieces = Pieces { greatest: 512 };

impl Gate for Pieces {
    fn inside(&self, _node: usize, _entries: u64) {}

    fn greatest_piece(&self) -> usize {
        self.greatest
    }
}

/// A gate that tells when it is dropped: the last thread of its cluster has ended then.
pub struct Leaving {
    pub has_left: Arc<AtomicBool, Global>,
}

impl Drop for Leaving {
    fn drop(self) {
        let Leaving { has_left } = self;
        has_left.store(true, Ordering::SeqCst);
        drop(has_left);
    }
}

impl Gate for Leaving {
    fn inside(&self, _node: usize, _entries: u64) {}
}
