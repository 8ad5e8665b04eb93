//! The state that the threads of all nodes share.

use crate::settling::Found;
use crate::worker::Worker;
use crossbeam_channel::Sender;
use erl_names::NodeName;
use node_frames::same_name;
use node_lock::Book;
use std::sync::atomic::{AtomicBool, AtomicU64, Ordering};
use std::sync::{Mutex, Wait};
use std::time::Duration;
use wire_core::Offer;

/// The longest time between two looks of a caller that waits for a cluster to come to rest, in microseconds.
const LONGEST_WAIT: u64 = 100;

/// The state of one node in a cluster: its book under its lock, its worker, its mailbox for the halves
/// of new connections, and the counts by which its thread is woken and watched.
#[derive(Drop)]
pub(crate) struct Desk {
    /// The book. The invariants of its type hold whenever a thread takes the lock. Nothing else is known then.
    /// No lock is over two nodes.
    pub(crate) book: Mutex<Book>,
    /// The worker. Whoever takes a turn for the node holds this lock, and takes the book's inside it.
    pub(crate) worker: Mutex<Worker>,
    pub(crate) box_for_offers: Sender<Offer>,
    /// The number of times that a turn found no memory.
    pub(crate) shortages: AtomicU64,
    /// The number of calls in progress.
    pub(crate) calls: AtomicU64,
    /// The number of times that the node was rung. Its thread rests on this word.
    pub(crate) rings: AtomicU64,
    /// The number of rings before the last turn that found nothing to do.
    pub(crate) idle: AtomicU64,
    /// The thread rests, or is about to.
    pub(crate) is_resting: AtomicBool,
    /// An item of the node waits for room on its wire.
    pub(crate) wants_room: AtomicBool,
    /// A node has put a piece on a wire to this one since a turn last looked.
    pub(crate) is_marked: AtomicBool,
    /// The nodes, by place, that have put a piece on a wire to this one since a turn last looked.
    pub(crate) marks: Vec<AtomicBool>,
}

impl Desk {
    /// Counts that there is something to do. Returns true if the thread rests: then the caller has to wake
    /// it, or to take the node's turns.
    pub(crate) fn count_ring(&self) -> bool {
        // Counted first: a thread that rests afterwards sees it, and one that rests already has said so.
        self.rings.fetch_add(1, Ordering::SeqCst);
        self.is_resting.load(Ordering::SeqCst)
    }

    /// Counts that there is something to do, and wakes the node's thread. A thread that is awake takes one
    /// turn more before it rests.
    pub(crate) fn ring(&self) {
        if self.count_ring() {
            self.rings.wake_one();
        }
    }

    /// Rests until the thread is woken, unless the node was rung since it had been rung so often. May return
    /// early.
    pub(crate) fn rest<R: Wait>(&self, rt: &R, rings: u64) {
        self.is_resting.store(true, Ordering::SeqCst);
        self.rings.park(rt, (rings & 0xFFFF_FFFF) as u32);
        self.is_resting.store(false, Ordering::SeqCst);
    }

    /// Returns true if a node has put a piece on a wire to this one since this was last asked.
    pub(crate) fn take_marked(&self) -> bool {
        // Taken back before the marks are looked at: a node that marks later sets it again.
        let is_marked = self.is_marked.load(Ordering::SeqCst);
        if is_marked {
            self.is_marked.store(false, Ordering::SeqCst);
        }
        is_marked
    }

    /// Returns true if the node at a place has put a piece on a wire to this one since this was last asked.
    pub(crate) fn take_mark(&self, from: usize) -> bool {
        match self.marks.get(from) {
            // Taken back before the wire is looked at: a piece that comes later marks again.
            Some(mark) if mark.load(Ordering::SeqCst) => {
                mark.store(false, Ordering::SeqCst);
                true
            }
            _ => false,
        }
    }
}

/// The state that the threads of all nodes share.
#[derive(Drop)]
pub(crate) struct Shared<G> {
    /// The names, by the places of the nodes.
    pub(crate) names: Vec<NodeName>,
    pub(crate) desks: Vec<Desk>,
    pub(crate) is_over: AtomicBool,
    /// The number of callers that wait for the cluster to come to rest.
    pub(crate) waiters: AtomicU64,
    /// The number of times that it may have come to rest while a caller waited. They wait on this word.
    pub(crate) rests: AtomicU64,
    pub(crate) gate: G,
}

impl<G> Shared<G> {
    /// Returns the place of the node of a name.
    pub(crate) fn place_of(&self, name: &NodeName) -> Option<usize> {
        self.names
            .iter()
            .position(|other| same_name(other.atom(), name.atom()))
    }

    /// Counts that the node at the place `from` has put a piece on a wire to another. Returns the other
    /// node's place where its thread rests.
    pub(crate) fn tell_piece(&self, node: usize, from: usize) -> Option<usize> {
        let desk = self.desks.get(node)?;
        if let Some(mark) = desk.marks.get(from) {
            mark.store(true, Ordering::SeqCst);
            desk.is_marked.store(true, Ordering::SeqCst);
        }
        if desk.count_ring() { Some(node) } else { None }
    }

    /// Counts that a piece was taken off the wire of a node that waits for room there. Returns the node's
    /// place where its thread rests.
    pub(crate) fn tell_room(&self, node: usize) -> Option<usize> {
        let desk = self.desks.get(node)?;
        if desk.wants_room.load(Ordering::SeqCst) && desk.count_ring() {
            Some(node)
        } else {
            None
        }
    }

    /// Wakes the thread of a node that was rung while it rested.
    pub(crate) fn wake(&self, node: Option<usize>) {
        if let Some(desk) = node.and_then(|place| self.desks.get(place)) {
            desk.rings.wake_one();
        }
    }

    /// Wakes the callers that wait for the cluster to come to rest, if no node is busy.
    pub(crate) fn tell_rest(&self) {
        if self.waiters.load(Ordering::SeqCst) == 0 {
            return;
        }
        if !self.desks.iter().any(|desk| Found::of(desk).is_busy) {
            self.rests.fetch_add(1, Ordering::SeqCst);
            self.rests.wake_all();
        }
    }

    /// Waits until the cluster may have come to rest once more than `rests` times, or for 100 microseconds.
    pub(crate) fn wait_for_rest<R: Wait>(&self, rt: &R, rests: u64) {
        let longest = Duration::from_micros(LONGEST_WAIT);
        self.rests
            .park_timeout(rt, (rests & 0xFFFF_FFFF) as u32, longest);
    }

    /// Tells all threads to end.
    pub(crate) fn end(&self) {
        self.is_over.store(true, Ordering::SeqCst);
        for desk in &self.desks {
            desk.ring();
        }
    }
}
