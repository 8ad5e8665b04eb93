//! The callers of a node, and the receipts of their acts.
ghost use Rattle.std.specs.Prelude.{◌≡◌, ◌↔◌, ◌≤◌, ◌++◌, ◌∷◌, IsTrue, OnOk, [], max};
ghost use Rattle.std.specs.Option.{option_copied};
ghost use Rattle.node_lock.specs.Seats.{IsBehind, IsEnteredAs, LastIsEntered, Rise, last_of};

use node_core::NodeEvent;
use node_history::{Answered, Entry, is_act, is_same_answer, is_same_event};
use std::alloc::{AllocError, Global};
use std::marker::Model;

/// The place of an act's entry, and the node's answer.
#[derive(Debug, Drop)]
pub struct Receipt {
    /// The place of the node among all nodes, from 0.
    pub node: usize,
    /// The place of the entry in the node's history, from 0.
    pub position: usize,
    /// The stamp of the entry, from 1.
    pub stamp: u64,
    /// The node's answer.
    pub answer: Answered,
}

/// An act of a caller, beside its receipt.
#[derive(Debug, Drop)]
pub struct Asked {
    /// The act, as the event at the node.
    pub event: NodeEvent,
    /// Its receipt.
    pub receipt: Receipt,
}

/// The receipts of a seat, the first one first. The type keeps that each is behind the one before it:
/// its entry has a greater place in the history of the node, and a greater stamp. Contracts see them,
/// and the room: the number of receipts that can come without memory.
#[derive(Drop)]
pub struct Receipts {
    asked: Vec<Asked>,
}

impl Model for Receipts {
    ghost use Rattle.std.specs.Prelude.{◌-◌};
    ghost use Rattle.std.specs.Vec.{vec_capacity, vec_len};
    ghost use Rattle.node_lock.specs.Seats.{ReceiptsSeen, receipts_code};
    ghost use Rattle.node_lock.specs.contracts.seat.Asked as an_asked;

    ghost Value = { ReceiptsSeen };

    ghost coded = { receipts_code an_asked.the_row.coded };

    ghost view = { λ r. record { items = r.asked.items; room = vec_capacity r.asked - vec_len r.asked } };

    ghost use Rattle.node_lock.specs.Seats.{Rise};

    ghost invariant = { λ r. Rise r.asked.items };
}

impl Receipts {
    // No receipts. Allocates nothing.
    fn new(alloc: Global) -> Receipts
        ensures { result.items ≡ [] }
    {
        Receipts {
            asked: Vec::new(alloc),
        }
    }

    /// Reserves capacity for one receipt more.
    ///
    /// # Errors
    /// Out of memory. On error nothing changes.
    pub(crate) fn reserve(&mut self) -> Result<(), AllocError>
        ensures items { self.new.items ≡ self.old.items }
        ensures room { OnOk result (1 ≤ self.new.room) }
    {
        self.asked.reserve(1)
    }

    /// Appends a receipt that is behind the last one.
    pub(crate) fn push(&mut self, asked: Asked)
        requires room { 1 ≤ self.old.room }
        requires behind { IsBehind (last_of self.old.items) asked }
        ensures { self.new.items ≡ self.old.items ++ asked ∷ [] }
    {
        self.asked.push_reserved(asked);
    }

    pub(crate) fn as_slice(&self) -> &[Asked]
        ensures items { result.now ≡ self.now.items }
        ensures rise { Rise result.now }
    {
        self.asked.as_slice()
    }
}

/// A caller of one node: the place of the node among all nodes, its receipts, and the stamp behind which the
/// entries of its next acts come.
#[derive(Drop)]
pub struct Seat {
    pub(crate) node: usize,
    pub(crate) receipts: Receipts,
    pub(crate) above: u64,
}

impl Seat {
    /// Returns a seat at the node of a place, without receipts. Allocates nothing.
    pub fn new(alloc: Global, node: usize) -> Seat
        ensures node { result.node ≡ node }
        ensures receipts { result.receipts.items ≡ [] }
        ensures above { result.above ≡ 0 }
    {
        Seat {
            node,
            receipts: Receipts::new(alloc),
            above: 0,
        }
    }

    /// Returns the place of the node.
    pub fn node(&self) -> usize
        ensures { result ≡ self.now.node }
    {
        self.node
    }

    /// Follows a stamp: the entries of the next acts come behind it. A caller of several nodes follows with each
    /// seat the stamps of the receipts that it has seen. Then its acts stand in the merged run in the order in
    /// which it called.
    pub fn follow(&mut self, stamp: u64)
        ensures node { self.new.node ≡ self.old.node }
        ensures receipts { self.new.receipts.items ≡ self.old.receipts.items }
        ensures above { self.new.above ≡ max self.old.above stamp }
    {
        if self.above < stamp {
            self.above = stamp;
        }
    }

    /// Returns the receipts with their acts, the first one first. Each is behind the one before it in
    /// place and stamp.
    pub fn receipts(&self) -> &[Asked]
        ensures items { result.now ≡ self.now.receipts.items }
        ensures rise { Rise result.now }
    {
        self.receipts.as_slice()
    }

    /// Returns the last receipt with its act.
    pub fn last(&self) -> Option<&Asked>
        ensures { option_copied result ≡ last_of self.now.receipts.items }
    {
        self.receipts.as_slice().last()
    }
}

/// Returns true if an entry is that of a receipt: it has its stamp, its act's event and its answer.
pub fn stands_as(asked: &Asked, entry: Option<&Entry>) -> bool
    ensures { IsTrue result ↔ IsEnteredAs asked.now (option_copied entry.entry) }
{
    match entry {
        Some(entry) => {
            entry.stamp == asked.receipt.stamp
                && is_act(&entry.event)
                && is_same_event(&entry.event, &asked.event)
                && is_same_answer(&entry.answer, &asked.receipt.answer)
        }
        None => false,
    }
}

/// Returns true if the last receipt of a seat stands at its place in a history.
pub(crate) fn last_stands(receipts: &[Asked], entries: &[Entry]) -> bool
    ensures { IsTrue result ↔ LastIsEntered (last_of receipts.now) entries.now }
{
    match receipts.last() {
        Some(asked) => stands_as(asked, entries.get(asked.receipt.position)),
        None => true,
    }
}
