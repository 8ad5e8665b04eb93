//! Slot numbers in the order that the caller tells.

ghost use Rattle.std.specs.Prelude.{◌≡◌, ◌≤◌, ◌<◌, ◌^◌, ◌+◌, ℕ, [], IfOk, IsOk, OnOk, OnErr};
ghost use Rattle.std.specs.List.{last_or};
ghost use Rattle.std.specs.declared.cmp.Ordering.{Ordering as Order};
ghost use Rattle.sorted_map.specs.Indexed.{Answers, IsParted, first_not_less, with_slot, without_tied, first_tied};

use crate::nodes::{Blank, Node, Side, copied, first_from, inserted, last_within, removed};
use crate::spare::fill;
use std::alloc::{AllocError, Global};
use std::cmp::Ordering;
use std::marker::Model;

/// Slot numbers in the order that the caller tells, as a balanced tree. Each call takes a closure
/// that tells how a slot stands to the point that is sought. Contracts see the list of the slots,
/// and the room: the number of slots that may still come without memory. They don't see the speed.
#[derive(Drop)]
pub struct IndexTree {
    root: Side<u32>,
    spare: Vec<Box<Node<u32>>>,
}

impl Model for IndexTree {
    ghost use Rattle.std.specs.Vec.{vec_len};
    ghost use Rattle.sorted_map.specs.Indexed.{Indexed, indexed_code};
    ghost use Rattle.sorted_map.specs.Sides.{items_of};

    ghost Value = { Indexed };

    ghost coded = { indexed_code };

    ghost view = { λ a. record { slots = items_of a.root; room = vec_len a.spare } };
}

impl IndexTree {
    /// Returns a tree with no slots. Takes no memory.
    pub fn new(alloc: Global) -> IndexTree
        ensures { result.slots ≡ [] }
    {
        IndexTree {
            root: None,
            spare: Vec::new(alloc),
        }
    }

    /// Returns a copy with the same slots, and no room. Takes as many steps as there are slots.
    ///
    /// # Errors
    /// If memory runs out.
    pub fn copy(&self, alloc: Global) -> Result<IndexTree, AllocError>
        ensures { IfOk result (λ copy. copy.slots ≡ self.now.slots) }
    {
        Ok(IndexTree {
            root: copied(alloc, &self.root)?,
            spare: Vec::new(alloc),
        })
    }

    /// Returns the number of slots that may still come without memory.
    pub fn room(&self) -> usize
        ensures { result ≡ self.now.room }
    {
        self.spare.len()
    }

    /// Reserves room for so many slots: that many insertions need no memory afterwards.
    ///
    /// # Errors
    /// Where there is no memory for it. Then nothing has changed.
    pub fn reserve(&mut self, additional: usize) -> Result<(), AllocError>
        ensures slots { self.new.slots ≡ self.old.slots }
        ensures room { OnOk result (additional ≤ self.new.room) }
        ensures kept { self.old.room ≤ self.new.room }
        ensures succeeds { additional ≤ self.old.room → IsOk result }
        ensures err { OnErr result (self.new ≡ self.old) }
    {
        fill(&mut self.spare, additional)
    }

    /// Returns the first slot that isn't less than the point that is sought. Takes no memory.
    pub fn first_not_less<F: Fn(u32) -> Ordering>(&self, order_of: F) -> Option<u32>
        requires { F.IsAlwaysCallable order_of }
        ensures { (order : ℕ → Order) → Answers (F.post order_of) order → IsParted order self.now.slots → result ≡ first_not_less order self.now.slots }
    {
        let told = |slot: &u32| -> Ordering
            requires { F.IsAlwaysCallable order_of }
            ensures { (slot.now < 2 ^ 32) × F.post order_of slot.now result }
        {
            let slot = *slot;
            order_of(slot)
        };
        first_from(&self.root, &told).copied()
    }

    /// Inserts a slot before the first one that isn't less than its point. Takes one place of the
    /// room, and no memory.
    pub fn insert<F: Fn(u32) -> Ordering>(&mut self, slot: u32, order_of: F)
        requires room { 1 ≤ self.old.room }
        requires callable { F.IsAlwaysCallable order_of }
        ensures slots { (order : ℕ → Order) → Answers (F.post order_of) order → IsParted order self.old.slots → self.new.slots ≡ with_slot order slot self.old.slots }
        ensures room { self.old.room ≤ self.new.room + 1 }
    {
        let Some(memory) = self.spare.pop() else {
            unreachable!()
        };
        let root = self.root.take();
        self.root = Some(inserted(root, slot, memory, &|held: &u32, _: &u32| order_of(*held)));
    }

    /// Removes the first slot that ties with the point that is sought, and returns it. Takes no memory.
    pub fn remove<F: Fn(u32) -> Ordering>(&mut self, order_of: F) -> Option<u32>
        requires { F.IsAlwaysCallable order_of }
        ensures slots { (order : ℕ → Order) → Answers (F.post order_of) order → IsParted order self.old.slots → self.new.slots ≡ without_tied order self.old.slots }
        ensures removed { (order : ℕ → Order) → Answers (F.post order_of) order → IsParted order self.old.slots → result ≡ first_tied order self.old.slots }
        ensures room { self.old.room ≤ self.new.room }
    {
        let (root, found) = removed(self.root.take(), &|slot: &u32| order_of(*slot));
        self.root = root;
        found
    }

    /// Returns the last slot. Takes no memory.
    pub fn last(&self) -> Option<u32>
        ensures { result ≡ last_or None self.now.slots }
    {
        last_within(&self.root).copied()
    }
}

impl Blank for u32 {
    fn blank() -> u32 {
        0
    }
}
