//! The slots of entries, in three orders.
ghost use Rattle.std.specs.Prelude.{◌≡◌, ◌≤◌, ◌+◌, ◌-◌, ℕ, IfOk, IsSome, OnOk, []};
ghost use Rattle.std.specs.Option.{option_copied};
ghost use Rattle.monitor_core.specs.Slots.{IsAlone, held_at, holds, holds_but};
ghost use Rattle.monitor_core.specs.Sought.{IsNext, meets};
ghost use Rattle.monitor_core.specs.Trees.{AreTrees, HaveRoom, IsTree, tree_of};

use crate::kept::Kept;
use crate::orders::{By, Sought};
use crate::slots::Slots;
use erl_term::Reference;
use sorted_map::IndexTree;
use std::alloc::{AllocError, Global};

/// The slots that hold entries, in three orders.
#[derive(Drop)]
pub(crate) struct Trees {
    /// By the reference.
    pub(crate) by_reference: IndexTree,
    /// By the process by which an entry is found.
    pub(crate) by_process: IndexTree,
    /// By the name of the node by which an entry is found.
    pub(crate) by_node: IndexTree,
}

impl By {
    // Inserts `slot`, which holds an entry now, among the others in this order.
    fn insert<M: Kept>(self, tree: &mut IndexTree, slots: &Slots<M>, slot: u32)
        requires room { 1 ≤ tree.old.room }
        requires alone { IsAlone slots.now.slots }
        requires held { IsSome (held_at slots.now.slots slot) }
        requires tree { IsTree M.process_of M.node_of self slots.now.slots (holds_but slots.now.slots slot) tree.old.slots }
        ensures tree { IsTree M.process_of M.node_of self slots.now.slots (holds slots.now.slots) tree.new.slots }
        ensures room { tree.old.room ≤ tree.new.room + 1 }
    {
        tree.insert(slot, |other| self.order(slots, other, slot));
    }

    // Removes `slot`, which still holds its entry, from the others.
    fn remove<M: Kept>(self, tree: &mut IndexTree, slots: &Slots<M>, slot: u32)
        requires alone { IsAlone slots.now.slots }
        requires held { IsSome (held_at slots.now.slots slot) }
        requires tree { IsTree M.process_of M.node_of self slots.now.slots (holds slots.now.slots) tree.old.slots }
        ensures tree { IsTree M.process_of M.node_of self slots.now.slots (holds_but slots.now.slots slot) tree.new.slots }
        ensures room { tree.old.room ≤ tree.new.room }
    {
        tree.remove(|other| self.order(slots, other, slot));
    }
}

impl Trees {
    /// Returns no slots. Never allocates.
    pub(crate) fn new(alloc: Global) -> Trees
        ensures references { result.by_reference.slots ≡ [] }
        ensures processes { result.by_process.slots ≡ [] }
        ensures nodes { result.by_node.slots ≡ [] }
    {
        Trees {
            by_reference: IndexTree::new(alloc),
            by_process: IndexTree::new(alloc),
            by_node: IndexTree::new(alloc),
        }
    }

    /// Returns a copy with the same slots in each order.
    ///
    /// # Errors
    /// If memory runs out.
    pub(crate) fn copy(&self, alloc: Global) -> Result<Trees, AllocError>
        ensures references { IfOk result (λ copy. copy.by_reference.slots ≡ self.now.by_reference.slots) }
        ensures processes { IfOk result (λ copy. copy.by_process.slots ≡ self.now.by_process.slots) }
        ensures nodes { IfOk result (λ copy. copy.by_node.slots ≡ self.now.by_node.slots) }
    {
        Ok(Trees {
            by_reference: self.by_reference.copy(alloc)?,
            by_process: self.by_process.copy(alloc)?,
            by_node: self.by_node.copy(alloc)?,
        })
    }

    /// Reserves memory for `additional` further slots.
    ///
    /// # Errors
    /// If memory runs out. On error no slot changes.
    pub(crate) fn reserve(&mut self, additional: usize) -> Result<(), AllocError>
        ensures references { self.new.by_reference.slots ≡ self.old.by_reference.slots }
        ensures processes { self.new.by_process.slots ≡ self.old.by_process.slots }
        ensures nodes { self.new.by_node.slots ≡ self.old.by_node.slots }
        ensures room { OnOk result (HaveRoom additional self.new) }
        ensures kept { (room : ℕ) → HaveRoom room self.old → HaveRoom room self.new }
    {
        self.by_reference.reserve(additional)?;
        self.by_process.reserve(additional)?;
        self.by_node.reserve(additional)
    }

    /// Inserts `slot`, which holds an entry now, among the others.
    pub(crate) fn insert<M: Kept>(&mut self, slots: &Slots<M>, slot: u32)
        requires room { HaveRoom 1 self.old }
        requires alone { IsAlone slots.now.slots }
        requires held { IsSome (held_at slots.now.slots slot) }
        requires others { AreTrees M.process_of M.node_of slots.now.slots (holds_but slots.now.slots slot) self.old }
        ensures all { AreTrees M.process_of M.node_of slots.now.slots (holds slots.now.slots) self.new }
        ensures room { (room : ℕ) → HaveRoom room self.old → HaveRoom (room - 1) self.new }
    {
        By::References.insert(&mut self.by_reference, slots, slot);
        By::Processes.insert(&mut self.by_process, slots, slot);
        By::Nodes.insert(&mut self.by_node, slots, slot);
    }

    /// Removes `slot`, which still holds its entry, from the others.
    pub(crate) fn remove<M: Kept>(&mut self, slots: &Slots<M>, slot: u32)
        requires alone { IsAlone slots.now.slots }
        requires held { IsSome (held_at slots.now.slots slot) }
        requires all { AreTrees M.process_of M.node_of slots.now.slots (holds slots.now.slots) self.old }
        ensures others { AreTrees M.process_of M.node_of slots.now.slots (holds_but slots.now.slots slot) self.new }
        ensures room { (room : ℕ) → HaveRoom room self.old → HaveRoom room self.new }
    {
        By::References.remove(&mut self.by_reference, slots, slot);
        By::Processes.remove(&mut self.by_process, slots, slot);
        By::Nodes.remove(&mut self.by_node, slots, slot);
    }

    // Returns the slots in the order in which the entries that are sought lie beside one another.
    fn tree(&self, sought: &Sought<'_>) -> &IndexTree
        ensures { result.now ≡ tree_of sought.now self.now }
    {
        match sought {
            Sought::Named(_) => &self.by_reference,
            Sought::OfProcess(_) => &self.by_process,
            Sought::OnNode(_) => &self.by_node,
        }
    }

    /// Returns the slot of the least reference of the entries that are sought. If `behind` is a reference,
    /// only greater ones count. Never allocates.
    pub(crate) fn next<M: Kept>(
        &self,
        slots: &Slots<M>,
        sought: &Sought<'_>,
        behind: Option<&Reference>,
    ) -> Option<u32>
        requires { AreTrees M.process_of M.node_of slots.now.slots (holds slots.now.slots) self.now }
        ensures { IsNext (meets M.process_of M.node_of sought.now (option_copied behind.entry)) slots.now.slots result }
    {
        let found = self
            .tree(sought)
            .first_not_less(|slot| sought.place(behind, slots, slot))?;
        let entry = slots.get(found)?;
        let is_met = sought.is_met(behind, entry);
        if is_met { Some(found) } else { None }
    }
}
