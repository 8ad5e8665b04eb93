//! Monitors by reference.

ghost use Rattle.std.specs.Prelude.{◌≡◌, ◌↔◌, ◌≤◌, ◌+◌, ◌-◌, ℕ, IfOk, IsTrue, IsSome, OnOk, OnErr, IsOk, None, Some};
ghost use Rattle.std.specs.Bool.{OnFalse};
ghost use Rattle.std.specs.List.{last_or};
ghost use Rattle.std.specs.Option.{option_copied, option_map};
ghost use Rattle.std.specs.Ordering.{eq_by_cmp};
ghost use Rattle.std.specs.FinMap as map;
ghost use Rattle.sorted_map.specs.Entries.{first_where};
ghost use Rattle.erl_term.specs.Order.{pid_cmp};
ghost use Rattle.monitor_core.specs.Left.{IsFirstGone, without};
ghost use Rattle.monitor_core.specs.Monitors.{is_held};
ghost use Rattle.monitor_core.specs.Runs.{Adds, Removes, Ends, takes, called};
ghost use Rattle.monitor_core.specs.Slots.{Becomes, IsFresh, WasPut, held_at};
ghost use Rattle.monitor_core.specs.Sought.{meets};
ghost use Rattle.monitor_core.specs.Trees.{AreIndexed, HaveRoom};

use crate::kept::Kept;
use crate::monitor::Watch;
use crate::orders::Sought;
use crate::slots::Slots;
use crate::trees::Trees;
use erl_term::{Pid, Reference};
use std::alloc::{AllocError, Global};
use std::marker::Model;

/// Monitors by reference, found also by their [`process`](Kept::process) and by their
/// [`node`](Kept::node). Contracts see the finite map from references to monitors, in the order of
/// references. They also see the room: the number of references that it can still insert without memory.
#[derive(Drop)]
pub(crate) struct Monitors<M: Kept> {
    slots: Slots<M>,
    trees: Trees,
    // Each part has at least this room.
    room: usize,
}

impl<M: Kept> Model for Monitors<M> {
    ghost use Rattle.monitor_core.specs.Monitors.{Held, held_code};
    ghost use Rattle.monitor_core.specs.Slots.{map_of};
    ghost use Rattle.monitor_core.specs.Trees.{AreMonitors};
    ghost use Rattle.erl_term.specs.contracts.term.Reference as reference;

    ghost Value = { Held M };

    ghost coded = { held_code reference.the_row.coded M.code };

    ghost view = { λ a. record { monitors = map_of a.slots.slots; room = a.room } };

    ghost invariant = { λ a. AreMonitors M.process_of M.node_of a.slots a.trees a.room };
}

// Inserts an entry, whose reference has none. Never allocates.
fn put_in<M: Kept>(slots: &mut Slots<M>, trees: &mut Trees, reference: Reference, monitor: M)
    requires indexed { AreIndexed M.process_of M.node_of slots.old.slots trees.old }
    requires fresh { IsFresh slots.old.slots reference }
    requires slots { 1 ≤ slots.old.room }
    requires trees { HaveRoom 1 trees.old }
    ensures indexed { AreIndexed M.process_of M.node_of slots.new.slots trees.new }
    ensures put { WasPut slots.old.slots slots.new.slots (reference, monitor) }
    ensures slots { slots.old.room ≤ slots.new.room + 1 }
    ensures trees { (room : ℕ) → HaveRoom room trees.old → HaveRoom (room - 1) trees.new }
{
    let slot = slots.put(reference, monitor);
    trees.insert(slots, slot);
}

// Removes the entry of `slot`. Never allocates.
fn take_out<M: Kept>(slots: &mut Slots<M>, trees: &mut Trees, slot: u32)
    requires indexed { AreIndexed M.process_of M.node_of slots.old.slots trees.old }
    requires held { IsSome (held_at slots.old.slots slot) }
    ensures indexed { AreIndexed M.process_of M.node_of slots.new.slots trees.new }
    ensures taken { Becomes slots.old.slots slots.new.slots slot None }
    ensures slots { slots.old.room ≤ slots.new.room }
    ensures trees { (room : ℕ) → HaveRoom room trees.old → HaveRoom room trees.new }
{
    trees.remove(slots, slot);
    slots.take(slot);
}

impl<M: Kept> Monitors<M> {
    /// Returns a table with no monitors. Never allocates.
    pub(crate) fn new(alloc: Global) -> Monitors<M>
        ensures { result.monitors ≡ map.empty }
    {
        Monitors {
            slots: Slots::new(alloc),
            trees: Trees::new(alloc),
            room: 0,
        }
    }

    /// Returns a copy with the same monitors, and no room. A clone of a monitor is the monitor again. Takes
    /// as many steps as there are slots.
    ///
    /// # Errors
    /// If memory runs out.
    pub(crate) fn copy(&self, alloc: Global) -> Result<Monitors<M>, AllocError>
    where
        M: Clone,
        requires { (monitor clone : M) → M.is_clone monitor clone → clone ≡ monitor }
        ensures { IfOk result (λ copy. copy.monitors ≡ self.now.monitors) }
    {
        Ok(Monitors {
            slots: self.slots.copy(alloc)?,
            trees: self.trees.copy(alloc)?,
            room: 0,
        })
    }

    /// Returns the monitor of `reference`. Never allocates.
    pub(crate) fn get(&self, reference: &Reference) -> Option<&M>
        ensures { option_copied result ≡ map.get self.now.monitors reference.now }
    {
        let slot = self
            .trees
            .next(&self.slots, &Sought::Named(reference), None)?;
        let entry = self.slots.get(slot)?;
        Some(&entry.1)
    }

    /// Reserves memory for `additional` further references.
    ///
    /// # Errors
    /// If memory runs out, or the references would be more than 2^32. On error nothing changes.
    pub(crate) fn reserve(&mut self, additional: usize) -> Result<(), AllocError>
        ensures monitors { self.new.monitors ≡ self.old.monitors }
        ensures room { OnOk result (additional ≤ self.new.room) }
        ensures kept { self.old.room ≤ self.new.room }
        ensures err { OnErr result (self.new ≡ self.old) }
        ensures succeeds { additional ≤ self.old.room → IsOk result }
    {
        if additional <= self.room {
            return Ok(());
        }
        self.slots.reserve(additional)?;
        self.trees.reserve(additional)?;
        self.room = additional;
        Ok(())
    }

    /// Inserts a monitor. A reference that has one keeps it.
    ///
    /// # Errors
    /// If the reference is new, and [`reserve`](Monitors::reserve) fails. On error nothing changes.
    pub(crate) fn add(&mut self, reference: Reference, monitor: M) -> Result<(), AllocError>
        ensures monitors { OnOk result (self.new.monitors ≡ called M.seen_as self.old.monitors (Adds reference monitor)) }
        ensures room { self.old.room ≤ self.new.room + 1 }
        ensures err { OnErr result (self.new ≡ self.old) }
        ensures only_new { OnErr result (map.get self.old.monitors reference ≡ None) }
        ensures succeeds { 1 ≤ self.old.room → IsOk result }
    {
        if self.get(&reference).is_some() {
            return Ok(());
        }
        self.reserve(1)?;
        put_in(&mut self.slots, &mut self.trees, reference, monitor);
        self.room -= 1;
        Ok(())
    }

    /// Removes the monitor of `reference`, and returns true if there was one. Never allocates.
    pub(crate) fn remove(&mut self, reference: &Reference) -> bool
        ensures answer { result ≡ takes M.seen_as self.old.monitors (Removes reference.now) }
        ensures monitors { self.new.monitors ≡ called M.seen_as self.old.monitors (Removes reference.now) }
        ensures room { self.old.room ≤ self.new.room }
        ensures unchanged { OnFalse result (self.new.monitors ≡ self.old.monitors) }
    {
        let sought = Sought::Named(reference);
        let slot = match self.trees.next(&self.slots, &sought, None) {
            Some(slot) => slot,
            None => return false,
        };
        take_out(&mut self.slots, &mut self.trees, slot);
        true
    }

    /// Removes the monitor of `reference`, and returns true, if it has the owner and the target of
    /// `watch`. Never allocates.
    pub(crate) fn end(&mut self, reference: &Reference, watch: &Watch) -> bool
        ensures answer { result ≡ takes M.seen_as self.old.monitors (Ends reference.now watch.now) }
        ensures together { IsTrue result ↔ (option_map M.seen_as (map.get self.old.monitors reference.now) ≡ Some watch.now) }
        ensures monitors { self.new.monitors ≡ called M.seen_as self.old.monitors (Ends reference.now watch.now) }
        ensures room { self.old.room ≤ self.new.room }
        ensures unchanged { OnFalse result (self.new.monitors ≡ self.old.monitors) }
    {
        let ends = self.holds(reference, watch);
        if ends {
            self.remove(reference);
        }
        ends
    }

    /// Returns the entry of the least reference of those that are sought. If `behind` is a reference, only
    /// greater ones count. Never allocates.
    pub(crate) fn next(
        &self,
        sought: &Sought<'_>,
        behind: Option<&Reference>,
    ) -> Option<&(Reference, M)>
        ensures { option_copied result ≡ first_where (λ reference monitor. meets M.process_of M.node_of sought.now (option_copied behind.entry) (reference, monitor)) (map.entries self.now.monitors) }
    {
        let slot = self.trees.next(&self.slots, sought, behind)?;
        self.slots.get(slot)
    }

    /// Returns the entry of the greatest reference. Never allocates.
    pub(crate) fn last(&self) -> Option<&(Reference, M)>
        ensures { option_copied result ≡ last_or None (map.entries self.now.monitors) }
    {
        let slot = self.trees.by_reference.last()?;
        self.slots.get(slot)
    }

    // Removes the monitor of the least reference that is found by `process`, and returns true if there was one.
    fn remove_first_of(&mut self, process: &Pid) -> bool
        ensures monitors { IsFirstGone (first_where (λ reference monitor. eq_by_cmp pid_cmp (M.process_of monitor) process.now) (map.entries self.old.monitors)) self.old.monitors result self.new.monitors }
        ensures room { self.old.room ≤ self.new.room }
    {
        let sought = Sought::OfProcess(process);
        let slot = match self.trees.next(&self.slots, &sought, None) {
            Some(slot) => slot,
            None => return false,
        };
        take_out(&mut self.slots, &mut self.trees, slot);
        true
    }

    /// Removes the monitors that are found by `process`. Never allocates.
    pub(crate) fn remove_of(&mut self, process: &Pid)
        ensures monitors { self.new.monitors ≡ without M.process_of self.old.monitors process.now }
        ensures room { self.old.room ≤ self.new.room }
    {
        while self.remove_first_of(process) {}
    }

    // Returns true if the monitor of `reference` has the owner and the target of `watch`.
    fn holds(&self, reference: &Reference, watch: &Watch) -> bool
        ensures answer { result ≡ is_held M.seen_as self.now.monitors reference.now watch.now }
        ensures together { IsTrue result ↔ (option_map M.seen_as (map.get self.now.monitors reference.now) ≡ Some watch.now) }
    {
        match self.get(reference) {
            Some(held) => {
                held.owner().is_same(&watch.owner) && held.target().is_same(&watch.target)
            }
            None => false,
        }
    }
}
