//! The monitors that the processes of a node own.

ghost use Rattle.std.specs.Prelude.{◌≡◌, ◌↔◌, ◌≤◌, ◌+◌, IfOk, IsTrue, OnOk, OnErr, IsOk, ◌&&◌, None, Some};
ghost use Rattle.std.specs.Bool.{OnFalse};
ghost use Rattle.std.specs.Option.{option_copied};
ghost use Rattle.std.specs.Ordering.{nat_cmp, eq_by_cmp};
ghost use Rattle.std.specs.Cmp.Lexicographic.{slice_cmp};
ghost use Rattle.std.specs.FinMap as map;
ghost use Rattle.std.specs.List.{last_or};
ghost use Rattle.erl_term.specs.Order.{pid_cmp};
ghost use Rattle.sorted_map.specs.Entries.{first_where};
ghost use Rattle.monitor_core.specs.Left.{without_owner};
ghost use Rattle.monitor_core.specs.Monitors.{itself, target_node};
ghost use Rattle.monitor_core.specs.Runs.{Adds, Removes, Ends, takes, called};
ghost use Rattle.monitor_core.specs.Sought.{is_behind};

use crate::monitor::Watch;
use crate::monitors::Monitors;
use crate::orders::Sought;
use erl_term::{Atom, Pid, Reference};
use std::alloc::{AllocError, Global};
use std::marker::Model;

/// The monitors that processes of this node own, by reference. Contracts see the finite map from
/// references to watches, in the order of references. They also see the room: the number of references
/// that it can still insert without memory. (Reference Manual, Processes, Monitors.)
#[derive(Drop)]
pub struct Watches {
    monitors: Monitors<Watch>,
}

impl Model for Watches {
    ghost use Rattle.monitor_core.specs.Monitors.{HeldWatches, held_code};
    ghost use Rattle.erl_term.specs.contracts.term.Reference as reference;
    ghost use Rattle.monitor_core.specs.contracts.monitor.Watch as watch;

    ghost Value = { HeldWatches };

    ghost coded = { held_code reference.the_row.coded watch.the_row.coded };

    ghost view = { λ a. record { monitors = a.monitors.monitors; room = a.monitors.room } };
}

impl Watches {
    /// Returns a table with no monitors. Never allocates.
    pub fn new(alloc: Global) -> Watches
        ensures { result.monitors ≡ map.empty }
    {
        Watches {
            monitors: Monitors::new(alloc),
        }
    }

    /// Returns a copy with the same monitors, and no room. Takes about as many steps as there are monitors.
    ///
    /// # Errors
    /// If memory runs out.
    pub fn copy(&self, alloc: Global) -> Result<Watches, AllocError>
        ensures { IfOk result (λ copy. copy.monitors ≡ self.now.monitors) }
    {
        Ok(Watches {
            monitors: self.monitors.copy(alloc)?,
        })
    }

    /// Returns the watch of `reference`. Never allocates. Takes about as many steps as the logarithm of the
    /// number of monitors.
    pub fn get(&self, reference: &Reference) -> Option<&Watch>
        ensures { option_copied result ≡ map.get self.now.monitors reference.now }
    {
        self.monitors.get(reference)
    }

    /// Reserves memory for `additional` further monitors: that many calls of [`add`](Watches::add) can't be
    /// refused afterwards.
    ///
    /// # Errors
    /// If memory runs out, or the monitors would be more than 2^32. On error nothing changes.
    pub fn reserve(&mut self, additional: usize) -> Result<(), AllocError>
        ensures monitors { self.new.monitors ≡ self.old.monitors }
        ensures room { OnOk result (additional ≤ self.new.room) }
        ensures kept { self.old.room ≤ self.new.room }
        ensures err { OnErr result (self.new ≡ self.old) }
        ensures succeeds { additional ≤ self.old.room → IsOk result }
    {
        self.monitors.reserve(additional)
    }

    /// Inserts the monitor that a process of this node owns, under a reference that the node has drawn for it.
    /// A reference that has a monitor keeps it; since the node draws each reference once, none has.
    /// (Reference Manual, Processes, Monitors; ERTS User's Guide, Distribution Protocol, MONITOR_P.)
    ///
    /// # Errors
    /// If the reference is new, and [`reserve`](Watches::reserve) fails. On error nothing changes.
    pub fn add(&mut self, reference: Reference, watch: Watch) -> Result<(), AllocError>
        ensures monitors { OnOk result (self.new.monitors ≡ called itself self.old.monitors (Adds reference watch)) }
        ensures room { self.old.room ≤ self.new.room + 1 }
        ensures err { OnErr result (self.new ≡ self.old) }
        ensures only_new { OnErr result (map.get self.old.monitors reference ≡ None) }
        ensures succeeds { 1 ≤ self.old.room → IsOk result }
    {
        self.monitors.add(reference, watch)
    }

    /// Removes the monitor of `reference`, and returns true if there was one. Never allocates.
    /// (Reference Manual, Processes, Monitors; ERTS User's Guide, Distribution Protocol, DEMONITOR_P.)
    pub fn remove(&mut self, reference: &Reference) -> bool
        ensures answer { result ≡ takes itself self.old.monitors (Removes reference.now) }
        ensures monitors { self.new.monitors ≡ called itself self.old.monitors (Removes reference.now) }
        ensures room { self.old.room ≤ self.new.room }
        ensures unchanged { OnFalse result (self.new.monitors ≡ self.old.monitors) }
    {
        self.monitors.remove(reference)
    }

    /// Removes the monitor for which MONITOR_P_EXIT came: the target has ended, or there was no such
    /// process. Returns true exactly if `reference` has a monitor of the owner and the target of `watch`.
    /// Compares pids whole, and names and nodes byte by byte. Never allocates. (ERTS User's Guide,
    /// Distribution Protocol, MONITOR_P_EXIT.)
    pub fn on_down(&mut self, reference: &Reference, watch: &Watch) -> bool
        ensures answer { result ≡ takes itself self.old.monitors (Ends reference.now watch.now) }
        ensures together { IsTrue result ↔ (map.get self.old.monitors reference.now ≡ Some watch.now) }
        ensures monitors { self.new.monitors ≡ called itself self.old.monitors (Ends reference.now watch.now) }
        ensures room { self.old.room ≤ self.new.room }
        ensures unchanged { OnFalse result (self.new.monitors ≡ self.old.monitors) }
    {
        self.monitors.end(reference, watch)
    }

    /// Removes all monitors of an owner, which has ended, one after the other. Each takes about as many
    /// steps as the logarithm of the number of monitors. Never allocates. (Reference Manual, Processes,
    /// Monitors; ERTS User's Guide, Distribution Protocol, DEMONITOR_P.)
    pub fn remove_owned_by(&mut self, owner: &Pid)
        ensures monitors { self.new.monitors ≡ without_owner self.old.monitors owner.now }
        ensures room { self.old.room ≤ self.new.room }
    {
        self.monitors.remove_of(owner);
    }

    /// Returns the monitor of the least reference that `owner` owns. Never allocates. Takes about as many steps
    /// as the logarithm of the number of monitors. (Reference Manual, Processes, Monitors; ERTS User's
    /// Guide, Distribution Protocol, DEMONITOR_P.)
    pub fn first_owned_by(&self, owner: &Pid) -> Option<&(Reference, Watch)>
        ensures { option_copied result ≡ first_where (λ reference watch. eq_by_cmp pid_cmp watch.owner owner.now) (map.entries self.now.monitors) }
    {
        self.next_owned_by(owner, None)
    }

    /// Returns the monitor of the least reference that `owner` owns. If `behind` is a reference, only greater
    /// ones count. Never allocates. Takes about as many steps as the logarithm of the number of monitors.
    /// (Reference Manual, Processes, Monitors; ERTS User's Guide, Distribution Protocol, DEMONITOR_P.)
    pub fn next_owned_by(
        &self,
        owner: &Pid,
        behind: Option<&Reference>,
    ) -> Option<&(Reference, Watch)>
        ensures { option_copied result ≡ first_where (λ reference watch. is_behind (option_copied behind.entry) reference && eq_by_cmp pid_cmp watch.owner owner.now) (map.entries self.now.monitors) }
    {
        self.monitors.next(&Sought::OfProcess(owner), behind)
    }

    /// Returns the monitor of the least reference of those whose target is on the node of the name `node`.
    /// Never allocates. Takes about as many steps as the logarithm of the number of monitors. (Reference
    /// Manual, Processes, Monitors.)
    pub fn first_towards(&self, node: &Atom) -> Option<&(Reference, Watch)>
        ensures { option_copied result ≡ first_where (λ reference watch. eq_by_cmp (slice_cmp nat_cmp) (target_node watch.target) node.now) (map.entries self.now.monitors) }
    {
        self.next_towards(node, None)
    }

    /// Returns the monitor of the least reference of those whose target is on the node of the name `node`. If
    /// `behind` is a reference, only greater ones count. Never allocates. Takes about as many steps as the
    /// logarithm of the number of monitors. (Reference Manual, Processes, Monitors.)
    pub fn next_towards(
        &self,
        node: &Atom,
        behind: Option<&Reference>,
    ) -> Option<&(Reference, Watch)>
        ensures { option_copied result ≡ first_where (λ reference watch. is_behind (option_copied behind.entry) reference && eq_by_cmp (slice_cmp nat_cmp) (target_node watch.target) node.now) (map.entries self.now.monitors) }
    {
        self.monitors.next(&Sought::OnNode(node), behind)
    }

    /// Returns the monitor of the greatest reference, and its reference. Never allocates.
    pub fn last(&self) -> Option<&(Reference, Watch)>
        ensures { option_copied result ≡ last_or None (map.entries self.now.monitors) }
    {
        self.monitors.last()
    }
}
