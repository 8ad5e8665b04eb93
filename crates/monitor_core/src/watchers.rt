//! The monitors that others own, of the processes of a node.

ghost use Rattle.std.specs.Prelude.{◌≡◌, ◌↔◌, ◌≤◌, ◌+◌, IfOk, IsTrue, OnOk, OnErr, IsOk, ◌&&◌, None, Some};
ghost use Rattle.std.specs.Bool.{OnFalse};
ghost use Rattle.std.specs.Option.{option_copied, option_map};
ghost use Rattle.std.specs.Ordering.{nat_cmp, eq_by_cmp};
ghost use Rattle.std.specs.Cmp.Lexicographic.{slice_cmp};
ghost use Rattle.std.specs.FinMap as map;
ghost use Rattle.std.specs.List.{last_or};
ghost use Rattle.erl_term.specs.Order.{pid_cmp};
ghost use Rattle.sorted_map.specs.Entries.{first_where};
ghost use Rattle.monitor_core.specs.Left.{without_held};
ghost use Rattle.monitor_core.specs.Monitors.{as_watch};
ghost use Rattle.monitor_core.specs.Runs.{Adds, Removes, Ends, takes, called};
ghost use Rattle.monitor_core.specs.Sought.{is_behind};

use crate::monitor::{Registration, Watch};
use crate::monitors::Monitors;
use crate::orders::Sought;
use erl_term::{Atom, Pid, Reference};
use std::alloc::{AllocError, Global};
use std::marker::Model;

/// The monitors that others have of processes of this node, by reference. Contracts see the finite map
/// from references to registrations, in the order of references. They also see the room: the number of
/// references that it can still insert without memory. (ERTS User's Guide, Distribution Protocol,
/// MONITOR_P.)
#[derive(Drop)]
pub struct Watchers {
    monitors: Monitors<Registration>,
}

impl Model for Watchers {
    ghost use Rattle.monitor_core.specs.Monitors.{HeldRegistrations, held_code};
    ghost use Rattle.erl_term.specs.contracts.term.Reference as reference;
    ghost use Rattle.monitor_core.specs.contracts.monitor.Registration as registration;

    ghost Value = { HeldRegistrations };

    ghost coded = { held_code reference.the_row.coded registration.the_row.coded };

    ghost view = { λ a. record { monitors = a.monitors.monitors; room = a.monitors.room } };
}

impl Watchers {
    /// Returns a table with no monitors. Never allocates.
    pub fn new(alloc: Global) -> Watchers
        ensures { result.monitors ≡ map.empty }
    {
        Watchers {
            monitors: Monitors::new(alloc),
        }
    }

    /// Returns a copy with the same monitors, and no room. Takes about as many steps as there are monitors.
    ///
    /// # Errors
    /// If memory runs out.
    pub fn copy(&self, alloc: Global) -> Result<Watchers, AllocError>
        ensures { IfOk result (λ copy. copy.monitors ≡ self.now.monitors) }
    {
        Ok(Watchers {
            monitors: self.monitors.copy(alloc)?,
        })
    }

    /// Returns the registration of `reference`. Never allocates. Takes about as many steps as the logarithm of
    /// the number of monitors.
    pub fn get(&self, reference: &Reference) -> Option<&Registration>
        ensures { option_copied result ≡ map.get self.now.monitors reference.now }
    {
        self.monitors.get(reference)
    }

    /// Reserves memory for `additional` further monitors: that many calls of
    /// [`on_monitor`](Watchers::on_monitor) can't be refused afterwards.
    ///
    /// # Errors
    /// If memory runs out, or the monitors would be more than 2^32. On error nothing changes.
    pub fn reserve(&mut self, additional: usize) -> Result<(), AllocError>
        ensures monitors { self.new.monitors ≡ self.old.monitors }
        ensures room { OnOk result (additional ≤ self.new.room) }
        ensures kept { self.old.room ≤ self.new.room }
        ensures err { OnErr result (self.new ≡ self.old) }
        ensures succeeds { additional ≤ self.old.room → IsOk result }
    {
        self.monitors.reserve(additional)
    }

    /// Inserts the monitor for which MONITOR_P came, bound to a process of this node. A reference that has a
    /// monitor keeps it. (ERTS User's Guide, Distribution Protocol, MONITOR_P.)
    ///
    /// # Errors
    /// If the reference is new, and [`reserve`](Watchers::reserve) fails. On error nothing changes.
    pub fn on_monitor(
        &mut self,
        reference: Reference,
        registration: Registration,
    ) -> Result<(), AllocError>
        ensures monitors { OnOk result (self.new.monitors ≡ called as_watch self.old.monitors (Adds reference registration)) }
        ensures room { self.old.room ≤ self.new.room + 1 }
        ensures err { OnErr result (self.new ≡ self.old) }
        ensures only_new { OnErr result (map.get self.old.monitors reference ≡ None) }
        ensures succeeds { 1 ≤ self.old.room → IsOk result }
    {
        self.monitors.add(reference, registration)
    }

    /// Removes the monitor for which DEMONITOR_P came: its owner takes it back. Returns true exactly if
    /// `reference` has a monitor of the owner and the target of `watch`, whichever process is held.
    /// Compares pids whole, and names and nodes byte by byte. Never allocates. (ERTS User's Guide,
    /// Distribution Protocol, DEMONITOR_P.)
    pub fn on_demonitor(&mut self, reference: &Reference, watch: &Watch) -> bool
        ensures answer { result ≡ takes as_watch self.old.monitors (Ends reference.now watch.now) }
        ensures together { IsTrue result ↔ (option_map as_watch (map.get self.old.monitors reference.now) ≡ Some watch.now) }
        ensures monitors { self.new.monitors ≡ called as_watch self.old.monitors (Ends reference.now watch.now) }
        ensures room { self.old.room ≤ self.new.room }
        ensures unchanged { OnFalse result (self.new.monitors ≡ self.old.monitors) }
    {
        self.monitors.end(reference, watch)
    }

    /// Removes the monitor of `reference`, and returns true if there was one. Never allocates.
    /// (Reference Manual, Processes, Monitors; ERTS User's Guide, Distribution Protocol,
    /// MONITOR_P_EXIT.)
    pub fn remove(&mut self, reference: &Reference) -> bool
        ensures answer { result ≡ takes as_watch self.old.monitors (Removes reference.now) }
        ensures monitors { self.new.monitors ≡ called as_watch self.old.monitors (Removes reference.now) }
        ensures room { self.old.room ≤ self.new.room }
        ensures unchanged { OnFalse result (self.new.monitors ≡ self.old.monitors) }
    {
        self.monitors.remove(reference)
    }

    /// Removes all monitors that are bound to `held`, which has ended, one after the other. Each takes about
    /// as many steps as the logarithm of the number of monitors. Never allocates. (Reference Manual,
    /// Processes, Monitors; ERTS User's Guide, Distribution Protocol, MONITOR_P_EXIT.)
    pub fn remove_held(&mut self, held: &Pid)
        ensures monitors { self.new.monitors ≡ without_held self.old.monitors held.now }
        ensures room { self.old.room ≤ self.new.room }
    {
        self.monitors.remove_of(held);
    }

    /// Returns the monitor of the least reference of those that are bound to `held`. Never allocates. Takes about
    /// as many steps as the logarithm of the number of monitors. (Reference Manual, Processes, Monitors;
    /// ERTS User's Guide, Distribution Protocol, MONITOR_P_EXIT.)
    pub fn first_held(&self, held: &Pid) -> Option<&(Reference, Registration)>
        ensures { option_copied result ≡ first_where (λ reference registration. eq_by_cmp pid_cmp registration.held held.now) (map.entries self.now.monitors) }
    {
        self.next_held(held, None)
    }

    /// Returns the monitor of the least reference of those that are bound to `held`. If `behind` is a reference,
    /// only greater ones count. Never allocates. Takes about as many steps as the logarithm of the number of
    /// monitors. (Reference Manual, Processes, Monitors; ERTS User's Guide, Distribution Protocol,
    /// MONITOR_P_EXIT.)
    pub fn next_held(
        &self,
        held: &Pid,
        behind: Option<&Reference>,
    ) -> Option<&(Reference, Registration)>
        ensures { option_copied result ≡ first_where (λ reference registration. is_behind (option_copied behind.entry) reference && eq_by_cmp pid_cmp registration.held held.now) (map.entries self.now.monitors) }
    {
        self.monitors.next(&Sought::OfProcess(held), behind)
    }

    /// Returns the monitor of the least reference of those whose owner is on the node of the name `node`.
    /// Never allocates. Takes about as many steps as the logarithm of the number of monitors. (Reference
    /// Manual, Processes, Monitors.)
    pub fn first_towards(&self, node: &Atom) -> Option<&(Reference, Registration)>
        ensures { option_copied result ≡ first_where (λ reference registration. eq_by_cmp (slice_cmp nat_cmp) registration.owner.node node.now) (map.entries self.now.monitors) }
    {
        self.next_towards(node, None)
    }

    /// Returns the monitor of the least reference of those whose owner is on the node of the name `node`. If
    /// `behind` is a reference, only greater ones count. Never allocates. Takes about as many steps as the
    /// logarithm of the number of monitors. (Reference Manual, Processes, Monitors.)
    pub fn next_towards(
        &self,
        node: &Atom,
        behind: Option<&Reference>,
    ) -> Option<&(Reference, Registration)>
        ensures { option_copied result ≡ first_where (λ reference registration. is_behind (option_copied behind.entry) reference && eq_by_cmp (slice_cmp nat_cmp) registration.owner.node node.now) (map.entries self.now.monitors) }
    {
        self.monitors.next(&Sought::OnNode(node), behind)
    }

    /// Returns the monitor of the greatest reference, and its reference. Never allocates.
    pub fn last(&self) -> Option<&(Reference, Registration)>
        ensures { option_copied result ≡ last_or None (map.entries self.now.monitors) }
    {
        self.monitors.last()
    }
}
