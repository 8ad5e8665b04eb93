//! The orders that the slots of entries lie in.
ghost use Rattle.std.specs.Prelude.{◌≡◌};
ghost use Rattle.std.specs.Option.{option_copied};
ghost use Rattle.monitor_core.specs.Orders.{entry_cmp, slot_cmp};
ghost use Rattle.monitor_core.specs.Sought.{is_behind, meets, slot_place, stand};

use crate::kept::Kept;
use crate::slots::Slots;
use erl_term::{Atom, Pid, Reference};
use std::cmp::Ordering;

/// The order of a tree. It orders entries that tie by their references.
#[derive(Clone, Copy)]
pub(crate) enum By {
    /// By nothing else.
    References,
    /// By the process by which an entry is found.
    Processes,
    /// By the name of the node by which an entry is found.
    Nodes,
}

/// The entries that a search is for.
#[derive(Clone, Copy)]
pub(crate) enum Sought<'a> {
    /// The one of the reference.
    Named(&'a Reference),
    /// Those that are found by the process.
    OfProcess(&'a Pid),
    /// Those that are found by the name of the node.
    OnNode(&'a Atom),
}

impl By {
    // Returns the order of `entry` against `other`.
    fn compare<M: Kept>(self, entry: &(Reference, M), other: &(Reference, M)) -> Ordering
        ensures { result ≡ entry_cmp M.process_of M.node_of self entry.now other.now }
    {
        let group = match self {
            By::References => Ordering::Equal,
            By::Processes => entry.1.process().cmp(other.1.process()),
            By::Nodes => entry.1.node().cmp(other.1.node()),
        };
        group.then(entry.0.cmp(&other.0))
    }

    /// Returns the order of `slot` against `other`, by their entries.
    pub(crate) fn order<M: Kept>(self, slots: &Slots<M>, slot: u32, other: u32) -> Ordering
        ensures { result ≡ slot_cmp M.process_of M.node_of self slots.now.slots slot other }
    {
        match (slots.get(slot), slots.get(other)) {
            (Some(entry), Some(another)) => self.compare(entry, another),
            (Some(_), None) => Ordering::Greater,
            (None, Some(_)) => Ordering::Less,
            (None, None) => Ordering::Equal,
        }
    }
}

// Returns true if `reference` is greater than `behind`, or `behind` is none.
fn is_behind(reference: &Reference, behind: Option<&Reference>) -> bool
    ensures { result ≡ is_behind (option_copied behind.entry) reference.now }
{
    match behind {
        Some(bound) => bound.cmp(reference).is_lt(),
        None => true,
    }
}

impl Sought<'_> {
    // Returns the order of `entry` against the entries that are sought.
    fn stand<M: Kept>(&self, entry: &(Reference, M)) -> Ordering
        ensures { result ≡ stand M.process_of M.node_of self.now entry.now }
    {
        match self {
            Sought::Named(reference) => entry.0.cmp(reference),
            Sought::OfProcess(process) => entry.1.process().cmp(process),
            Sought::OnNode(node) => entry.1.node().cmp(node),
        }
    }

    /// Returns true if `entry` is one of those that are sought, and behind the reference.
    pub(crate) fn is_met<M: Kept>(&self, behind: Option<&Reference>, entry: &(Reference, M)) -> bool
        ensures { result ≡ meets M.process_of M.node_of self.now (option_copied behind.entry) entry.now }
    {
        is_behind(&entry.0, behind) && self.stand(entry).is_eq()
    }

    /// Returns the order of the entry of `slot` against the first that is sought, behind the reference.
    pub(crate) fn place<M: Kept>(
        &self,
        behind: Option<&Reference>,
        slots: &Slots<M>,
        slot: u32,
    ) -> Ordering
        ensures { result ≡ slot_place M.process_of M.node_of self.now (option_copied behind.entry) slots.now.slots slot }
    {
        let entry = match slots.get(slot) {
            Some(entry) => entry,
            None => return Ordering::Less,
        };
        let place = if is_behind(&entry.0, behind) {
            Ordering::Equal
        } else {
            Ordering::Less
        };
        self.stand(entry).then(place)
    }
}
