//! The changes of a node's processes, links and monitors.

use erl_term::{Payload, Pid, Reference};
use node_tables::{EndChange, Naming};

/// A change of a process's end of a link.
#[derive(Drop)]
pub enum LinkChange {
    /// No change.
    Stays,
    /// A change of the end towards a partner.
    Becomes(Pid, EndChange),
}

/// A change of a process.
#[derive(Drop)]
pub enum LifeChange {
    /// No change.
    Stays,
    /// A message for its mailbox.
    Gets(Payload),
    /// The end of the process, with its exit reason.
    Ends(Payload),
    /// The new setting of its trap flag: true if it traps exits.
    Traps(bool),
    /// The removal of its oldest message, if there is one.
    TakesFirst,
}

/// The changes of the processes.
#[derive(Drop)]
pub enum Change {
    /// No change.
    None,
    /// A new process.
    Spawns,
    /// A process takes a name.
    TakesName(Naming),
    /// A process gives its name up.
    GivesName(Pid),
    /// A change of one process: first of an end that it has, and then of the process itself.
    Of {
        /// The process.
        process: Pid,
        /// The change of an end.
        link: LinkChange,
        /// The change of the process itself.
        life: LifeChange,
    },
}

/// A change of the monitors that processes of the node own, or of those that others have of its processes.
#[derive(Drop)]
pub enum MonitorChange<M> {
    /// No change.
    Stays,
    /// A new monitor, with its reference.
    Adds(Reference, M),
    /// The removal of the monitor with this reference, if there is one.
    Removes(Reference),
}

/// The draws of an event, besides the pid of a new process.
#[derive(Clone, Copy, Debug, PartialEq, Eq)]
pub enum Draws {
    /// No draw.
    Nothing,
    /// The count of a reference.
    Reference,
    /// An unlink id.
    UnlinkId,
}
