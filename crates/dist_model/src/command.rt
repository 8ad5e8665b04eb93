//! The commands of a caller to a node.

use erl_names::NodeName;
use erl_term::{Atom, Payload, Pid, Reference};

/// A request of a caller to a node. `Receive`, `LinksOf`, `IsAlive` and `WhereIs` look at a node from
/// outside. (Reference Manual, Processes: Process Creation, Registered Processes, Links, Monitors, Error
/// Handling.)
#[derive(Debug, Drop)]
pub enum Command {
    /// A new process, which doesn't trap exits.
    Spawn,
    /// A process sends a message.
    Send {
        /// The process that sends.
        from: Pid,
        /// The process that gets the message.
        to: Pid,
        /// The message.
        message: Payload,
    },
    /// A process sends a message to the process that has a name at a node, as by `{Name, Node} ! Message`.
    SendName {
        /// The process that sends.
        from: Pid,
        /// The node, which need not be known or connected.
        node: NodeName,
        /// The registered name.
        name: Atom,
        /// The message.
        message: Payload,
    },
    /// A process links itself to another.
    Link {
        /// The process that links.
        from: Pid,
        /// Its partner.
        to: Pid,
    },
    /// A process unlinks itself from another.
    Unlink {
        /// The process that unlinks.
        from: Pid,
        /// Its partner.
        to: Pid,
    },
    /// A process monitors another.
    Monitor {
        /// The process that monitors.
        owner: Pid,
        /// The process that is monitored.
        target: Pid,
    },
    /// A process monitors the process that has a name at a node, as by `monitor(process, {Name, Node})`.
    MonitorName {
        /// The process that monitors.
        owner: Pid,
        /// The node, which need not be known or connected.
        node: NodeName,
        /// The registered name.
        name: Atom,
    },
    /// A process ends a monitor of its own, as by `demonitor/1`.
    Demonitor {
        /// The process that monitors.
        owner: Pid,
        /// The reference of the monitor.
        reference: Reference,
    },
    /// A process begins or ceases to trap exits.
    Trap {
        /// The process.
        process: Pid,
        /// The new setting: true if it traps them.
        on: bool,
    },
    /// A process asks another to end, as by `exit/2`.
    ExitTo {
        /// The process that asks.
        from: Pid,
        /// The process that gets the exit signal.
        to: Pid,
        /// The exit reason.
        reason: Payload,
    },
    /// A process ends, as by `exit/1`.
    ExitSelf {
        /// The process.
        process: Pid,
        /// The exit reason.
        reason: Payload,
    },
    /// The oldest message of a process, which leaves its mailbox.
    Receive {
        /// The process.
        process: Pid,
    },
    /// The links of a process, active and pending.
    LinksOf {
        /// The process.
        process: Pid,
    },
    /// The state of a process: living or not.
    IsAlive {
        /// The process.
        process: Pid,
    },
    /// A process takes a name at its node, as by `register/2`.
    Register {
        /// The process.
        process: Pid,
        /// The name.
        name: Atom,
    },
    /// A process gives its name up, as by `unregister/1`.
    Unregister {
        /// The process.
        process: Pid,
    },
    /// The process that has a name, as by `whereis/1`.
    WhereIs {
        /// The name.
        name: Atom,
    },
}
