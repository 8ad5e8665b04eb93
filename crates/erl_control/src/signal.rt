use erl_term::{Atom, Payload, Pid, Reference};

/// A signal from one process to another. (ERTS User's Guide, Distribution Protocol, Protocol
/// between Connected Nodes and New Link Protocol.)
#[derive(Debug, Drop)]
pub enum Signal {
    /// LINK: `from` links itself to `to`.
    Link {
        /// The process that links.
        from: Pid,
        /// Its partner.
        to: Pid,
    },
    /// SEND: a message to `to`. It names no sender.
    Send {
        /// The process that gets the message.
        to: Pid,
        /// The message.
        message: Payload,
    },
    /// REG_SEND: a message of `from` to the process that has a name at the receiving node.
    RegSend {
        /// The process that sends.
        from: Pid,
        /// The registered name.
        name: Atom,
        /// The message.
        message: Payload,
    },
    /// EXIT: `from` has ended, and was linked to `to`.
    Exit {
        /// The process that has ended.
        from: Pid,
        /// Its partner.
        to: Pid,
        /// Why it ended.
        reason: Payload,
    },
    /// EXIT2: `from` asks `to` to end, as by `exit/2`.
    Exit2 {
        /// The process that asks.
        from: Pid,
        /// The process that is to end.
        to: Pid,
        /// The reason that it is given.
        reason: Payload,
    },
    /// MONITOR_P: `from` monitors `to`.
    Monitor {
        /// The process that monitors, which owns the reference.
        from: Pid,
        /// The process that is monitored.
        to: Pid,
        /// Tells this monitor from others.
        reference: Reference,
    },
    /// MONITOR_P to a name: `from` monitors the process that has a name at the receiving node.
    MonitorName {
        /// The process that monitors, which owns the reference.
        from: Pid,
        /// The registered name.
        name: Atom,
        /// The reference of the monitor.
        reference: Reference,
    },
    /// DEMONITOR_P: `from` no longer monitors `to`.
    Demonitor {
        /// The process that monitored, which owns the reference.
        from: Pid,
        /// The process that was monitored.
        to: Pid,
        /// The reference of the MONITOR_P that is taken back.
        reference: Reference,
    },
    /// DEMONITOR_P to a name: `from` takes back its monitor of the process that it named so.
    DemonitorName {
        /// The process that monitored, which owns the reference.
        from: Pid,
        /// The registered name of its MONITOR_P.
        name: Atom,
        /// The reference of its MONITOR_P.
        reference: Reference,
    },
    /// MONITOR_P_EXIT: `from`, which `to` monitors, has ended.
    MonitorExit {
        /// The process that was monitored.
        from: Pid,
        /// The process that monitored it, which owns the reference.
        to: Pid,
        /// The reference of the MONITOR_P.
        reference: Reference,
        /// Why it ended.
        reason: Payload,
    },
    /// MONITOR_P_EXIT from a name: the process that `to` monitors by this name has ended.
    MonitorNameExit {
        /// The registered name of the MONITOR_P.
        name: Atom,
        /// The process that monitored it, which owns the reference.
        to: Pid,
        /// The reference of the MONITOR_P.
        reference: Reference,
        /// Why it ended.
        reason: Payload,
    },
    /// UNLINK_ID: `from` removes its link to `to`.
    UnlinkId {
        /// Tells this removal from others of `from`: 1 to 2^64 - 1.
        id: u64,
        /// The process that unlinks.
        from: Pid,
        /// Its partner.
        to: Pid,
    },
    /// UNLINK_ID_ACK: `from` has handled the removal that `to` sent.
    UnlinkIdAck {
        /// The id of the UNLINK_ID that is answered: 1 to 2^64 - 1.
        id: u64,
        /// The process that got UNLINK_ID.
        from: Pid,
        /// The process that sent it.
        to: Pid,
    },
}

/// The item of a frame.
#[derive(Debug, Drop)]
pub enum Item {
    /// Nothing: the peer is there.
    Tick,
    /// A signal.
    Signal(Signal),
}
