//! Signals of borrowed parts.
ghost use Rattle.std.specs.Prelude.{◌≡◌};
ghost use Rattle.erl_control.specs.Parts.{signal_of};

use crate::signal::Signal;
use erl_term::{Atom, Payload, Pid, Reference};

/// A signal whose pids, reference and payload are borrowed, so that it can be written without a
/// copy of them. (ERTS User's Guide, Distribution Protocol, Protocol between Connected Nodes and
/// New Link Protocol.)
#[derive(Clone, Copy, Debug, Drop)]
pub enum SignalParts<'a> {
    /// LINK.
    Link {
        /// The process that links.
        from: &'a Pid,
        /// Its partner.
        to: &'a Pid,
    },
    /// SEND.
    Send {
        /// The process that gets the message.
        to: &'a Pid,
        /// The message.
        message: &'a Payload,
    },
    /// REG_SEND.
    RegSend {
        /// The process that sends.
        from: &'a Pid,
        /// The registered name.
        name: &'a Atom,
        /// The message.
        message: &'a Payload,
    },
    /// EXIT.
    Exit {
        /// The process that has ended.
        from: &'a Pid,
        /// Its partner.
        to: &'a Pid,
        /// Why it ended.
        reason: &'a Payload,
    },
    /// EXIT2.
    Exit2 {
        /// The process that asks.
        from: &'a Pid,
        /// The process that is to end.
        to: &'a Pid,
        /// The reason that it is given.
        reason: &'a Payload,
    },
    /// MONITOR_P.
    Monitor {
        /// The process that monitors, which owns the reference.
        from: &'a Pid,
        /// The process that is monitored.
        to: &'a Pid,
        /// Tells this monitor from others.
        reference: &'a Reference,
    },
    /// MONITOR_P to a name.
    MonitorName {
        /// The process that monitors, which owns the reference.
        from: &'a Pid,
        /// The registered name.
        name: &'a Atom,
        /// The reference of the monitor.
        reference: &'a Reference,
    },
    /// DEMONITOR_P.
    Demonitor {
        /// The process that monitored, which owns the reference.
        from: &'a Pid,
        /// The process that was monitored.
        to: &'a Pid,
        /// The reference of the MONITOR_P that is taken back.
        reference: &'a Reference,
    },
    /// DEMONITOR_P to a name.
    DemonitorName {
        /// The process that monitored, which owns the reference.
        from: &'a Pid,
        /// The registered name of its MONITOR_P.
        name: &'a Atom,
        /// The reference of its MONITOR_P.
        reference: &'a Reference,
    },
    /// MONITOR_P_EXIT.
    MonitorExit {
        /// The process that was monitored.
        from: &'a Pid,
        /// The process that monitored it, which owns the reference.
        to: &'a Pid,
        /// The reference of the MONITOR_P.
        reference: &'a Reference,
        /// Why it ended.
        reason: &'a Payload,
    },
    /// MONITOR_P_EXIT from a name.
    MonitorNameExit {
        /// The registered name of the MONITOR_P.
        name: &'a Atom,
        /// The process that monitored it, which owns the reference.
        to: &'a Pid,
        /// The reference of the MONITOR_P.
        reference: &'a Reference,
        /// Why it ended.
        reason: &'a Payload,
    },
    /// UNLINK_ID.
    UnlinkId {
        /// Tells this removal from others of `from`: 1 to 2^64 - 1.
        id: u64,
        /// The process that unlinks.
        from: &'a Pid,
        /// Its partner.
        to: &'a Pid,
    },
    /// UNLINK_ID_ACK.
    UnlinkIdAck {
        /// The id of the UNLINK_ID that is answered: 1 to 2^64 - 1.
        id: u64,
        /// The process that got UNLINK_ID.
        from: &'a Pid,
        /// The process that sent it.
        to: &'a Pid,
    },
}

impl Signal {
    /// The same signal, of borrowed parts. It takes no memory.
    pub fn parts(&self) -> SignalParts<'_>
        ensures { signal_of result ≡ self.now }
    {
        match self {
            Signal::Link { from, to } => SignalParts::Link { from, to },
            Signal::Send { to, message } => SignalParts::Send { to, message },
            Signal::RegSend {
                from,
                name,
                message,
            } => SignalParts::RegSend {
                from,
                name,
                message,
            },
            Signal::Exit { from, to, reason } => SignalParts::Exit { from, to, reason },
            Signal::Exit2 { from, to, reason } => SignalParts::Exit2 { from, to, reason },
            Signal::Monitor {
                from,
                to,
                reference,
            } => SignalParts::Monitor {
                from,
                to,
                reference,
            },
            Signal::MonitorName {
                from,
                name,
                reference,
            } => SignalParts::MonitorName {
                from,
                name,
                reference,
            },
            Signal::Demonitor {
                from,
                to,
                reference,
            } => SignalParts::Demonitor {
                from,
                to,
                reference,
            },
            Signal::DemonitorName {
                from,
                name,
                reference,
            } => SignalParts::DemonitorName {
                from,
                name,
                reference,
            },
            Signal::MonitorExit {
                from,
                to,
                reference,
                reason,
            } => SignalParts::MonitorExit {
                from,
                to,
                reference,
                reason,
            },
            Signal::MonitorNameExit {
                name,
                to,
                reference,
                reason,
            } => SignalParts::MonitorNameExit {
                name,
                to,
                reference,
                reason,
            },
            Signal::UnlinkId { id, from, to } => SignalParts::UnlinkId { id: *id, from, to },
            Signal::UnlinkIdAck { id, from, to } => SignalParts::UnlinkIdAck { id: *id, from, to },
        }
    }
}
