//! Signals where they lie in the bytes that were read.
ghost use Rattle.std.specs.Prelude.{◌≡◌, ◌↔◌, IfOk, OnErr, IsTrue};
ghost use Rattle.erl_control.specs.declared.signal.Signal.{Signal as TheSignal};
ghost use Rattle.erl_control.specs.declared.signal.Item.{Item};
ghost use Rattle.erl_control.specs.declared.signal.Signal.TheVariants as variant;
ghost use Rattle.erl_control.specs.Control.{Carries, IsFit};
ghost use Rattle.erl_control.specs.Parts.{signal_in, item_in};

use crate::fit::{MOST_PAYLOAD_BYTES, MOST_PAYLOAD_LEVELS};
use crate::signal::{Item, Signal};
use erl_term::{Atom, AtomRef, Payload, Pid, PidRef, Reference, ReferenceRef, TermRef};
use std::alloc::{AllocError, Global};

/// A signal whose parts still lie in the bytes that were read. (ERTS User's Guide, Distribution
/// Protocol, Protocol between Connected Nodes and New Link Protocol.)
#[derive(Debug, Drop)]
pub enum SignalRef<'a> {
    /// LINK.
    Link {
        /// The process that links.
        from: PidRef<'a>,
        /// Its partner.
        to: PidRef<'a>,
    },
    /// SEND.
    Send {
        /// The process that gets the message.
        to: PidRef<'a>,
        /// The message.
        message: TermRef<'a>,
    },
    /// REG_SEND.
    RegSend {
        /// The process that sends.
        from: PidRef<'a>,
        /// The registered name.
        name: AtomRef<'a>,
        /// The message.
        message: TermRef<'a>,
    },
    /// EXIT.
    Exit {
        /// The process that has ended.
        from: PidRef<'a>,
        /// Its partner.
        to: PidRef<'a>,
        /// Why it ended.
        reason: TermRef<'a>,
    },
    /// EXIT2.
    Exit2 {
        /// The process that asks.
        from: PidRef<'a>,
        /// The process that is to end.
        to: PidRef<'a>,
        /// The reason that it is given.
        reason: TermRef<'a>,
    },
    /// MONITOR_P.
    Monitor {
        /// The process that monitors, which owns the reference.
        from: PidRef<'a>,
        /// The process that is monitored.
        to: PidRef<'a>,
        /// Tells this monitor from others.
        reference: ReferenceRef<'a>,
    },
    /// MONITOR_P to a name.
    MonitorName {
        /// The process that monitors, which owns the reference.
        from: PidRef<'a>,
        /// The registered name.
        name: AtomRef<'a>,
        /// The reference of the monitor.
        reference: ReferenceRef<'a>,
    },
    /// DEMONITOR_P.
    Demonitor {
        /// The process that monitored, which owns the reference.
        from: PidRef<'a>,
        /// The process that was monitored.
        to: PidRef<'a>,
        /// The reference of the MONITOR_P that is taken back.
        reference: ReferenceRef<'a>,
    },
    /// DEMONITOR_P to a name.
    DemonitorName {
        /// The process that monitored, which owns the reference.
        from: PidRef<'a>,
        /// The registered name of its MONITOR_P.
        name: AtomRef<'a>,
        /// The reference of its MONITOR_P.
        reference: ReferenceRef<'a>,
    },
    /// MONITOR_P_EXIT.
    MonitorExit {
        /// The process that was monitored.
        from: PidRef<'a>,
        /// The process that monitored it, which owns the reference.
        to: PidRef<'a>,
        /// The reference of the MONITOR_P.
        reference: ReferenceRef<'a>,
        /// Why it ended.
        reason: TermRef<'a>,
    },
    /// MONITOR_P_EXIT from a name.
    MonitorNameExit {
        /// The registered name of the MONITOR_P.
        name: AtomRef<'a>,
        /// The process that monitored it, which owns the reference.
        to: PidRef<'a>,
        /// The reference of the MONITOR_P.
        reference: ReferenceRef<'a>,
        /// Why it ended.
        reason: TermRef<'a>,
    },
    /// UNLINK_ID.
    UnlinkId {
        /// Tells this removal from others of `from`: 1 to 2^64 - 1.
        id: u64,
        /// The process that unlinks.
        from: PidRef<'a>,
        /// Its partner.
        to: PidRef<'a>,
    },
    /// UNLINK_ID_ACK.
    UnlinkIdAck {
        /// The id of the UNLINK_ID that is answered: 1 to 2^64 - 1.
        id: u64,
        /// The process that got UNLINK_ID.
        from: PidRef<'a>,
        /// The process that sent it.
        to: PidRef<'a>,
    },
}

/// The item of a frame, where it lies in the bytes that were read.
#[derive(Debug, Drop)]
pub enum ItemRef<'a> {
    /// Nothing: the peer is there.
    Tick,
    /// A signal.
    Signal(SignalRef<'a>),
}

impl<'a> ItemRef<'a> {
    /// The item, with memory of its own. Fails for want of memory alone, and a tick takes none.
    pub fn to_item(&self, alloc: Global) -> Result<Item, AllocError>
        ensures ok { IfOk result (λ item. item ≡ item_in self.now) }
        ensures memory { OnErr result ((signal : TheSignal) × (item_in self.now ≡ Item.Signal signal)) }
    {
        match self {
            ItemRef::Tick => Ok(Item::Tick),
            ItemRef::Signal(signal) => Ok(Item::Signal(signal.to_signal(alloc)?)),
        }
    }
}

impl<'a> SignalRef<'a> {
    /// Returns true where the message or the reason fits. Never allocates.
    pub(crate) fn is_fit(&self) -> bool
        ensures { IsTrue result ↔ Carries IsFit (signal_in self.now) }
    {
        match self {
            SignalRef::Send { message, .. } | SignalRef::RegSend { message, .. } => {
                message.is_within(MOST_PAYLOAD_LEVELS, MOST_PAYLOAD_BYTES)
            }
            SignalRef::Exit { reason, .. }
            | SignalRef::Exit2 { reason, .. }
            | SignalRef::MonitorExit { reason, .. }
            | SignalRef::MonitorNameExit { reason, .. } => reason.is_within(
                MOST_PAYLOAD_LEVELS,
                MOST_PAYLOAD_BYTES,
            ),
            SignalRef::Link { .. }
            | SignalRef::Monitor { .. }
            | SignalRef::MonitorName { .. }
            | SignalRef::Demonitor { .. }
            | SignalRef::DemonitorName { .. }
            | SignalRef::UnlinkId { .. }
            | SignalRef::UnlinkIdAck { .. } => true,
        }
    }

    /// The signal, with memory of its own. Fails for want of memory alone.
    pub fn to_signal(&self, alloc: Global) -> Result<Signal, AllocError>
        ensures { IfOk result (λ s. s ≡ signal_in self.now) }
    {
        match self {
            SignalRef::Link { from, to } => {
                let (from, to) = pids_of(alloc, from, to)?;
                Ok(Signal::Link { from, to })
            }
            SignalRef::Send { to, message } => send_of(alloc, to, message),
            SignalRef::RegSend {
                from,
                name,
                message,
            } => reg_send_of(alloc, from, name, message),
            SignalRef::Exit { from, to, reason } => exit_of(alloc, from, to, reason),
            SignalRef::Exit2 { from, to, reason } => exit2_of(alloc, from, to, reason),
            SignalRef::Monitor {
                from,
                to,
                reference,
            } => monitor_of(alloc, from, to, reference),
            SignalRef::MonitorName {
                from,
                name,
                reference,
            } => monitor_name_of(alloc, from, name, reference),
            SignalRef::Demonitor {
                from,
                to,
                reference,
            } => demonitor_of(alloc, from, to, reference),
            SignalRef::DemonitorName {
                from,
                name,
                reference,
            } => demonitor_name_of(alloc, from, name, reference),
            SignalRef::MonitorExit {
                from,
                to,
                reference,
                reason,
            } => monitor_exit_of(alloc, from, to, reference, reason),
            SignalRef::MonitorNameExit {
                name,
                to,
                reference,
                reason,
            } => monitor_name_exit_of(alloc, name, to, reference, reason),
            SignalRef::UnlinkId { id, from, to } => {
                let (from, to) = pids_of(alloc, from, to)?;
                Ok(Signal::UnlinkId { id: *id, from, to })
            }
            SignalRef::UnlinkIdAck { id, from, to } => {
                let (from, to) = pids_of(alloc, from, to)?;
                Ok(Signal::UnlinkIdAck { id: *id, from, to })
            }
        }
    }
}

fn pids_of(alloc: Global, from: &PidRef<'_>, to: &PidRef<'_>) -> Result<(Pid, Pid), AllocError>
    ensures { IfOk result (λ pids. (pids.0 ≡ from.now) × (pids.1 ≡ to.now)) }
{
    Ok((from.to_pid(alloc)?, to.to_pid(alloc)?))
}

fn payload_of(alloc: Global, term: &TermRef<'_>) -> Result<Payload, AllocError>
    ensures { IfOk result (λ p. p ≡ term.now) }
{
    Ok(Payload::new(term.to_term(alloc)?))
}

fn send_of(alloc: Global, to: &PidRef<'_>, message: &TermRef<'_>) -> Result<Signal, AllocError>
    ensures { IfOk result (λ s. s ≡ variant.Send to.now message.now) }
{
    Ok(Signal::Send {
        to: to.to_pid(alloc)?,
        message: payload_of(alloc, message)?,
    })
}

fn reg_send_of(
    alloc: Global,
    from: &PidRef<'_>,
    name: &AtomRef<'_>,
    message: &TermRef<'_>,
) -> Result<Signal, AllocError>
    ensures { IfOk result (λ s. s ≡ variant.RegSend from.now name.now message.now) }
{
    Ok(Signal::RegSend {
        from: from.to_pid(alloc)?,
        name: name.to_atom(alloc)?,
        message: payload_of(alloc, message)?,
    })
}

fn pids_and_reason_of(
    alloc: Global,
    from: &PidRef<'_>,
    to: &PidRef<'_>,
    reason: &TermRef<'_>,
) -> Result<(Pid, Pid, Payload), AllocError>
    ensures { IfOk result (λ x. (x.0 ≡ from.now) × (x.1 ≡ to.now) × (x.2 ≡ reason.now)) }
{
    let (from, to) = pids_of(alloc, from, to)?;
    Ok((from, to, payload_of(alloc, reason)?))
}

fn pids_and_reference_of(
    alloc: Global,
    from: &PidRef<'_>,
    to: &PidRef<'_>,
    reference: &ReferenceRef<'_>,
) -> Result<(Pid, Pid, Reference), AllocError>
    ensures { IfOk result (λ x. (x.0 ≡ from.now) × (x.1 ≡ to.now) × (x.2 ≡ reference.now)) }
{
    let (from, to) = pids_of(alloc, from, to)?;
    Ok((from, to, reference.to_reference(alloc)?))
}

fn pid_name_and_reference_of(
    alloc: Global,
    pid: &PidRef<'_>,
    name: &AtomRef<'_>,
    reference: &ReferenceRef<'_>,
) -> Result<(Pid, Atom, Reference), AllocError>
    ensures { IfOk result (λ x. (x.0 ≡ pid.now) × (x.1 ≡ name.now) × (x.2 ≡ reference.now)) }
{
    let pid = pid.to_pid(alloc)?;
    let name = name.to_atom(alloc)?;
    Ok((pid, name, reference.to_reference(alloc)?))
}

fn exit_of(
    alloc: Global,
    from: &PidRef<'_>,
    to: &PidRef<'_>,
    reason: &TermRef<'_>,
) -> Result<Signal, AllocError>
    ensures { IfOk result (λ s. s ≡ variant.Exit from.now to.now reason.now) }
{
    let (from, to, reason) = pids_and_reason_of(alloc, from, to, reason)?;
    Ok(Signal::Exit { from, to, reason })
}

fn exit2_of(
    alloc: Global,
    from: &PidRef<'_>,
    to: &PidRef<'_>,
    reason: &TermRef<'_>,
) -> Result<Signal, AllocError>
    ensures { IfOk result (λ s. s ≡ variant.Exit2 from.now to.now reason.now) }
{
    let (from, to, reason) = pids_and_reason_of(alloc, from, to, reason)?;
    Ok(Signal::Exit2 { from, to, reason })
}

fn monitor_of(
    alloc: Global,
    from: &PidRef<'_>,
    to: &PidRef<'_>,
    reference: &ReferenceRef<'_>,
) -> Result<Signal, AllocError>
    ensures { IfOk result (λ s. s ≡ variant.Monitor from.now to.now reference.now) }
{
    let (from, to, reference) = pids_and_reference_of(alloc, from, to, reference)?;
    Ok(Signal::Monitor {
        from,
        to,
        reference,
    })
}

fn demonitor_of(
    alloc: Global,
    from: &PidRef<'_>,
    to: &PidRef<'_>,
    reference: &ReferenceRef<'_>,
) -> Result<Signal, AllocError>
    ensures { IfOk result (λ s. s ≡ variant.Demonitor from.now to.now reference.now) }
{
    let (from, to, reference) = pids_and_reference_of(alloc, from, to, reference)?;
    Ok(Signal::Demonitor {
        from,
        to,
        reference,
    })
}

fn monitor_exit_of(
    alloc: Global,
    from: &PidRef<'_>,
    to: &PidRef<'_>,
    reference: &ReferenceRef<'_>,
    reason: &TermRef<'_>,
) -> Result<Signal, AllocError>
    ensures { IfOk result (λ s. s ≡ variant.MonitorExit from.now to.now reference.now reason.now) }
{
    let (from, to, reference) = pids_and_reference_of(alloc, from, to, reference)?;
    let reason = payload_of(alloc, reason)?;
    Ok(Signal::MonitorExit {
        from,
        to,
        reference,
        reason,
    })
}

fn monitor_name_of(
    alloc: Global,
    from: &PidRef<'_>,
    name: &AtomRef<'_>,
    reference: &ReferenceRef<'_>,
) -> Result<Signal, AllocError>
    ensures { IfOk result (λ s. s ≡ variant.MonitorName from.now name.now reference.now) }
{
    let (from, name, reference) = pid_name_and_reference_of(alloc, from, name, reference)?;
    Ok(Signal::MonitorName {
        from,
        name,
        reference,
    })
}

fn demonitor_name_of(
    alloc: Global,
    from: &PidRef<'_>,
    name: &AtomRef<'_>,
    reference: &ReferenceRef<'_>,
) -> Result<Signal, AllocError>
    ensures { IfOk result (λ s. s ≡ variant.DemonitorName from.now name.now reference.now) }
{
    let (from, name, reference) = pid_name_and_reference_of(alloc, from, name, reference)?;
    Ok(Signal::DemonitorName {
        from,
        name,
        reference,
    })
}

fn monitor_name_exit_of(
    alloc: Global,
    name: &AtomRef<'_>,
    to: &PidRef<'_>,
    reference: &ReferenceRef<'_>,
    reason: &TermRef<'_>,
) -> Result<Signal, AllocError>
    ensures { IfOk result (λ s. s ≡ variant.MonitorNameExit name.now to.now reference.now reason.now) }
{
    let (to, name, reference) = pid_name_and_reference_of(alloc, to, name, reference)?;
    let reason = payload_of(alloc, reason)?;
    Ok(Signal::MonitorNameExit {
        name,
        to,
        reference,
        reason,
    })
}
