//! The signals by which a process tells another of their link, or of a monitor.
ghost use Rattle.std.specs.Prelude.{◌≡◌, IfOk};
ghost use Rattle.dist_model.specs.Items.{telling};
ghost use Rattle.erl_control.specs.declared.signal.Signal.TheVariants as signals;
ghost use Rattle.link_core.specs.News.{Signals};

use erl_control::Signal;
use erl_term::{Atom, Payload, Pid, Reference};
use link_core::LinkSignal;
use std::alloc::AllocError;

/// The signal by which a process tells its partner. (ERTS User's Guide, Distribution Protocol, New Link
/// Protocol.)
///
/// # Errors
/// Where there is no memory for it.
pub fn link_signal(from: &Pid, to: &Pid, signal: LinkSignal) -> Result<Signal, AllocError>
    ensures { IfOk result (λ s. s ≡ telling from.now to.now (Signals signal)) }
{
    let from = from.clone()?;
    let to = to.clone()?;
    Ok(match signal {
        LinkSignal::Link => Signal::Link { from, to },
        LinkSignal::Unlink(id) => Signal::UnlinkId { id, from, to },
        LinkSignal::Ack(id) => Signal::UnlinkIdAck { id, from, to },
    })
}

/// Returns the signal by which a process monitors another. (ERTS User's Guide, Distribution Protocol,
/// Protocol between Connected Nodes.)
///
/// # Errors
/// Where there is no memory for it.
pub fn monitor_signal(from: &Pid, to: &Pid, reference: &Reference) -> Result<Signal, AllocError>
    ensures { IfOk result (λ s. s ≡ signals.Monitor from.now to.now reference.now) }
{
    Ok(Signal::Monitor {
        from: from.clone()?,
        to: to.clone()?,
        reference: reference.clone()?,
    })
}

/// Returns the signal by which a process monitors the one that has a name at the receiving node. (ERTS User's
/// Guide, Distribution Protocol, Protocol between Connected Nodes.)
///
/// # Errors
/// Where there is no memory for it.
pub fn monitor_name_signal(
    from: &Pid,
    name: &Atom,
    reference: &Reference,
) -> Result<Signal, AllocError>
    ensures { IfOk result (λ s. s ≡ signals.MonitorName from.now name.now reference.now) }
{
    Ok(Signal::MonitorName {
        from: from.clone()?,
        name: name.clone()?,
        reference: reference.clone()?,
    })
}

/// Returns the signal by which a process takes back its monitor of another. (ERTS User's Guide, Distribution
/// Protocol, Protocol between Connected Nodes.)
///
/// # Errors
/// Where there is no memory for it.
pub fn demonitor_signal(from: &Pid, to: &Pid, reference: &Reference) -> Result<Signal, AllocError>
    ensures { IfOk result (λ s. s ≡ signals.Demonitor from.now to.now reference.now) }
{
    Ok(Signal::Demonitor {
        from: from.clone()?,
        to: to.clone()?,
        reference: reference.clone()?,
    })
}

/// Returns the signal by which a process takes back its monitor of a name. (ERTS User's Guide, Distribution
/// Protocol, Protocol between Connected Nodes.)
///
/// # Errors
/// Where there is no memory for it.
pub fn demonitor_name_signal(
    from: &Pid,
    name: &Atom,
    reference: &Reference,
) -> Result<Signal, AllocError>
    ensures { IfOk result (λ s. s ≡ signals.DemonitorName from.now name.now reference.now) }
{
    Ok(Signal::DemonitorName {
        from: from.clone()?,
        name: name.clone()?,
        reference: reference.clone()?,
    })
}

/// Returns the signal that tells the owner of a monitor that the process `from` has ended. (ERTS User's Guide,
/// Distribution Protocol, Protocol between Connected Nodes.)
///
/// # Errors
/// Where there is no memory for it.
pub fn monitor_exit_signal(
    from: &Pid,
    to: &Pid,
    reference: &Reference,
    reason: Payload,
) -> Result<Signal, AllocError>
    ensures { IfOk result (λ s. s ≡ signals.MonitorExit from.now to.now reference.now reason) }
{
    Ok(Signal::MonitorExit {
        from: from.clone()?,
        to: to.clone()?,
        reference: reference.clone()?,
        reason,
    })
}

/// Returns the signal that tells the owner of a monitor of `name` that its process has ended. (ERTS User's
/// Guide, Distribution Protocol, Protocol between Connected Nodes.)
///
/// # Errors
/// Where there is no memory for it.
pub fn monitor_name_exit_signal(
    name: &Atom,
    to: &Pid,
    reference: &Reference,
    reason: Payload,
) -> Result<Signal, AllocError>
    ensures { IfOk result (λ s. s ≡ signals.MonitorNameExit name.now to.now reference.now reason) }
{
    Ok(Signal::MonitorNameExit {
        name: name.clone()?,
        to: to.clone()?,
        reference: reference.clone()?,
        reason,
    })
}
