//! Copies of signals.
ghost use Rattle.std.specs.Prelude.{◌≡◌, IfOk};

use crate::signal::Signal;
use erl_term::{Atom, Payload, Pid, Reference};
use std::alloc::{AllocError, Global};

// Returns copies of two processes.
fn two(first: &Pid, second: &Pid) -> Result<(Pid, Pid), AllocError>
    ensures { IfOk result (λ two. two ≡ (first.now, second.now)) }
{
    Ok((first.clone()?, second.clone()?))
}

// Returns copies of two processes, and of a message or a reason.
fn two_and(
    alloc: Global,
    first: &Pid,
    second: &Pid,
    said: &Payload,
) -> Result<(Pid, Pid, Payload), AllocError>
    ensures { IfOk result (λ three. three ≡ (first.now, second.now, said.now)) }
{
    Ok((first.clone()?, second.clone()?, said.copy(alloc)?))
}

// Returns copies of two processes and a reference.
fn two_by(
    first: &Pid,
    second: &Pid,
    reference: &Reference,
) -> Result<(Pid, Pid, Reference), AllocError>
    ensures { IfOk result (λ three. three ≡ (first.now, second.now, reference.now)) }
{
    Ok((first.clone()?, second.clone()?, reference.clone()?))
}

// Returns copies of a process, a name and a reference.
fn named_by(
    process: &Pid,
    name: &Atom,
    reference: &Reference,
) -> Result<(Pid, Atom, Reference), AllocError>
    ensures { IfOk result (λ three. three ≡ (process.now, name.now, reference.now)) }
{
    Ok((process.clone()?, name.clone()?, reference.clone()?))
}

impl Signal {
    /// Returns a copy, with memory of its own.
    ///
    /// # Errors
    /// If memory runs out.
    pub fn copy(&self, alloc: Global) -> Result<Signal, AllocError>
        ensures { IfOk result (λ copy. copy ≡ self.now) }
    {
        match self {
            Signal::Link { from, to } => {
                let (from, to) = two(from, to)?;
                Ok(Signal::Link { from, to })
            }
            Signal::Send { to, message } => Ok(Signal::Send {
                to: to.clone()?,
                message: message.copy(alloc)?,
            }),
            Signal::RegSend {
                from,
                name,
                message,
            } => Ok(Signal::RegSend {
                from: from.clone()?,
                name: name.clone()?,
                message: message.copy(alloc)?,
            }),
            Signal::Exit { from, to, reason } => {
                let (from, to, reason) = two_and(alloc, from, to, reason)?;
                Ok(Signal::Exit { from, to, reason })
            }
            Signal::Exit2 { from, to, reason } => {
                let (from, to, reason) = two_and(alloc, from, to, reason)?;
                Ok(Signal::Exit2 { from, to, reason })
            }
            Signal::Monitor {
                from,
                to,
                reference,
            } => {
                let (from, to, reference) = two_by(from, to, reference)?;
                Ok(Signal::Monitor {
                    from,
                    to,
                    reference,
                })
            }
            Signal::MonitorName {
                from,
                name,
                reference,
            } => {
                let (from, name, reference) = named_by(from, name, reference)?;
                Ok(Signal::MonitorName {
                    from,
                    name,
                    reference,
                })
            }
            Signal::Demonitor {
                from,
                to,
                reference,
            } => {
                let (from, to, reference) = two_by(from, to, reference)?;
                Ok(Signal::Demonitor {
                    from,
                    to,
                    reference,
                })
            }
            Signal::DemonitorName {
                from,
                name,
                reference,
            } => {
                let (from, name, reference) = named_by(from, name, reference)?;
                Ok(Signal::DemonitorName {
                    from,
                    name,
                    reference,
                })
            }
            Signal::MonitorExit {
                from,
                to,
                reference,
                reason,
            } => {
                let (from, to, reference) = two_by(from, to, reference)?;
                let reason = reason.copy(alloc)?;
                Ok(Signal::MonitorExit {
                    from,
                    to,
                    reference,
                    reason,
                })
            }
            Signal::MonitorNameExit {
                name,
                to,
                reference,
                reason,
            } => {
                let (to, name, reference) = named_by(to, name, reference)?;
                let reason = reason.copy(alloc)?;
                Ok(Signal::MonitorNameExit {
                    name,
                    to,
                    reference,
                    reason,
                })
            }
            Signal::UnlinkId { id, from, to } => {
                let (from, to) = two(from, to)?;
                Ok(Signal::UnlinkId { id: *id, from, to })
            }
            Signal::UnlinkIdAck { id, from, to } => {
                let (from, to) = two(from, to)?;
                Ok(Signal::UnlinkIdAck { id: *id, from, to })
            }
        }
    }
}
