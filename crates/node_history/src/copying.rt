//! Copies of commands, effects and events.
ghost use Rattle.std.specs.Prelude.{◌≡◌, IfOk};
ghost use Rattle.std.specs.Option.{option_copied};

use dist_model::{Command, Effect};
use erl_names::TrunkId;
use erl_term::{Payload, Pid};
use node_core::NodeEvent;
use node_frames::Frame;
use std::alloc::{AllocError, Global};

// Returns copies of two processes.
fn two(first: &Pid, second: &Pid) -> Result<(Pid, Pid), AllocError>
    ensures { IfOk result (λ two. two ≡ (first.now, second.now)) }
{
    Ok((first.clone()?, second.clone()?))
}

// Returns copies of two processes, and of a message or a reason.
fn two_and(
    alloc: Global,
    first: &Pid,
    second: &Pid,
    said: &Payload,
) -> Result<(Pid, Pid, Payload), AllocError>
    ensures { IfOk result (λ three. three ≡ (first.now, second.now, said.now)) }
{
    Ok((first.clone()?, second.clone()?, said.copy(alloc)?))
}

/// Returns a copy of a command.
///
/// # Errors
/// [`AllocError`] if out of memory.
pub(crate) fn copied(alloc: Global, command: &Command) -> Result<Command, AllocError>
    ensures { IfOk result (λ copy. copy ≡ command.now) }
{
    match command {
        Command::Spawn => Ok(Command::Spawn),
        Command::Send { from, to, message } => {
            let (from, to, message) = two_and(alloc, from, to, message)?;
            Ok(Command::Send { from, to, message })
        }
        Command::SendName {
            from,
            node,
            name,
            message,
        } => Ok(Command::SendName {
            from: from.clone()?,
            node: node.clone()?,
            name: name.clone()?,
            message: message.copy(alloc)?,
        }),
        Command::Link { from, to } => {
            let (from, to) = two(from, to)?;
            Ok(Command::Link { from, to })
        }
        Command::Unlink { from, to } => {
            let (from, to) = two(from, to)?;
            Ok(Command::Unlink { from, to })
        }
        Command::Monitor { owner, target } => {
            let (owner, target) = two(owner, target)?;
            Ok(Command::Monitor { owner, target })
        }
        Command::MonitorName { owner, node, name } => Ok(Command::MonitorName {
            owner: owner.clone()?,
            node: node.clone()?,
            name: name.clone()?,
        }),
        Command::ExitTo { from, to, reason } => {
            let (from, to, reason) = two_and(alloc, from, to, reason)?;
            Ok(Command::ExitTo { from, to, reason })
        }
        Command::Demonitor { owner, reference } => Ok(Command::Demonitor {
            owner: owner.clone()?,
            reference: reference.clone()?,
        }),
        Command::Trap { process, on } => Ok(Command::Trap {
            process: process.clone()?,
            on: *on,
        }),
        Command::ExitSelf { process, reason } => Ok(Command::ExitSelf {
            process: process.clone()?,
            reason: reason.copy(alloc)?,
        }),
        Command::Receive { process } => Ok(Command::Receive {
            process: process.clone()?,
        }),
        Command::LinksOf { process } => Ok(Command::LinksOf {
            process: process.clone()?,
        }),
        Command::IsAlive { process } => Ok(Command::IsAlive {
            process: process.clone()?,
        }),
        Command::Register { process, name } => Ok(Command::Register {
            process: process.clone()?,
            name: name.clone()?,
        }),
        Command::Unregister { process } => Ok(Command::Unregister {
            process: process.clone()?,
        }),
        Command::WhereIs { name } => Ok(Command::WhereIs {
            name: name.clone()?,
        }),
    }
}

// Returns a copy of an effect.
fn copied_effect(alloc: Global, effect: &Effect<Frame>) -> Result<Effect<Frame>, AllocError>
    ensures { IfOk result (λ copy. copy ≡ effect.now) }
{
    match effect {
        Effect::Put { to, message } => Ok(Effect::Put {
            to: to.clone()?,
            message: message.copy(alloc)?,
        }),
        Effect::Ended { process, reason } => Ok(Effect::Ended {
            process: process.clone()?,
            reason: reason.copy(alloc)?,
        }),
        Effect::LinkExit {
            process,
            partner,
            reason,
        } => Ok(Effect::LinkExit {
            process: process.clone()?,
            partner: partner.clone()?,
            reason: reason.copy(alloc)?,
        }),
        Effect::Sent { trunk, peer, item } => Ok(Effect::Sent {
            trunk: copied_trunk(trunk.as_ref())?,
            peer: peer.clone()?,
            item: item.copy(alloc)?,
        }),
    }
}

fn copied_trunk(trunk: Option<&TrunkId>) -> Result<Option<TrunkId>, AllocError>
    ensures { IfOk result (λ copy. copy ≡ option_copied trunk.entry) }
{
    match trunk {
        Some(trunk) => Ok(Some(trunk.clone()?)),
        None => Ok(None),
    }
}

/// Returns copies of the effects of an event, in order.
///
/// # Errors
/// [`AllocError`] if out of memory.
pub(crate) fn copied_effects(
    alloc: Global,
    effects: &[Effect<Frame>],
) -> Result<Vec<Effect<Frame>>, AllocError>
    ensures { IfOk result (λ copies. copies.items ≡ effects.now) }
{
    let mut copies = Vec::with_capacity(alloc, effects.len())?;
    for effect in effects {
        copies.push(copied_effect(alloc, effect)?)?;
    }
    Ok(copies)
}

/// Returns a copy of an event.
///
/// # Errors
/// [`AllocError`] if out of memory.
pub fn copied_event(alloc: Global, event: &NodeEvent) -> Result<NodeEvent, AllocError>
    ensures { IfOk result (λ copy. copy ≡ event.now) }
{
    match event {
        NodeEvent::Call(command) => Ok(NodeEvent::Call(copied(alloc, command)?)),
        NodeEvent::Arrive { trunk, word } => Ok(NodeEvent::Arrive {
            trunk: trunk.clone()?,
            word: *word,
        }),
        NodeEvent::Local => Ok(NodeEvent::Local),
        NodeEvent::Lose(trunk) => Ok(NodeEvent::Lose(trunk.clone()?)),
        NodeEvent::Sweep => Ok(NodeEvent::Sweep),
        NodeEvent::Dial { peer, word } => Ok(NodeEvent::Dial {
            peer: peer.clone()?,
            word: *word,
        }),
        NodeEvent::Stop => Ok(NodeEvent::Stop),
        NodeEvent::Start => Ok(NodeEvent::Start),
    }
}
