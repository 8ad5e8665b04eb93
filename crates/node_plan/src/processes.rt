//! What happens to a process.
ghost use Rattle.std.specs.Prelude.{◌≡◌, ◌++◌, [], ◌∷◌, OnOk};
ghost use Rattle.dist_model.specs.declared.report.Effect.TheVariants as effect;

use crate::pushing::push;
use dist_model::Effect;
use erl_term::{Payload, Pid};
use node_frames::Frame;
use std::alloc::{AllocError, Global};

/// A message comes into the mailbox of a process. (Reference Manual, Processes, Delivery of Signals.)
///
/// # Errors
/// Where there is no memory for it.
pub fn push_put(
    effects: &mut Vec<Effect<Frame>>,
    alloc: Global,
    process: &Pid,
    message: &Payload,
) -> Result<(), AllocError>
    ensures { OnOk result (effects.new.items ≡ effects.old.items ++ effect.Put process.now message.now ∷ []) }
{
    let put = Effect::Put {
        to: process.clone()?,
        message: message.copy(alloc)?,
    };
    push(effects, put)
}

/// A process ends. (Reference Manual, Processes, Process Termination.)
///
/// # Errors
/// Where there is no memory for it.
pub fn push_ended(
    effects: &mut Vec<Effect<Frame>>,
    alloc: Global,
    process: &Pid,
    reason: &Payload,
) -> Result<(), AllocError>
    ensures { OnOk result (effects.new.items ≡ effects.old.items ++ effect.Ended process.now reason.now ∷ []) }
{
    let ended = Effect::Ended {
        process: process.clone()?,
        reason: reason.copy(alloc)?,
    };
    push(effects, ended)
}

/// A process has reacted to the exit of its link with a partner. (Reference Manual, Processes,
/// Receiving Exit Signals.)
///
/// # Errors
/// Where there is no memory for it.
pub fn push_link_exit(
    effects: &mut Vec<Effect<Frame>>,
    alloc: Global,
    process: &Pid,
    partner: &Pid,
    reason: &Payload,
) -> Result<(), AllocError>
    ensures { OnOk result (effects.new.items ≡ effects.old.items ++ effect.LinkExit process.now partner.now reason.now ∷ []) }
{
    let reacted = Effect::LinkExit {
        process: process.clone()?,
        partner: partner.clone()?,
        reason: reason.copy(alloc)?,
    };
    push(effects, reacted)
}
