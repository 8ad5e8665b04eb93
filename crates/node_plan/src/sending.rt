//! What is sent.
ghost use Rattle.std.specs.Prelude.{◌≡◌, ◌&&◌, ◌++◌, [], ◌∷◌, None, Some, OnOk, true};
ghost use Rattle.dist_model.specs.Items.{Handshake, Signalled, has_reason};
ghost use Rattle.dist_model.specs.declared.report.Effect.TheVariants as effect;
ghost use Rattle.node_frames.specs.Frames.{IsSpelled, framed};
ghost use Rattle.node_frames.specs.Sendable.{is_sendable};
ghost use Rattle.node_plan.specs.OwnList.{own_item};

use crate::pushing::push;
use conn_core::Side;
use dist_model::Effect;
use erl_control::Signal;
use erl_handshake::ShakeMsg;
use erl_names::{NodeName, TrunkId};
use node_frames::Frame;
use std::alloc::{AllocError, Global};

/// Tells that a signal travels from the node of this name to itself. No reason follows the control term.
/// (Reference Manual, Processes, Delivery of Signals.)
///
/// # Errors
/// Where there is no memory for it.
pub fn push_signal_here(
    effects: &mut Vec<Effect<Frame>>,
    alloc: Global,
    name: &NodeName,
    signal: &Signal,
) -> Result<(), AllocError>
    requires { is_sendable signal.now ≡ true }
    ensures effects { OnOk result (effects.new.items ≡ effects.old.items ++ effect.Sent None name.now (framed (own_item signal.now)) ∷ []) }
    ensures spelled { OnOk result (IsSpelled (own_item signal.now)) }
{
    let here = Effect::Sent {
        trunk: None,
        peer: name.clone()?,
        item: Frame::of(alloc, signal, false)?,
    };
    push(effects, here)
}

/// Tells that a signal is sent on the connection of this side. With `payload` its reason, if it has one,
/// follows the control term. (Reference Manual, Processes, Delivery of Signals.)
///
/// # Errors
/// Where there is no memory for it.
pub fn push_signal_there(
    effects: &mut Vec<Effect<Frame>>,
    alloc: Global,
    side: &Side,
    signal: &Signal,
    payload: bool,
) -> Result<(), AllocError>
    requires { is_sendable signal.now ≡ true }
    ensures effects { OnOk result (effects.new.items ≡ effects.old.items ++ effect.Sent (Some side.now.trunk) side.now.peer (framed (Signalled signal.now (has_reason signal.now && payload))) ∷ []) }
    ensures spelled { OnOk result (IsSpelled (Signalled signal.now (has_reason signal.now && payload))) }
{
    let there = Effect::Sent {
        trunk: Some(side.trunk.clone()?),
        peer: side.peer.clone()?,
        item: Frame::of(alloc, signal, payload)?,
    };
    push(effects, there)
}

/// A message of the handshake is sent on a connection. (ERTS User's Guide, Distribution Protocol,
/// Distribution Handshake.)
///
/// # Errors
/// Where there is no memory for it.
pub fn push_message(
    effects: &mut Vec<Effect<Frame>>,
    alloc: Global,
    trunk: &TrunkId,
    peer: &NodeName,
    message: &ShakeMsg,
) -> Result<(), AllocError>
    ensures effects { OnOk result (effects.new.items ≡ effects.old.items ++ effect.Sent (Some trunk.now) peer.now (framed (Handshake message.now)) ∷ []) }
    ensures spelled { OnOk result (IsSpelled (Handshake message.now)) }
{
    let written = Effect::Sent {
        trunk: Some(trunk.clone()?),
        peer: peer.clone()?,
        item: Frame::of_message(alloc, message)?,
    };
    push(effects, written)
}
