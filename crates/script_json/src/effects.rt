//! The effects of an event, in JSON.
ghost use Rattle.std.specs.Prelude.{◌≡◌, IfOk, List};
ghost use Rattle.std.specs.Option.{option_copied};
ghost use Rattle.dist_model.specs.declared.report.Effect.{Effect as TheEffect};
ghost use Rattle.node_frames.specs.Kinds.{kind_in};
ghost use Rattle.script_json.specs.Reports.{AreEffects, IsEffectData, kind_data, sent_data};
ghost use Rattle.script_json.specs.Texts.{connection_if};
ghost use Rattle.serde_json.specs.Data.{Data, array};
ghost use Rattle.serde_json.specs.View.{items_of, view};

use crate::fields::fields;
use crate::texts::{printed_pid, printed_term, printed_trunk};
use dist_model::Effect;
use erl_names::{NodeName, TrunkId};
use erl_term::{Payload, Pid};
use hex::encode_upper;
use node_frames::{Frame, kind_in};
use script_texts::kind_name;
use serde_json::{Value, json};
use std::alloc::{AllocError, Global};

fn put(alloc: Global, to: &Pid, message: &Payload) -> Result<Value, AllocError>
    ensures { IfOk result (λ v. IsEffectData (TheEffect.Put to.now message.now) (view v)) }
{
    let (message, to) = (printed_term(alloc, message)?, printed_pid(alloc, to)?);
    json!(in alloc; {"kind": "put", "message": message, "to": to})
}

fn ended(alloc: Global, ended: &Pid, reason: &Payload) -> Result<Value, AllocError>
    ensures { IfOk result (λ v. IsEffectData (TheEffect.Ended ended.now reason.now) (view v)) }
{
    let (ended, reason) = (printed_pid(alloc, ended)?, printed_term(alloc, reason)?);
    json!(in alloc; {"kind": "ended", "process": ended, "reason": reason})
}

fn link_exit(
    alloc: Global,
    told: &Pid,
    partner: &Pid,
    reason: &Payload,
) -> Result<Value, AllocError>
    ensures { IfOk result (λ v. IsEffectData (TheEffect.LinkExit told.now partner.now reason.now) (view v)) }
{
    let (told, partner) = (printed_pid(alloc, told)?, printed_pid(alloc, partner)?);
    let reason = printed_term(alloc, reason)?;
    json!(in alloc; {"kind": "link_exit", "partner": partner, "process": told, "reason": reason})
}

fn item(alloc: Global, bytes: &[u8]) -> Result<Value, AllocError>
    ensures { IfOk result (λ v. view v ≡ kind_data (kind_in bytes.now)) }
{
    match kind_in(bytes) {
        Some(kind) => Value::try_from_str(alloc, kind_name(kind)),
        None => Ok(Value::Null),
    }
}

fn connection_if(alloc: Global, trunk: Option<&TrunkId>) -> Result<Value, AllocError>
    ensures { IfOk result (λ v. view v ≡ connection_if (option_copied trunk.entry)) }
{
    match trunk {
        Some(trunk) => Ok(Value::String(printed_trunk(alloc, trunk)?)),
        None => Ok(Value::Null),
    }
}

// Returns the object of an item that is sent.
fn sent_parts(
    alloc: Global,
    trunk: Option<&TrunkId>,
    peer: &NodeName,
    bytes: &[u8],
    fields: Value,
) -> Result<Value, AllocError>
    ensures { IfOk result (λ v. view v ≡ sent_data (option_copied trunk.entry) peer.now bytes.now (view fields)) }
{
    let (hex, item) = (encode_upper(alloc, bytes)?, item(alloc, bytes)?);
    let (peer, trunk) = (peer.text(), connection_if(alloc, trunk)?);
    json!(in alloc; {"fields": fields, "hex": hex, "item": item, "kind": "sent", "peer": peer, "trunk": trunk})
}

fn sent(
    alloc: Global,
    trunk: Option<&TrunkId>,
    peer: &NodeName,
    frame: &Frame,
) -> Result<Value, AllocError>
    ensures { IfOk result (λ v. IsEffectData (TheEffect.Sent (option_copied trunk.entry) peer.now frame.now) (view v)) }
{
    let bytes = frame.as_slice();
    let fields = fields(alloc, bytes)?;
    sent_parts(alloc, trunk, peer, bytes, fields)
}

fn effect(alloc: Global, effect: &Effect<Frame>) -> Result<Value, AllocError>
    ensures { IfOk result (λ v. IsEffectData effect.now (view v)) }
{
    match effect {
        Effect::Put { to, message } => put(alloc, to, message),
        Effect::Ended { process, reason } => ended(alloc, process, reason),
        Effect::LinkExit {
            process,
            partner,
            reason,
        } => link_exit(alloc, process, partner, reason),
        Effect::Sent { trunk, peer, item } => sent(alloc, trunk.as_ref(), peer, item),
    }
}

/// Returns the objects of an event's effects, in order.
pub(crate) fn effects(alloc: Global, effects: &[Effect<Frame>]) -> Result<Value, AllocError>
    ensures { IfOk result (λ v. (all : List Data) × AreEffects effects.now all × (view v ≡ array (items_of all))) }
{
    let mut all = Vec::new(alloc);
    for brought in effects {
        all.push(effect(alloc, brought)?)?;
    }
    Ok(Value::Array(all))
}
