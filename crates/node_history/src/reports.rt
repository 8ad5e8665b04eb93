//! Whether two reports are the same.
ghost use Rattle.std.specs.Prelude.{◌≡◌, ◌↔◌, IsTrue};
ghost use Rattle.std.specs.Option.{option_copied};
ghost use Rattle.node_history.specs.Said.{said};

use crate::answers::is_same_said;
use crate::same_events::{is_same_name, is_same_trunk};
use crate::terms::is_same_payload;
use dist_model::{Effect, Report};
use erl_names::TrunkId;
use erl_term::{Pid, Refusal};
use node_frames::Frame;

fn are_same_pids(a: Option<&(Pid, Pid)>, b: Option<&(Pid, Pid)>) -> bool
    ensures { IsTrue result ↔ (option_copied a.entry ≡ option_copied b.entry) }
{
    match (a, b) {
        (None, None) => true,
        (Some(a), Some(b)) => a.0.is_same(&b.0) && a.1.is_same(&b.1),
        _ => false,
    }
}

fn are_same_bytes(a: &[u8], b: &[u8]) -> bool
    ensures { IsTrue result ↔ (a.now ≡ b.now) }
{
    a == b
}

fn is_same_frame(a: &Frame, b: &Frame) -> bool
    ensures { IsTrue result ↔ (a.now ≡ b.now) }
{
    are_same_bytes(a.as_slice(), b.as_slice()) && are_same_pids(a.between(), b.between())
}

fn is_same_way(a: Option<&TrunkId>, b: Option<&TrunkId>) -> bool
    ensures { IsTrue result ↔ (option_copied a.entry ≡ option_copied b.entry) }
{
    match (a, b) {
        (None, None) => true,
        (Some(a), Some(b)) => is_same_trunk(a, b),
        _ => false,
    }
}

fn is_same_effect(a: &Effect<Frame>, b: &Effect<Frame>) -> bool
    ensures { IsTrue result ↔ (a.now ≡ b.now) }
{
    match (a, b) {
        (
            Effect::Put { to, message },
            Effect::Put {
                to: other,
                message: told,
            },
        ) => { to.is_same(other) && is_same_payload(message, told) }
        (
            Effect::Ended { process, reason },
            Effect::Ended {
                process: other,
                reason: why,
            },
        ) => process.is_same(other) && is_same_payload(reason, why),
        (
            Effect::LinkExit {
                process,
                partner,
                reason,
            },
            Effect::LinkExit {
                process: other,
                partner: linked,
                reason: why,
            },
        ) => { process.is_same(other) && partner.is_same(linked) && is_same_payload(reason, why) }
        (
            Effect::Sent { trunk, peer, item },
            Effect::Sent {
                trunk: other,
                peer: receiver,
                item: sent,
            },
        ) => {
            is_same_way(trunk.as_ref(), other.as_ref())
                && is_same_name(peer, receiver)
                && is_same_frame(item, sent)
        }
        _ => false,
    }
}

fn are_same_effects(a: &[Effect<Frame>], b: &[Effect<Frame>]) -> bool
    ensures { IsTrue result ↔ (a.now ≡ b.now) }
{
    if a.len() != b.len() {
        return false;
    }
    for place in 0..a.len() {
        if !is_same_effect(&a[place], &b[place]) {
            return false;
        }
    }
    true
}

fn is_same_refusal(a: Refusal, b: Refusal) -> bool
    ensures { IsTrue result ↔ (a ≡ b) }
{
    a == b
}

/// Returns true if a node answers the same in both: the same report, effect for effect, or the same
/// refusal. Takes no memory.
pub fn is_same_answer(
    a: &Result<Report<Frame>, Refusal>,
    b: &Result<Report<Frame>, Refusal>,
) -> bool
    ensures { IsTrue result ↔ (said a.now ≡ said b.now) }
{
    match (a, b) {
        (Ok(a), Ok(b)) => {
            is_same_said(&a.answer, &b.answer)
                && are_same_effects(a.effects.as_slice(), b.effects.as_slice())
        }
        (Err(a), Err(b)) => is_same_refusal(*a, *b),
        _ => false,
    }
}
