//! What the history has sent on a connection, from a place on.
ghost use Rattle.std.specs.Prelude.{◌≡◌, ◌<◌, ◌∷◌, [], drop, length, IfNone, IfSome, MatchOption};
ghost use Rattle.node_lock.specs.Waiting.{effects_of, waiting};
ghost use Rattle.node_core.specs.SentAt.{sent_at};

use crate::names::same_trunk;
use dist_model::Effect;
use erl_names::{NodeName, TrunkId};
use node_frames::{Frame, same_name};
use node_history::{Answered, Entry};

// What an effect sends on a connection to a peer.
fn sent_on<'a>(effect: &'a Effect<Frame>, trunk: &TrunkId, peer: &NodeName) -> Option<&'a Frame>
    ensures { MatchOption result (sent_at trunk.now peer.now (effect.now ∷ []) ≡ []) (λ frame. sent_at trunk.now peer.now (effect.now ∷ []) ≡ frame.now ∷ []) }
{
    match effect {
        Effect::Sent {
            trunk: Some(on),
            peer: to,
            item,
        } => {
            if same_trunk(trunk, on) && same_name(peer.atom(), to.atom()) {
                Some(item)
            } else {
                None
            }
        }
        Effect::Sent { trunk: None, .. } => None,
        Effect::Put { .. } => None,
        Effect::Ended { .. } => None,
        Effect::LinkExit { .. } => None,
    }
}

// The first that one of these effects sends there, from a place on, with the place behind it.
fn first_sent<'a>(
    effects: &'a [Effect<Frame>],
    from: usize,
    trunk: &TrunkId,
    peer: &NodeName,
) -> Option<(&'a Frame, usize)>
    ensures some { IfSome result (λ found. sent_at trunk.now peer.now (drop from effects.now) ≡ found.0.now ∷ sent_at trunk.now peer.now (drop found.1 effects.now)) }
    ensures none { IfNone result (sent_at trunk.now peer.now (drop from effects.now) ≡ []) }
{
    for place in from..effects.len() {
        if let Some(frame) = sent_on(&effects[place], trunk, peer) {
            return Some((frame, place + 1));
        }
    }
    None
}

// What an answer has brought about.
fn effects_of(answer: &Answered) -> &[Effect<Frame>]
    ensures { result.now ≡ effects_of answer.now }
{
    match answer {
        Ok(report) => report.effects.as_slice(),
        Err(_) => &[],
    }
}

/// What was sent next on a connection to a peer, from a place of the history on.
#[derive(Clone, Copy)]
pub(crate) struct Next<'a> {
    /// The stamp of its entry.
    pub(crate) stamp: u64,
    /// What was sent.
    pub(crate) frame: &'a Frame,
    /// The place behind it: the entry, and how many of its effects.
    pub(crate) entry: usize,
    pub(crate) effects: usize,
}

/// What was sent next on a connection to a peer, if anything was.
pub(crate) fn next_sent<'a>(
    entries: &'a [Entry],
    entry: usize,
    effects: usize,
    trunk: &TrunkId,
    peer: &NodeName,
) -> Option<Next<'a>>
    ensures some { IfSome result (λ next. waiting (trunk.now, peer.now) entry effects entries.now ≡ (next.stamp, next.frame.now) ∷ waiting (trunk.now, peer.now) next.entry next.effects entries.now) }
    ensures within { IfSome result (λ next. next.entry < length entries.now) }
    ensures none { IfNone result (waiting (trunk.now, peer.now) entry effects entries.now ≡ []) }
{
    let mut from = effects;
    for at in entry..entries.len() {
        if let Some((frame, behind)) = first_sent(
            effects_of(&entries[at].answer),
            from,
            trunk,
            peer,
        ) {
            return Some(Next {
                stamp: entries[at].stamp,
                frame,
                entry: at,
                effects: behind,
            });
        }
        from = 0;
    }
    None
}
