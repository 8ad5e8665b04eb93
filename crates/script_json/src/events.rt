//! The events at a node, in JSON.
ghost use Rattle.std.specs.Prelude.{◌≡◌, IfOk, codes};
ghost use Rattle.script_json.specs.Events.{event_data, joined_data, profile_number};
ghost use Rattle.serde_json.specs.View.{view};
ghost use Rattle.node_core.specs.declared.node_event.NodeEvent.TheVariants as event;

use crate::commands::command;
use crate::objects::{told, told_kind};
use crate::texts::printed_trunk;
use erl_handshake::Profile;
use erl_names::{NodeName, TrunkId};
use node_core::NodeEvent;
use serde_json::{Value, json};
use std::alloc::{AllocError, Global};

fn lose(alloc: Global, trunk: &TrunkId) -> Result<Value, AllocError>
    ensures { IfOk result (λ v. view v ≡ event_data (event.Lose trunk.now)) }
{
    let trunk = Value::String(printed_trunk(alloc, trunk)?);
    told(alloc, "lose", "trunk", trunk)
}

fn arrive(alloc: Global, trunk: &TrunkId, word: u32) -> Result<Value, AllocError>
    ensures { IfOk result (λ v. view v ≡ event_data (event.Arrive trunk.now word)) }
{
    let trunk = Value::String(printed_trunk(alloc, trunk)?);
    json!(in alloc; {"challenge": word, "kind": "arrive", "trunk": trunk})
}

fn dial(alloc: Global, peer: &NodeName, word: u32) -> Result<Value, AllocError>
    ensures { IfOk result (λ v. view v ≡ event_data (event.Dial peer.now word)) }
{
    json!(in alloc; {"challenge": word, "kind": "dial", "peer": peer.text()})
}

/// Returns an event at a node, with the words of scripts for the requests of callers. It is an object, with
/// the kind of the event as its member `kind`, and the parameters of the event as its other members.
///
/// # Errors
/// [`AllocError`] if out of memory.
pub fn event(alloc: Global, event: &NodeEvent) -> Result<Value, AllocError>
    ensures { IfOk result (λ v. view v ≡ event_data event.now) }
{
    match event {
        NodeEvent::Call(asked) => command(alloc, asked),
        NodeEvent::Arrive { trunk, word } => arrive(alloc, trunk, *word),
        NodeEvent::Local => told_kind(alloc, "local"),
        NodeEvent::Lose(trunk) => lose(alloc, trunk),
        NodeEvent::Sweep => told_kind(alloc, "sweep"),
        NodeEvent::Dial { peer, word } => dial(alloc, peer, *word),
        NodeEvent::Stop => told_kind(alloc, "stop"),
        NodeEvent::Start => told_kind(alloc, "start"),
    }
}

// Returns the number of a profile in scripts.
fn profile_number(profile: Profile) -> u32
    ensures { result ≡ profile_number profile }
{
    match profile {
        Profile::One => 1,
        Profile::Two => 2,
        Profile::Three => 3,
    }
}

/// Returns the object of a node that comes into the world of a script.
pub(crate) fn joined(alloc: Global, cookie: &str, profile: Profile) -> Result<Value, AllocError>
    ensures { IfOk result (λ v. view v ≡ joined_data cookie.now profile) }
{
    let number = profile_number(profile);
    json!(in alloc; {"cookie": cookie, "kind": "node", "profile": number})
}
