//! The nodes that an event may give something to do.
ghost use Rattle.std.specs.Prelude.{◌≡◌, ◌≤◌, length, map, position};
ghost use Rattle.std.specs.List.{list_any, position_or_len};
ghost use Rattle.dist_model.specs.World.{Report as TheReport};
ghost use Rattle.node_frames.specs.Frames.{shown};
ghost use Rattle.run_traces.specs.Traces.{effects_of};
ghost use Rattle.script_session.specs.Touched.{is_sent_to, is_touched};
ghost use Rattle.world_core.specs.Names.{name_of, names_of};
ghost use Rattle.node_core.specs.Told.{Tells};

use dist_model::Effect;
use erl_term::Atom;
use node_frames::same_name;
use world_core::{Answered, Frame, Node};

// Returns the effects of an event, none if it was refused.
fn effects_of(came: &Answered) -> &[Effect<Frame>]
    ensures { (report : TheReport) → Tells came.now report → result.now ≡ map shown (effects_of report) }
{
    match came {
        Ok(report) => &report.effects,
        Err(_) => &[],
    }
}

// Returns true if an effect is an item sent on a connection to the node of a name.
fn is_sent_to(effect: &Effect<Frame>, name: &Atom) -> bool
    ensures { result ≡ is_sent_to name.now effect.now }
{
    match effect {
        Effect::Sent {
            trunk: Some(_),
            peer,
            item: _,
        } => same_name(peer.atom(), name),
        _ => false,
    }
}

// Returns true if one of the effects is an item sent on a connection to the node of a name.
fn is_any_sent_to(effects: &[Effect<Frame>], name: &Atom) -> bool
    ensures { result ≡ list_any (is_sent_to name.now) effects.now }
{
    effects.iter().any(|effect| is_sent_to(effect, name))
}

// Returns true if an event at `node` with these effects may give the node of a name something to do.
fn is_touched(node: &Atom, effects: &[Effect<Frame>], name: &Atom) -> bool
    ensures { result ≡ is_touched node.now effects.now name.now }
{
    same_name(name, node) || is_any_sent_to(effects, name)
}

// Returns the place of the first node that an event at `node` with these effects touches.
fn first_touched(nodes: &[Node], node: &Atom, effects: &[Effect<Frame>]) -> Option<usize>
    ensures { result ≡ position (λ it. is_touched node.now effects.now (name_of it)) nodes.now }
{
    nodes
        .iter()
        .position(|it| is_touched(node, effects, it.name().atom()))
}

/// Counts the nodes before the first one that an event touches: the node of the event itself, named
/// `node`, or a node to which `came` tells that it sent an item on a connection.
pub(crate) fn count_untouched(nodes: &[Node], node: &Atom, came: &Answered) -> usize
    ensures exact { (report : TheReport) → Tells came.now report →
        result ≡ position_or_len (is_touched node.now (effects_of report)) (names_of nodes.now) }
    ensures within { result ≤ length nodes.now }
{
    first_touched(nodes, node, effects_of(came)).unwrap_or(nodes.len())
}
