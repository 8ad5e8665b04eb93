//! The event of a line.
ghost use Rattle.std.specs.Prelude.{◌≡◌, IfOk, IfSome, Some};
ghost use Rattle.dist_model.specs.World.{Arrive};
ghost use Rattle.node_core.specs.NodeEvents.{event_at};
ghost use Rattle.script_lines.specs.Said.{said, trunk_of};
ghost use Rattle.script_session.specs.Connections.{delivers_on, loses_on};
ghost use Rattle.script_session.specs.Events.{IsJust, normal};
ghost use Rattle.script_session.specs.Session.{moves};
ghost use Rattle.script_session.specs.Stage.{Stage as TheStage};
ghost use Rattle.script_session.specs.Stands.{IsStage};

use crate::connections::trunk_of;
use crate::pairs::node_name;
use crate::stage::Stage;
use dist_model::Command;
use erl_names::TrunkId;
use erl_term::{Atom, Refusal};
use script_lines::{Connection, Line};
use std::alloc::{AllocError, Global};
use world_core::NodeEvent;

// Returns an event, and the name of its node.
fn at(alloc: Global, node: &str, event: NodeEvent) -> Result<Option<(Atom, NodeEvent)>, AllocError>
    ensures { IfOk result (λ own. own ≡ Some (node.now, event)) }
{
    match node_name(alloc, node) {
        Ok(name) => match name.atom().clone() {
            Ok(name) => Ok(Some((name, event))),
            Err(e) => {
                drop(event);
                Err(e)
            }
        },
        Err(e) => {
            drop(event);
            Err(e)
        }
    }
}

impl Stage {
    // Returns the arrival of the next item on a connection. It has the next challenge if the connection is new to
    // the node, else 0.
    fn arrival(&self, node: &Atom, trunk: TrunkId) -> NodeEvent
        ensures { (it : TheStage) → IsStage self.now it → event_at node.now result ≡ normal it.world (Arrive trunk node.now it.word) }
    {
        let word = if self.is_new(node, &trunk) {
            self.word
        } else {
            0
        };
        NodeEvent::Arrive { trunk, word }
    }

    // Returns the event of a line that delivers an item of a connection. Returns [`None`] if the connection doesn't
    // lead to the peer.
    fn delivery(
        &self,
        alloc: Global,
        node: &str,
        peer: &str,
        connection: Connection,
    ) -> Result<Option<(Atom, NodeEvent)>, AllocError>
        ensures { (it : TheStage) → IsStage self.now it →
            IfOk result (λ own. IfSome own (λ found. IsJust (delivers_on (trunk_of connection.entry) node.now peer.now) it (event_at found.0 found.1))) }
    {
        let (name, peer) = (node_name(alloc, node)?, node_name(alloc, peer)?);
        let trunk = trunk_of(alloc, connection)?;
        match self.leading(&name, &peer, trunk, Refusal::NothingThere) {
            Ok(trunk) => at(alloc, node, self.arrival(name.atom(), trunk)),
            Err(_) => Ok(None),
        }
    }

    // Returns the event of a line that loses a connection. Returns [`None`] if the connection doesn't lead to the
    // peer.
    fn loss(
        &self,
        alloc: Global,
        node: &str,
        peer: &str,
        connection: Connection,
    ) -> Result<Option<(Atom, NodeEvent)>, AllocError>
        ensures { (it : TheStage) → IsStage self.now it →
            IfOk result (λ own. IfSome own (λ found. IsJust (loses_on (trunk_of connection.entry) node.now peer.now) it (event_at found.0 found.1))) }
    {
        let (name, peer) = (node_name(alloc, node)?, node_name(alloc, peer)?);
        let trunk = trunk_of(alloc, connection)?;
        match self.leading(&name, &peer, trunk, Refusal::NotLive) {
            Ok(trunk) => at(alloc, node, NodeEvent::Lose(trunk)),
            Err(_) => Ok(None),
        }
    }

    /// Returns the event of a line that asks nothing of a process's node, and the name of its node. Returns
    /// [`None`] for a line that brings about none or several.
    ///
    /// # Errors
    /// [`AllocError`] if out of memory.
    pub(crate) fn event_of(
        &self,
        alloc: Global,
        line: Line,
    ) -> Result<Option<(Atom, NodeEvent)>, AllocError>
        ensures { (it : TheStage) → IsStage self.now it →
            IfOk result (λ own. IfSome own (λ found. IsJust (moves (said line.entry)) it (event_at found.0 found.1))) }
    {
        match line {
            Line::Spawn { node, .. } => at(alloc, node, NodeEvent::Call(Command::Spawn)),
            Line::Dial { node, peer } => {
                let peer = node_name(alloc, peer)?;
                let word = self.word;
                at(alloc, node, NodeEvent::Dial { peer, word })
            }
            Line::Lose {
                node,
                peer,
                connection: Some(connection),
            } => self.loss(alloc, node, peer, connection),
            Line::Stop { node } => at(alloc, node, NodeEvent::Stop),
            Line::Start { node } => at(alloc, node, NodeEvent::Start),
            Line::Deliver {
                node,
                peer,
                connection: Some(connection),
            } => self.delivery(alloc, node, peer, connection),
            Line::Local { node } => at(alloc, node, NodeEvent::Local),
            Line::Sweep { node } => at(alloc, node, NodeEvent::Sweep),
            _ => Ok(None),
        }
    }
}
