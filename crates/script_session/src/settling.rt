//! The events that happen of their own accord.
ghost use Rattle.std.specs.Prelude.{◌≡◌, ◌≤◌, IfOk, OnOk, Some, is_some, map, not, string_bytes, vec_len};
ghost use Rattle.std.specs.Option.{option_map};
ghost use Rattle.node_core.specs.Model.{model_of};
ghost use Rattle.script_session.specs.Stage.{Stage as TheStage};
ghost use Rattle.script_session.specs.Stands.{IsStage, Plays};
ghost use Rattle.script_session.specs.Touched.{AreIdle, Turned};
ghost use Rattle.script_session.specs.Turns.{event_of, first_turn, settles, turn, turn_at};
ghost use Rattle.script_session.specs.declared.made.Made.{Made};
ghost use Rattle.node_core.specs.NodeEvents.{event_at};

use crate::stage::Stage;
use crate::touching::count_untouched;
use crate::turn::Turn;
use erl_term::Atom;
use script_texts::put_settled;
use std::alloc::{AllocError, Global};
use world_core::{Node, NodeEvent};

/// The most turns of one `settle`.
const MOST_TURNS: u32 = 1_000_000;

impl Stage {
    // Returns the event that may happen at a node, if one may.
    fn turn_at(&self, node: &Node) -> Result<Option<Turn>, AllocError>
        ensures { (it : TheStage) → IsStage self.now it →
            IfOk result (λ next. option_map (λ next. event_at (model_of node.now).mint.name (event_of it.word next)) next
            ≡ turn_at it.world it.word (model_of node.now)) }
    {
        if !node.is_up() {
            return Ok(None);
        }
        if node.has_local() {
            return Ok(Some(Turn::Local));
        }
        if node.is_losing() {
            return Ok(Some(Turn::Sweep));
        }
        match self.world.next_arrival(node, None) {
            Some(trunk) => Ok(Some(Turn::Arrive(trunk.clone()?))),
            None => Ok(None),
        }
    }

    // Returns the event that may happen at the first of some nodes at which one may.
    fn first_turn(&self, nodes: &[Node]) -> Result<Option<(Atom, Turn)>, AllocError>
        ensures { (it : TheStage) → IsStage self.now it →
            IfOk result (λ found. option_map (λ next. event_at next.0 (event_of it.word next.1)) found
            ≡ first_turn it.world it.word (map model_of nodes.now)) }
    {
        for node in nodes {
            if let Some(next) = self.turn_at(node)? {
                return Ok(Some((node.name().atom().clone()?, next)));
            }
        }
        Ok(None)
    }

    // Returns the event that may happen at the first node at which one may. Nothing may happen at the first
    // `idle` nodes.
    fn turn(&self, idle: usize) -> Result<Option<(Atom, Turn)>, AllocError>
        requires { idle ≤ vec_len self.now.world.nodes }
        ensures { (it : TheStage) → IsStage self.now it → AreIdle it idle →
            IfOk result (λ found. option_map (λ next. event_at next.0 (event_of it.word next.1)) found ≡ turn it) }
    {
        let nodes = self.world.nodes();
        self.first_turn(&nodes[idle..])
    }

    // Returns true if nothing may happen any more. Nothing may at the first `idle` nodes.
    fn is_settled(&self, idle: usize) -> Result<bool, AllocError>
        requires { idle ≤ vec_len self.now.world.nodes }
        ensures { (it : TheStage) → IsStage self.now it → AreIdle it idle →
            IfOk result (λ settled. settled ≡ not (is_some (turn it))) }
    {
        match self.turn(idle)? {
            Some((node, next)) => {
                drop(node);
                drop(next);
                Ok(false)
            }
            None => Ok(true),
        }
    }

    // Applies the next event, and prints the frames that it sends, if frames are to be printed. Returns the
    // number of nodes before the first one that it touches.
    fn take_turn(
        &mut self,
        alloc: Global,
        node: &Atom,
        event: NodeEvent,
        out: &mut String,
    ) -> Result<usize, AllocError>
        ensures turned { (it : TheStage) → IsStage self.old it → turn it ≡ Some (event_at node.now event) →
            IfOk result (Turned (event_at node.now event) it self.new (string_bytes out.old) (string_bytes out.new)) }
        ensures within { IfOk result (λ idle. idle ≤ vec_len self.new.world.nodes) }
    {
        let came = self.happen(alloc, node, event, out)?;
        let idle = count_untouched(self.world.nodes(), node, &came);
        drop(came);
        Ok(idle)
    }

    /// Applies the events that may happen, one after the other, until none may any more, or there were
    /// 1,000,000. Prints the frames that they send, if frames are to be printed, and then `settled`, or
    /// `busy` if an event may still happen.
    ///
    /// # Errors
    /// Where memory is wanting.
    pub(crate) fn settle(&mut self, alloc: Global, out: &mut String) -> Result<(), AllocError>
        ensures { (it : TheStage) → IsStage self.old it →
            OnOk result (Plays (settles 1000000 it) self.new (string_bytes out.old) (string_bytes out.new) Made.Nothing) }
    {
        let mut left = MOST_TURNS;
        // Nothing may happen at so many of the first nodes.
        let mut idle = 0;
        while left > 0 {
            match self.turn(idle)? {
                Some((node, next)) => {
                    let event = next.event(self.word);
                    idle = self.take_turn(alloc, &node, event, out)?;
                }
                None => return put_settled(out, true),
            }
            left -= 1;
        }
        let is_settled = self.is_settled(idle)?;
        put_settled(out, is_settled)
    }
}
