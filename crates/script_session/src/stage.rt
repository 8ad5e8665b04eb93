//! The stage of a script: its world, and the text that is printed of an event there.
ghost use Rattle.std.specs.Prelude.{◌≡◌, ◌++◌, ℕ, IfOk, OnOk, string_bytes, if◌then◌else◌};
ghost use Rattle.std.specs.Option.{option_copied};
ghost use Rattle.dist_model.specs.World.{Arrive, Report as TheReport};
ghost use Rattle.run_traces.specs.Breaks.{source};
ghost use Rattle.script_session.specs.Stage.{Stage as TheStage, after, came_text, happens, next_word, takes_word};
ghost use Rattle.script_session.specs.Stands.{Applied, Happened, IsKept, IsStage, Moved, Plays};
ghost use Rattle.node_core.specs.Told.{Tells};
ghost use Rattle.node_core.specs.NodeEvents.{event_at};
ghost use Rattle.node_core.specs.declared.node_event.NodeEvent.{NodeEvent as TheEvent};

use crate::made::{Made, made_by};
use crate::telling::Telling;
use erl_names::TrunkId;
use erl_term::{Atom, Refusal};
use run_traces::{Breaks, Trace, put_trace, source_of};
use script_texts::{put_answer, put_refused};
use std::alloc::{AllocError, Global};
use world_core::{Answered, NodeEvent, World};

/// The world of a script, the next challenge, the form in which the items that are sent are printed, the
/// connections that have broken, and the telling of the events.
#[derive(Drop)]
pub(crate) struct Stage {
    pub(crate) world: World,
    pub(crate) word: u32,
    pub(crate) trace: Trace,
    pub(crate) breaks: Breaks,
    pub(crate) telling: Telling,
}

// Returns the challenge behind this one if this one is taken, or else this one.
fn drawn(word: u32, is_taken: bool) -> u32
    ensures { result ≡ (if is_taken then next_word word else word) }
{
    if is_taken { word.wrapping_add(1) } else { word }
}

// Returns the outcome of an event, unless memory was wanting.
fn kept(came: Answered) -> Result<Answered, AllocError>
    ensures { IfOk result (IsKept came) }
{
    match came {
        Err(why) if why == Refusal::OutOfMemory => Err(AllocError),
        Err(why) => Ok(Err(why)),
        Ok(report) => Ok(Ok(report)),
    }
}

// Prints the outcome of an event.
fn put_came(out: &mut String, node: &str, came: &Answered) -> Result<(), AllocError>
    ensures { (report : TheReport) → Tells came.now report → OnOk result (string_bytes out.new ≡ string_bytes out.old ++ came_text node.now report) }
{
    match came {
        Ok(report) => put_answer(out, node, &report.answer),
        Err(why) => put_refused(out, *why),
    }
}

impl Stage {
    /// Returns a stage that stands for the same one. It tells no events, and draws no picture.
    ///
    /// # Errors
    /// [`AllocError`] if out of memory.
    pub(crate) fn copy(&self, alloc: Global) -> Result<Stage, AllocError>
        ensures { (it : TheStage) → IsStage self.now it → IfOk result (λ copy. IsStage copy it) }
    {
        Ok(Stage {
            world: self.world.copy(alloc)?,
            word: self.word,
            trace: self.trace,
            breaks: self.breaks.copy(alloc)?,
            telling: Telling::off(alloc),
        })
    }

    /// Returns true if a connection is new to a node.
    pub(crate) fn is_new(&self, node: &Atom, trunk: &TrunkId) -> bool
        ensures { (it : TheStage) → IsStage self.now it → (word : ℕ) → result ≡ takes_word it.world (Arrive trunk.now node.now word) }
    {
        match self.world.node(node) {
            Some(node) => node.side(trunk).is_none(),
            None => true,
        }
    }

    // Returns true if an event takes a challenge.
    fn takes_word(&self, node: &Atom, event: &NodeEvent) -> bool
        ensures { (it : TheStage) → IsStage self.now it → result ≡ takes_word it.world (event_at node.now event.now) }
    {
        match event {
            NodeEvent::Dial { .. } => true,
            NodeEvent::Arrive { trunk, .. } => self.is_new(node, trunk),
            _ => false,
        }
    }

    // Applies an event at the node of a name, and tells it, if events are to be told. Prints nothing.
    fn apply(
        &mut self,
        alloc: Global,
        node: &Atom,
        event: NodeEvent,
    ) -> Result<Answered, AllocError>
        ensures { (it : TheStage) → IsStage self.old it → IfOk result (Applied (event_at node.now event) it self.new) }
    {
        let begun = self.telling.begin(alloc, &event)?;
        let came = self.world.apply_at(alloc, node, event);
        self.telling.end(alloc, node.text(), begun, &came)?;
        kept(came)
    }

    // Prints the trace of an event that has happened, and notes the connection that it broke. `peer` is the
    // node from which an item came in it.
    fn tell(
        &mut self,
        alloc: Global,
        node: &Atom,
        peer: Option<&Atom>,
        came: &Answered,
        out: &mut String,
    ) -> Result<(), AllocError>
        ensures { (it : TheStage) (event : TheEvent) → Applied (event_at node.now event) it self.old came.now →
            option_copied peer.entry ≡ source it.world (event_at node.now event) →
            OnOk result (Moved (event_at node.now event) it self.new (string_bytes out.old) (string_bytes out.new) came.now) }
    {
        put_trace(alloc, out, self.trace, node.text(), peer, came)?;
        self.breaks.follow(node, peer, came)
    }

    // Does so, and returns the outcome.
    fn told(
        &mut self,
        alloc: Global,
        node: &Atom,
        peer: Option<&Atom>,
        came: Answered,
        out: &mut String,
    ) -> Result<Answered, AllocError>
        ensures { (it : TheStage) (event : TheEvent) → Applied (event_at node.now event) it self.old came →
            option_copied peer.entry ≡ source it.world (event_at node.now event) →
            IfOk result (Moved (event_at node.now event) it self.new (string_bytes out.old) (string_bytes out.new)) }
    {
        match self.tell(alloc, node, peer, &came, out) {
            Ok(()) => Ok(came),
            Err(e) => {
                drop(came);
                Err(e)
            }
        }
    }

    // Applies an event in which an item comes from this peer, if one does, and prints its trace.
    fn step_from(
        &mut self,
        alloc: Global,
        node: &Atom,
        peer: Option<&Atom>,
        event: NodeEvent,
        out: &mut String,
    ) -> Result<Answered, AllocError>
        ensures { (it : TheStage) → IsStage self.old it → option_copied peer.entry ≡ source it.world (event_at node.now event) →
            IfOk result (Moved (event_at node.now event) it self.new (string_bytes out.old) (string_bytes out.new)) }
    {
        match self.apply(alloc, node, event) {
            Ok(came) => self.told(alloc, node, peer, came, out),
            Err(e) => Err(e),
        }
    }

    // Applies an event at the node of a name, under the next challenge, and tells it, if events are to be
    // told. Prints its trace.
    fn step(
        &mut self,
        alloc: Global,
        node: &Atom,
        event: NodeEvent,
        out: &mut String,
    ) -> Result<Answered, AllocError>
        ensures { (it : TheStage) → IsStage self.old it →
            IfOk result (Moved (event_at node.now event) it self.new (string_bytes out.old) (string_bytes out.new)) }
    {
        match source_of(&self.world, node, &event) {
            Ok(peer) => {
                let came = self.step_from(alloc, node, peer.as_ref(), event, out);
                drop(peer);
                came
            }
            Err(e) => {
                drop(event);
                Err(e)
            }
        }
    }

    /// Applies an event at the node of a name, and prints its trace.
    ///
    /// # Errors
    /// [`AllocError`] if out of memory.
    pub(crate) fn happen(
        &mut self,
        alloc: Global,
        node: &Atom,
        event: NodeEvent,
        out: &mut String,
    ) -> Result<Answered, AllocError>
        ensures { (it : TheStage) → IsStage self.old it →
            IfOk result (Happened (event_at node.now event) it self.new (string_bytes out.old) (string_bytes out.new)) }
    {
        let takes_word = self.takes_word(node, &event);
        let came = self.step(alloc, node, event, out)?;
        self.word = drawn(self.word, takes_word);
        Ok(came)
    }

    /// Applies an event at the node of a name. Prints nothing.
    ///
    /// # Errors
    /// [`AllocError`] if out of memory.
    pub(crate) fn pass(
        &mut self,
        alloc: Global,
        node: &Atom,
        event: NodeEvent,
    ) -> Result<(), AllocError>
        ensures { (it : TheStage) → IsStage self.old it → OnOk result (IsStage self.new (after it (event_at node.now event))) }
    {
        let mut unseen = String::new(alloc);
        drop(self.happen(alloc, node, event, &mut unseen)?);
        Ok(())
    }

    /// Applies an event at the node of a name, and prints all of it.
    ///
    /// # Errors
    /// [`AllocError`] if out of memory.
    pub(crate) fn act(
        &mut self,
        alloc: Global,
        node: &Atom,
        event: NodeEvent,
        out: &mut String,
    ) -> Result<Made, AllocError>
        ensures { (it : TheStage) → IsStage self.old it →
            IfOk result (Plays (happens (event_at node.now event) it) self.new (string_bytes out.old) (string_bytes out.new)) }
    {
        let came = self.happen(alloc, node, event, out)?;
        put_came(out, node.text(), &came)?;
        Ok(made_by(came))
    }
}
