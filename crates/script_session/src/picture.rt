//! The diagram of a script's events, if one is drawn.
ghost use Rattle.std.specs.Prelude.{◌≡◌, None, IfOk, OnOk};
ghost use Rattle.script_session.specs.Telling.{IsDrawing, IsTaken};

use crate::made::Made;
use crate::pairs::{FIRST, SECOND, first_process, node_name};
use diagram::{Diagram, Tone};
use dist_model::Report;
use erl_names::TrunkId;
use erl_term::{Pid, Refusal};
use run_diagrams::{LineRange, Recorder};
use script_lines::Line;
use script_terms::Named;
use script_texts::put_route;
use std::alloc::{AllocError, Global};
use world_core::{Frame, NodeEvent, World};

/// The title of a picture.
const TITLE: &str = "A run of Erlang nodes";

/// A picture of the events, if one is drawn.
#[derive(Drop)]
pub(crate) struct Picture {
    recorder: Option<Recorder>,
}

// Records the two ends of the link between two processes.
fn put_ends(
    alloc: Global,
    recorder: &mut Recorder,
    world: &World,
    first: &Pid,
    second: &Pid,
) -> Result<(), AllocError> {
    let (of_first, of_second) = world.ends(first, second);
    recorder.ends(alloc, (first, of_first), (second, of_second))
}

// Records the connection of a node to a peer that is up, on the lane of the node.
fn note_route(
    alloc: Global,
    recorder: &mut Recorder,
    node: &str,
    route: Option<&TrunkId>,
) -> Result<(), AllocError> {
    let mut text = String::new(alloc);
    put_route(&mut text, route)?;
    recorder.note(alloc, node, Tone::Plain, text.as_str().trim_end())
}

// Records the same, or the reason why there is none.
fn put_routes(
    alloc: Global,
    recorder: &mut Recorder,
    world: &World,
    node: &str,
    peer: &str,
) -> Result<(), AllocError> {
    let (here, there) = (node_name(alloc, node)?, node_name(alloc, peer)?);
    match world.node(here.atom()) {
        None => recorder.refused(alloc, Refusal::NothingThere),
        Some(it) if !it.is_up() => recorder.refused(alloc, Refusal::NodeDown),
        Some(it) => note_route(alloc, recorder, node, it.route(there.atom())),
    }
}

// Records a line of which no event tells the outcome.
fn put_line(
    alloc: Global,
    recorder: &mut Recorder,
    world: &World,
    line: Line,
) -> Result<(), AllocError> {
    match line {
        Line::Node { .. } => recorder.hush(),
        Line::Ends { first, second } => put_ends(alloc, recorder, world, first, second)?,
        Line::Route { node, peer } => put_routes(alloc, recorder, world, node, peer)?,
        Line::Spawn { .. } | Line::Settle | Line::Show { .. } => recorder.fold(alloc)?,
        Line::Monitors { .. } | Line::Travels { .. } | Line::Why { .. } => recorder.fold(alloc)?,
        _ => {}
    }
    recorder.rest(alloc)
}

// Records the name of a new process or monitor.
fn put_names(
    alloc: Global,
    recorder: &mut Recorder,
    name: &str,
    made: &Made,
) -> Result<(), AllocError> {
    match made {
        Made::One(Named::Process(process)) => recorder.add_process(alloc, process, name),
        Made::One(Named::Monitor(reference)) => recorder.add_reference(alloc, reference, name),
        Made::Pair => {
            recorder.add_process(alloc, &first_process(alloc, FIRST)?, "p")?;
            recorder.add_process(alloc, &first_process(alloc, SECOND)?, "q")
        }
        _ => Ok(()),
    }
}

impl Picture {
    /// Creates a picture that draws nothing.
    pub(crate) fn off() -> Picture
        ensures { result.recorder ≡ None }
    {
        Picture { recorder: None }
    }

    /// Begins to draw each later event of these lines.
    ///
    /// # Errors
    /// [`AllocError`] if out of memory, as of each call below.
    pub(crate) fn begin(&mut self, alloc: Global, lines: LineRange) -> Result<(), AllocError>
        ensures { OnOk result (IsDrawing self.new.recorder) }
    {
        self.recorder = Some(Recorder::new(alloc, TITLE, lines)?);
        Ok(())
    }

    /// Returns the diagram of the events so far, an empty one if none was drawn, and draws no more.
    pub(crate) fn taken(&mut self, alloc: Global) -> Result<Diagram, AllocError>
        ensures taken { IfOk result (λ diagram. IsTaken self.old.recorder diagram) }
        ensures ended { self.new.recorder ≡ None }
    {
        match self.recorder.take() {
            Some(recorder) => recorder.finish(alloc),
            None => Recorder::new(alloc, TITLE, LineRange::all())?.finish(alloc),
        }
    }

    /// Puts a line that is to run at the left of the next row. It is the line of this number, from 1.
    pub(crate) fn say(
        &mut self,
        alloc: Global,
        number: u64,
        line: &[u8],
    ) -> Result<(), AllocError> {
        match (&mut self.recorder, std::str::from_utf8(line)) {
            (Some(recorder), Ok(text)) => recorder.say_line(alloc, number, text.trim()),
            _ => Ok(()),
        }
    }

    /// Returns the connection of an arrival or of a loss, if a picture is drawn.
    pub(crate) fn trunk_of(&self, happens: &NodeEvent) -> Result<Option<TrunkId>, AllocError> {
        if self.recorder.is_none() {
            return Ok(None);
        }
        match happens {
            NodeEvent::Arrive { trunk, .. } | NodeEvent::Lose(trunk) => Ok(Some(trunk.clone()?)),
            _ => Ok(None),
        }
    }

    /// Records an event at the node of this name, or its refusal.
    pub(crate) fn happened(
        &mut self,
        alloc: Global,
        node: &str,
        trunk: Option<&TrunkId>,
        came: &Result<Report<Frame>, Refusal>,
    ) -> Result<(), AllocError> {
        match &mut self.recorder {
            Some(recorder) => recorder.happened(alloc, node, trunk, came),
            None => Ok(()),
        }
    }

    /// Records the refusal of a line at which no event happened.
    pub(crate) fn refused(&mut self, alloc: Global, why: Refusal) -> Result<(), AllocError> {
        match &mut self.recorder {
            Some(recorder) => recorder.refused(alloc, why),
            None => Ok(()),
        }
    }

    /// Adds a lane for a node.
    pub(crate) fn join(&mut self, alloc: Global, node: &str) -> Result<(), AllocError> {
        match &mut self.recorder {
            Some(recorder) => recorder.add_node(alloc, node),
            None => Ok(()),
        }
    }

    /// Records a line that has run, and the name of the process or the monitor that it made.
    pub(crate) fn ran(
        &mut self,
        alloc: Global,
        world: &World,
        line: Line,
        name: &str,
        made: &Made,
    ) -> Result<(), AllocError> {
        match &mut self.recorder {
            Some(recorder) => {
                put_line(alloc, recorder, world, line)?;
                put_names(alloc, recorder, name, made)
            }
            None => Ok(()),
        }
    }
}
