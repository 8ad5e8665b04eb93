//! The session of a script.
ghost use Rattle.std.specs.Prelude.{◌≡◌, ◌+◌, ◌-◌, ◌<◌, ◌^◌, [], true, false, None, IfOk, IfSome, OnOk, drop, string_bytes};
ghost use Rattle.node_core.specs.NodeEvents.{event_at};
ghost use Rattle.run_traces.specs.Breaks.{broken_by};
ghost use Rattle.script_lines.specs.Replies.{is_met, reply_after};
ghost use Rattle.script_lines.specs.Lines.{ReadsSome, line_says};
ghost use Rattle.script_lines.specs.Said.{said};
ghost use Rattle.script_session.specs.Events.{IsEventOf};
ghost use Rattle.script_session.specs.Session.{State, binds, fresh_state, is_taken, may_come, new_name, plays, starts};
ghost use Rattle.script_session.specs.Stage.{Stage as TheStage};
ghost use Rattle.script_session.specs.Stands.{Compares, IsOpening, IsStage, IsSession, Obeys, Plays};
ghost use Rattle.script_session.specs.Telling.{IsDrawing, IsTaken};
ghost use Rattle.script_terms.specs.Binding.{Knows, Look};
ghost use Rattle.world_core.specs.Names.{names_of};
ghost use Rattle.world_core.specs.Stands.{StandsFor};

use crate::made::Made;
use crate::pairs::{FIRST, SECOND, first_process};
use crate::playing::{asked, is_taken, new_name, starts};
use crate::stage::Stage;
use crate::telling::Telling;
use diagram::Diagram;
use erl_term::Atom;
use run_diagrams::LineRange;
use run_traces::{Breaks, Trace};
use script_lines::{Line, MayCome, Reason, Reply, expected, put_advice, read_line};
use script_terms::{Named, Names};
use std::alloc::{AllocError, Global};
use world_core::{NodeEvent, World};

/// The most nodes of a script.
pub const MOST_NODES: usize = 64;

/// The reason why a line isn't run.
#[derive(Clone, Copy, Debug, PartialEq, Eq)]
pub enum Stop {
    /// It is a bad line.
    Bad(Reason),
    /// Memory is wanting.
    OutOfMemory,
}

/// A script of which some lines have run: its world, the meanings of its names, and the last reply.
#[derive(Drop)]
pub struct Session {
    stage: Stage,
    names: Names,
    reply: Reply,
    started: bool,
}

// Returns the bytes behind the first so many, none if there are fewer.
fn bytes_behind(bytes: &[u8], count: usize) -> &[u8]
    ensures { result.now ≡ drop count bytes.now }
{
    match bytes.get(count..) {
        Some(behind) => behind,
        None => &[],
    }
}

// Carries out a line's command, and returns the thing that it makes with the name that the line gives to it.
fn carry_out(
    alloc: Global,
    stage: &mut Stage,
    names: &Names,
    text: &[u8],
    line: Line,
    out: &mut String,
) -> Result<(String, Made), AllocError>
    requires { is_taken (said line) (names_of stage.old.world.nodes.items) ≡ false }
    ensures name { IfOk result (λ named. string_bytes named.0 ≡ new_name (said line.entry)) }
    ensures played { (it : TheStage) (look : Look) → IsStage stage.old it → Knows names.now look → (starts (said line.entry) ≡ false → IsOpening it.world) →
        IfOk result (λ named. Plays (plays look (said line.entry) it) stage.new (string_bytes out.old) (string_bytes out.new) named.1) }
{
    let number = stage.telling.line;
    stage.telling.picture.say(alloc, number, text)?;
    let name = new_name(alloc, line)?;
    let made = stage.play(alloc, names, line, out)?;
    stage
        .telling
        .picture
        .ran(alloc, &stage.world, line, name.as_str(), &made)?;
    Ok((name, made))
}

/// Binds a name to the thing that a command has made.
///
/// # Errors
/// Where memory is wanting.
pub fn bind(alloc: Global, names: &mut Names, name: String, made: Made) -> Result<(), AllocError>
    ensures { (look : Look) → Knows names.old look → OnOk result (Knows names.new (binds (string_bytes name) made look)) }
{
    match made {
        Made::Nothing => Ok(()),
        Made::One(named) => {
            names.reserve()?;
            names.put(name, named);
            Ok(())
        }
        Made::Pair => {
            names.bind(alloc, "p", Named::Process(first_process(alloc, FIRST)?))?;
            names.bind(alloc, "q", Named::Process(first_process(alloc, SECOND)?))
        }
    }
}

/// Compares the last reply with the words that a line expects.
///
/// # Errors
/// [`Stop::Bad`] with [`Reason::Unmet`] if they aren't the reply; [`Stop::OutOfMemory`].
pub fn compare(alloc: Global, reply: &Reply, names: &Names, words: &str) -> Result<(), Stop>
    ensures { (look : Look) → Knows names.now look → Compares (is_met look reply.now.line.items words.now) result }
{
    match reply.is(alloc, names, words) {
        Ok(true) => Ok(()),
        Ok(false) => Err(Stop::Bad(Reason::Unmet)),
        Err(_) => Err(Stop::OutOfMemory),
    }
}

impl Session {
    /// Creates a session before its first line, which prints the items that are sent in the form of `trace`.
    /// The first challenge of a handshake is the seed, and each next one is greater by 1. Never allocates.
    pub fn new(alloc: Global, trace: Trace, seed: u32) -> Session
        ensures { IsSession result (fresh_state trace seed) }
    {
        Session {
            stage: Stage {
                world: World::empty(alloc),
                word: seed,
                trace,
                breaks: Breaks::new(alloc),
                telling: Telling::off(alloc),
            },
            names: Names::new(alloc),
            reply: Reply::new(alloc),
            started: false,
        }
    }

    /// Returns a session that stands for the same state. It has memory of its own: a line of one changes
    /// nothing of the other. It tells no events, and draws no picture.
    ///
    /// # Errors
    /// [`AllocError`] if out of memory.
    pub fn copy(&self, alloc: Global) -> Result<Session, AllocError>
        ensures { (state : State) → IsSession self.now state → IfOk result (λ copy. IsSession copy state) }
    {
        Ok(Session {
            stage: self.stage.copy(alloc)?,
            names: self.names.copy(alloc)?,
            reply: self.reply.copy(alloc)?,
            started: self.started,
        })
    }

    /// Returns the world after the lines that have run.
    pub fn world(&self) -> &World
        ensures { (state : State) → IsSession self.now state → StandsFor result.now state.stage.world }
    {
        &self.stage.world
    }

    /// Returns the next challenge of a handshake.
    pub fn word(&self) -> u32
        ensures { (state : State) → IsSession self.now state → result ≡ state.stage.word }
    {
        self.stage.word
    }

    /// Returns the faults by which connections have broken.
    pub fn breaks(&self) -> &Breaks
        ensures { (state : State) → IsSession self.now state → broken_by result.now ≡ state.stage.breaks }
    {
        &self.stage.breaks
    }

    /// Returns the processes and references that the lines have given names.
    pub fn names(&self) -> &Names
        ensures { (state : State) → IsSession self.now state → Knows result.now state.names }
    {
        &self.names
    }

    // Returns which of the lines may still come that stand at the beginning alone.
    fn may_come(&self) -> MayCome
        ensures { (state : State) → IsSession self.now state → result ≡ may_come state }
    {
        let nodes = self.stage.world.nodes().len();
        MayCome {
            pair: !self.started && nodes == 0,
            node: !self.started && nodes < MOST_NODES,
        }
    }

    /// Returns the meaning of a line if it comes next, or [`None`] if it is a comment or has no words. Never
    /// allocates.
    ///
    /// # Errors
    /// The first [`Reason`] that fits, if the line is a bad one.
    pub fn read<'a>(&'a self, line: &'a [u8]) -> Result<Option<Line<'a>>, Reason>
        ensures { (state : State) → IsSession self.now state → ReadsSome (line_says (may_come state) state.names line.now) result }
    {
        read_line(self.may_come(), &self.names, line)
    }

    /// Returns the event of a line that brings about exactly one, and the name of its node. The arrival of an item
    /// on a connection that the node knows has challenge 0. Returns [`None`] for any other line, and for one of a
    /// connection that doesn't lead to the line's peer.
    ///
    /// # Errors
    /// [`AllocError`] if out of memory.
    pub fn event_of(
        &self,
        alloc: Global,
        line: Line,
    ) -> Result<Option<(Atom, NodeEvent)>, AllocError>
        ensures { (state : State) → IsSession self.now state →
            IfOk result (λ own. IfSome own (λ found. IsEventOf state (said line.entry) (event_at found.0 found.1))) }
    {
        if expected(line).is_some() || !starts(line) {
            return Ok(None);
        }
        match asked(alloc, &self.names, line)? {
            Some((node, command)) => Ok(Some((node, NodeEvent::Call(command)))),
            None => self.stage.event_of(alloc, line),
        }
    }

    // Binds the name of a command that has run, and takes its output as the last reply.
    fn keep(
        &mut self,
        alloc: Global,
        named: (String, Made),
        has_started: bool,
        printed: &[u8],
    ) -> Result<(), AllocError>
        ensures names { (look : Look) → Knows self.old.names look → OnOk result (Knows self.new.names (binds (string_bytes named.0) named.1 look)) }
        ensures reply { OnOk result (self.new.reply.line.items ≡ reply_after printed.now self.old.reply.line.items) }
        ensures started { OnOk result (self.new.started ≡ has_started) }
        ensures stage { self.new.stage ≡ self.old.stage }
    {
        let (name, made) = named;
        bind(alloc, &mut self.names, name, made)?;
        self.reply.follow(printed)?;
        self.started = has_started;
        Ok(())
    }

    /// Runs a line, and appends its output. Its effect is told over the events of `dist_model`'s world.
    ///
    /// # Errors
    /// [`Stop::Bad`] where the line is no command, may not come here, or expects another reply than the
    /// last, before anything happens; [`Stop::OutOfMemory`] only where it is a command.
    pub fn line(&mut self, alloc: Global, line: &[u8], out: &mut String) -> Result<(), Stop>
        ensures { (state : State) → IsSession self.old state → Obeys state line.now self.new (string_bytes out.old) (string_bytes out.new) result }
    {
        let text = line;
        let line = match read_line(self.may_come(), &self.names, text) {
            Ok(Some(line)) => line,
            Ok(None) => return Ok(()),
            Err(reason) => return Err(Stop::Bad(reason)),
        };
        if let Some(words) = expected(line) {
            return compare(alloc, &self.reply, &self.names, words);
        }
        if is_taken(&self.stage, line) {
            return Err(Stop::Bad(Reason::NameTaken));
        }
        let has_started = starts(line);
        let (stage, names) = (&mut self.stage, &self.names);
        let before = out.as_bytes().len();
        let Ok(named) = carry_out(alloc, stage, names, text, line, out) else {
            return Err(Stop::OutOfMemory);
        };
        let printed = bytes_behind(out.as_bytes(), before);
        let Ok(()) = self.keep(alloc, named, has_started, printed) else {
            return Err(Stop::OutOfMemory);
        };
        Ok(())
    }

    /// Counts the line that comes next, by whose number the events that it brings about are told.
    pub fn count_line(&mut self)
        ensures state { (state : State) → IsSession self.old state → IsSession self.new state }
        ensures counted { self.old.stage.telling.line < 2 ^ 64 - 1 → self.new.stage.telling.line ≡ self.old.stage.telling.line + 1 }
        ensures events { string_bytes self.new.stage.telling.lines ≡ string_bytes self.old.stage.telling.lines }
    {
        self.stage.telling.line = self.stage.telling.line.saturating_add(1);
    }

    /// Lets each later event, and each node that comes into the world, be told in a line of JSON.
    pub fn tell_events(&mut self)
        ensures state { (state : State) → IsSession self.old state → IsSession self.new state }
        ensures told { self.new.stage.telling.is_on ≡ true }
        ensures events { string_bytes self.new.stage.telling.lines ≡ string_bytes self.old.stage.telling.lines }
    {
        self.stage.telling.is_on = true;
    }

    /// Begins to draw a picture of each later event of these lines.
    ///
    /// # Errors
    /// [`AllocError`] if out of memory.
    pub fn draw_picture(&mut self, alloc: Global, lines: LineRange) -> Result<(), AllocError>
        ensures state { (state : State) → IsSession self.old state → IsSession self.new state }
        ensures drawn { OnOk result (IsDrawing self.new.stage.telling.picture.recorder) }
    {
        self.stage.telling.picture.begin(alloc, lines)
    }

    /// Returns a diagram of the events since, an empty one if no picture is drawn, and draws no more.
    ///
    /// # Errors
    /// [`AllocError`] if out of memory.
    pub fn picture(&mut self, alloc: Global) -> Result<Diagram, AllocError>
        ensures state { (state : State) → IsSession self.old state → IsSession self.new state }
        ensures taken { IfOk result (λ diagram. IsTaken self.old.stage.telling.picture.recorder diagram) }
        ensures ended { self.new.stage.telling.picture.recorder ≡ None }
    {
        self.stage.telling.picture.taken(alloc)
    }

    /// Returns the lines of the events since the last call of [`Session::clear_events`], refused ones
    /// too, in their order.
    pub fn events(&self) -> &str
        ensures { result.now ≡ string_bytes self.now.stage.telling.lines }
    {
        self.stage.telling.lines.as_str()
    }

    /// Clears the lines of the events.
    pub fn clear_events(&mut self)
        ensures state { (state : State) → IsSession self.old state → IsSession self.new state }
        ensures cleared { string_bytes self.new.stage.telling.lines ≡ [] }
    {
        self.stage.telling.lines.clear();
    }

    /// Appends the fault of a bad line, and its remedy if there is an obvious one.
    ///
    /// # Errors
    /// Where memory is wanting.
    pub fn put_advice(
        &self,
        alloc: Global,
        out: &mut String,
        reason: Reason,
        line: &[u8],
    ) -> Result<(), AllocError> {
        if reason == Reason::Unmet {
            return self.reply.put_unmet(alloc, out, &self.names, line);
        }
        put_advice(alloc, out, &self.names, reason, line)
    }
}
