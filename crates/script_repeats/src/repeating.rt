//! A plain script is run as it is written.
ghost use Rattle.std.specs.Prelude.{◌≡◌, ◌↔◌, ◌∷◌, ◌++◌, [], Err, IfOk, IsTrue, List, OnOk, take, ℕ};
ghost use Rattle.std.specs.Option.{option_copied};
ghost use Rattle.dist_books.specs.Acting.{Nodes};
ghost use Rattle.dist_model.specs.World.{Event};
ghost use Rattle.erl_term.specs.declared.refusal.Refusal.{Refusal as TheRefusal};
ghost use Rattle.node_core.specs.NodeEvents.{event_at};
ghost use Rattle.script_repeats.specs.Repeats.{IsEntry, IsEventAt, Repeats, line_text};
ghost use Rattle.script_repeats.specs.Steps.{Adds, HasOpened, HasRepeated, IsChallenge, IsLineOf, IsNode, Ran};
ghost use Rattle.script_session.specs.Session.{State, fresh_state};
ghost use Rattle.script_session.specs.Stands.{IsSession};

use crate::own_lines::OwnLines;
use crate::script::{MOST_LINES, Repeating};
use crate::texts::{challenge_line, challenge_of, line_for};
use erl_handshake::Setup;
use erl_names::NodeName;
use erl_term::{Atom, Refusal};
use joined_books::Placed;
use node_core::NodeEvent;
use node_history::{Answered, Entry, is_act, is_same_event};
use node_lock::Book;
use run_traces::Trace;
use script_lines::Line;
use script_session::{Session, Stop, setup};
use std::alloc::{AllocError, Global};

/// Why a run has no script that repeats it.
#[derive(Clone, Copy, Debug, PartialEq, Eq)]
pub enum Unrepeated {
    /// Out of memory, now or in the run itself.
    OutOfMemory,
    /// No line is the event of an entry.
    Unlike,
}

impl From<AllocError> for Unrepeated {
    fn from(_e: AllocError) -> Unrepeated {
        Unrepeated::OutOfMemory
    }
}

// Returns true if two names are the same.
fn is_same_name(a: &Atom, b: &Atom) -> bool
    ensures { IsTrue result ↔ (a.now ≡ b.now) }
{
    a == b
}

// Returns true if a word is the name of a node.
fn is_named(word: &str, name: &NodeName) -> bool
    ensures { IsTrue result → word.now ≡ name.now }
{
    word == name.text()
}

// Returns true if the event of a line, and the name of its node, are these.
fn is_event(own: &(Atom, NodeEvent), name: &Atom, event: &NodeEvent) -> bool
    ensures { IsTrue result → own.now ≡ (name.now, event.now) }
{
    is_same_name(&own.0, name) && is_same_event(&own.1, event)
}

// Returns true if a line, as the next one, is just an event at the node of a name.
fn is_line_of(
    alloc: Global,
    session: &Session,
    line: &[u8],
    name: &Atom,
    event: &NodeEvent,
) -> Result<bool, AllocError>
    ensures { (state : State) → IsSession session.now state →
        IfOk result (λ is. IsTrue is → IsLineOf state line.now (event_at name.now event.now)) }
{
    let Ok(Some(line)) = session.read(line) else {
        return Ok(false);
    };
    match session.event_of(alloc, line)? {
        Some(own) => Ok(is_event(&own, name, event)),
        None => Ok(false),
    }
}

// Returns true if a line, as the next one, sets the next challenge.
fn is_challenge(session: &Session, line: &[u8]) -> bool
    ensures { (state : State) → IsSession session.now state → IsTrue result → IsChallenge state line.now }
{
    matches!(session.read(line), Ok(Some(Line::Challenge { .. })))
}

// Returns true if a line, as the next one, names a node and gives it its setup.
fn is_node(
    alloc: Global,
    session: &Session,
    line: &[u8],
    node: &(NodeName, Setup),
) -> Result<bool, AllocError>
    ensures { (state : State) → IsSession session.now state → IfOk result (λ is. IsTrue is → IsNode state line.now node.now) }
{
    let Ok(Some(line)) = session.read(line) else {
        return Ok(false);
    };
    match line {
        Line::Node {
            name,
            cookie,
            profile,
        } if is_named(name, &node.0) => Ok(setup(alloc, cookie, profile)?.is_same(&node.1)),
        _ => Ok(false),
    }
}

// Returns true if memory was wanting for an event.
fn was_wanting(answer: &Answered) -> bool
    ensures { answer.now ≡ Err TheRefusal.OutOfMemory → IsTrue result }
{
    matches!(answer, Err(Refusal::OutOfMemory))
}

// Appends a line.
fn put_line(out: &mut Vec<u8>, line: &[u8]) -> Result<(), AllocError>
    ensures { OnOk result (out.new.items ≡ out.old.items ++ line_text line.now) }
{
    out.extend_from_slice(line)?;
    out.push(b'\n')?;
    Ok(())
}

impl Repeating {
    // Runs the next line, and appends it.
    fn run(&mut self, alloc: Global, line: &[u8]) -> Result<(), Unrepeated>
        ensures { (state : State) → IsSession self.old.session state → OnOk result (Ran state line.now self.old self.new) }
    {
        if self.lines >= MOST_LINES {
            return Err(Unrepeated::Unlike);
        }
        let mut unseen = String::new(alloc);
        match self.session.line(alloc, line, &mut unseen) {
            Ok(()) => {}
            Err(Stop::OutOfMemory) => return Err(Unrepeated::OutOfMemory),
            Err(Stop::Bad(_)) => return Err(Unrepeated::Unlike),
        }
        put_line(&mut self.text, line)?;
        self.lines += 1;
        Ok(())
    }

    // Runs the line of a node, and appends it.
    fn join(
        &mut self,
        alloc: Global,
        line: &[u8],
        node: &(NodeName, Setup),
    ) -> Result<(), Unrepeated>
        ensures { (seed : ℕ) (nodes : Nodes) → HasOpened seed nodes self.old → OnOk result (HasOpened seed (nodes ++ node.now ∷ []) self.new) }
    {
        if !is_node(alloc, &self.session, line, node)? {
            return Err(Unrepeated::Unlike);
        }
        self.run(alloc, line)
    }

    // Runs the lines of all nodes, and appends them.
    fn open(
        &mut self,
        alloc: Global,
        lines: &[Vec<u8>],
        nodes: &[(NodeName, Setup)],
    ) -> Result<(), Unrepeated>
        ensures { (seed : ℕ) → HasOpened seed [] self.old → OnOk result (HasOpened seed nodes.now self.new) }
    {
        for (place, node) in nodes.iter().enumerate() {
            match lines.get(place) {
                Some(line) => self.join(alloc, line, node)?,
                None => return Err(Unrepeated::Unlike),
            }
        }
        Ok(())
    }

    // Sets the next challenge, unless it is this one.
    fn set_challenge(&mut self, alloc: Global, word: u32) -> Result<(), Unrepeated>
        ensures { (state : State) → IsSession self.old.session state → OnOk result (Adds state [] self.old self.new) }
    {
        if self.session.word() == word {
            return Ok(());
        }
        let text = challenge_line(alloc, word)?;
        let line = text.as_bytes();
        if !is_challenge(&self.session, line) {
            return Err(Unrepeated::Unlike);
        }
        self.run(alloc, line)
    }

    // Sets the challenge that an event takes, if it takes one.
    fn prepare(
        &mut self,
        alloc: Global,
        node: &NodeName,
        event: &NodeEvent,
    ) -> Result<(), Unrepeated>
        ensures { (state : State) → IsSession self.old.session state → OnOk result (Adds state [] self.old self.new) }
    {
        match challenge_of(&self.session, node, event) {
            Some(word) => self.set_challenge(alloc, word),
            None => Ok(()),
        }
    }

    // Runs the line of an event, and appends it.
    fn bring(
        &mut self,
        alloc: Global,
        line: &[u8],
        node: &NodeName,
        event: &NodeEvent,
    ) -> Result<(), Unrepeated>
        ensures { (state : State) → IsSession self.old.session state → OnOk result (Adds state (event_at node.now event.now ∷ []) self.old self.new) }
    {
        if !is_line_of(alloc, &self.session, line, node.atom(), event)? {
            return Err(Unrepeated::Unlike);
        }
        self.run(alloc, line)
    }

    // Returns the line that has asked for an event, if one has.
    fn own_line<'a>(&mut self, acts: &'a [Vec<u8>], event: &NodeEvent) -> Option<&'a Vec<u8>>
        ensures session { self.new.session ≡ self.old.session }
        ensures text { self.new.text ≡ self.old.text }
        ensures lines { self.new.lines ≡ self.old.lines }
    {
        if !is_act(event) {
            return None;
        }
        let line = acts.get(self.acts);
        self.acts = self.acts.saturating_add(1);
        line
    }

    // Runs the line that a script has for an event, and appends it: one of its own, or the one that stands for a
    // step of a thread.
    fn bring_own(
        &mut self,
        alloc: Global,
        own: Option<&Vec<u8>>,
        node: &NodeName,
        event: &NodeEvent,
    ) -> Result<(), Unrepeated>
        ensures { (state : State) → IsSession self.old.session state → OnOk result (Adds state (event_at node.now event.now ∷ []) self.old self.new) }
    {
        let line = line_for(alloc, &self.session, node, event)?;
        match (line, own) {
            (Some(line), _) => self.bring(alloc, line.as_bytes(), node, event),
            (None, Some(line)) => self.bring(alloc, line, node, event),
            (None, None) => Err(Unrepeated::Unlike),
        }
    }

    // Runs the lines of an entry, and appends them.
    fn enter(
        &mut self,
        alloc: Global,
        acts: &[Vec<u8>],
        node: &NodeName,
        entry: &Entry,
    ) -> Result<(), Unrepeated>
        ensures { (state : State) → IsSession self.old.session state →
            OnOk result ((event : Event) × IsEntry node.now entry.now event × Adds state (event ∷ []) self.old self.new) }
    {
        if was_wanting(&entry.answer) {
            return Err(Unrepeated::OutOfMemory);
        }
        let own = self.own_line(acts, &entry.event);
        self.prepare(alloc, node, &entry.event)?;
        self.bring_own(alloc, own, node, &entry.event)
    }

    // Runs the lines of the entry at a place, and appends them.
    fn enter_at(
        &mut self,
        alloc: Global,
        acts: &[Vec<u8>],
        nodes: &[(NodeName, Setup)],
        books: &[Book],
        placed: &Placed,
    ) -> Result<(), Unrepeated>
        ensures { (state : State) → IsSession self.old.session state →
            OnOk result ((event : Event) × IsEventAt nodes.now books.now placed.now event × Adds state (event ∷ []) self.old self.new) }
    {
        match (nodes.get(placed.node), books.get(placed.node)) {
            (Some((node, _)), Some(book)) => match book.entries().get(placed.position) {
                Some(entry) => self.enter(alloc, acts, node, entry),
                None => Err(Unrepeated::Unlike),
            },
            _ => Err(Unrepeated::Unlike),
        }
    }

    // Runs the lines of all entries, and appends them.
    fn enter_all(
        &mut self,
        alloc: Global,
        acts: &[Vec<u8>],
        nodes: &[(NodeName, Setup)],
        books: &[Book],
        entries: &[Placed],
    ) -> Result<(), Unrepeated>
        ensures { (seed : ℕ) → HasRepeated seed nodes.now books.now [] self.old → OnOk result (HasRepeated seed nodes.now books.now entries.now self.new) }
    {
        for placed in entries {
            self.enter_at(alloc, acts, nodes, books, placed)?;
        }
        Ok(())
    }
}

/// Returns a plain script that repeats the merged run of nodes in threads, from the seed on. `own` are the lines of the
/// script that they ran. Runs the script, and returns it only if each line is the event of its entry.
///
/// # Errors
/// [`Unrepeated::OutOfMemory`], also if memory was wanting in the run; [`Unrepeated::Unlike`] if `own` has not the lines
/// that asked for the acts of the entries, in their order, or the run has more events than a script has lines.
pub fn repeat(
    alloc: Global,
    seed: u32,
    own: &OwnLines,
    nodes: &[(NodeName, Setup)],
    books: &[Book],
    entries: &[Placed],
) -> Result<Vec<u8>, Unrepeated>
    ensures { IfOk result (λ script. Repeats seed nodes.now books.now entries.now script.items) }
{
    let mut script = Repeating {
        session: Session::new(alloc, Trace::Off, seed),
        text: Vec::new(alloc),
        lines: 0,
        acts: 0,
    };
    script.open(alloc, &own.nodes, nodes)?;
    script.enter_all(alloc, &own.acts, nodes, books, entries)?;
    Ok(script.text)
}
