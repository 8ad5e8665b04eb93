//! The effect of a line's command on the stage.
ghost use Rattle.std.specs.Prelude.{◌≡◌, false, IfOk, OnOk, Some, string_bytes};
ghost use Rattle.dist_model.specs.Dialing.{has_name};
ghost use Rattle.dist_model.specs.World.{Dial};
ghost use Rattle.dist_model.specs.declared.command.Command.{Command as TheCommand};
ghost use Rattle.script_lines.specs.Said.{said};
ghost use Rattle.script_session.specs.Session.{asks, asks_of_names, asks_of_one, asks_of_two, holds, is_taken, joins, monitored, moves, new_name, plays, read, read_atom, shows, starts};
ghost use Rattle.script_session.specs.Stage.{Stage as TheStage, happens};
ghost use Rattle.script_session.specs.Stands.{IsOpening, IsStage, Plays};
ghost use Rattle.script_session.specs.declared.made.Made.{Made as TheMade};
ghost use Rattle.script_terms.specs.Binding.{Knows, Look};
ghost use Rattle.world_core.specs.Names.{names_of};
ghost use Rattle.node_core.specs.NodeEvents.{event_at};

use crate::made::Made;
use crate::pairs::{node_name, setup};
use crate::stage::Stage;
use dist_model::{Answer, Command};
use erl_handshake::Profile;
use erl_term::{Atom, Payload, Pid, Refusal, Term};
use node_texts::put_monitors;
use script_lines::Line;
use script_terms::{Names, read_term};
use script_texts::{put_answer, put_ends, put_refused};
use std::alloc::{AllocError, Global};
use world_core::NodeEvent;
use world_texts::{put_whole_world, put_world};

// Returns the term of a line, which is known to be one.
fn term(alloc: Global, names: &Names, text: &str) -> Result<Payload, AllocError>
    ensures { (look : Look) → Knows names.now look → IfOk result (λ t. t ≡ read look text.now) }
{
    read_term(alloc, names, text).map_err(|_| AllocError)
}

// Returns the atom of a line, which is known to be one.
fn atom(alloc: Global, names: &Names, text: &str) -> Result<Atom, AllocError>
    ensures { (look : Look) → Knows names.now look → IfOk result (λ name. name ≡ read_atom look text.now) }
{
    match term(alloc, names, text)?.into_term() {
        Term::Atom(name) => Ok(name),
        _ => Err(AllocError),
    }
}

// Returns copies of two processes, and of the name of the first one's node.
fn at_two(first: &Pid, second: &Pid) -> Result<(Atom, Pid, Pid), AllocError>
    ensures { IfOk result (λ two. two ≡ (first.now.node, first.now, second.now)) }
{
    Ok((first.node.clone()?, first.clone()?, second.clone()?))
}

// Returns a copy of a process, and of the name of its node.
fn at_one(process: &Pid) -> Result<(Atom, Pid), AllocError>
    ensures { IfOk result (λ one. one ≡ (process.now.node, process.now)) }
{
    Ok((process.node.clone()?, process.clone()?))
}

/// Returns the name that a line gives to a process or a monitor, or the empty string.
///
/// # Errors
/// [`AllocError`] if out of memory.
pub fn new_name(alloc: Global, line: Line) -> Result<String, AllocError>
    ensures { IfOk result (λ name. string_bytes name ≡ new_name (said line.entry)) }
{
    match line {
        Line::Spawn { name, .. } | Line::Monitor { name, .. } => String::from_str(alloc, name),
        Line::MonitorName { name, .. } => String::from_str(alloc, name),
        _ => Ok(String::new(alloc)),
    }
}

/// Returns true if a line is for a node whose name another has.
pub(crate) fn is_taken(stage: &Stage, line: Line) -> bool
    ensures { result ≡ is_taken (said line.entry) (names_of stage.now.world.nodes.items) }
{
    match line {
        Line::Node { name, .. } => stage.world.has_name(name),
        _ => false,
    }
}

/// Returns true if no line for a node may come behind `line`.
pub fn starts(line: Line) -> bool
    ensures { result ≡ starts (said line.entry) }
{
    match line {
        Line::Node { .. } => false,
        _ => true,
    }
}

impl Stage {
    // Lets `event` happen at the node that a word names.
    fn at(
        &mut self,
        alloc: Global,
        node: &str,
        event: NodeEvent,
        out: &mut String,
    ) -> Result<Made, AllocError>
        ensures { (it : TheStage) → IsStage self.old it →
            IfOk result (Plays (happens (event_at node.now event) it) self.new (string_bytes out.old) (string_bytes out.new)) }
    {
        match node_name(alloc, node) {
            Ok(name) => self.act(alloc, name.atom(), event, out),
            Err(e) => {
                drop(event);
                Err(e)
            }
        }
    }

    // Lets one node dial another.
    fn dials(
        &mut self,
        alloc: Global,
        node: &str,
        peer: &str,
        out: &mut String,
    ) -> Result<Made, AllocError>
        ensures { (it : TheStage) → IsStage self.old it →
            IfOk result (Plays (happens (Dial node.now peer.now it.word) it) self.new (string_bytes out.old) (string_bytes out.new)) }
    {
        let peer = node_name(alloc, peer)?;
        let word = self.word;
        self.at(alloc, node, NodeEvent::Dial { peer, word }, out)
    }

    // Adds a node.
    fn join(
        &mut self,
        alloc: Global,
        name: &str,
        secret: &str,
        profile: Profile,
        out: &mut String,
    ) -> Result<(), AllocError>
        requires { has_name name.now (names_of self.old.world.nodes.items) ≡ false }
        ensures { (it : TheStage) → IsStage self.old it → IsOpening it.world →
            OnOk result (Plays (joins name.now secret.now profile it) self.new (string_bytes out.old) (string_bytes out.new) TheMade.Nothing) }
    {
        let setup = setup(alloc, secret, profile)?;
        self.world.join(alloc, node_name(alloc, name)?, setup)?;
        self.telling.join(alloc, name, secret, profile)?;
        put_answer(out, name, &Answer::Started(1))
    }

    // Prints the two ends of the link between two processes.
    fn ends(&self, first: &Pid, second: &Pid, out: &mut String) -> Result<(), AllocError>
        ensures { (it : TheStage) → IsStage self.now it →
            OnOk result (Plays (holds first.now second.now it) self.now (string_bytes out.old) (string_bytes out.new) TheMade.Nothing) }
    {
        let (of_first, of_second) = self.world.ends(first, second);
        put_ends(out, of_first, of_second)
    }

    // Prints the monitors of a process.
    fn monitors(&self, process: &Pid, out: &mut String) -> Result<(), AllocError>
        ensures { (it : TheStage) → IsStage self.now it →
            OnOk result (Plays (monitored process.now it) self.now (string_bytes out.old) (string_bytes out.new) TheMade.Nothing) }
    {
        match self.world.node(&process.node) {
            None => put_refused(out, Refusal::NothingThere),
            Some(node) if !node.is_up() => put_refused(out, Refusal::NodeDown),
            Some(node) if !node.is_living(process) => put_refused(out, Refusal::NoSuchProcess),
            Some(node) => put_monitors(out, node, process),
        }
    }

    // Prints all nodes and processes. With `all`, prints their links, monitors and connections, and the items
    // in flight too.
    fn show(&self, alloc: Global, all: bool, out: &mut String) -> Result<(), AllocError>
        ensures { (it : TheStage) → IsStage self.now it →
            OnOk result (Plays (shows all it) self.now (string_bytes out.old) (string_bytes out.new) TheMade.Nothing) }
    {
        if all {
            put_whole_world(alloc, out, &self.world)
        } else {
            put_world(out, &self.world)
        }
    }
}

// Returns the command of a line by which a process acts on another, and the name of its node. [`None`] for
// any other line.
fn asked_of_two(
    alloc: Global,
    names: &Names,
    line: Line,
) -> Result<Option<(Atom, Command)>, AllocError>
    ensures { (look : Look) → Knows names.now look → IfOk result (λ asked. asked ≡ asks_of_two look (said line.entry)) }
{
    match line {
        Line::Send {
            from,
            to,
            term: text,
        } => {
            let message = term(alloc, names, text)?;
            let (node, from, to) = at_two(from, to)?;
            Ok(Some((node, Command::Send { from, to, message })))
        }
        Line::Link { from, to } => {
            let (node, from, to) = at_two(from, to)?;
            Ok(Some((node, Command::Link { from, to })))
        }
        Line::Unlink { from, to } => {
            let (node, from, to) = at_two(from, to)?;
            Ok(Some((node, Command::Unlink { from, to })))
        }
        Line::Monitor { owner, target, .. } => {
            let (node, owner, target) = at_two(owner, target)?;
            Ok(Some((node, Command::Monitor { owner, target })))
        }
        Line::Exit {
            from,
            to,
            term: text,
        } => {
            let reason = term(alloc, names, text)?;
            let (node, from, to) = at_two(from, to)?;
            Ok(Some((node, Command::ExitTo { from, to, reason })))
        }
        _ => Ok(None),
    }
}

// Returns the command of a line by which a process acts by itself, or a caller looks at it, and the name of
// its node. [`None`] for any other line.
fn asked_of_one(
    alloc: Global,
    names: &Names,
    line: Line,
) -> Result<Option<(Atom, Command)>, AllocError>
    ensures { (look : Look) → Knows names.now look → IfOk result (λ asked. asked ≡ asks_of_one look (said line.entry)) }
{
    match line {
        Line::Demonitor { owner, reference } => {
            let reference = reference.clone()?;
            let (node, owner) = at_one(owner)?;
            Ok(Some((node, Command::Demonitor { owner, reference })))
        }
        Line::Trap { process, on } => {
            let (node, process) = at_one(process)?;
            Ok(Some((node, Command::Trap { process, on })))
        }
        Line::Die {
            process,
            term: text,
        } => {
            let reason = term(alloc, names, text)?;
            let (node, process) = at_one(process)?;
            Ok(Some((node, Command::ExitSelf { process, reason })))
        }
        Line::Receive { process } => {
            let (node, process) = at_one(process)?;
            Ok(Some((node, Command::Receive { process })))
        }
        Line::Links { process } => {
            let (node, process) = at_one(process)?;
            Ok(Some((node, Command::LinksOf { process })))
        }
        Line::Alive { process } => {
            let (node, process) = at_one(process)?;
            Ok(Some((node, Command::IsAlive { process })))
        }
        _ => Ok(None),
    }
}

// Returns the command by which a process sends a term to a registered name at `node`, and the name of the
// process's node.
fn asked_to_send(
    alloc: Global,
    names: &Names,
    from: &Pid,
    node: &str,
    name: &str,
    text: &str,
) -> Result<Option<(Atom, Command)>, AllocError>
    ensures { (look : Look) → Knows names.now look →
        IfOk result (λ asked. asked ≡ Some (from.now.node, TheCommand.SendName from.now node.now (read_atom look name.now) (read look text.now))) }
{
    let message = term(alloc, names, text)?;
    let name = atom(alloc, names, name)?;
    let target = node_name(alloc, node)?;
    let (node, from) = at_one(from)?;
    Ok(Some((
        node,
        Command::SendName {
            from,
            node: target,
            name,
            message,
        },
    )))
}

// Returns the command by which a process monitors a registered name at `node`, and the name of the
// process's node.
fn asked_to_monitor(
    alloc: Global,
    names: &Names,
    owner: &Pid,
    node: &str,
    text: &str,
) -> Result<Option<(Atom, Command)>, AllocError>
    ensures { (look : Look) → Knows names.now look →
        IfOk result (λ asked. asked ≡ Some (owner.now.node, TheCommand.MonitorName owner.now node.now (read_atom look text.now))) }
{
    let name = atom(alloc, names, text)?;
    let target = node_name(alloc, node)?;
    let (home, owner) = at_one(owner)?;
    Ok(Some((
        home,
        Command::MonitorName {
            owner,
            node: target,
            name,
        },
    )))
}

// Returns the command of a line about registered names, and the name of its node. [`None`] for any other
// line.
fn asked_of_names(
    alloc: Global,
    names: &Names,
    line: Line,
) -> Result<Option<(Atom, Command)>, AllocError>
    ensures { (look : Look) → Knows names.now look → IfOk result (λ asked. asked ≡ asks_of_names look (said line.entry)) }
{
    match line {
        Line::Register {
            process,
            name: text,
        } => {
            let name = atom(alloc, names, text)?;
            let (node, process) = at_one(process)?;
            Ok(Some((node, Command::Register { process, name })))
        }
        Line::Unregister { process } => {
            let (node, process) = at_one(process)?;
            Ok(Some((node, Command::Unregister { process })))
        }
        Line::WhereIs { node, name: text } => {
            let name = atom(alloc, names, text)?;
            let node = node_name(alloc, node)?.atom().clone()?;
            Ok(Some((node, Command::WhereIs { name })))
        }
        Line::SendName {
            from,
            node,
            name,
            term: text,
        } => asked_to_send(alloc, names, from, node, name, text),
        Line::MonitorName {
            owner,
            node,
            atom: text,
            ..
        } => asked_to_monitor(alloc, names, owner, node, text),
        _ => Ok(None),
    }
}

/// Returns the command that a line asks a node for, if it does, and the name of that node. The node is that
/// of the first process, or the one that `whereis` names.
///
/// # Errors
/// [`AllocError`] if out of memory.
pub fn asked(
    alloc: Global,
    names: &Names,
    line: Line,
) -> Result<Option<(Atom, Command)>, AllocError>
    ensures { (look : Look) → Knows names.now look → IfOk result (λ asked. asked ≡ asks look (said line.entry)) }
{
    if let Some(asked) = asked_of_two(alloc, names, line)? {
        return Ok(Some(asked));
    }
    if let Some(asked) = asked_of_one(alloc, names, line)? {
        return Ok(Some(asked));
    }
    asked_of_names(alloc, names, line)
}

impl Stage {
    // Carries out a line that asks nothing of a process's node.
    fn moves(&mut self, alloc: Global, line: Line, out: &mut String) -> Result<Made, AllocError>
        requires { is_taken (said line) (names_of self.old.world.nodes.items) ≡ false }
        ensures { (it : TheStage) → IsStage self.old it → (starts (said line.entry) ≡ false → IsOpening it.world) →
            IfOk result (Plays (moves (said line.entry) it) self.new (string_bytes out.old) (string_bytes out.new)) }
    {
        match line {
            Line::Node {
                name,
                cookie,
                profile,
            } => self
                .join(alloc, name, cookie, profile, out)
                .map(|()| Made::Nothing),
            Line::Pair => self.pair(alloc).map(|()| Made::Pair),
            Line::Spawn { node, .. } => self.at(alloc, node, NodeEvent::Call(Command::Spawn), out),
            Line::Ends { first, second } => self.ends(first, second, out).map(|()| Made::Nothing),
            Line::Dial { node, peer } => self.dials(alloc, node, peer, out),
            Line::Route { node, peer } => self
                .route(alloc, node, peer, out)
                .map(|()| Made::Nothing),
            Line::Monitors { process } => self.monitors(process, out).map(|()| Made::Nothing),
            Line::Travels { node, peer } => self
                .travels(alloc, node, peer, out)
                .map(|()| Made::Nothing),
            Line::Why { node, peer } => self
                .explain(alloc, node, peer, out)
                .map(|()| Made::Nothing),
            Line::Lose {
                node,
                peer,
                connection,
            } => self.lose_line(alloc, node, peer, connection, out),
            Line::Cut { node, peer } => self.cut(alloc, node, peer, out).map(|()| Made::Nothing),
            Line::Stop { node } => self.at(alloc, node, NodeEvent::Stop, out),
            Line::Start { node } => self.at(alloc, node, NodeEvent::Start, out),
            Line::Deliver {
                node,
                peer,
                connection,
            } => self.deliver_line(alloc, node, peer, connection, out),
            Line::Local { node } => self.at(alloc, node, NodeEvent::Local, out),
            Line::Sweep { node } => self.at(alloc, node, NodeEvent::Sweep, out),
            Line::Settle => self.settle(alloc, out).map(|()| Made::Nothing),
            Line::Challenge { number } => self.challenge(number, out).map(|()| Made::Nothing),
            Line::Show { all } => self.show(alloc, all, out).map(|()| Made::Nothing),
            // `play` carries these out at their node, and leaves nothing to do here
            Line::Send { .. } => Ok(Made::Nothing),
            Line::Link { .. } => Ok(Made::Nothing),
            Line::Unlink { .. } => Ok(Made::Nothing),
            Line::Monitor { .. } => Ok(Made::Nothing),
            Line::Demonitor { .. } => Ok(Made::Nothing),
            Line::Trap { .. } => Ok(Made::Nothing),
            Line::Exit { .. } => Ok(Made::Nothing),
            Line::Die { .. } => Ok(Made::Nothing),
            Line::Receive { .. } => Ok(Made::Nothing),
            Line::Links { .. } => Ok(Made::Nothing),
            Line::Alive { .. } => Ok(Made::Nothing),
            Line::Register { .. } => Ok(Made::Nothing),
            Line::Unregister { .. } => Ok(Made::Nothing),
            Line::WhereIs { .. } => Ok(Made::Nothing),
            Line::SendName { .. } => Ok(Made::Nothing),
            Line::MonitorName { .. } => Ok(Made::Nothing),
            // `Session::line` compares the last reply, and plays no such line
            Line::Expect { .. } => Ok(Made::Nothing),
        }
    }

    /// Carries out a line's command.
    ///
    /// # Errors
    /// [`AllocError`] if out of memory.
    pub(crate) fn play(
        &mut self,
        alloc: Global,
        names: &Names,
        line: Line,
        out: &mut String,
    ) -> Result<Made, AllocError>
        requires { is_taken (said line) (names_of self.old.world.nodes.items) ≡ false }
        ensures { (it : TheStage) (look : Look) → IsStage self.old it → Knows names.now look → (starts (said line.entry) ≡ false → IsOpening it.world) →
            IfOk result (Plays (plays look (said line.entry) it) self.new (string_bytes out.old) (string_bytes out.new)) }
    {
        match asked(alloc, names, line)? {
            Some((node, command)) => self.act(alloc, &node, NodeEvent::Call(command), out),
            None => self.moves(alloc, line, out),
        }
    }
}
