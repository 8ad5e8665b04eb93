//! The session of a script whose nodes have threads.
ghost use Rattle.std.specs.Prelude.{◌≡◌, [], IfOk, OnOk, None, false, string_bytes};
ghost use Rattle.dist_books.specs.Acting.{names_of};
ghost use Rattle.script_lines.specs.Said.{said};
ghost use Rattle.script_lines.specs.Replies.{reply_after};
ghost use Rattle.script_session.specs.Session.{binds, is_taken, new_name};
ghost use Rattle.script_terms.specs.Binding.{Knows, Look};
ghost use Rattle.script_threads.specs.Standing.{IsKnown, Known, MayCome, Obeys, may_come, nodes_after, nodes_of};

use crate::advice::put_advice;
use crate::nodes::has_name;
use crate::reading::read;
use crate::running::Machine;
use crate::threads::NodeThreads;
use script_lines::{Line, MayCome as Coming, Reason, Reply, expected};
use script_repeats::OwnLines;
use script_session::{MOST_NODES, Made, Stop, bind, compare, new_name, starts};
use script_terms::Names;
use std::alloc::{AllocError, Global};

/// A script of which some lines have run: its nodes, the meanings of its names, the last reply, and the lines that it
/// keeps. The nodes have a thread each from the first command on that no line for a node may follow. The threads go on
/// until [`ThreadedSession::finish`], [`ThreadedSession::finish_as_script`] or [`ThreadedSession::abandon`].
#[derive(Drop)]
pub struct ThreadedSession {
    pub(crate) threads: NodeThreads,
    names: Names,
    reply: Reply,
    started: bool,
    pub(crate) own: OwnLines,
    keeps_lines: bool,
}

// Returns true if a line is for a node whose name another has.
fn is_taken(threads: &NodeThreads, line: Line) -> bool
    ensures { result ≡ is_taken (said line.entry) (names_of (nodes_of threads.now.cast)) }
{
    match line {
        Line::Node { name, .. } => has_name(threads.nodes(), name),
        _ => false,
    }
}

// Carries out a line's command. Returns the process or monitor that it makes, and the name that the line
// gives to it. Starts the threads with the first command that no line for a node may follow.
fn carry_out<R: Machine>(
    rt: &R,
    alloc: Global,
    threads: &mut NodeThreads,
    names: &Names,
    line: Line,
    out: &mut String,
) -> Result<(String, Made), AllocError>
    ensures name { IfOk result (λ named. string_bytes named.0 ≡ new_name (said line.entry)) }
    ensures nodes { (look : Look) → Knows names.now look → MayCome (said line.entry) threads.old.cast →
        IfOk result (λ _. nodes_of threads.new.cast ≡ nodes_after (said line.entry) (nodes_of threads.old.cast)) }
    ensures idle { MayCome (said line.entry) threads.old.cast → MayCome (said line.entry) threads.new.cast }
{
    let name = new_name(alloc, line)?;
    if starts(line) {
        threads.start(rt, alloc)?;
    }
    let made = threads.play(rt, alloc, names, line, out)?;
    Ok((name, made))
}

impl ThreadedSession {
    /// Creates a session before its first line. The challenge of the first dial is the seed, and that of each next one
    /// is greater by 1. So are those that each node draws for the connections that are new to it. Never allocates, and
    /// starts no thread.
    pub fn new(alloc: Global, seed: u32) -> ThreadedSession
        ensures { IsKnown result (record { nodes = []; look = λ name. None; reply = []; started = false }) }
    {
        ThreadedSession {
            threads: NodeThreads::new(alloc, seed),
            names: Names::new(alloc),
            reply: Reply::new(alloc),
            started: false,
            own: OwnLines::new(alloc),
            keeps_lines: false,
        }
    }

    /// Returns the session, which keeps the lines that it runs for [`ThreadedSession::finish_as_script`].
    pub fn keeping_lines(self) -> ThreadedSession
        ensures { (known : Known) → IsKnown self known → IsKnown result known }
    {
        ThreadedSession {
            keeps_lines: true,
            ..self
        }
    }

    // Returns true for each kind of line that stands only at the beginning and may still come.
    fn may_come(&self) -> Coming
        ensures { (known : Known) → IsKnown self.now known → result ≡ may_come known }
    {
        let nodes = self.threads.nodes().len();
        Coming {
            pair: !self.started && nodes == 0,
            node: !self.started && nodes < MOST_NODES,
        }
    }

    // Keeps a line, if lines are kept, that has named a node or has asked for acts since there were so many.
    fn keep_line(
        &mut self,
        alloc: Global,
        line: &[u8],
        is_node: bool,
        acts: usize,
    ) -> Result<(), AllocError>
        ensures names { self.new.names ≡ self.old.names }
        ensures reply { self.new.reply ≡ self.old.reply }
        ensures started { self.new.started ≡ self.old.started }
        ensures threads { self.new.threads ≡ self.old.threads }
    {
        if !self.keeps_lines {
            return Ok(());
        }
        if is_node {
            return self.own.add_node(alloc, line);
        }
        let acts = self.threads.acts().saturating_sub(acts);
        self.own.add_acts(alloc, line, acts)
    }

    // Binds the name of a command that has run, and takes its output as the last reply. Keeps its line, if it has
    // asked for acts since there were so many.
    fn keep(
        &mut self,
        alloc: Global,
        named: (String, Made),
        has_started: bool,
        printed: &str,
        line: &[u8],
        acts: usize,
    ) -> Result<(), AllocError>
        ensures names { (look : Look) → Knows self.old.names look → OnOk result (Knows self.new.names (binds (string_bytes named.0) named.1 look)) }
        ensures reply { OnOk result (self.new.reply.line.items ≡ reply_after printed.now self.old.reply.line.items) }
        ensures started { OnOk result (self.new.started ≡ has_started) }
        ensures threads { self.new.threads ≡ self.old.threads }
    {
        let (name, made) = named;
        bind(alloc, &mut self.names, name, made)?;
        self.reply.follow(printed.as_bytes())?;
        self.started = has_started;
        self.keep_line(alloc, line, !has_started, acts)
    }

    /// Runs a line, and appends its output. Bad lines are told by the same words as without threads.
    ///
    /// # Errors
    /// [`Stop::Bad`] if the line is no command, may not come here, or expects another reply than the last, before
    /// anything happens; [`Stop::OutOfMemory`] only if it is a command, also if a thread can't be started.
    pub fn line<R: Machine>(
        &mut self,
        rt: &R,
        alloc: Global,
        line: &[u8],
        out: &mut String,
    ) -> Result<(), Stop>
        ensures { (known : Known) → IsKnown self.old known →
            Obeys known line.now self.new (string_bytes out.old) (string_bytes out.new) result }
    {
        let text = line;
        let line = match read(self.may_come(), &self.names, text) {
            Ok(Some(line)) => line,
            Ok(None) => return Ok(()),
            Err(reason) => return Err(Stop::Bad(reason)),
        };
        if let Some(words) = expected(line) {
            return compare(alloc, &self.reply, &self.names, words);
        }
        if is_taken(&self.threads, line) {
            return Err(Stop::Bad(Reason::NameTaken));
        }
        let has_started = starts(line);
        let acts = self.threads.acts();
        let (threads, names) = (&mut self.threads, &self.names);
        let mut printed = String::new(alloc);
        let Ok(named) = carry_out(rt, alloc, threads, names, line, &mut printed) else {
            return Err(Stop::OutOfMemory);
        };
        let Ok(()) = self.keep(alloc, named, has_started, printed.as_str(), text, acts) else {
            return Err(Stop::OutOfMemory);
        };
        let Ok(()) = out.push_str(printed.as_str()) else {
            return Err(Stop::OutOfMemory);
        };
        Ok(())
    }

    /// Appends the fault of a bad line, and its remedy if there is an obvious one.
    ///
    /// # Errors
    /// [`AllocError`] if out of memory.
    pub fn put_advice(
        &self,
        alloc: Global,
        out: &mut String,
        reason: Reason,
        line: &[u8],
    ) -> Result<(), AllocError> {
        if reason == Reason::Unmet {
            return self.reply.put_unmet(alloc, out, &self.names, line);
        }
        put_advice(alloc, out, &self.names, reason, line)
    }
}
