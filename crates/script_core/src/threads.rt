//! Scripts whose nodes have threads.
ghost use Rattle.std.specs.Prelude.{◌≡◌, ◌≤◌, ◌+◌, [], List, length, ℕ};
ghost use Rattle.run_traces.specs.Traces.{is_on};
ghost use Rattle.script_core.specs.Threaded.{Along, EndsThreaded, RunsLine, RunsLines, RunsScript, Tells, fresh_known, kept_lines};
ghost use Rattle.script_threads.specs.Standing.{IsKnown, Known};

use crate::lines::Lines;
use crate::options::Options;
use crate::script::{Outcome, Script, write_bytes};
use script_lines::Reason;
use script_session::Stop;
use script_threads::{Machine, ThreadedSession, Unfinished};
use std::alloc::{AllocError, Global};
use std::io::{self, Read, Write};
use std::mem;

/// A session of nodes in threads, and the lines that have come and not run yet.
#[derive(Drop)]
pub(crate) struct InThreads {
    pub(crate) session: ThreadedSession,
    lines: Vec<Vec<u8>>,
}

impl InThreads {
    fn new(alloc: Global, seed: u32) -> InThreads
        ensures known { IsKnown result.session fresh_known }
        ensures lines { result.lines.items ≡ [] }
    {
        InThreads {
            session: ThreadedSession::new(alloc, seed),
            lines: Vec::new(alloc),
        }
    }

    /// Before the first line, of a session that keeps the lines which it runs.
    pub(crate) fn keeping_lines(alloc: Global, seed: u32) -> InThreads
        ensures known { IsKnown result.session fresh_known }
        ensures lines { result.lines.items ≡ [] }
    {
        InThreads {
            session: ThreadedSession::new(alloc, seed).keeping_lines(),
            lines: Vec::new(alloc),
        }
    }

    // Takes the lines that have come.
    fn take_lines(&mut self, alloc: Global) -> Vec<Vec<u8>>
        ensures lines { result.items ≡ self.old.lines.items }
        ensures left { self.new.lines.items ≡ [] }
        ensures session { self.new.session ≡ self.old.session }
    {
        mem::replace(&mut self.lines, Vec::new(alloc))
    }
}

impl Lines for InThreads {
    ghost use Rattle.script_core.specs.Threaded.{IsKept};

    // (a line does not determine the steps of threads)
    ghost stands = { λ _ _. ⊥ };

    ghost keeps = { IsKept };

    // Keeps the line until the reader of the script runs it.
    fn line(&mut self, alloc: Global, line: &[u8], _out: &mut String) -> Result<(), Stop> {
        let Ok(line) = Vec::from_slice(alloc, line) else {
            return Err(Stop::OutOfMemory);
        };
        match self.lines.push(line) {
            Ok(()) => Ok(()),
            Err(_) => Err(Stop::OutOfMemory),
        }
    }

    fn put_advice(
        &self,
        alloc: Global,
        out: &mut String,
        reason: Reason,
        line: &[u8],
    ) -> Result<(), AllocError> {
        self.session.put_advice(alloc, out, reason, line)
    }
}

/// Runs the script of `reader` with a thread for each node, and writes its output to `writer`. At
/// the end of a script that has run through, merges the histories of the nodes that it has named
/// and writes that, behind the frames that were sent if the options ask for them.
///
/// Returns [`Outcome::Ran`] only if [`ThreadedSession::finish`] has merged them and its text was
/// written, and [`Outcome::Unmerged`] only if it hasn't merged them. Returns [`Outcome::BadLine`]
/// only of the first line that is bad where those before it have run. Flushes the output whenever
/// the reader has given all that it has at hand. After a bad line, and on a failure of memory,
/// reading or writing, reads and writes nothing more. Appends the fault of a bad line to `advice`,
/// as [`run_script`](crate::run_script).
pub fn run_threads<M: Machine, R: Read, W: Write>(
    rt: &M,
    alloc: Global,
    reader: &mut R,
    writer: &mut W,
    options: &Options,
    advice: &mut String,
) -> Outcome
    ensures { EndsThreaded (is_on options.now.trace) (R.remaining reader.old) (W.contents writer.new) result }
{
    let outcome = run_to_end(rt, alloc, reader, writer, options, advice);
    if outcome == Outcome::Failed {
        return Outcome::Failed;
    }
    match writer.flush() {
        Ok(()) => outcome,
        Err(_) => Outcome::Failed,
    }
}

fn run_to_end<M: Machine, R: Read, W: Write>(
    rt: &M,
    alloc: Global,
    reader: &mut R,
    writer: &mut W,
    options: &Options,
    advice: &mut String,
) -> Outcome
    ensures { EndsThreaded (is_on options.now.trace) (R.remaining reader.old) (W.contents writer.new) result }
{
    let mut script = Script::new(alloc, InThreads::new(alloc, options.seed));
    let outcome = read_all(rt, alloc, &mut script, reader, writer, advice);
    let InThreads { session, .. } = script.into_session();
    if outcome == Outcome::Ran {
        return finish(rt, alloc, session, options.trace.is_on(), writer);
    }
    session.abandon(rt);
    outcome
}

/// Reads on until the script ends, and returns its end. Runs the lines that one read has given before the
/// next read.
pub(crate) fn read_all<M: Machine, R: Read, W: Write>(
    rt: &M,
    alloc: Global,
    script: &mut Script<InThreads>,
    reader: &mut R,
    writer: &mut W,
    advice: &mut String,
) -> Outcome
    ensures { (from : Known) (input : List ℕ) → Along from input (R.remaining reader.old) script.old
        → RunsScript from input script.new.session.session result }
{
    let mut unseen = io::sink();
    for _ in 0..u64::MAX {
        let ended = script.read_on(alloc, reader, &mut unseen);
        if let Err(outcome) = run_lines(rt, alloc, script, writer, advice) {
            return outcome;
        }
        if let Some(outcome) = ended {
            script.advise(alloc, outcome, advice);
            return outcome;
        }
    }
    Outcome::Failed
}

// Runs the lines that have come. The last of them stands before the line that is being read.
fn run_lines<M: Machine, W: Write>(
    rt: &M,
    alloc: Global,
    script: &mut Script<InThreads>,
    writer: &mut W,
    advice: &mut String,
) -> Result<(), Outcome>
    ensures { (known : Known) (first : ℕ) → IsKnown script.old.session.session known → script.old.number ≡ first + length (kept_lines script.old.session)
        → script.old.number ≤ 1048577 → RunsLines known first (kept_lines script.old.session) script.old script.new result }
{
    let lines = script.session.take_lines(alloc);
    let mut number = script.number().saturating_sub(lines.len() as u64);
    for line in &lines {
        run_line(
            rt,
            alloc,
            &mut script.session.session,
            number,
            line,
            writer,
            advice,
        )?;
        number = number.saturating_add(1);
    }
    match writer.flush() {
        Ok(()) => Ok(()),
        Err(_) => Err(Outcome::Failed),
    }
}

// Runs one line, of this number.
fn run_line<M: Machine, W: Write>(
    rt: &M,
    alloc: Global,
    session: &mut ThreadedSession,
    number: u64,
    line: &[u8],
    writer: &mut W,
    advice: &mut String,
) -> Result<(), Outcome>
    ensures { (known : Known) → IsKnown session.old known → RunsLine known line.now number session.new result }
{
    let mut out = String::new(alloc);
    match session.line(rt, alloc, line, &mut out) {
        Ok(()) => write_bytes(writer, out.as_bytes()),
        Err(Stop::Bad(reason)) => {
            let _ = session.put_advice(alloc, advice, reason, line);
            Err(Outcome::BadLine(number, reason))
        }
        Err(Stop::OutOfMemory) => Err(Outcome::OutOfMemory),
    }
}

/// Ends the threads, and writes the text of the merge.
fn finish<M: Machine, W: Write>(
    rt: &M,
    alloc: Global,
    session: ThreadedSession,
    trace: bool,
    writer: &mut W,
) -> Outcome
    ensures { Tells trace session (W.contents writer.old) (W.contents writer.new) result }
{
    let mut out = String::new(alloc);
    match session.finish(rt, alloc, trace, &mut out) {
        Ok(()) => match write_bytes(writer, out.as_bytes()) {
            Ok(()) => Outcome::Ran,
            Err(failed) => failed,
        },
        Err(Unfinished::OutOfMemory) => Outcome::OutOfMemory,
        Err(Unfinished::Unmerged) => Outcome::Unmerged,
        Err(Unfinished::Unrepeated) => Outcome::Failed,
    }
}
