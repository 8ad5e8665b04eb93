//! Scripts whose nodes have threads, as plain scripts that repeat their runs.
ghost use Rattle.script_core.specs.Repeated.{EndsRepeated, Gives};

use crate::options::{DEFAULT_SEED, Options};
use crate::script::{Outcome, Script, write_whole};
use crate::threads::{InThreads, read_all};
use script_threads::{Machine, ThreadedSession, Unfinished};
use std::alloc::Global;
use std::io::{self, Read, Write};

/// The fault of a run that no script repeats.
const NO_SCRIPT: &str = "no script repeats the run: it has more events than a script has lines";

/// Runs the script of `reader` with a thread for each node, and merges the histories of the nodes that it has named.
/// Writes to `writer`, in place of the script's output, a plain script that repeats the merged run: its lines bring
/// about the events of the run, each in its place.
///
/// Returns [`Outcome::Ran`] only if [`ThreadedSession::finish_as_script`] has returned a script, and it was written. The
/// script runs with the default seed. The other outcomes are those of [`run_threads`](crate::run_threads); with them
/// nothing is written, unless it is writing that fails. [`Outcome::Failed`] stands also for a run that no script
/// repeats. Appends the fault of a bad line to `advice`, and that of such a run.
pub fn run_repeating<M: Machine, R: Read, W: Write>(
    rt: &M,
    alloc: Global,
    reader: &mut R,
    writer: &mut W,
    options: &Options,
    advice: &mut String,
) -> Outcome
    ensures { EndsRepeated DEFAULT_SEED (R.remaining reader.old) (W.contents writer.old) (W.contents writer.new) result }
{
    let mut script = Script::new(alloc, InThreads::keeping_lines(alloc, options.seed));
    let outcome = read_all(rt, alloc, &mut script, reader, &mut io::sink(), advice);
    let InThreads { session, .. } = script.into_session();
    if outcome == Outcome::Ran {
        return write_script(rt, alloc, session, writer, advice);
    }
    session.abandon(rt);
    outcome
}

// Ends the threads, and writes a plain script that repeats the merged run.
fn write_script<M: Machine, W: Write>(
    rt: &M,
    alloc: Global,
    session: ThreadedSession,
    writer: &mut W,
    advice: &mut String,
) -> Outcome
    ensures { Gives DEFAULT_SEED session (W.contents writer.old) (W.contents writer.new) result }
{
    match session.finish_as_script(rt, alloc, DEFAULT_SEED) {
        Ok(script) => match write_whole(writer, &script) {
            Ok(()) => Outcome::Ran,
            Err(failed) => failed,
        },
        Err(Unfinished::OutOfMemory) => Outcome::OutOfMemory,
        Err(Unfinished::Unmerged) => Outcome::Unmerged,
        Err(Unfinished::Unrepeated) => {
            let _ = advice.push_str(NO_SCRIPT);
            Outcome::Failed
        }
    }
}
