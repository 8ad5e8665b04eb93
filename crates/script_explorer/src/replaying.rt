//! The replay of a plain script.
ghost use Rattle.std.specs.Prelude.{◌≡◌, ◌-◌, Err, IfOk, IsTrue, OnOk, drop, length, map};
ghost use Rattle.script_explorer.specs.Replays.{Replays, RunsThrough, RunsToUnmet};
ghost use Rattle.script_lines.specs.declared.reason.Reason.{Reason as TheReason};
ghost use Rattle.script_session.specs.Session.{State, fresh_state};
ghost use Rattle.script_session.specs.Stands.{IsSession};
ghost use Rattle.script_session.specs.declared.session.Stop.TheVariants as stop;

use crate::state::Halt;
use run_traces::Trace;
use script_lines::Reason;
use script_session::{Session, Stop};
use std::alloc::{AllocError, Global};

/// A plain script that was run: the output of its lines, and its session.
#[derive(Drop)]
pub struct Replayed {
    /// The output of each line that was run.
    pub texts: Vec<String>,
    /// The session behind these lines.
    pub session: Session,
    /// The reason why the next line wasn't run. [`None`] if all were.
    pub stop: Option<Stop>,
}

/// Returns the last texts of a script, the replies to its questions.
pub(crate) fn replies(replayed: &Replayed, questions: usize) -> &[String]
    ensures { result.now ≡ drop (length replayed.now.texts.items - questions) replayed.now.texts.items }
{
    let before = replayed.texts.len().saturating_sub(questions);
    &replayed.texts[before..]
}

// Runs the lines of a script in a session. Ends before the first line that is a bad one or expects another reply.
fn run_all(alloc: Global, mut session: Session, lines: &[Vec<u8>]) -> Result<Replayed, AllocError>
    ensures { (from : State) → IsSession session from → IfOk result (λ it. Replays from (map (λ line. line.items) lines.now) it) }
{
    let mut texts = Vec::new(alloc);
    for line in lines {
        let mut text = String::new(alloc);
        session.count_line();
        match session.line(alloc, line, &mut text) {
            Ok(()) => texts.push(text)?,
            Err(stop) if stop == Stop::OutOfMemory => return Err(AllocError),
            Err(stop) => {
                return Ok(Replayed {
                    texts,
                    session,
                    stop: Some(stop),
                });
            }
        }
    }
    Ok(Replayed {
        texts,
        session,
        stop: None,
    })
}

/// Runs the lines of a script from the first, without a trace. Ends before the first line that is a bad one or
/// expects another reply.
///
/// # Errors
/// [`AllocError`] if out of memory.
pub fn replay(alloc: Global, seed: u32, lines: &[Vec<u8>]) -> Result<Replayed, AllocError>
    ensures { IfOk result (λ it. Replays (fresh_state Trace.Off seed) (map (λ line. line.items) lines.now) it) }
{
    run_all(alloc, Session::new(alloc, Trace::Off, seed), lines)
}

/// Runs a script in a session, to its end.
///
/// # Errors
/// [`Halt::Unlike`] if it doesn't run through; [`Halt::OutOfMemory`].
pub(crate) fn run_through(
    alloc: Global,
    session: Session,
    lines: &[Vec<u8>],
) -> Result<Replayed, Halt>
    ensures { (from : State) → IsSession session from → IfOk result (λ it. RunsThrough from (map (λ line. line.items) lines.now) it) }
{
    let replayed = run_all(alloc, session, lines)?;
    if replayed.stop.is_some() {
        return Err(Halt::Unlike);
    }
    Ok(replayed)
}

// Returns true if a line expects another reply than the last one.
fn is_unmet(ran: &Result<(), Stop>) -> bool
    ensures { IsTrue result → ran.now ≡ Err (stop.Bad TheReason.Unmet) }
{
    matches!(ran, Err(Stop::Bad(Reason::Unmet)))
}

/// Runs a script in a session, of which the last line expects another reply than the last one. Puts both lines
/// behind `advice`, and returns the session.
///
/// # Errors
/// [`Halt::Unlike`] if the script doesn't end so; [`Halt::OutOfMemory`].
pub(crate) fn run_to_unmet(
    alloc: Global,
    session: Session,
    lines: &[Vec<u8>],
    advice: &mut String,
) -> Result<Session, Halt>
    ensures { (from : State) → IsSession session from → OnOk result (RunsToUnmet from (map (λ line. line.items) lines.now)) }
{
    let Some((last, before)) = lines.split_last() else {
        return Err(Halt::Unlike);
    };
    let replayed = run_through(alloc, session, before)?;
    let Replayed { mut session, .. } = replayed;
    let mut unseen = String::new(alloc);
    let ran = session.line(alloc, last, &mut unseen);
    if matches!(ran, Err(Stop::OutOfMemory)) {
        return Err(Halt::OutOfMemory);
    }
    if !is_unmet(&ran) {
        return Err(Halt::Unlike);
    }
    session.put_advice(alloc, advice, Reason::Unmet, last)?;
    Ok(session)
}
