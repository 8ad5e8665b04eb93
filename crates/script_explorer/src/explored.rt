//! The text of an exploration.
ghost use Rattle.std.specs.Prelude.{◌≡◌, ◌++◌, IfOk, List, OnOk, Option, codes, is_some, length, string_bytes, ℕ};
ghost use Rattle.script_explorer.specs.Printed.{AreNumbered, IsExplored, Shown, Unmet, shown_texts, unmet_texts};
ghost use Rattle.script_explorer.specs.Texts.{IsSummary, bound_text, counts_text, unvisited_text};

use crate::paths::{OutcomeScript, Scripts, UnmetScript};
use crate::plan::Plan;
use crate::printing::{put_outcome, put_unmet};
use crate::search::Exploration;
use crate::state::{Halt, run_lines};
use crate::texts::{Heading, put, put_count};
use run_traces::Trace;
use script_session::Session;
use std::alloc::{AllocError, Global};

/// The text or the drawing of an exploration, and the number of the first line that expects another reply than
/// some order gives.
#[derive(Drop)]
pub struct Explored {
    /// The outcomes, each with its shortest script.
    pub text: Vec<u8>,
    /// The number of the line, from 1, if there is one.
    pub unmet: Option<u64>,
}

// Appends the words of a bound of so many steps.
fn put_steps(out: &mut String, most: u64) -> Result<(), AllocError>
    ensures { OnOk result (string_bytes out.new ≡ string_bytes out.old ++ unvisited_text most) }
{
    out.push_str("; states behind ")?;
    put_count(out, most, "step")?;
    out.push_str(" were not visited")
}

// Appends the steps behind which no state was visited, if there are any.
fn put_bound(out: &mut String, is_bounded: bool, most: u64) -> Result<(), AllocError>
    ensures { OnOk result (string_bytes out.new ≡ string_bytes out.old ++ bound_text is_bounded most) }
{
    if is_bounded {
        put_steps(out, most)
    } else {
        Ok(())
    }
}

// Returns the counts of states and of outcomes.
fn counts(alloc: Global, states: usize, outcomes: usize) -> Result<String, AllocError>
    ensures { IfOk result (λ text. string_bytes text ≡ counts_text states outcomes) }
{
    let mut text = String::new(alloc);
    put_count(&mut text, states as u64, "state")?;
    text.push_str(", ")?;
    put_count(&mut text, outcomes as u64, "outcome")?;
    Ok(text)
}

/// Returns how many states were visited, and how many outcomes they have.
///
/// # Errors
/// [`AllocError`] if out of memory.
pub(crate) fn summary(
    alloc: Global,
    found: &Exploration<'_, '_>,
    outcomes: usize,
) -> Result<String, AllocError>
    ensures { IfOk result (λ text. IsSummary outcomes (string_bytes text)) }
{
    let mut text = counts(alloc, found.states(), outcomes)?;
    put_bound(&mut text, found.is_bounded, found.most())?;
    Ok(text)
}

// Appends the outcomes, in the order in which they were found.
fn put_outcomes(
    alloc: Global,
    out: &mut Vec<u8>,
    seed: u32,
    scripts: &[OutcomeScript],
    questions: usize,
) -> Result<(), Halt>
    ensures { OnOk result ((shown : List (Shown seed)) × (length shown ≡ length scripts.now) × AreNumbered 1 (length scripts.now) shown × (out.new.items ≡ out.old.items ++ shown_texts shown)) }
{
    for (place, script) in scripts.iter().enumerate() {
        let heading = Heading {
            number: place as u64 + 1,
            all: scripts.len() as u64,
            states: script.states,
            questions,
        };
        put_outcome(alloc, out, seed, &heading, &script.lines)?;
    }
    Ok(())
}

// Appends the shortest script in which an expectation isn't met, if there is one. Returns the number of its line.
fn put_broken(
    alloc: Global,
    out: &mut Vec<u8>,
    seed: u32,
    script: &Option<UnmetScript>,
    advice: &mut String,
) -> Result<Option<u64>, Halt>
    ensures { IfOk result (λ number. (unmet : Option (Unmet seed)) × (out.new.items ≡ out.old.items ++ unmet_texts unmet) × (is_some unmet ≡ is_some number)) }
{
    let Some(script) = script else {
        return Ok(None);
    };
    put_unmet(alloc, out, seed, script.number, &script.lines, advice)?;
    Ok(Some(script.number))
}

// Returns the first line of the text, with a summary.
fn first_line(alloc: Global, summary: &str) -> Result<Vec<u8>, AllocError>
    ensures { IfOk result (λ text. text.items ≡ codes "# " ++ summary.now ++ codes "\n") }
{
    let mut text = Vec::new(alloc);
    put(&mut text, "# ")?;
    put(&mut text, summary)?;
    put(&mut text, "\n")?;
    Ok(text)
}

// Returns the text of an exploration.
fn text_of(
    alloc: Global,
    seed: u32,
    found: &Exploration<'_, '_>,
    advice: &mut String,
) -> Result<Explored, Halt>
    ensures { IfOk result (λ explored. IsExplored seed explored) }
{
    let Scripts { outcomes, unmet } = found.scripts(alloc)?;
    let summary = summary(alloc, found, outcomes.len())?;
    let mut text = first_line(alloc, summary.as_str())?;
    let questions = found.plan().questions.len();
    put_outcomes(alloc, &mut text, seed, &outcomes, questions)?;
    let unmet = put_broken(alloc, &mut text, seed, &unmet, advice)?;
    Ok(Explored { text, unmet })
}

/// Explores a plan, up to `most` steps behind its beginning. `seed` is the first challenge of the handshakes. Puts
/// the fault of a line that is a bad one behind `advice`.
///
/// # Errors
/// As of [`explore`].
pub(crate) fn exploration_of<'p, 'a>(
    alloc: Global,
    plan: &'p Plan<'a>,
    seed: u32,
    most: u64,
    advice: &mut String,
) -> Result<Exploration<'p, 'a>, Halt> {
    let mut session = Session::new(alloc, Trace::Off, seed);
    let mut unseen = String::new(alloc);
    let begun = run_lines(alloc, &mut session, &plan.beginning, &mut unseen);
    if let Err(halt) = begun {
        put_advice(alloc, advice, plan, &session, halt)?;
        return Err(halt);
    }
    match Exploration::of(alloc, plan, session.copy(alloc)?, most) {
        Ok(found) => Ok(found),
        Err(halt) => {
            put_advice(alloc, advice, plan, &session, halt)?;
            Err(halt)
        }
    }
}

/// Explores a plan, up to `most` steps behind its beginning, and returns the text of all outcomes. Each is printed
/// with a plain script, and the replies are those that this script prints. `seed` is the first challenge of the
/// handshakes. Puts the fault of a line that is a bad one, or that expects another reply, behind `advice`.
///
/// # Errors
/// [`Halt::Bad`] with the first line that is a bad one, for another reason than an `expect` that isn't met in the
/// blocks or among the questions; [`Halt::OutOfMemory`].
pub fn explore(
    alloc: Global,
    plan: &Plan<'_>,
    seed: u32,
    most: u64,
    advice: &mut String,
) -> Result<Explored, Halt>
    ensures { IfOk result (λ explored. IsExplored seed explored) }
{
    let found = exploration_of(alloc, plan, seed, most, advice)?;
    text_of(alloc, seed, &found, advice)
}

// Puts the fault of the line of a halt behind the advice.
fn put_advice(
    alloc: Global,
    advice: &mut String,
    plan: &Plan<'_>,
    session: &Session,
    halt: Halt,
) -> Result<(), AllocError> {
    let Halt::Bad(number, reason) = halt else {
        return Ok(());
    };
    match plan.line(number) {
        Some(line) => session.put_advice(alloc, advice, reason, line),
        None => Ok(()),
    }
}
