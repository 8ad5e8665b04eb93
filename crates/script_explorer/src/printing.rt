//! The texts of outcomes, and of an expectation that isn't met.
ghost use Rattle.std.specs.Prelude.{◌≡◌, ◌++◌, OnOk};
ghost use Rattle.script_explorer.specs.Printed.{Shown, Unmet, shown_text, unmet_text};

use crate::replaying::{replies, run_through, run_to_unmet};
use crate::state::Halt;
use crate::texts::{Heading, put, put_heading, put_replies, put_script, put_unmet_heading};
use run_traces::Trace;
use script_session::Session;
use std::alloc::Global;

/// Appends an outcome: its number, the states that lead to it, the replies to the questions as comments, and its
/// script. The replies are those that the script prints, run from its first line.
///
/// # Errors
/// [`Halt::Unlike`] if the script doesn't run through; [`Halt::OutOfMemory`].
pub(crate) fn put_outcome(
    alloc: Global,
    out: &mut Vec<u8>,
    seed: u32,
    heading: &Heading,
    lines: &[Vec<u8>],
) -> Result<(), Halt>
    ensures { OnOk result ((shown : Shown seed) × (shown.number ≡ heading.now.number) × (shown.all ≡ heading.now.all) × (out.new.items ≡ out.old.items ++ shown_text shown)) }
{
    let replayed = run_through(alloc, Session::new(alloc, Trace::Off, seed), lines)?;
    put_heading(alloc, out, heading)?;
    put_replies(out, replies(&replayed, heading.questions))?;
    put_script(out, lines)?;
    Ok(())
}

/// Appends an expectation that isn't met: the number of its line, the line that was expected and the one that
/// came, and the script, of which the expectation is the last line. Puts both lines behind `advice` too.
///
/// # Errors
/// [`Halt::Unlike`] if the script doesn't end so; [`Halt::OutOfMemory`].
pub(crate) fn put_unmet(
    alloc: Global,
    out: &mut Vec<u8>,
    seed: u32,
    number: u64,
    lines: &[Vec<u8>],
    advice: &mut String,
) -> Result<(), Halt>
    ensures { OnOk result ((unmet : Unmet seed) × (out.new.items ≡ out.old.items ++ unmet_text unmet)) }
{
    drop(run_to_unmet(alloc, Session::new(alloc, Trace::Off, seed), lines, advice)?);
    put_unmet_heading(alloc, out, number, advice.as_str())?;
    put(out, "\n")?;
    put_script(out, lines)?;
    Ok(())
}
