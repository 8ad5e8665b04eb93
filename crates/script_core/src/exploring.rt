//! The exploration of a script with blocks.
ghost use Rattle.std.specs.Prelude.{◌≡◌, IfErr, IfOk, List, Option, ℕ};
ghost use Rattle.script_core.specs.Explored.{Explores, IsInForm, outcome_for};
ghost use Rattle.script_core.specs.declared.options.Form.{Form as TheForm};

use crate::options::{Form, Options};
use crate::script::{Outcome, write_whole};
use script_explorer::{Explored, Halt, Plan, Unread, draw, explore};
use script_lines::Reason;
use std::alloc::{AllocError, Global};
use std::io::{ErrorKind, Read, Write};

// Returns all bytes of a reader.
fn read_all<R: Read>(alloc: Global, reader: &mut R) -> Result<Vec<u8>, Outcome>
    ensures { IfErr result (λ outcome. (form : TheForm) (seed : ℕ) (old : Option (List ℕ)) → Explores form seed old old outcome) }
{
    let mut bytes = Vec::new(alloc);
    match reader.read_to_end(&mut bytes) {
        Ok(_) => Ok(bytes),
        Err(error) if error.kind() == ErrorKind::OutOfMemory => Err(Outcome::OutOfMemory),
        Err(_) => Err(Outcome::Failed),
    }
}

// Returns the outcome of an exploration that was halted.
fn halted(halt: Halt) -> Outcome
    ensures { (form : TheForm) (seed : ℕ) (old : Option (List ℕ)) → Explores form seed old old result }
{
    match halt {
        Halt::Bad(number, reason) => Outcome::BadLine(number, reason),
        Halt::Unlike => Outcome::Failed,
        Halt::OutOfMemory => Outcome::OutOfMemory,
    }
}

// Returns the outcome of an exploration that was written, by the number of an expectation that isn't met.
fn outcome_for(unmet: Option<u64>) -> Outcome
    ensures { result ≡ outcome_for unmet }
{
    match unmet {
        Some(number) => Outcome::BadLine(number, Reason::Unmet),
        None => Outcome::Ran,
    }
}

// Returns the outcomes of a plan, as a drawing or as a text.
fn explored(
    alloc: Global,
    plan: &Plan<'_>,
    options: &Options,
    most: u64,
    advice: &mut String,
) -> Result<Explored, Halt>
    ensures { IfOk result (λ explored. IsInForm options.now.form options.now.seed explored) }
{
    match options.form {
        Form::Picture(lines) => draw(alloc, plan, options.seed, most, lines, advice),
        _ => explore(alloc, plan, options.seed, most, advice),
    }
}

// Explores a plan, and writes its outcomes.
fn explore_plan<W: Write>(
    alloc: Global,
    plan: &Plan<'_>,
    writer: &mut W,
    options: &Options,
    most: u64,
    advice: &mut String,
) -> Outcome
    ensures { Explores options.now.form options.now.seed (W.contents writer.old) (W.contents writer.new) result }
{
    let explored = match explored(alloc, plan, options, most, advice) {
        Ok(explored) => explored,
        Err(halt) => return halted(halt),
    };
    match write_whole(writer, &explored.text) {
        Ok(()) => outcome_for(explored.unmet),
        Err(failed) => failed,
    }
}

/// Takes the blocks of the script that the reader gives, and all that is in flight, in every order, up to `most`
/// steps behind its beginning, and writes each outcome with its shortest script. The replies of an outcome are those
/// that its script prints, run by [`run_script`](crate::run_script). If a picture is asked for, the scripts are drawn
/// in one document, side by side.
///
/// Nothing is written if a line is a bad one, or if reading or memory fails. The fault of a bad line is put behind
/// the advice, as far as there is memory for it.
pub fn run_exploring<R: Read, W: Write>(
    alloc: Global,
    reader: &mut R,
    writer: &mut W,
    options: &Options,
    most: u64,
    advice: &mut String,
) -> Outcome
    ensures { Explores options.now.form options.now.seed (W.contents writer.old) (W.contents writer.new) result }
{
    let input = match read_all(alloc, reader) {
        Ok(input) => input,
        Err(outcome) => return outcome,
    };
    match Plan::read(alloc, &input) {
        Ok(plan) => explore_plan(alloc, &plan, writer, options, most, advice),
        Err(Unread::OutOfMemory) => Outcome::OutOfMemory,
        Err(Unread::Bad(number, fault)) => {
            let _: Result<(), AllocError> = write!(advice, "{fault}");
            Outcome::BadLine(number, Reason::WrongWords)
        }
    }
}
