//! The answer to bytes: the term at the front, or why there is none.
ghost use Rattle.std.specs.Prelude.{◌≡◌, ◌≤◌, ◌≢◌, ℕ, length, IfOk, IfErr, IsErrOf, Ok, Err, Result};
ghost use Rattle.erl_term.specs.declared.error.TermError.{TermError};
ghost use Rattle.erl_term.specs.declared.error.TermError.TheVariants.{OutOfMemory};
ghost use Rattle.erl_term.specs.Data.{Data};
ghost use Rattle.erl_term.specs.Reading.{Gives};
ghost use Rattle.erl_term.specs.Answer.{IsDue};
ghost use Rattle.erl_term.specs.Limited.{answer_at, taken_of};
ghost use Rattle.erl_term.specs.View.{view};

use crate::error::TermError;
use crate::reading::spelling_of;
use crate::skim::skip_spelling;
use crate::term::Term;
use std::alloc::Global;

/// The most bytes of a term, its version byte included.
pub const TERM_LIMIT: usize = 1_048_576;

/// The same as `decode`, but that it may run out of memory before it comes to a fault.
#[tactic(auto, unfolding(crate::specs::Limited::answer_at))]
fn answer_of(alloc: Global, bytes: &[u8]) -> Result<(Term, usize), TermError>
    ensures { Gives (λ x. (view x.0, x.1)) result (answer_at bytes.now) }
{
    match spelling_of(alloc, bytes) {
        Ok((term, rest)) => {
            let taken = bytes.len() - rest.len();
            if taken > TERM_LIMIT {
                return Err(TermError::TooLong);
            }
            Ok((term, taken))
        }
        Err(TermError::Cut) => {
            if bytes.len() > TERM_LIMIT {
                return Err(TermError::TooLong);
            }
            Err(TermError::Cut)
        }
        Err(e) => Err(e),
    }
}

/// How many bytes the term at the front takes. It asks for no memory.
#[tactic(auto, unfolding(crate::specs::Limited::answer_at))]
fn scanned(bytes: &[u8]) -> Result<usize, TermError>
    ensures { taken_of (answer_at bytes.now) ≡ result }
{
    match skip_spelling(bytes) {
        Ok(rest) => {
            let taken = bytes.len() - rest.len();
            if taken > TERM_LIMIT {
                return Err(TermError::TooLong);
            }
            Ok(taken)
        }
        Err(TermError::Cut) => {
            if bytes.len() > TERM_LIMIT {
                return Err(TermError::TooLong);
            }
            Err(TermError::Cut)
        }
        Err(e) => Err(e),
    }
}

/// The term at the front of the bytes, and how many bytes it takes. What follows it is not read.
///
/// Each spelling of a term is read. `Malformed`, `OutOfProfile` and `TooDeep` say what the first
/// fault from the left is. Where there is none, `Cut` says that the bytes end within a term, and
/// `TooLong` that the term has more than [`TERM_LIMIT`] bytes, or that they end within it and are more
/// than those. `OutOfMemory` comes only where there is a term.
/// (ERTS User's Guide, External Term Format.)
pub fn decode(alloc: Global, bytes: &[u8]) -> Result<(Term, usize), TermError>
    // What is answered is due, unless memory ran out.
    ensures ok { IfOk result (λ x. IsDue bytes.now (Ok (view x.0, x.1))) }
    ensures err { IfErr result (λ e. e ≢ TermError.OutOfMemory → IsDue bytes.now (Err e)) }
    // What is due is answered, unless memory ran out.
    ensures only { (due : Result (Data × ℕ) TermError) → IsDue bytes.now due → Gives (λ x. (view x.0, x.1)) result due }
    // Memory is asked for only where there is a term.
    ensures memory { IsErrOf result TermError.OutOfMemory → (x : Data × ℕ) × IsDue bytes.now (Ok x) }
{
    match answer_of(alloc, bytes) {
        Ok(answer) => Ok(answer),
        Err(e) => {
            // A fault may stand behind what there was memory for.
            if e.is_out_of_memory() {
                scanned(bytes)?;
            }
            Err(e)
        }
    }
}

/// How many bytes the term at the front takes, or why there is none: what [`decode`] answers, but
/// for the term. It takes no memory.
pub fn term_len(bytes: &[u8]) -> Result<usize, TermError>
    ensures ok { IfOk result (λ n. (t : Data) × IsDue bytes.now (Ok (t, n))) }
    ensures err { IfErr result (λ e. IsDue bytes.now (Err e)) }
{
    scanned(bytes)
}
