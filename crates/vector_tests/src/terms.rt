//! Terms, by erl_term.

ghost use Rattle.std.specs.Prelude.{◌≢◌, IfOk, string_bytes};
ghost use Rattle.erl_term.specs.Canonical.{canonical};
ghost use Rattle.erl_term.specs.View.{view};
ghost use Rattle.script_terms.specs.Printing.{term_text};
ghost use Rattle.vector_tests.specs.Vectors.{IsReading, IsTermAnswer};

use crate::texts::{fault, front, reads};
use anyhow::Result;
use erl_term::{Term, TermError, decode, encode};
use fault_places::Reader;
use script_terms::put_term;
use std::alloc::Global;

/// Returns the answer to the term at the front of the bytes, behind the version byte.
pub fn answer(alloc: Global, bytes: &[u8]) -> Result<String>
    ensures { IfOk result (λ text. IsTermAnswer bytes.now (string_bytes text)) }
{
    match decode(alloc, bytes) {
        Ok((term, taken)) => read(alloc, front(bytes, taken), &term),
        Err(e) => refused(alloc, bytes, e),
    }
}

/// Returns the answer to a fault. Want of memory says nothing of the bytes, so it is no answer.
fn refused(alloc: Global, bytes: &[u8], error: TermError) -> Result<String>
    ensures { IfOk result (λ _. error ≢ TermError.OutOfMemory) }
{
    if error.is_out_of_memory() {
        return Err(error.into());
    }
    fault(alloc, Reader::Term.place(alloc, bytes)?, &error)
}

/// Returns the answer where this term was read from these bytes.
fn read(alloc: Global, bytes: &[u8], term: &Term) -> Result<String>
    ensures { IfOk result (λ text. IsReading bytes.now (canonical (view term.now)) (term_text (view term.now)) (string_bytes text)) }
{
    let mut words = String::new(alloc);
    put_term(&mut words, term)?;
    let written = encode(alloc, term)?;
    reads(alloc, bytes, written.as_slice(), words.as_str())
}
