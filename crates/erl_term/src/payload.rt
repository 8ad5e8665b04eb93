//! Terms that travel.
ghost use Rattle.std.specs.Prelude.{◌≡◌, IfOk};
ghost use Rattle.erl_term.specs.View.{view};

use crate::copying::copy_of;
use crate::term::Term;
use std::alloc::{AllocError, Global};
use std::marker::Model;

/// A term that a signal carries: a message, or the reason of an exit. Contracts see what the term
/// is, and not where it lies in memory.
///
/// (ERTS User's Guide, External Term Format.)
#[derive(Debug, Drop)]
pub struct Payload {
    term: Term,
}

impl Model for Payload {
    ghost use Rattle.erl_term.specs.Code.{data_code};
    ghost use Rattle.erl_term.specs.Data.{Data};
    ghost use Rattle.erl_term.specs.View.{view as data_of};

    ghost Value = { Data };

    ghost coded = { data_code };

    ghost view = { λ p. data_of p.term };
}

impl Payload {
    /// The payload of this term.
    pub fn new(term: Term) -> Payload
        ensures { result ≡ view term }
    {
        Payload { term }
    }

    /// The term.
    pub fn term(&self) -> &Term
        ensures { view result.now ≡ self.now }
    {
        &self.term
    }

    /// The term, taken out.
    pub fn into_term(self) -> Term
        ensures { view result ≡ self }
    {
        self.term
    }

    /// A copy of the payload, with memory of its own. Fails for want of memory alone.
    pub fn copy(&self, alloc: Global) -> Result<Payload, AllocError>
        ensures { IfOk result (λ copy. copy ≡ self.now) }
    {
        Ok(Payload {
            term: copy_of(alloc, &self.term)?,
        })
    }
}
