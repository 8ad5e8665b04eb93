//! A term that is judged where it lies, before it is copied.
ghost use Rattle.std.specs.Prelude.{◌≡◌, ◌≤◌, ◌↔◌, length, IfOk, IsTrue};
ghost use Rattle.erl_term.specs.Canonical.{canonical, levels_of};
ghost use Rattle.erl_term.specs.Parts.{ReadsFront};
ghost use Rattle.erl_term.specs.Spelling.{Spells};
ghost use Rattle.erl_term.specs.View.{view};

use crate::reading::term_of;
use crate::size::Size;
use crate::skim::term_measure_of;
use crate::term::Term;
use std::alloc::{AllocError, Global};
use std::marker::Model;

/// A term that still lies in the bytes that were read. Contracts see its data.
#[derive(Debug, Drop)]
pub struct TermRef<'a> {
    /// The most levels that were read.
    levels: u32,
    /// The spelling, and what stands behind it.
    bytes: &'a [u8],
    /// What the canonical spelling takes.
    size: Size,
}

impl<'a> Model for TermRef<'a> {
    ghost use Rattle.std.specs.Prelude.{◌≡◌, Ok};
    ghost use Rattle.erl_term.specs.Code.{data_code};
    ghost use Rattle.erl_term.specs.Data.{Data};
    ghost use Rattle.erl_term.specs.Reading.{read_term};
    ghost use Rattle.erl_term.specs.TermAt.{data_in, size_in};

    ghost Value = { Data };

    ghost coded = { data_code };

    ghost view = { λ t. data_in (read_term t.levels t.bytes.now) };

    ghost invariant = { λ t. size_in (read_term t.levels t.bytes.now) ≡ Ok t.size };
}

impl<'a> TermRef<'a> {
    /// The term, with memory of its own.
    pub fn to_term(&self, alloc: Global) -> Result<Term, AllocError>
        ensures { IfOk result (λ t. view t ≡ self.now) }
    {
        match term_of(alloc, self.levels, self.bytes) {
            Ok((term, _)) => Ok(term),
            // The term was read before, so only memory can be wanting.
            Err(_) => Err(AllocError),
        }
    }

    /// Returns true if its canonical spelling, version byte included, has at most so many levels and
    /// bytes. It takes no memory.
    pub fn is_within(&self, levels: u32, most: usize) -> bool
        ensures { IsTrue result ↔ ((levels_of self.now ≤ levels) × (length (canonical self.now) ≤ most)) }
    {
        self.size.levels <= levels as usize && self.size.len < most
    }
}

/// The term at the front, in any spelling of at most so many levels, and the bytes after it. None
/// where no term of the profile stands there. It takes no memory. (ERTS User's Guide, External Term
/// Format.)
pub fn term_at(levels: u32, bytes: &[u8]) -> Option<(TermRef<'_>, &[u8])>
    ensures { ReadsFront (λ t b. Spells levels t b) bytes.now result }
{
    match term_measure_of(levels, bytes) {
        Ok((measure, rest)) => {
            let term = TermRef {
                levels,
                bytes,
                size: measure.size(),
            };
            Some((term, rest))
        }
        Err(_) => None,
    }
}
