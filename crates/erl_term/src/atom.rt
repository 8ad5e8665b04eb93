//! Atoms.
ghost use Rattle.std.specs.Prelude.{◌≡◌, ◌≤◌, ◌↔◌, IfOk, IsTrue, List, ℕ, Some, length, refl, nat_eq};
ghost use Rattle.std.specs.Ordering.{nat_cmp};
ghost use Rattle.std.specs.String.{string_bytes};
ghost use Rattle.std.specs.Str.{chars};
ghost use Rattle.std.specs.Cmp.{partial_equiv_from_equiv};
ghost use Rattle.std.specs.Cmp.Lexicographic.{pointwise, slice_cmp, nat_list_eq_equiv, nat_list_cmp_total, texts_po, texts_ties};
ghost use Rattle.erl_term.specs.Text.{IsAtomText};

use std::alloc::AllocError;
use std::cmp::Ordering;
use std::marker::Model;
use std::sync::ArcStr;

/// An atom: a text of 0 to 255 characters, which its copies share. Contracts see its UTF-8 bytes.
///
/// Atoms are ordered by these bytes. (ERTS User's Guide, External Term Format, ATOM_UTF8_EXT;
/// Reference Manual, Data Types, Atom.)
#[derive(Debug, Drop)]
pub struct Atom {
    text: ArcStr,
}

impl Model for Atom {
    ghost use Rattle.std.specs.Prelude.{List, ℕ, length, ◌≤◌};
    ghost use Rattle.std.specs.Arc.{arc_str_bytes};
    ghost use Rattle.std.specs.Str.{chars};

    ghost Value = { List ℕ };

    ghost view = { λ a. arc_str_bytes a.text };

    ghost invariant = { λ a. length (chars (arc_str_bytes a.text)) ≤ 255 };
}

impl Atom {
    /// Returns true if the text has at most 255 characters, as an atom must.
    pub fn fits(text: &str) -> bool
        ensures { IsTrue result ↔ (length (chars text.now) ≤ 255) }
    {
        text.chars().count() <= 255
    }

    /// The atom of a text that [fits](Atom::fits).
    ///
    /// # Errors
    /// Where there is no memory for it.
    pub fn new(text: String) -> Result<Atom, AllocError>
        requires { length (chars (string_bytes text)) ≤ 255 }
        ensures { IfOk result (λ atom. atom ≡ string_bytes text) }
    {
        Ok(Atom {
            text: ArcStr::from_string(text)?,
        })
    }

    /// The text of the atom.
    pub fn text(&self) -> &str
        ensures text { result.now ≡ self.now }
        ensures fits { IsAtomText self.now }
    {
        self.text.as_str()
    }
}

impl Clone for Atom {
    ghost is_clone = { λ atom copy. copy ≡ atom };

    fn clone(&self) -> Result<Atom, AllocError> {
        Ok(Atom {
            text: self.text.clone()?,
        })
    }
}

impl PartialEq for Atom {
    ghost eq = { pointwise nat_eq };

    ghost laws = { partial_equiv_from_equiv nat_list_eq_equiv };

    fn eq(&self, other: &Atom) -> bool {
        self.text() == other.text()
    }
}

impl Eq for Atom {
    ghost laws = { nat_list_eq_equiv };
}

impl PartialOrd for Atom {
    ghost partial_cmp = { λ a b. Some (slice_cmp nat_cmp a b) };

    ghost laws = { texts_po };

    fn partial_cmp(&self, other: &Atom) -> Option<Ordering> {
        Some(self.cmp(other))
    }
}

impl Ord for Atom {
    ghost cmp = { slice_cmp nat_cmp };

    ghost total = { nat_list_cmp_total };

    ghost matches_partial_cmp = { λ a b. refl };

    ghost matches_eq = { texts_ties };

    fn cmp(&self, other: &Atom) -> Ordering {
        self.text().cmp(other.text())
    }
}
