//! Which terms are values of the profile, and how many levels their canonical spelling has.
//!
//! The types keep an integer, an atom, a pid and a reference in the profile, as the contracts of their
//! measures say. What can be outside it is a count of items or bytes, and a tail.
ghost use Rattle.std.specs.Prelude.{◌≡◌, ◌≤◌, ◌<◌, ◌^◌, ◌↔◌, false, length, IsTrue, All};
ghost use Rattle.erl_term.specs.Canonical.{levels_of, IsInRange, AreInRange};
ghost use Rattle.erl_term.specs.Canonical as canonical;
ghost use Rattle.erl_term.specs.Data.{count};
ghost use Rattle.erl_term.specs.Numbers.{AreBytes};
ghost use Rattle.erl_term.specs.View.{view, items_view};

use crate::lists::{is_list, is_string};
use crate::part_len::{atom_len, integer_len, pid_len, reference_len};
use crate::term::Term;

/// Whether the term is a value of the profile.
#[cycle(range)]
pub(crate) fn is_in_range(term: &Term) -> bool
    ensures { IsTrue result ↔ IsInRange (view term.now) }
{
    match term {
        Term::Tuple(items) => can_stand(items),
        Term::Int(n) => {
            integer_len(*n);
            true
        }
        Term::Atom(atom) => {
            atom_len(atom);
            true
        }
        Term::List { items, tail } => match tail {
            None => can_stand(items),
            Some(tail) => can_end(items, tail) && can_stand(items) && is_in_range(tail),
        },
        Term::Binary(bytes) => is_binary(bytes),
        Term::Pid(pid) => {
            pid_len(pid);
            true
        }
        Term::Reference(reference) => {
            reference_len(reference);
            true
        }
    }
}

/// Whether the tail can stand behind the items.
pub(crate) fn can_end(items: &[Term], tail: &Term) -> bool
    ensures { IsTrue result ↔ ((0 < length items.now) × (canonical.is_list (view tail.now) ≡ false)) }
{
    !items.is_empty() && !is_list(tail)
}

/// Whether a tuple or a list can have these items.
#[cycle(range)]
fn can_stand(items: &[Term]) -> bool
    ensures { IsTrue result ↔ ((count (items_view items.now) < 2 ^ 32) × AreInRange (items_view items.now)) }
{
    has_count(items) && are_in_range(items)
}

/// Whether four bytes can say how many bytes there are.
pub(crate) fn is_binary(bytes: &[u8]) -> bool
    ensures { IsTrue result ↔ (AreBytes bytes.now × (length bytes.now < 2 ^ 32)) }
{
    bytes.len() <= u32::MAX as usize
}

/// Whether four bytes can say how many items there are.
pub(crate) fn has_count(items: &[Term]) -> bool
    ensures { IsTrue result ↔ (length items.now < 2 ^ 32) }
{
    items.len() <= u32::MAX as usize
}

#[cycle(range)]
fn are_in_range(items: &[Term]) -> bool
    ensures { IsTrue result ↔ All (λ t. IsInRange (view t)) items.now }
{
    for item in items {
        if !is_in_range(item) {
            return false;
        }
    }
    true
}

/// Whether the spelling of the term has at most so many levels.
#[cycle(levels)]
pub(crate) fn has_levels(term: &Term, levels: u32) -> bool
    ensures { IsTrue result ↔ (levels_of (view term.now) ≤ levels) }
{
    if levels == 0 {
        return false;
    }
    match term {
        Term::Tuple(items) => have_levels(items, levels - 1),
        Term::List { items, tail } => match tail {
            None => is_string(items) || have_levels(items, levels - 1),
            Some(tail) => have_levels(items, levels - 1) && has_levels(tail, levels - 1),
        },
        Term::Int(_) | Term::Atom(_) | Term::Binary(_) | Term::Pid(_) | Term::Reference(_) => true,
    }
}

#[cycle(levels)]
fn have_levels(items: &[Term], levels: u32) -> bool
    ensures { IsTrue result ↔ All (λ t. levels_of (view t) ≤ levels) items.now }
{
    for item in items {
        if !has_levels(item, levels) {
            return false;
        }
    }
    true
}
