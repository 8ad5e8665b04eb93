//! Lists: made of what was read, and told by their items.
ghost use Rattle.std.specs.Prelude.{◌≡◌, true, IfOk, IfSome, is_some};
ghost use Rattle.erl_term.specs.Data.{int, list, joined};
ghost use Rattle.erl_term.specs.Canonical as canonical;
ghost use Rattle.erl_term.specs.Spelling.{byte_items};
ghost use Rattle.erl_term.specs.View.{view, items_view};

use crate::term::Term;
use std::alloc::{AllocError, Global};

impl Term {
    /// The proper list of these items.
    pub fn list(items: Vec<Term>) -> Term
        ensures { view result ≡ list (items_view items.items) }
    {
        Term::List { items, tail: None }
    }
}

/// The integers that the bytes are.
pub(crate) fn byte_list(alloc: Global, bytes: &[u8]) -> Result<Vec<Term>, AllocError>
    ensures { IfOk result (λ v. items_view v.items ≡ byte_items bytes.now) }
{
    let mut items = Vec::with_capacity(alloc, bytes.len())?;
    for byte in bytes {
        items.push(Term::Int(i128::from(*byte)))?;
    }
    Ok(items)
}

/// The items with the tail behind them. A list in the tail goes on with its own items, and no
/// items leave the tail alone.
pub(crate) fn join(alloc: Global, mut items: Vec<Term>, tail: Term) -> Result<Term, AllocError>
    ensures { IfOk result (λ t. view t ≡ joined (items_view items.items) (view tail)) }
{
    match tail {
        Term::List {
            items: mut more,
            tail,
        } => {
            items.append(&mut more)?;
            Ok(Term::List { items, tail })
        }
        tail => {
            if items.is_empty() {
                return Ok(tail);
            }
            Ok(Term::List {
                items,
                tail: Some(Box::new(alloc, tail)?),
            })
        }
    }
}

/// Returns true where the term is a list, proper or not.
pub(crate) fn is_list(term: &Term) -> bool
    ensures { result ≡ canonical.is_list (view term.now) }
{
    matches!(term, Term::List { .. })
}

/// Returns true where the integer is one of a byte.
pub(crate) fn is_byte(n: i128) -> bool
    ensures { result ≡ canonical.is_byte (int n) }
{
    u8::try_from(n).is_ok()
}

/// The integer of a byte that the term is, if it is one.
pub(crate) fn byte_in(term: &Term) -> Option<u8>
    ensures some { is_some result ≡ canonical.is_byte (view term.now) }
    ensures byte { IfSome result (λ b. b ≡ canonical.byte_of (view term.now)) }
{
    match term {
        Term::Int(n) => u8::try_from(*n).ok(),
        _ => None,
    }
}

/// The integer that the term is, where it is one of a byte.
pub(crate) fn byte_of(term: &Term) -> u8
    requires { canonical.is_byte (view term.now) ≡ true }
    ensures { result ≡ canonical.byte_of (view term.now) }
{
    match term {
        Term::Int(n) => *n as u8,
        _ => 0,
    }
}

/// Returns true where a STRING can hold the items.
pub(crate) fn is_string(items: &[Term]) -> bool
    ensures { result ≡ canonical.is_string (items_view items.now) }
{
    if items.len() > 65535 {
        return false;
    }
    for item in items {
        if byte_in(item).is_none() {
            return false;
        }
    }
    true
}
