//! Copies of terms.
ghost use Rattle.std.specs.Prelude.{◌≡◌, IfOk, map};
ghost use Rattle.erl_term.specs.View.{view};

use crate::term::Term;
use std::alloc::{AllocError, Global};

/// A copy of the term, with memory of its own. Fails for want of memory alone.
#[cycle(copy)]
pub fn copy_of(alloc: Global, term: &Term) -> Result<Term, AllocError>
    ensures { IfOk result (λ t. view t ≡ view term.now) }
{
    match term {
        Term::Int(n) => Ok(Term::Int(*n)),
        Term::Atom(atom) => Ok(Term::Atom(atom.clone()?)),
        Term::Tuple(items) => Ok(Term::Tuple(copies_of(alloc, items)?)),
        Term::List { items, tail } => {
            let items = copies_of(alloc, items)?;
            match tail {
                None => Ok(Term::List { items, tail: None }),
                Some(tail) => {
                    let tail = Box::new(alloc, copy_of(alloc, tail)?)?;
                    Ok(Term::List {
                        items,
                        tail: Some(tail),
                    })
                }
            }
        }
        Term::Binary(bytes) => Ok(Term::Binary(bytes_of(alloc, bytes)?)),
        Term::Pid(pid) => Ok(Term::Pid(pid.clone()?)),
        Term::Reference(reference) => Ok(Term::Reference(reference.clone()?)),
    }
}

#[cycle(copy)]
fn copies_of(alloc: Global, items: &[Term]) -> Result<Vec<Term>, AllocError>
    ensures { IfOk result (λ copies. map view copies.items ≡ map view items.now) }
{
    let mut copies = Vec::with_capacity(alloc, items.len())?;
    for item in items {
        copies.push(copy_of(alloc, item)?)?;
    }
    Ok(copies)
}

fn bytes_of(alloc: Global, bytes: &[u8]) -> Result<Vec<u8>, AllocError>
    ensures { IfOk result (λ copy. copy.items ≡ bytes.now) }
{
    let mut copy = Vec::with_capacity(alloc, bytes.len())?;
    copy.extend_from_slice(bytes)?;
    Ok(copy)
}
