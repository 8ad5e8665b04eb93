//! Whether two terms are the same.
ghost use Rattle.std.specs.Prelude.{◌≡◌, ◌↔◌, IsTrue, map};
ghost use Rattle.erl_term.specs.View.{view};
ghost use Rattle.node_history.specs.Tails.{tail_of};

use erl_term::{Payload, Reference, Term};

/// Whether the two name one reference.
pub(crate) fn is_same_reference(a: &Reference, b: &Reference) -> bool
    ensures { IsTrue result ↔ (a.now ≡ b.now) }
{
    a == b
}

#[cycle(terms)]
fn is_same_term(a: &Term, b: &Term) -> bool
    ensures { IsTrue result ↔ (view a.now ≡ view b.now) }
{
    match (a, b) {
        (Term::Int(a), Term::Int(b)) => a == b,
        (Term::Atom(a), Term::Atom(b)) => a == b,
        (Term::Tuple(a), Term::Tuple(b)) => are_same_terms(a, b),
        (
            Term::List { items, tail },
            Term::List {
                items: others,
                tail: end,
            },
        ) => { are_same_terms(items, others) && is_same_tail(tail, end) }
        (Term::Binary(a), Term::Binary(b)) => a.as_slice() == b.as_slice(),
        (Term::Pid(a), Term::Pid(b)) => a.is_same(b),
        (Term::Reference(a), Term::Reference(b)) => is_same_reference(a, b),
        _ => false,
    }
}

#[cycle(terms)]
fn is_same_tail(a: &Option<Box<Term>>, b: &Option<Box<Term>>) -> bool
    ensures { IsTrue result ↔ (tail_of a.now ≡ tail_of b.now) }
{
    match (a, b) {
        (None, None) => true,
        (Some(a), Some(b)) => is_same_term(a, b),
        _ => false,
    }
}

#[cycle(terms)]
fn are_same_terms(a: &[Term], b: &[Term]) -> bool
    ensures { IsTrue result ↔ (map view a.now ≡ map view b.now) }
{
    if a.len() != b.len() {
        return false;
    }
    for place in 0..a.len() {
        if !is_same_term(&a[place], &b[place]) {
            return false;
        }
    }
    true
}

/// Whether the two are one term.
pub(crate) fn is_same_payload(a: &Payload, b: &Payload) -> bool
    ensures { IsTrue result ↔ (a.now ≡ b.now) }
{
    is_same_term(a.term(), b.term())
}
