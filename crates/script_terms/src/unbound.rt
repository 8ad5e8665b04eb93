//! Names in a text that are bound to nothing.
ghost use Rattle.std.specs.Prelude.{◌≡◌};
ghost use Rattle.script_terms.specs.Binding.{Look, Knows};
ghost use Rattle.script_terms.specs.Unbound.{behind, has_unbound, is_mark, is_unbound};

use crate::fault::TermFault;
use crate::names::{Names, named_of};

/// The place of a byte in a text.
#[derive(Clone, Copy, Debug)]
pub(crate) enum Place {
    /// It stands outside of quotes.
    Outside,
    /// It stands between quotes.
    Quoted,
    /// It stands between quotes, right behind a `\`.
    Escaped,
}

impl Place {
    // Returns the place of the next byte.
    pub(crate) fn behind(self, byte: u8) -> Place
        ensures { result ≡ behind self byte }
    {
        match self {
            Place::Outside if byte == b'\'' => Place::Quoted,
            Place::Outside => Place::Outside,
            Place::Quoted if byte == b'\\' => Place::Escaped,
            Place::Quoted if byte == b'\'' => Place::Outside,
            Place::Quoted | Place::Escaped => Place::Quoted,
        }
    }

    // Returns true if this byte begins a name.
    pub(crate) fn is_mark(self, byte: u8) -> bool
        ensures { result ≡ is_mark self byte }
    {
        match self {
            Place::Outside => byte == b'$',
            Place::Quoted | Place::Escaped => false,
        }
    }
}

// Returns true if a name stands at the front that is bound to nothing.
fn is_unbound(names: &Names, bytes: &[u8]) -> bool
    ensures { (look : Look) → Knows names.now look → result ≡ is_unbound look bytes.now }
{
    match named_of(names, bytes) {
        Err(TermFault::UnknownName) => true,
        Err(TermFault::BadTerm) | Ok(_) => false,
    }
}

/// Returns true if a `$` outside of quotes stands before a name that is bound to nothing. The text need
/// not be a term.
#[tactic(auto, unfolding(crate::specs::Unbound::unbound_from))]
pub fn has_unbound(names: &Names, text: &str) -> bool
    ensures { (look : Look) → Knows names.now look → result ≡ has_unbound look text.now }
{
    let mut place = Place::Outside;
    let mut rest = text.as_bytes();
    for _ in 0..text.len() {
        let [first, behind @ ..] = rest else {
            break;
        };
        if place.is_mark(*first) && is_unbound(names, behind) {
            return true;
        }
        place = place.behind(*first);
        rest = behind;
    }
    false
}
