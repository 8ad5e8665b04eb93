//! The first space of a text that stands outside of quotes.
ghost use Rattle.std.specs.Prelude.{◌≡◌};
ghost use Rattle.script_terms.specs.Spaces.{before_space, count_before, from_space, is_gap};
ghost use Rattle.script_terms.specs.declared.unbound.Place.TheVariants.{Outside};

use crate::unbound::Place;

// Returns true if `byte` is a space outside of quotes.
fn is_gap(place: Place, byte: u8) -> bool
    ensures { result ≡ is_gap place byte }
{
    match place {
        Place::Outside => byte == b' ',
        Place::Quoted | Place::Escaped => false,
    }
}

// Returns the number of bytes before the first space outside of quotes, or of all bytes if there is none.
#[tactic(auto, unfolding(crate::specs::Spaces::count_before))]
fn count_before(text: &[u8]) -> usize
    ensures { result ≡ count_before Outside text.now }
{
    let mut place = Place::Outside;
    let mut rest = text;
    for count in 0..text.len() {
        let [first, behind @ ..] = rest else {
            break;
        };
        if is_gap(place, *first) {
            return count;
        }
        place = place.behind(*first);
        rest = behind;
    }
    text.len()
}

/// Returns the part of `text` before its first space outside of quotes, and the part from that space on.
/// The second part is empty if there is no such space.
pub fn split_at_space(text: &str) -> (&str, &str)
    ensures before { result.0.now ≡ before_space text.now }
    ensures rest { result.1.now ≡ from_space text.now }
{
    text.split_at(count_before(text.as_bytes()))
}
