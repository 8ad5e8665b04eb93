//! The lists with no elements in front of a term, which stand for their tails.
ghost use Rattle.std.specs.Prelude.{◌≡◌, ◌↔◌, IsTrue};
ghost use Rattle.control_beginnings.specs.Parts.{Starts, IsFront};

use crate::tags::LIST;

/// The place at which bytes end or go on behind the lists with no elements at their front.
#[derive(Drop)]
pub enum Front<'a> {
    /// They end inside such a list, and a level is left below it.
    Inside,
    /// The bytes behind all such lists. They are empty, or begin with no list.
    Behind(&'a [u8]),
    /// No term but a list begins with them.
    Refused,
}

/// The bytes of a list with no elements, in front of its tail.
const EMPTY_LIST: [u8; 5] = [LIST, 0, 0, 0, 0];

/// Returns true if the word begins with the bytes.
pub fn begins_word(word: &[u8], bytes: &[u8]) -> bool
    ensures { IsTrue result ↔ Starts (λ b. b ≡ word.now) bytes.now }
{
    word.starts_with(bytes)
}

/// Returns the place behind the lists with no elements at the front, in a term of at most `levels` levels.
pub fn front_of(levels: u32, bytes: &[u8]) -> Front<'_>
    ensures { IsFront levels bytes.now result }
{
    let Some(below) = levels.checked_sub(1) else {
        return Front::Refused;
    };
    if let Some(tail) = bytes.strip_prefix(&EMPTY_LIST) {
        return front_of(below, tail);
    }
    match bytes {
        [LIST, ..] => {
            if below >= 1 && begins_word(&EMPTY_LIST, bytes) {
                Front::Inside
            } else {
                Front::Refused
            }
        }
        _ => Front::Behind(bytes),
    }
}
