//! The text of an atom in UTF-8, whole or begun.
ghost use Rattle.std.specs.Prelude.{◌≡◌, ◌≤◌, ◌<◌, ◌↔◌, length, IsTrue, IfSome, IfOk, is_some, is_none, take, drop, IsUtf8};
ghost use Rattle.std.specs.Str.{chars};
ghost use Rattle.std.specs.String.{string_bytes};
ghost use Rattle.std.specs.Str.Lossy.{utf8_valid_len, utf8_error_len};
ghost use Rattle.erl_term.specs.Text.{is_atom_text};
ghost use Rattle.erl_term.specs.Text as text;

use crate::atom::Atom;
use std::alloc::{AllocError, Global};

/// The bytes as the text of an atom, if they are one.
#[tactic(auto, using(crate::proofs::Texts::the_texts))]
pub(crate) fn atom_text(bytes: &[u8]) -> Option<&str>
    ensures some { is_some result ≡ is_atom_text bytes.now }
    ensures text { IfSome result (λ t. t.now ≡ bytes.now) }
    ensures fits { IfSome result (λ t. length (chars t.now) ≤ 255) }
{
    match str::from_utf8(bytes) {
        Ok(text) => { if Atom::fits(text) { Some(text) } else { None } }
        Err(_) => None,
    }
}

/// The text of letters of Latin-1.
#[tactic(auto, unfolding(crate::specs::Text::latin_text))]
pub(crate) fn latin_text(alloc: Global, letters: &[u8]) -> Result<String, AllocError>
    ensures text { IfOk result (λ t. string_bytes t ≡ text.latin_text letters.now) }
    ensures count { IfOk result (λ t. length (chars (string_bytes t)) ≡ length letters.now) }
{
    let mut text = String::with_capacity(alloc, letters.len())?;
    for letter in letters {
        text.push(char::from(*letter))?;
    }
    Ok(text)
}

/// Whether the text, in UTF-8, is that of letters of Latin-1.
pub(crate) fn is_latin_text(letters: &[u8], utf8: &str) -> bool
    ensures { IsTrue result ↔ (text.latin_text letters.now ≡ utf8.now) }
{
    utf8.chars().count() == letters.len()
        && letters
            .iter()
            .zip(utf8.chars())
            .all(|(letter, c)| char::from(*letter) == c)
}

/// How many bytes the text of an atom has.
pub(crate) fn utf8_len(text: &str) -> usize
    requires { length (chars text.now) ≤ 255 }
    ensures len { result ≡ length text.now }
    ensures bound { result ≤ 1020 }
{
    text.len()
}

/// How many bytes the text of letters of Latin-1 has.
#[tactic(auto, unfolding(crate::specs::Text::latin_text))]
pub(crate) fn latin_len(letters: &[u8]) -> usize
    requires { length letters.now ≤ 255 }
    ensures len { result ≡ length (text.latin_text letters.now) }
    ensures bound { result ≤ 1020 }
{
    let mut len = 0;
    for letter in letters {
        len += char::from(*letter).len_utf8();
    }
    len
}

/// How many bytes at the front are UTF-8, and whether the bytes end within the character after them, or after them.
#[tactic(auto, using(crate::proofs::Texts::the_texts))]
fn valid_front(bytes: &[u8]) -> (usize, bool)
    ensures valid { result.0 ≡ utf8_valid_len bytes.now }
    ensures bound { result.0 ≤ length bytes.now }
    ensures front { IsUtf8 (take result.0 bytes.now) }
    ensures cut { result.1 ≡ is_none (utf8_error_len (drop result.0 bytes.now)) }
{
    match str::from_utf8(bytes) {
        Ok(_) => (bytes.len(), true),
        Err(e) => (e.valid_up_to(), e.error_len().is_none()),
    }
}

/// How many characters the text has.
fn char_count(text: &[u8]) -> usize
    requires { IsUtf8 text.now }
    ensures { result ≡ length (chars text.now) }
{
    match str::from_utf8(text) {
        Ok(text) => text.chars().count(),
        Err(_) => 0,
    }
}

/// Whether fewer than `len` bytes may still become the text of an atom of `len` bytes.
#[tactic(auto, unfolding(crate::specs::Text::may_become_text))]
pub(crate) fn may_become_text(len: usize, bytes: &[u8]) -> bool
    requires { length bytes.now < len }
    ensures { result ≡ text.may_become_text len bytes.now }
{
    let (valid, cut) = valid_front(bytes);
    let (front, part) = bytes.split_at(valid);
    let chars = char_count(front);
    cut && goes_on(len - valid, chars, part)
}

/// Whether `part`, the beginning of a character, may go on for `len` bytes after so many characters.
fn goes_on(len: usize, chars: usize, part: &[u8]) -> bool
    ensures { result ≡ text.goes_on len chars part.now }
{
    match part {
        [] => has_room(chars, len),
        [lead, ..] => {
            let need = char_len(*lead);
            part.len() < need && need <= len && chars < 255 && has_room(chars + 1, len - need)
        }
    }
}

/// Whether so many bytes can be the rest of a text after so many characters.
fn has_room(chars: usize, bytes: usize) -> bool
    ensures { result ≡ text.has_room chars bytes }
{
    chars <= 255 && bytes <= 4 * (255 - chars)
}

/// How many bytes a character has that begins with this byte.
fn char_len(lead: u8) -> usize
    ensures { result ≡ text.char_len lead }
{
    match lead {
        0..128 => 1,
        128..224 => 2,
        224..240 => 3,
        _ => 4,
    }
}
