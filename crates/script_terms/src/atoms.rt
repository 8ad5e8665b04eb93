//! Atoms: bare words, and texts between quotes.
ghost use Rattle.std.specs.Prelude.{◌≡◌, ◌≤◌, true, IfSome, IfOk, is_some, length, encode_utf8};
ghost use Rattle.std.specs.Str.{chars};
ghost use Rattle.erl_term.specs.Text.{is_atom_text};
ghost use Rattle.std.specs.Str.Parse.{digits_value};
ghost use Rattle.script_terms.specs.Words.{is_scalar};
ghost use Rattle.script_terms.specs.Reading.{Answers, atom_of, bare_at, code_at, escape_at, quoted_at};
ghost use Rattle.script_terms.specs.Quoted.{Pushes};

use crate::bytes::{after_mark, next_of};
use crate::fault::TermFault;
use crate::integers::value_of;
use crate::words::{Kind, word_of};
use arrayvec::ArrayVec;
use erl_term::Atom;

/// The most bytes of an atom: 255 characters of four bytes.
const MOST: usize = 1020;

/// The bytes of an atom that was written between quotes.
pub(crate) type AtomText = ArrayVec<u8, MOST>;

/// The bare atom at the front, and the bytes after it.
#[tactic(auto, unfolding(crate::specs::Reading::bare_at))]
pub(crate) fn bare_of(bytes: &[u8]) -> Result<(&[u8], &[u8]), TermFault>
    ensures reading { Answers (λ x. (x.0.now, x.1.now)) result (bare_at bytes.now) }
    ensures text { IfOk result (λ x. is_atom_text x.0.now ≡ true) }
{
    let (word, rest) = word_of(Kind::Atom, bytes);
    match atom_text(word) {
        Some(_) => Ok((word, rest)),
        None => Err(TermFault::BadTerm),
    }
}

/// The atom whose first quote came before, and the bytes after it.
pub(crate) fn quoted_of(bytes: &[u8]) -> Result<(AtomText, &[u8]), TermFault>
    ensures reading { Answers (λ x. (x.0.items, x.1.now)) result (quoted_at bytes.now) }
    ensures text { IfOk result (λ x. is_atom_text x.0.items ≡ true) }
{
    let mut text = AtomText::new();
    let mut rest = bytes;
    for _ in 0..bytes.len() {
        let (c, after) = next_of(rest)?;
        if c == b'\'' {
            return whole_text(text, after);
        }
        rest = if c == b'\\' {
            let (piece, after) = escape_of(after)?;
            push_char(&mut text, piece)?;
            after
        } else {
            push_bytes(&mut text, &[c])?;
            after
        };
    }
    Err(TermFault::BadTerm)
}

/// The text, where it is one of an atom.
fn whole_text(text: AtomText, rest: &[u8]) -> Result<(AtomText, &[u8]), TermFault>
    ensures reading { Answers (λ x. (x.0.items, x.1.now)) result (atom_of (text.items, rest.now)) }
    ensures text { IfOk result (λ x. is_atom_text x.0.items ≡ true) }
{
    if atom_text(text.as_slice()).is_none() {
        return Err(TermFault::BadTerm);
    }
    Ok((text, rest))
}

fn push_char(text: &mut AtomText, c: char) -> Result<(), TermFault>
    ensures { Pushes text.old.items text.new.items (encode_utf8 c) result }
{
    let mut buffer = [0; 4];
    push_bytes(text, c.encode_utf8(&mut buffer).as_bytes())
}

fn push_bytes(text: &mut AtomText, bytes: &[u8]) -> Result<(), TermFault>
    ensures { Pushes text.old.items text.new.items bytes.now result }
{
    match text.try_extend_from_slice(bytes) {
        Ok(()) => Ok(()),
        Err(_) => Err(TermFault::BadTerm),
    }
}

/// The character whose escape follows a `\`, and the bytes after it.
#[tactic(auto, unfolding(crate::specs::Reading::escape_at))]
fn escape_of(bytes: &[u8]) -> Result<(char, &[u8]), TermFault>
    ensures { Answers (λ x. (encode_utf8 x.0, x.1.now)) result (escape_at bytes.now) }
{
    let (c, rest) = next_of(bytes)?;
    match c {
        b'\'' => Ok(('\'', rest)),
        b'\\' => Ok(('\\', rest)),
        b'x' => code_of(rest),
        _ => Err(TermFault::BadTerm),
    }
}

/// The character whose number stands between braces, and the bytes after it.
#[tactic(auto, unfolding(crate::specs::Reading::code_at))]
fn code_of(bytes: &[u8]) -> Result<(char, &[u8]), TermFault>
    ensures { Answers (λ x. (encode_utf8 x.0, x.1.now)) result (code_at bytes.now) }
{
    let rest = after_mark(b'{', bytes)?;
    let (digits, rest) = word_of(Kind::HexDigits, rest);
    if digits.is_empty() {
        return Err(TermFault::BadTerm);
    }
    let Some(c) = char_of(digits) else {
        return Err(TermFault::BadTerm);
    };
    let rest = after_mark(b'}', rest)?;
    Ok((c, rest))
}

/// The character of the number that the digits write, if it has one.
fn char_of(digits: &[u8]) -> Option<char>
    ensures some { is_some result ≡ is_scalar (digits_value 16 digits.now) }
    ensures value { IfSome result (λ c. c ≡ digits_value 16 digits.now) }
{
    match value_of(16, digits) {
        Some(code) if code <= 0x10_ffff => char::from_u32(code as u32),
        _ => None,
    }
}

/// The bytes as the text of an atom, if they are one.
#[tactic(auto, using(crate::proofs::AtomLemmas::the_texts))]
pub(crate) fn atom_text(bytes: &[u8]) -> Option<&str>
    ensures some { is_some result ≡ is_atom_text bytes.now }
    ensures text { IfSome result (λ t. t.now ≡ bytes.now) }
    ensures fits { IfSome result (λ t. length (chars t.now) ≤ 255) }
{
    let text = str::from_utf8(bytes).ok()?;
    Atom::fits(text).then_some(text)
}
