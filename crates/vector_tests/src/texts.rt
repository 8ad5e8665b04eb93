//! The forms of answers.

ghost use Rattle.std.specs.Prelude.{◌≡◌, take, IfOk, string_bytes};
ghost use Rattle.vector_tests.specs.Vectors.{IsReading, IsShown, IsSpelledAs};

use anyhow::Result;
use std::alloc::{AllocError, Global};
use std::fmt::Display;

/// The most bytes of the words of a value in an answer.
const MOST: usize = 10_000;

/// Returns the first bytes, so many.
pub fn front(bytes: &[u8], len: usize) -> &[u8]
    ensures { result.now ≡ take len bytes.now }
{
    match bytes.get(..len) {
        Some(front) => front,
        None => bytes,
    }
}

/// Returns the words, or three dots in place of very many.
fn shown(words: &str) -> &str
    ensures { IsShown words.now result.now }
{
    if words.len() <= MOST { words } else { "..." }
}

/// Returns the word for the bytes that are written: their hexadecimal digits, or `=` if they are those that were read.
fn word_of(alloc: Global, read: &[u8], written: &[u8]) -> Result<String, AllocError>
    ensures { IfOk result (λ word. IsSpelledAs read.now written.now (string_bytes word)) }
{
    if read == written {
        String::from_str(alloc, "=")
    } else {
        hex::encode_upper(alloc, written)
    }
}

/// Returns the answer where a value is read: the length of its bytes, a word for those that are written, and
/// the words of the value.
pub fn reads(alloc: Global, read: &[u8], written: &[u8], words: &str) -> Result<String>
    ensures { IfOk result (λ text. IsReading read.now written.now words.now (string_bytes text)) }
{
    let len = read.len();
    let word = word_of(alloc, read, written)?;
    let shown = shown(words);
    Ok(format!(in alloc; "reads {len} {word} {shown}")?)
}

/// Returns the answer where bytes are refused: the place of the fault, its number and its name.
pub fn fault(alloc: Global, place: usize, fault: &impl Display) -> Result<String> {
    Ok(format!(in alloc; "fault {place} {fault}")?)
}

/// Returns the answer where more bytes are needed.
pub fn begins(alloc: Global) -> Result<String> {
    Ok(String::from_str(alloc, "begins")?)
}
