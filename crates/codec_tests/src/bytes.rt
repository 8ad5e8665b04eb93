//! The bytes of a row.
//!
//! A row has them as text: `83 6801 6107` are five bytes by their hex digits, and `63*6801` are
//! two of them 63 times. A word of [`NAMES`] stands for the bytes that it names.

use std::alloc::{AllocError, Global};
use std::test::Fail;

/// Names, and the bytes that they stand for.
const NAMES: &[(&str, &str)] = &[
    // The process 1 of a@h in its first incarnation, and that of b@h.
    ("A", "58 7703614068 00000001 00000000 00000001"),
    ("B", "58 7703624068 00000001 00000000 00000001"),
    // The first reference of a@h.
    (
        "REFERENCE",
        "5A0003 7703614068 00000001 00000001 00000000 00000000",
    ),
    // The registered name srv.
    ("SRV", "7703737276"),
    // A list of 50,100 integers of a byte, as a LIST of integers in five bytes.
    (
        "BYTES",
        "6C0000C3B4 5010*6200000007620000000762000000076200000007620000000762000000076200000007620000000762000000076200000007 6A",
    ),
    // A list of 300 and 62,600 integers of a byte, which are a STRING in its tail.
    (
        "MIXED",
        "6C00000001 620000012C 6BF488 3130*0707070707070707070707070707070707070707",
    ),
];

/// The bytes of these texts, one after another.
pub fn joined(alloc: Global, texts: &[&str]) -> Result<Vec<u8>, Fail> {
    let mut bytes = Vec::new(alloc);
    for text in texts {
        put_words(alloc, &mut bytes, text)?;
    }
    Ok(bytes)
}

fn put_words(alloc: Global, bytes: &mut Vec<u8>, text: &str) -> Result<(), Fail> {
    for word in text.split_whitespace() {
        for part in named(word).split_whitespace() {
            put_part(alloc, bytes, part)?;
        }
    }
    Ok(())
}

/// The text of a name, if it is one of these.
fn text_of(names: &[(&str, &'static str)], word: &str) -> Option<&'static str> {
    for &(name, text) in names {
        if name == word {
            return Some(text);
        }
    }
    None
}

/// The text that the word stands for.
fn named(word: &str) -> &str {
    match text_of(NAMES, word) {
        Some(text) => text,
        None => word,
    }
}

fn put_part(alloc: Global, bytes: &mut Vec<u8>, part: &str) -> Result<(), Fail> {
    let (count, digits) = match part.split_once('*') {
        Some((count, digits)) => (count.parse::<usize>()?, digits),
        None => (1, part),
    };
    Ok(put_times(bytes, count, &hex::decode(alloc, digits)?)?)
}

fn put_times(bytes: &mut Vec<u8>, count: usize, part: &[u8]) -> Result<(), AllocError> {
    for _ in 0..count {
        bytes.extend_from_slice(part)?;
    }
    Ok(())
}
