//! The words of a line, as they are shown.
use std::alloc::AllocError;

/// The most characters of a word that are shown.
const MOST_SHOWN: usize = 64;

/// Puts a word in quotes, and what can't be seen in it by its number.
pub(crate) fn put_word(out: &mut String, word: &str) -> Result<(), AllocError> {
    out.push('\'')?;
    for (place, c) in word.chars().enumerate() {
        if place == MOST_SHOWN {
            out.push_str("..")?;
            break;
        }
        put_char(out, c)?;
    }
    out.push('\'')
}

fn put_char(out: &mut String, c: char) -> Result<(), AllocError> {
    match c {
        '\r' => out.push_str("\\r"),
        '\t' => out.push_str("\\t"),
        '\u{FEFF}' => out.push_str("\\u{feff}"),
        c if (c as u32) < 32 || c as u32 == 127 => {
            let number = c as u32;
            write!(out, "\\x{number:02x}")
        }
        c => out.push(c),
    }
}
