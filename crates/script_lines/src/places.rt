//! The places of a line. A column is the number of a character of the line, from 1.
use crate::words::first_word;
use script_terms::{Names, has_unbound};

/// Returns the column in which `end`, the end of `line`, begins.
pub(crate) fn column_of(line: &str, end: &str) -> usize {
    let before = line.chars().count().saturating_sub(end.chars().count());
    before.saturating_add(1)
}

/// Returns the end of `text` behind its first `count` words, without the spaces before it.
pub(crate) fn behind_words(text: &str, count: usize) -> &str {
    let mut rest = text;
    for _ in 0..count {
        rest = first_word(rest).1;
    }
    rest.trim_start_matches(' ')
}

/// Returns a `$` at the front of `text`, with the letters, digits and `_` behind it.
fn name_at(text: &str) -> &str {
    let is_letter = |c: char| c.is_ascii_alphanumeric() || c == '_';
    for (place, c) in text.char_indices().skip(1) {
        if !is_letter(c) {
            return text.get(..place).unwrap_or(text);
        }
    }
    text
}

/// Returns the first `$` outside of quotes before a name that no line has given: its column, and the name.
pub(crate) fn first_unbound<'a>(names: &Names, line: &'a str) -> Option<(usize, &'a str)> {
    let mut is_quoted = false;
    let mut is_escaped = false;
    for (count, (place, c)) in line.char_indices().enumerate() {
        match c {
            _ if is_escaped => is_escaped = false,
            '\\' => is_escaped = is_quoted,
            '\'' => is_quoted = !is_quoted,
            '$' if !is_quoted => {
                let name = name_at(line.get(place..)?);
                if has_unbound(names, name) {
                    return Some((count.saturating_add(1), name.trim_start_matches('$')));
                }
            }
            _ => {}
        }
    }
    None
}
