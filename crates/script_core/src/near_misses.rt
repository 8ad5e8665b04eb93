//! Words of a command line that are nearly right.

use crate::ranges::range_of;

/// A word as it was written, and the remedy. A `*` at the end stands for any text.
const NEAR_MISSES: &[(&str, &str)] = &[
    ("--threads=*", "write '--threads' alone"),
    ("--script=*", "write '--threads --script' and then the file"),
    ("--check=*", "write '--check' and then the files"),
    ("--json", "write '--trace=json'"),
    ("--hex", "write '--trace'"),
    ("--svg", "write '--picture'"),
    ("-trace", "write '--trace'"),
    ("-trace=json", "write '--trace=json'"),
    ("--text", "write '--trace=text'"),
    ("-trace=text", "write '--trace=text'"),
    ("-picture", "write '--picture'"),
    ("-threads", "write '--threads'"),
    ("-script", "write '--threads --script'"),
    ("-check", "write '--check'"),
    ("-explore", "write '--explore'"),
    ("-seed", "write '--seed N'"),
];

/// The remedy for a form of the trace that stands as a word of its own.
const TRACE_FORM: &str =
    "write '--trace=json' or '--trace=text', or '--trace' for hex; './json' is a script's file of that name";

/// The remedy for the lines of a picture that stand as a word of their own.
const PICTURE_LINES: &str =
    "write '--picture=10-40', the lines behind a '='; './12' is a script's file of that name";

// Returns true if the word is the pattern.
fn fits(pattern: &str, word: &str) -> bool {
    match pattern.strip_suffix('*') {
        Some(front) => word.starts_with(front),
        None => word == pattern,
    }
}

/// Returns the remedy for the first word that is nearly right, if there is one. The first word is the
/// program's name.
pub(crate) fn remedy_for(words: &[String]) -> Option<&'static str> {
    let mut is_behind_trace = false;
    let mut is_behind_picture = false;
    for word in words.iter().skip(1) {
        let word = word.as_str();
        if is_behind_trace && (word == "json" || word == "text" || word == "hex") {
            return Some(TRACE_FORM);
        }
        if is_behind_picture && range_of(word).is_ok() {
            return Some(PICTURE_LINES);
        }
        for (pattern, remedy) in NEAR_MISSES {
            if fits(pattern, word) {
                return Some(remedy);
            }
        }
        is_behind_trace = word == "--trace";
        is_behind_picture = word == "--picture";
    }
    None
}
