//! The advice on a bad line.
use crate::advised_words::put_word;
use crate::connections::{is_connection, number_in};
use crate::naming::atom_read;
use crate::places::{behind_words, column_of, first_unbound};
use crate::reason::Reason;
use crate::term_faults::{TERMS, atom_fault_in, fault_in};
use crate::usages::{nearest, usage_of};
use erl_names::NodeName;
use script_terms::{Named, Names, is_name, split_at_space};
use std::alloc::{AllocError, Global};

/// The remedy for a mark of blocks.
const BLOCKS: &str = "; a script with blocks is run by './erldist --explore FILE'";

/// The remedy for a tab in a line.
const TABS: &str = "; words are parted by spaces, not by tabs";

/// Appends to `out` the fault of a bad `line`, and the remedy if there is an obvious one. `names` are those
/// that the script has bound before the line.
///
/// # Errors
/// [`AllocError`] if out of memory.
pub fn put_advice(
    alloc: Global,
    out: &mut String,
    names: &Names,
    reason: Reason,
    line: &[u8],
) -> Result<(), AllocError> {
    match str::from_utf8(line) {
        _ if reason == Reason::TooLong => out.push_str("a line has at most 65,536 bytes"),
        Ok(text) => put_of_text(alloc, out, names, reason, text),
        Err(fault) => {
            let place = fault.valid_up_to().saturating_add(1);
            write!(out, "byte {place} of the line begins no character of UTF-8")
        }
    }
}

fn put_of_text(
    alloc: Global,
    out: &mut String,
    names: &Names,
    reason: Reason,
    text: &str,
) -> Result<(), AllocError> {
    let Some(verb) = text.split(' ').find(|word| !word.is_empty()) else {
        return Ok(());
    };
    match (reason, usage_of(verb)) {
        (Reason::UnknownCommand, _) => put_unknown_command(alloc, out, verb),
        (Reason::WrongWords, Some(usage)) => put_wrong_words(out, usage, text),
        (Reason::BadName, Some(usage)) => put_bad_name(out, usage, text),
        (Reason::UnknownName, Some(usage)) => put_unknown_name(out, names, usage, text),
        (Reason::NameTaken, Some(usage)) => put_name_taken(out, usage, text),
        (Reason::BadTerm, Some(usage)) => put_bad_term(out, names, usage, text),
        _ => Ok(()),
    }
}

fn put_unknown_command(alloc: Global, out: &mut String, verb: &str) -> Result<(), AllocError> {
    put_word(out, verb)?;
    if verb.ends_with('\r') {
        return out.push_str("; lines end with a line feed alone");
    }
    if verb.starts_with('\u{FEFF}') {
        return out.push_str("; the script begins with a byte order mark, which is no part of it");
    }
    if verb.contains('\t') {
        return out.push_str(TABS);
    }
    if matches!(verb, "par" | "and" | "end") {
        return out.push_str(BLOCKS);
    }
    match nearest(alloc, verb)? {
        Some(command) => write!(out, "; did you mean '{command}'?"),
        None => out.push_str("; --help lists the commands"),
    }
}

fn put_wrong_words(out: &mut String, usage: &str, text: &str) -> Result<(), AllocError> {
    write!(out, "the command is '{usage}'")?;
    if usage.starts_with("node ") {
        out.push_str(", stands before all other commands, and 64 times at most")?;
    }
    if usage == "pair" {
        out.push_str(", alone, and is the first of all")?;
    }
    put_wrong_word(out, usage, text)?;
    if text.contains('#') {
        out.push_str("; a comment stands on a line of its own")?;
    }
    if text.contains('\t') {
        out.push_str(TABS)?;
    }
    put_line_end(out, text)
}

/// Returns the form of the word that a usage has in a place, if a line is bad by its words without it.
fn form_of(wanted: &str) -> Option<&'static str> {
    match wanted {
        "[PROFILE]" => Some("PROFILE is 1, 2 or 3"),
        "[CONNECTION]" => Some("CONNECTION is the name of the node that dialed, '/' and a number"),
        "NUMBER" => Some("NUMBER is one of 0 to 4294967295"),
        _ => None,
    }
}

/// Appends the remedy for a word that has another form than the usage has in its place.
fn put_wrong_word(out: &mut String, usage: &str, text: &str) -> Result<(), AllocError> {
    let words = text.split(' ').filter(|word| !word.is_empty());
    for (wanted, word) in usage.split(' ').zip(words) {
        if let Some(form) = form_of(wanted) {
            if !has_form(wanted, word) {
                write!(out, "; {form}, not ")?;
                put_word(out, word)?;
            }
        }
    }
    Ok(())
}

/// Returns true if `word` has the form of `wanted`, the word of the usage in its place.
fn has_form(wanted: &str, word: &str) -> bool {
    match wanted {
        "NODE" | "PEER" | "NAME" => NodeName::fits(word),
        "COOKIE" => word.len() <= 255 && word.bytes().all(|byte| byte.is_ascii_graphic()),
        "[PROFILE]" => matches!(word, "1" | "2" | "3"),
        "[CONNECTION]" => is_connection(word),
        "NUMBER" => number_in(word).is_ok(),
        _ if is_text(wanted) => true,
        _ => is_name(word),
    }
}

/// Returns the last word of a line, the place of each `name` in a usage. An atom before it may have spaces.
fn last_word(text: &str) -> &str {
    let words = text.split(' ').filter(|word| !word.is_empty());
    words.last().unwrap_or(text)
}

fn put_bad_name(out: &mut String, usage: &str, text: &str) -> Result<(), AllocError> {
    let words = text.split(' ').filter(|word| !word.is_empty());
    for (wanted, word) in usage.split(' ').zip(words) {
        let word = if wanted == "name" {
            last_word(text)
        } else {
            word
        };
        if !has_form(wanted, word) {
            put_word(out, word)?;
            out.push_str(match wanted {
                "NODE" | "PEER" | "NAME" => {
                    " is no name of a node: that is two words joined by '@', of letters, digits, '_' and '-', of 64 characters at most"
                }
                "COOKIE" => " is no cookie: that is 1 to 255 printable ASCII characters",
                _ =>
                    " is no name: that is a lower-case letter, then lower-case letters, digits and '_'",
            })?;
            return put_line_end(out, text);
        }
    }
    put_line_end(out, text)
}

fn put_unknown_name(
    out: &mut String,
    names: &Names,
    usage: &str,
    text: &str,
) -> Result<(), AllocError> {
    let words = text.split(' ').filter(|word| !word.is_empty());
    for (wanted, word) in usage.split(' ').zip(words).skip(1) {
        if is_text(wanted) {
            break;
        }
        match names.get(word) {
            _ if wanted == "NODE" => {}
            Some(Named::Process(_)) if wanted == "name" => {
                put_word(out, word)?;
                return out.push_str(
                    " is the name of a process; 'monitor p q name' names a monitor",
                );
            }
            Some(Named::Process(_)) => {}
            Some(Named::Monitor(_)) if wanted == "name" => {}
            Some(Named::Monitor(_)) => {
                put_word(out, word)?;
                return out.push_str(" is the name of a monitor");
            }
            None => {
                put_word(out, word)?;
                return out.push_str(
                    "; 'spawn NODE name' names a process, and 'monitor p q name' a monitor",
                );
            }
        }
    }
    put_unbound(out, names, text)
}

// Appends the first name behind a '$' of a term that no line has given. Text in quotes has no such name.
fn put_unbound(out: &mut String, names: &Names, text: &str) -> Result<(), AllocError> {
    let Some((column, name)) = first_unbound(names, text) else {
        return Ok(());
    };
    write!(out, "column {column}: ")?;
    put_word(out, name)?;
    out.push_str(
        " behind a '$' is no name of a process or a monitor; 'spawn NODE name' names a process, and 'monitor p q name' a monitor",
    )
}

fn put_name_taken(out: &mut String, usage: &str, text: &str) -> Result<(), AllocError> {
    let mut words = text.split(' ').filter(|word| !word.is_empty());
    let word = if usage.starts_with("node ") {
        words.nth(1)
    } else {
        words.last()
    };
    match word {
        Some(word) => {
            put_word(out, word)?;
            out.push_str("; a name is given once")
        }
        None => Ok(()),
    }
}

/// Returns true if a word of a usage stands for a text.
fn is_text(word: &str) -> bool {
    matches!(word, "ATOM" | "TERM" | "WORDS")
}

fn put_bad_term(
    out: &mut String,
    names: &Names,
    usage: &str,
    text: &str,
) -> Result<(), AllocError> {
    let words = usage.split(' ').take_while(|word| !is_text(word)).count();
    let rest = behind_words(text, words);
    let (atom, behind) = if usage.ends_with(" ATOM") {
        (rest, "")
    } else {
        split_at_space(rest)
    };
    if !usage.contains(" ATOM") {
        put_fault(out, text, rest)?;
    } else if atom_read(names, atom.trim_end_matches(' ')).is_err() {
        put_atom_fault(out, text, rest, atom)?;
    } else {
        put_fault(out, text, behind)?;
    }
    put_line_end(out, text)
}

/// Appends the first fault of a bad term, the `end` of the line.
fn put_fault(out: &mut String, line: &str, end: &str) -> Result<(), AllocError> {
    let term = end.trim_start_matches(' ');
    match fault_in(term.trim_end_matches(' '), column_of(line, term)) {
        Some(fault) => write!(out, "{fault}"),
        None => out.push_str(TERMS),
    }
}

/// Appends the column of the first fault of a bad `atom`, with which the `end` of the line begins.
fn put_atom_fault(out: &mut String, line: &str, end: &str, atom: &str) -> Result<(), AllocError> {
    let column = atom_fault_in(atom.trim_end_matches(' '), column_of(line, end));
    write!(
        out,
        "column {column}: an atom is a lower-case letter, then letters, digits, '_' and '@', or text in quotes, as 'two words', of 255 characters at most"
    )
}

/// Appends the remedy for a line that ends with a carriage return.
fn put_line_end(out: &mut String, text: &str) -> Result<(), AllocError> {
    if text.ends_with('\r') {
        return out.push_str("; the line ends with '\\r': lines end with a line feed alone");
    }
    Ok(())
}
