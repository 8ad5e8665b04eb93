//! The advice on a bad line, beside the reason.

use script_lines::{Reason, Verb, verb_in};
use script_terms::Names;
use std::alloc::{AllocError, Global};

// Returns the remedy for a command that isn't there for nodes in threads.
fn of_missing(verb: Verb) -> Option<&'static str> {
    match verb {
        Verb::Pair => Some(
            "'pair'; it takes what comes itself, and nodes in threads do: 'node', 'spawn' and 'dial' lines make a pair, and 'settle' waits for it",
        ),
        Verb::Deliver => Some(
            "'deliver'; nodes in threads take what comes by themselves: 'settle' waits for it",
        ),
        Verb::Local => Some(
            "'local'; nodes in threads take what comes by themselves: 'settle' waits for it",
        ),
        Verb::Travels => Some(
            "'travels'; nodes in threads take what comes by themselves: a script without '--threads' shows it",
        ),
        Verb::Why => Some(
            "'why'; nodes in threads keep no faults of broken connections: a script without '--threads' shows them",
        ),
        Verb::Sweep => Some("'sweep'; nodes in threads sweep by themselves: 'settle' waits for it"),
        Verb::Challenge => Some(
            "'challenge'; nodes in threads draw their challenges from '--seed' on: a script without '--threads' sets them",
        ),
        _ => None,
    }
}

/// Appends the fault of a bad line, and its remedy if there is an obvious one.
///
/// # Errors
/// [`AllocError`] if out of memory.
pub(crate) fn put_advice(
    alloc: Global,
    out: &mut String,
    names: &Names,
    reason: Reason,
    line: &[u8],
) -> Result<(), AllocError> {
    let missing = match verb_in(line) {
        Some(verb) if reason == Reason::UnknownCommand => of_missing(verb),
        _ => None,
    };
    match missing {
        Some(text) => out.push_str(text),
        None => script_lines::put_advice(alloc, out, names, reason, line),
    }
}
