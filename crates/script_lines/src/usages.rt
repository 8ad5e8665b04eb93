//! The commands, with the words that they take.
use std::alloc::{AllocError, Global};
use strsim::levenshtein;

/// Each command with its words. Capitals stand for a text, brackets for an optional word, and other words
/// for a name.
const USAGES: [&str; 36] = [
    "node NAME COOKIE [PROFILE]",
    "pair",
    "spawn NODE name",
    "send from to TERM",
    "link p q",
    "unlink p q",
    "monitor p q name",
    "demonitor p name",
    "trap p on|off",
    "exit from to TERM",
    "die p TERM",
    "receive p",
    "links p",
    "alive p",
    "monitors p",
    "register p ATOM",
    "unregister p",
    "whereis NODE ATOM",
    "sendname from NODE ATOM TERM",
    "monitorname p NODE ATOM name",
    "ends p q",
    "dial NODE PEER",
    "route NODE PEER",
    "travels NODE PEER",
    "why NODE PEER",
    "lose NODE PEER [CONNECTION]",
    "cut NODE PEER",
    "stop NODE",
    "start NODE",
    "deliver NODE PEER [CONNECTION]",
    "local NODE",
    "sweep NODE",
    "settle",
    "challenge NUMBER",
    "show [all]",
    "expect WORDS",
];

/// The most letters in which a word differs from the command that was meant.
const MOST_EDITS: usize = 2;

/// The most bytes of a word that is near to a command.
const LONGEST: usize = 16;

/// Returns the word that a command begins with.
pub(crate) fn verb_of(usage: &str) -> &str {
    usage.split(' ').next().unwrap_or(usage)
}

/// Returns the command that begins with `verb`, if there is one.
pub(crate) fn usage_of(verb: &str) -> Option<&'static str> {
    for usage in USAGES {
        if verb_of(usage) == verb {
            return Some(usage);
        }
    }
    None
}

/// Returns the first word of a command that is nearest to `word`, if one is near.
pub(crate) fn nearest(alloc: Global, word: &str) -> Result<Option<&'static str>, AllocError> {
    if word.len() > LONGEST {
        return Ok(None);
    }
    let mut nearest = None;
    let mut edits = MOST_EDITS + 1;
    for usage in USAGES {
        let verb = verb_of(usage);
        let distance = levenshtein(alloc, word, verb)?;
        if distance < edits && distance < verb.len() {
            nearest = Some(verb);
            edits = distance;
        }
    }
    Ok(nearest)
}
