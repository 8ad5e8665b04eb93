//! The replies to commands, with names in place of processes and references.

use crate::names::{ScriptNames, put_named};
use crate::notes::other_than;
use dist_model::Answer;
use erl_term::{Payload, Pid};
use link_core::End;
use script_texts::{put_answer, put_end};
use std::alloc::{AllocError, Global};

/// A reply, and its text without names if that differs.
#[derive(Drop)]
pub(crate) struct Told {
    pub(crate) words: String,
    /// Empty if no name stands in the words.
    pub(crate) tooltip: String,
}

// Appends the links of a process.
fn put_links(
    out: &mut String,
    names: &ScriptNames,
    links: &[(Pid, End)],
) -> Result<(), AllocError> {
    out.push_str("links")?;
    for (partner, end) in links {
        out.push_str(" ")?;
        names.put(out, partner)?;
        out.push_str("=")?;
        put_end(out, *end)?;
    }
    Ok(())
}

// Appends a message that was taken out of a mailbox.
fn put_received(
    out: &mut String,
    names: &ScriptNames,
    message: &Payload,
) -> Result<(), AllocError> {
    out.push_str("message ")?;
    put_named(out, names, message.term())
}

// Appends the printed text of an answer, without its line break.
fn put_printed(out: &mut String, node: &str, answer: &Answer) -> Result<(), AllocError> {
    put_answer(out, node, answer)?;
    out.pop();
    Ok(())
}

// Appends the text of an answer with names.
fn put_reply(
    out: &mut String,
    names: &ScriptNames,
    node: &str,
    answer: &Answer,
) -> Result<(), AllocError> {
    match answer {
        Answer::Message(Some(message)) => put_received(out, names, message),
        Answer::Links(links) => put_links(out, names, &links.entries),
        Answer::Holder(Some(process)) => names.put(out, process),
        _ => put_printed(out, node, answer),
    }
}

// Returns true if an answer has a value to tell that stands on no lane.
fn is_told(answer: &Answer) -> bool {
    matches!(
        answer,
        Answer::Reference(_)
            | Answer::Message(_)
            | Answer::Links(_)
            | Answer::Alive(_)
            | Answer::Holder(_)
            | Answer::Trunk(_)
    )
}

/// Returns the reply to a command. [`None`] if the answer has no value to tell, or stands on a lane.
///
/// # Errors
/// [`AllocError`] if out of memory.
pub(crate) fn of_reply(
    alloc: Global,
    names: &ScriptNames,
    node: &str,
    answer: &Answer,
) -> Result<Option<Told>, AllocError> {
    if !is_told(answer) {
        return Ok(None);
    }
    let mut words = String::new(alloc);
    put_reply(&mut words, names, node, answer)?;
    let mut full = String::new(alloc);
    put_printed(&mut full, node, answer)?;
    let tooltip = other_than(alloc, words.as_str(), full);
    Ok(Some(Told { words, tooltip }))
}
