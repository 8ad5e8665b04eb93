//! The events at a node, in words.

use crate::messages::put_message;
use crate::names::{ScriptNames, put_named};
use conn_core::Fault;
use diagram::Tone;
use dist_model::{Answer, Effect, Kind, Swept};
use erl_names::NodeName;
use erl_term::{Payload, Pid};
use link_core::End;
use script_texts::{fault_name, put_end};
use std::alloc::{AllocError, Global};

/// Words about a node.
#[derive(Drop)]
pub(crate) struct Words {
    pub(crate) tone: Tone,
    pub(crate) words: String,
    /// The words in full, if they are shortened. Else empty.
    pub(crate) tooltip: String,
}

impl Words {
    /// Returns words that aren't shortened.
    pub(crate) fn whole(alloc: Global, tone: Tone, words: String) -> Words {
        Words {
            tone,
            words,
            tooltip: String::new(alloc),
        }
    }

    // Returns words with names, of which `full` is the text without. That is the tooltip if it differs.
    fn named(alloc: Global, tone: Tone, words: String, full: String) -> Words {
        let tooltip = other_than(alloc, words.as_str(), full);
        Words {
            tone,
            words,
            tooltip,
        }
    }
}

/// Returns a text in full if it differs from these words, or else an empty one.
pub(crate) fn other_than(alloc: Global, words: &str, full: String) -> String {
    if full.as_str() == words {
        drop(full);
        return String::new(alloc);
    }
    full
}

// Appends a process that ends, and its exit reason.
fn put_ended(
    out: &mut String,
    names: &ScriptNames,
    process: &Pid,
    reason: &Payload,
) -> Result<(), AllocError> {
    names.put(out, process)?;
    out.push_str(" ends: ")?;
    put_named(out, names, reason.term())
}

// Returns the words for a process that ends, with its exit reason.
fn ended(
    alloc: Global,
    names: &ScriptNames,
    process: &Pid,
    reason: &Payload,
) -> Result<Option<Words>, AllocError> {
    let mut words = String::new(alloc);
    put_ended(&mut words, names, process, reason)?;
    let mut full = String::new(alloc);
    put_ended(&mut full, &ScriptNames::new(alloc), process, reason)?;
    Ok(Some(Words::named(alloc, Tone::Alarm, words, full)))
}

// Appends a process and the message that it gets.
fn put_given(
    out: &mut String,
    names: &ScriptNames,
    process: &Pid,
    message: &Payload,
) -> Result<(), AllocError> {
    names.put(out, process)?;
    put_message(out, names, message.term())
}

// Returns the words for a process and the message that it gets.
fn given(
    alloc: Global,
    names: &ScriptNames,
    process: &Pid,
    message: &Payload,
) -> Result<Option<Words>, AllocError> {
    let mut words = String::new(alloc);
    put_given(&mut words, names, process, message)?;
    let mut full = String::new(alloc);
    put_given(&mut full, &ScriptNames::new(alloc), process, message)?;
    Ok(Some(Words::named(alloc, Tone::Plain, words, full)))
}

fn plain(alloc: Global, tone: Tone, text: &str) -> Result<Option<Words>, AllocError> {
    let words = String::from_str(alloc, text)?;
    Ok(Some(Words::whole(alloc, tone, words)))
}

/// Returns the words for an effect on the lane of its node. [`None`] unless a process gets a message or
/// ends.
///
/// # Errors
/// [`AllocError`] if out of memory.
pub(crate) fn of_effect<Item>(
    alloc: Global,
    names: &ScriptNames,
    effect: &Effect<Item>,
) -> Result<Option<Words>, AllocError> {
    match effect {
        Effect::Put { to, message } => given(alloc, names, to, message),
        Effect::Ended { process, reason } => ended(alloc, names, process, reason),
        Effect::LinkExit { .. } => Ok(None),
        Effect::Sent { .. } => Ok(None),
    }
}

fn of_swept(alloc: Global, swept: Swept) -> Result<Option<Words>, AllocError> {
    let words = match swept {
        Swept::Link => "swept: link",
        Swept::Watch => "swept: own monitor",
        Swept::Registration => "swept: monitor",
        Swept::Side => "swept: connection",
    };
    plain(alloc, Tone::Plain, words)
}

// Returns the words for a side that comes up, towards this peer.
fn connected(alloc: Global, peer: Option<&NodeName>) -> Result<Option<Words>, AllocError> {
    let Some(peer) = peer else {
        return plain(alloc, Tone::Calm, "connected");
    };
    let name = peer.text();
    let words = format!(in alloc; "connected to {name}")?;
    Ok(Some(Words::whole(alloc, Tone::Calm, words)))
}

// Returns the words for a side that breaks.
fn broken(alloc: Global, fault: Fault) -> Result<Option<Words>, AllocError> {
    let (number, name) = (fault.number(), fault_name(fault));
    let words = format!(in alloc; "broken: {number} {name}")?;
    Ok(Some(Words::whole(alloc, Tone::Alarm, words)))
}

/// Returns the words for an answer on the lane of its node. [`None`] unless a side comes up or breaks, a
/// sweep removes a record, or the node stops or starts. `peer` is the node at the other end of the connection.
///
/// # Errors
/// [`AllocError`] if out of memory.
pub(crate) fn of_answer(
    alloc: Global,
    peer: Option<&NodeName>,
    answer: &Answer,
) -> Result<Option<Words>, AllocError> {
    match answer {
        Answer::Took(Kind::ChallengeReply) => connected(alloc, peer),
        Answer::Took(Kind::ChallengeAck) => connected(alloc, peer),
        Answer::Broken(fault) => broken(alloc, *fault),
        Answer::Swept(swept) => of_swept(alloc, *swept),
        Answer::Stopped => plain(alloc, Tone::Alarm, "stopped"),
        Answer::Started(creation) => {
            let words = format!(in alloc; "up, creation {creation}")?;
            Ok(Some(Words::whole(alloc, Tone::Calm, words)))
        }
        _ => Ok(None),
    }
}

/// Returns the words for a lost connection of a node, or an attempt that it gives up.
///
/// # Errors
/// [`AllocError`] if out of memory.
pub(crate) fn lost(alloc: Global) -> Result<Option<Words>, AllocError> {
    plain(alloc, Tone::Alarm, "connection lost")
}

// Appends a process and its end of a link.
fn put_end_of(
    out: &mut String,
    names: &ScriptNames,
    process: &Pid,
    end: End,
) -> Result<(), AllocError> {
    names.put(out, process)?;
    out.push_str(": ")?;
    put_end(out, end)
}

/// Returns the words for a process and its end of a link.
///
/// # Errors
/// [`AllocError`] if out of memory.
pub(crate) fn of_end(
    alloc: Global,
    names: &ScriptNames,
    process: &Pid,
    end: End,
) -> Result<Option<Words>, AllocError> {
    let tone = match end {
        End::None => Tone::Plain,
        End::Active => Tone::Calm,
        End::Pending(_) => Tone::Pending,
    };
    let mut words = String::new(alloc);
    put_end_of(&mut words, names, process, end)?;
    let mut full = String::new(alloc);
    put_end_of(&mut full, &ScriptNames::new(alloc), process, end)?;
    Ok(Some(Words::named(alloc, tone, words, full)))
}
