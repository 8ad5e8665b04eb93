//! The names of messages in a mailbox.

use crate::names::{ScriptNames, put_named};
use erl_term::{Pid, Term};
use script_terms::put_term;
use std::alloc::AllocError;

/// The process whose end a message tells of.
#[derive(Clone, Copy)]
enum Object<'a> {
    /// Its pid.
    Process(&'a Pid),
    /// `{Name, Node}`: the registered name by which it was monitored, and its node.
    Named(&'a Term),
}

/// A message that tells of the end of a process.
#[derive(Clone, Copy)]
struct News<'a> {
    tag: &'a str,
    object: Object<'a>,
    reason: &'a Term,
}

// Returns true for the parts of `{Name, Node}`.
fn is_named(parts: &[Term]) -> bool {
    matches!(parts, [Term::Atom(_), Term::Atom(_)])
}

// Returns the object of a DOWN, a pid or `{Name, Node}`. [`None`] for any other term.
fn object_in(term: &Term) -> Option<Object<'_>> {
    match term {
        Term::Pid(process) => Some(Object::Process(process)),
        Term::Tuple(parts) if is_named(parts) => Some(Object::Named(term)),
        _ => None,
    }
}

// {'EXIT', Process, Reason}. (Reference Manual, Processes, Links.)
fn exit_in(parts: &[Term]) -> Option<News<'_>> {
    match parts {
        [Term::Atom(tag), Term::Pid(process), reason] if tag.text() == "EXIT" => Some(News {
            tag: " gets EXIT of ",
            object: Object::Process(process),
            reason,
        }),
        _ => None,
    }
}

// {'DOWN', Reference, process, Object, Reason}. (Reference Manual, Processes, Monitors.)
fn down_in(parts: &[Term]) -> Option<News<'_>> {
    match parts {
        [
            Term::Atom(tag),
            Term::Reference(_),
            Term::Atom(_),
            object,
            reason,
        ] if tag.text() == "DOWN" => object_in(object).map(|object| News {
            tag: " gets DOWN of ",
            object,
            reason,
        }),
        _ => None,
    }
}

fn news_in(message: &Term) -> Option<News<'_>> {
    match message {
        Term::Tuple(parts) => exit_in(parts).or(down_in(parts)),
        _ => None,
    }
}

// Appends the name of a process, or the name by which it was monitored.
fn put_object(out: &mut String, names: &ScriptNames, object: Object) -> Result<(), AllocError> {
    match object {
        Object::Process(process) => names.put(out, process),
        Object::Named(named) => put_term(out, named),
    }
}

/// Appends the message that a process gets. Of EXIT and DOWN these are the other process and the reason.
///
/// # Errors
/// [`AllocError`] if out of memory.
pub(crate) fn put_message(
    out: &mut String,
    names: &ScriptNames,
    message: &Term,
) -> Result<(), AllocError> {
    match news_in(message) {
        Some(news) => {
            out.push_str(news.tag)?;
            put_object(out, names, news.object)?;
            out.push_str(": ")?;
            put_named(out, names, news.reason)
        }
        None => {
            out.push_str(" gets ")?;
            put_named(out, names, message)
        }
    }
}
