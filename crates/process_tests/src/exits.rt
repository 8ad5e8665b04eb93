//! What exit signals do to a process, and the messages as Erlang writes them.
use crate::processes::{Process, pid, reference};
use erl_term::{Atom, Payload, Pid, Refusal, Term, encode};
use exit_core::{
    ExitSignal, Mailbox, Proc, Reaction, down_message, exit_message, only_active_links, ways_to_end,
};
use std::alloc::Global;
use std::test::*;

const SENDER: Process = ("a@h", 1, 2);

const TARGET: Process = ("b@h", 1, 1);

/// Where an exit signal comes from.
#[derive(Clone, Copy)]
enum From {
    /// A link that the receiver holds active.
    Link,
    /// A link that it doesn't.
    OtherLink,
    /// A process that isn't linked.
    Process,
    /// The receiver.
    Itself,
}

/// What a process does, with the reason as it is told.
#[derive(Clone, Copy, Debug, PartialEq, Eq)]
enum Told<'a> {
    Ignores,
    /// It gets a message, which ends with this reason.
    Gets(&'a str),
    /// It ends with this reason.
    Ends(&'a str),
}

fn atom(alloc: Global, name: &str) -> Result<Payload, Refusal> {
    let text = String::from_str(alloc, name)?;
    if !Atom::fits(text.as_str()) {
        return Err(Refusal::BadName);
    }
    Ok(Payload::new(Term::Atom(Atom::new(text)?)))
}

fn name_of(term: &Term) -> &str {
    match term {
        Term::Atom(atom) => atom.text(),
        _ => "",
    }
}

fn last_of(message: &Payload) -> &str {
    match message.term() {
        Term::Tuple(elements) => elements.last().map_or("", name_of),
        _ => "",
    }
}

fn told_of(reaction: &Reaction) -> Told {
    match reaction {
        Reaction::Ignore => Told::Ignores,
        Reaction::Put(message) => Told::Gets(last_of(message)),
        Reaction::End(reason) => Told::Ends(name_of(reason.term())),
    }
}

fn signal(alloc: Global, reason: &str, from: From) -> Result<ExitSignal, Refusal> {
    let reason = atom(alloc, reason)?;
    match pid(alloc, SENDER) {
        Ok(sender) => Ok(signal_of(sender, reason, from)),
        Err(why) => {
            drop(reason);
            Err(why)
        }
    }
}

fn signal_of(sender: Pid, reason: Payload, from: From) -> ExitSignal {
    ExitSignal {
        sender,
        reason,
        link: matches!(from, From::Link | From::OtherLink),
        is_active: matches!(from, From::Link),
        is_own: matches!(from, From::Itself),
    }
}

/// Whether a process, which traps exits or doesn't, does this.
fn reacts(
    alloc: Global,
    trap: bool,
    reason: &str,
    from: From,
    wanted: Told,
) -> Result<bool, Refusal> {
    let mut process = Proc::new(alloc);
    process.trap = trap;
    let signal = signal(alloc, reason, from)?;
    let reaction = process.react(alloc, signal)?;
    Ok(told_of(&reaction) == wanted)
}

const REACTIONS: &[(bool, &str, From, Told)] = &[
    (false, "boom", From::OtherLink, Told::Ignores),
    (true, "kill", From::OtherLink, Told::Ignores),
    // kill, and kill of a link
    (true, "kill", From::Process, Told::Ends("killed")),
    (false, "kill", From::Itself, Told::Ends("killed")),
    (true, "kill", From::Link, Told::Gets("kill")),
    (false, "kill", From::Link, Told::Ends("kill")),
    // a process that traps exits
    (true, "normal", From::Link, Told::Gets("normal")),
    (true, "boom", From::Process, Told::Gets("boom")),
    // normal, from another process and from itself
    (false, "normal", From::Link, Told::Ignores),
    (false, "normal", From::Itself, Told::Ends("normal")),
    // all else
    (false, "boom", From::Link, Told::Ends("boom")),
    (false, "killed", From::Process, Told::Ends("killed")),
];

#[test]
fn reactions(rt: HostRuntime) -> Result<(), Fail> {
    for (row, (trap, reason, from, wanted)) in REACTIONS.iter().enumerate() {
        assert!(rt;
            reacts(rt.alloc(), *trap, reason, *from, *wanted)?,
            "row {row}"
        );
    }
    Ok(())
}

/// {'EXIT',<a@h.2>,noproc}
const EXIT: &str = "83680377044558495458770361406800000002000000000000000177066E6F70726F63";

/// {'DOWN',Ref,process,<b@h.1>,noconnection}
const DOWN: &str =
    "8368057704444F574E5A0003770361406800000001000000010000000000000000770770726F63657373587703624068000000010000000000000001770C6E6F636F6E6E656374696F6E";

fn exit(alloc: Global) -> Result<Payload, Refusal> {
    let sender = pid(alloc, SENDER)?;
    Ok(exit_message(alloc, sender, atom(alloc, "noproc")?)?)
}

fn down(alloc: Global) -> Result<Payload, Refusal> {
    let target = pid(alloc, TARGET)?;
    let reference = reference(alloc, 1)?;
    let info = atom(alloc, "noconnection")?;
    Ok(down_message(alloc, reference, target, info)?)
}

fn is_written(alloc: Global, message: &Payload, hex: &str) -> Result<bool, Fail> {
    let bytes = encode(alloc, message.term())?;
    let text = hex::encode_upper(alloc, bytes.as_slice())?;
    Ok(text.as_str() == hex)
}

fn is_exit_written(alloc: Global) -> Result<bool, Fail> {
    let message = exit(alloc)?;
    let is_so = is_written(alloc, &message, EXIT);
    drop(message);
    is_so
}

fn is_down_written(alloc: Global) -> Result<bool, Fail> {
    let message = down(alloc)?;
    let is_so = is_written(alloc, &message, DOWN);
    drop(message);
    is_so
}

#[test]
fn messages(rt: HostRuntime) -> Result<(), Fail> {
    assert!(rt; is_exit_written(rt.alloc())?);
    assert!(rt; is_down_written(rt.alloc())?);
    Ok(())
}

fn puts(alloc: Global, mailbox: &mut Mailbox, name: &str) -> Result<(), Refusal> {
    Ok(mailbox.put(atom(alloc, name)?)?)
}

/// The name of the message at a place, if one is there.
fn message_at(mailbox: &Mailbox, place: usize) -> Option<&str> {
    match mailbox.get(place) {
        Some(message) => Some(name_of(message.term())),
        None => None,
    }
}

/// Whether the oldest message has this name.
fn takes(mailbox: &mut Mailbox, name: &str) -> bool {
    let taken = mailbox.take();
    let is_so = match &taken {
        Some(message) => name_of(message.term()) == name,
        None => false,
    };
    drop(taken);
    is_so
}

#[test]
fn mailbox(rt: HostRuntime) -> Result<(), Fail> {
    let mut mailbox = Mailbox::new(rt.alloc());
    assert!(rt; mailbox.is_empty());
    puts(rt.alloc(), &mut mailbox, "first")?;
    puts(rt.alloc(), &mut mailbox, "second")?;
    assert_eq!(rt; mailbox.len(), 2);
    assert!(rt; message_at(&mailbox, 1) == Some("second"));
    assert!(rt; message_at(&mailbox, 2).is_none());
    assert!(rt; takes(&mut mailbox, "first"));
    Ok(())
}

/// Run by the script fail-allocations too, with each allocation refused in turn.
#[test]
fn exit_allocations(rt: HostRuntime) -> Result<(), Fail> {
    let alloc = rt.alloc();
    let mut mailbox = Mailbox::new(alloc);
    puts(alloc, &mut mailbox, "first")?;
    assert!(rt; reacts(alloc, true, "boom", From::Link, Told::Gets("boom"))?);
    assert!(rt; reacts(alloc, false, "kill", From::Process, Told::Ends("killed"))?);
    only_active_links();
    ways_to_end();
    Ok(())
}
