//! The events of the rows.
use crate::rows::{Event, Process, Said, Trunk};
use dist_model::{Command, Report};
use erl_handshake::{Cookie, Profile, Setup};
use erl_names::{NodeName, TrunkId};
use erl_term::{Atom, Payload, Pid, Reference, ReferenceWords, Refusal, Term};
use node_core::{Arrived, Node};
use node_frames::Frame;
use std::alloc::Global;

/// The cookie of the node, and of its peers.
const SECRET: &[u8] = b"1234567890123456789012345678901234567890123456789012345678901234567890";

/// The word that each event draws.
const WORD: u32 = 1234567890;

/// Returns a new node a@h.
pub fn node(alloc: Global) -> Result<Node, Refusal> {
    let name = node_name(alloc, "a@h")?;
    let setup = Setup {
        cookie: Cookie::new(Vec::from_slice(alloc, SECRET)?),
        profile: Profile::One,
    };
    Ok(Node::new(alloc, name, setup)?)
}

pub fn atom(alloc: Global, text: &str) -> Result<Atom, Refusal> {
    if !Atom::fits(text) {
        return Err(Refusal::BadName);
    }
    Ok(Atom::new(String::from_str(alloc, text)?)?)
}

pub fn pid(alloc: Global, process: Process) -> Result<Pid, Refusal> {
    let (node, creation, id) = process;
    Ok(Pid {
        node: atom(alloc, node)?,
        creation,
        id,
        serial: 0,
    })
}

/// Returns the reference of the node's first incarnation with the words `word`, 0 and 0.
fn reference(alloc: Global, word: u32) -> Result<Reference, Refusal> {
    let words = ReferenceWords::new(&[word, 0, 0]).ok_or(Refusal::BadName)?;
    Ok(Reference {
        node: atom(alloc, "a@h")?,
        creation: 1,
        words,
    })
}

pub fn trunk(alloc: Global, trunk: Trunk) -> Result<TrunkId, Refusal> {
    let (dialer, count) = trunk;
    Ok(TrunkId {
        dialer: node_name(alloc, dialer)?,
        count,
    })
}

fn nested(alloc: Global, levels: usize) -> Result<Term, Refusal> {
    let mut term = Term::Int(0);
    for _ in 0..levels {
        let mut items = Vec::with_capacity(alloc, 1)?;
        items.push(term)?;
        term = Term::Tuple(items);
    }
    Ok(term)
}

fn said(alloc: Global, what: Said) -> Result<Payload, Refusal> {
    let term = match what {
        Said::Atom(name) => Term::Atom(atom(alloc, name)?),
        Said::Nested(levels) => nested(alloc, levels)?,
    };
    Ok(Payload::new(term))
}

/// Returns the command by which the process `from` acts on `to`.
fn command_between(
    alloc: Global,
    event: Event,
    from: Process,
    to: Process,
) -> Result<Command, Refusal> {
    let from = pid(alloc, from)?;
    let to = pid(alloc, to)?;
    Ok(match event {
        Event::Send(_, _, what) => Command::Send {
            from,
            to,
            message: said(alloc, what)?,
        },
        Event::ExitTo(_, _, what) => Command::ExitTo {
            from,
            to,
            reason: said(alloc, what)?,
        },
        Event::Link(..) => Command::Link { from, to },
        Event::Unlink(..) => Command::Unlink { from, to },
        _ => Command::Monitor {
            owner: from,
            target: to,
        },
    })
}

/// Returns the command of `event`: [`Command::Spawn`] if the event names no process and no registered name.
fn command_of(alloc: Global, event: Event) -> Result<Command, Refusal> {
    Ok(match event {
        Event::Send(from, to, _)
        | Event::ExitTo(from, to, _)
        | Event::Link(from, to)
        | Event::Unlink(from, to)
        | Event::Monitor(from, to) => command_between(alloc, event, from, to)?,
        Event::SendName(from, node, name, what) => Command::SendName {
            from: pid(alloc, from)?,
            node: node_name(alloc, node)?,
            name: atom(alloc, name)?,
            message: said(alloc, what)?,
        },
        Event::MonitorName(owner, node, name) => Command::MonitorName {
            owner: pid(alloc, owner)?,
            node: node_name(alloc, node)?,
            name: atom(alloc, name)?,
        },
        Event::Demonitor(owner, word) => Command::Demonitor {
            owner: pid(alloc, owner)?,
            reference: reference(alloc, word)?,
        },
        Event::Trap(process, on) => Command::Trap {
            process: pid(alloc, process)?,
            on,
        },
        Event::ExitSelf(process, what) => Command::ExitSelf {
            process: pid(alloc, process)?,
            reason: said(alloc, what)?,
        },
        Event::Receive(process) => Command::Receive {
            process: pid(alloc, process)?,
        },
        Event::LinksOf(process) => Command::LinksOf {
            process: pid(alloc, process)?,
        },
        Event::IsAlive(process) => Command::IsAlive {
            process: pid(alloc, process)?,
        },
        Event::Register(process, name) => Command::Register {
            process: pid(alloc, process)?,
            name: atom(alloc, name)?,
        },
        Event::Unregister(process) => Command::Unregister {
            process: pid(alloc, process)?,
        },
        Event::WhereIs(name) => Command::WhereIs {
            name: atom(alloc, name)?,
        },
        _ => Command::Spawn,
    })
}

/// Reads a node's name. A proof knows nothing more of its text.
fn node_name(alloc: Global, text: &str) -> Result<NodeName, Refusal> {
    NodeName::read(alloc, text)
}

fn dial_to(
    alloc: Global,
    node: &mut Node,
    peer: &NodeName,
    is_known: bool,
) -> Result<Report<Frame>, Refusal> {
    node.dial(alloc, is_known, peer, WORD)
}

fn dial(
    alloc: Global,
    node: &mut Node,
    peer: &str,
    is_known: bool,
) -> Result<Report<Frame>, Refusal> {
    let peer = node_name(alloc, peer)?;
    dial_to(alloc, node, &peer, is_known)
}

fn lose(alloc: Global, node: &mut Node, lost: Trunk) -> Result<Report<Frame>, Refusal> {
    let trunk = trunk(alloc, lost)?;
    node.lose(alloc, &trunk)
}

fn arrive_on(
    alloc: Global,
    node: &mut Node,
    trunk: &TrunkId,
    bytes: &[u8],
) -> Result<Arrived, Refusal> {
    node.arrive(alloc, trunk, bytes, WORD)
}

/// Lets `bytes` come on a connection, and returns the report of the item at their front.
fn arrive(
    alloc: Global,
    node: &mut Node,
    on: Trunk,
    bytes: &[u8],
) -> Result<Report<Frame>, Refusal> {
    let trunk = trunk(alloc, on)?;
    match arrive_on(alloc, node, &trunk, bytes) {
        Ok(arrived) => Ok(arrived.report),
        Err(why) => Err(why),
    }
}

/// Lets `event` happen at the node, and returns its report.
pub fn act(alloc: Global, node: &mut Node, event: Event) -> Result<Report<Frame>, Refusal> {
    match event {
        Event::Local => node.local(alloc),
        Event::Sweep => node.sweep(alloc),
        Event::Stop => node.stop(alloc),
        Event::Start => node.start(alloc),
        Event::Dial(peer, is_known) => dial(alloc, node, peer, is_known),
        Event::Lose(lost) => lose(alloc, node, lost),
        Event::Arrive(on, wire) => arrive(alloc, node, on, wire.bytes()),
        _ => {
            let command = command_of(alloc, event)?;
            node.call(alloc, command)
        }
    }
}
