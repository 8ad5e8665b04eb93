//! Worlds, and the events of steps.
use crate::told::{Place, Process, Reason, Step, Trunk};
use dist_model::Command;
use erl_handshake::{Cookie, Profile, Setup};
use erl_names::{NodeName, TrunkId};
use erl_term::{Atom, Payload, Pid, Reference, ReferenceWords, Refusal, Term};
use std::alloc::Global;
use world_core::{Event, NodeEvent, World};

/// The word that each event draws.
const WORD: u32 = 7;

/// The name of the node at a place.
pub fn name(place: Place) -> &'static str {
    match place {
        0 => "a@h",
        1 => "b@h",
        2 => "c@h",
        _ => "d@h",
    }
}

/// The text of a reason.
pub fn reason_text(reason: Reason) -> &'static str {
    match reason {
        Reason::Normal => "normal",
        Reason::Kill => "kill",
        Reason::Killed => "killed",
        Reason::NoProc => "noproc",
        Reason::NoConnection => "noconnection",
        Reason::Boom => "boom",
    }
}

fn node(alloc: Global, place: Place, cookie: &str) -> Result<(NodeName, Setup), Refusal> {
    let name = NodeName::read(alloc, name(place))?;
    let setup = Setup {
        cookie: Cookie::new(Vec::from_slice(alloc, cookie.as_bytes())?),
        profile: Profile::One,
    };
    Ok((name, setup))
}

/// A world of as many nodes as there are cookies, at most four.
pub fn world(alloc: Global, cookies: &[&str]) -> Result<World, Refusal> {
    let mut nodes = Vec::new(alloc);
    for (place, cookie) in cookies.iter().enumerate() {
        nodes.push(node(alloc, place, cookie)?)?;
    }
    if !World::can_open(&nodes) {
        drop(nodes);
        return Err(Refusal::BadName);
    }
    Ok(World::new(alloc, nodes)?)
}

/// An atom of a text of at most 255 characters.
pub fn atom(alloc: Global, text: &str) -> Result<Atom, Refusal> {
    let text = String::from_str(alloc, text)?;
    if !Atom::fits(text.as_str()) {
        return Err(Refusal::BadName);
    }
    Ok(Atom::new(text)?)
}

pub fn pid(alloc: Global, process: Process) -> Result<Pid, Refusal> {
    Ok(Pid {
        node: atom(alloc, name(process.place))?,
        creation: process.creation,
        id: process.id,
        serial: 0,
    })
}

// The reference that the process's incarnation has drawn with this word, 0 and 0.
fn reference(alloc: Global, process: Process, word: u32) -> Result<Reference, Refusal> {
    let words = ReferenceWords::new(&[word, 0, 0]).ok_or(Refusal::BadName)?;
    Ok(Reference {
        node: atom(alloc, name(process.place))?,
        creation: process.creation,
        words,
    })
}

fn trunk(alloc: Global, trunk: Trunk) -> Result<TrunkId, Refusal> {
    Ok(TrunkId {
        dialer: NodeName::read(alloc, name(trunk.dialer))?,
        count: trunk.count,
    })
}

fn payload(alloc: Global, text: &str) -> Result<Payload, Refusal> {
    Ok(Payload::new(Term::Atom(atom(alloc, text)?)))
}

// A command of a process that names another one.
fn command_between(
    alloc: Global,
    step: Step,
    from: Process,
    to: Process,
) -> Result<Command, Refusal> {
    let from = pid(alloc, from)?;
    let to = pid(alloc, to)?;
    Ok(match step {
        Step::Send(..) => Command::Send {
            from,
            to,
            message: payload(alloc, "hi")?,
        },
        Step::ExitTo(_, _, reason) => Command::ExitTo {
            from,
            to,
            reason: payload(alloc, reason_text(reason))?,
        },
        Step::Link(..) => Command::Link { from, to },
        Step::Unlink(..) => Command::Unlink { from, to },
        _ => Command::Monitor {
            owner: from,
            target: to,
        },
    })
}

// A command of one process.
fn command_of(alloc: Global, step: Step, process: Process) -> Result<Command, Refusal> {
    let process = pid(alloc, process)?;
    Ok(match step {
        Step::Demonitor(owner, word) => Command::Demonitor {
            owner: process,
            reference: reference(alloc, owner, word)?,
        },
        Step::Exit(_, reason) => Command::ExitSelf {
            process,
            reason: payload(alloc, reason_text(reason))?,
        },
        Step::Trap(_) => Command::Trap { process, on: true },
        Step::HasLinks(_) => Command::LinksOf { process },
        _ => Command::Receive { process },
    })
}

// What happens at the step's node, where it is no command.
fn happening(alloc: Global, step: Step) -> Result<NodeEvent, Refusal> {
    Ok(match step {
        Step::Dial(_, peer) => NodeEvent::Dial {
            peer: NodeName::read(alloc, name(peer))?,
            word: WORD,
        },
        Step::Come(_, on) => NodeEvent::Arrive {
            trunk: trunk(alloc, on)?,
            word: WORD,
        },
        Step::Lose(_, lost) => NodeEvent::Lose(trunk(alloc, lost)?),
        Step::Local(_) => NodeEvent::Local,
        Step::Sweep(_) => NodeEvent::Sweep,
        Step::Stop(_) => NodeEvent::Stop,
        Step::Start(_) => NodeEvent::Start,
        _ => NodeEvent::Call(Command::Spawn),
    })
}

/// The place of the node at which a step happens.
pub fn place_of(step: Step) -> Place {
    match step {
        Step::Spawn(place)
        | Step::Dial(place, _)
        | Step::Come(place, _)
        | Step::Local(place)
        | Step::Lose(place, _)
        | Step::Sweep(place)
        | Step::Stop(place)
        | Step::Start(place) => place,
        Step::Send(process, _)
        | Step::Link(process, _)
        | Step::Unlink(process, _)
        | Step::Monitor(process, _)
        | Step::ExitTo(process, _, _)
        | Step::Exit(process, _)
        | Step::Demonitor(process, _)
        | Step::Trap(process)
        | Step::HasLinks(process)
        | Step::Receive(process) => process.place,
    }
}

fn node_event(alloc: Global, step: Step) -> Result<NodeEvent, Refusal> {
    Ok(match step {
        Step::Send(from, to)
        | Step::Link(from, to)
        | Step::Unlink(from, to)
        | Step::Monitor(from, to)
        | Step::ExitTo(from, to, _) => NodeEvent::Call(command_between(alloc, step, from, to)?),
        Step::Demonitor(process, _)
        | Step::Trap(process)
        | Step::Exit(process, _)
        | Step::HasLinks(process)
        | Step::Receive(process) => NodeEvent::Call(command_of(alloc, step, process)?),
        _ => happening(alloc, step)?,
    })
}

/// The event of a step.
pub fn event(alloc: Global, step: Step) -> Result<Event, Refusal> {
    Ok(Event {
        node: place_of(step),
        event: node_event(alloc, step)?,
    })
}
