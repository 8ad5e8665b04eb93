//! Books, and what is asked of them.
ghost use Rattle.std.specs.Prelude.{◌<◌};

use crate::rows::{Ask, Kept, Named, Process};
use dist_model::Command;
use erl_handshake::{Cookie, Profile, Setup};
use erl_names::{NodeName, TrunkId};
use erl_term::{Payload, Pid, Refusal, Term};
use node_lock::{Act, Book};
use std::alloc::Global;

/// The challenge of each dial.
const WORD: u32 = 7;

/// The name of the node at a place.
pub fn name(place: usize) -> &'static str {
    match place {
        0 => "a@h",
        _ => "b@h",
    }
}

/// The one connection of all stories, that the first node dials first.
pub fn trunk(alloc: Global) -> Result<TrunkId, Refusal> {
    Ok(TrunkId {
        dialer: NodeName::read(alloc, name(0))?,
        count: 1,
    })
}

fn setup(alloc: Global, cookie: &str) -> Result<Setup, Refusal> {
    Ok(Setup {
        cookie: Cookie::new(Vec::from_slice(alloc, cookie.as_bytes())?),
        profile: Profile::One,
    })
}

/// Returns the name and the setup of a node.
pub fn named(alloc: Global, named: Named) -> Result<(NodeName, Setup), Refusal> {
    let name = NodeName::read(alloc, named.0)?;
    Ok((name, setup(alloc, named.1)?))
}

/// Those of some nodes.
pub fn nodes(alloc: Global, all: &[Named]) -> Result<Vec<(NodeName, Setup)>, Refusal> {
    let mut nodes = Vec::new(alloc);
    for one in all {
        nodes.push(named(alloc, *one)?)?;
    }
    Ok(nodes)
}

fn names(alloc: Global, texts: &[&str]) -> Result<Vec<NodeName>, Refusal> {
    let mut names = Vec::new(alloc);
    for text in texts {
        names.push(NodeName::read(alloc, *text)?)?;
    }
    Ok(names)
}

/// A new book.
pub fn book(alloc: Global, kept: Kept) -> Result<Book, Refusal> {
    let setup = setup(alloc, kept.cookie)?;
    let names = names(alloc, kept.names)?;
    if kept.place >= names.len() {
        drop(names);
        drop(setup);
        return Err(Refusal::NothingThere);
    }
    Ok(Book::new(alloc, names, kept.place, setup)?)
}

/// The pid of a process.
pub fn pid(alloc: Global, process: Process) -> Result<Pid, Refusal> {
    let name = NodeName::read(alloc, name(process.place))?;
    Ok(Pid {
        node: name.atom().clone()?,
        creation: 1,
        id: process.id,
        serial: 0,
    })
}

fn message(alloc: Global, ask: Ask) -> Result<Payload, Refusal> {
    Ok(Payload::new(match ask {
        Ask::SendBinary(_, _, count) => Term::Binary(vec![in alloc; 7; count]?),
        _ => Term::Int(7),
    }))
}

fn between(alloc: Global, ask: Ask, from: Process, to: Process) -> Result<Command, Refusal> {
    let from = pid(alloc, from)?;
    let to = pid(alloc, to)?;
    Ok(match ask {
        Ask::Link(..) => Command::Link { from, to },
        _ => Command::Send {
            from,
            to,
            message: message(alloc, ask)?,
        },
    })
}

/// What is asked, as an act.
pub fn act(alloc: Global, ask: Ask) -> Result<Act, Refusal> {
    Ok(match ask {
        Ask::Spawn => Act::Run(Command::Spawn),
        Ask::Send(from, to) | Ask::SendBinary(from, to, _) | Ask::Link(from, to) => Act::Run(
            between(alloc, ask, from, to)?,
        ),
        Ask::Dial(place) => Act::Dial {
            peer: NodeName::read(alloc, name(place))?,
            word: WORD,
        },
        Ask::Stop => Act::Stop,
        Ask::Start => Act::Start,
    })
}
