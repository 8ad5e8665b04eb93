//! What a node has answered, as plain data.
use crate::events::{name, reason_text};
use crate::told::{Message, Place, Process, Reason, Told};
use dist_model::Answer;
use erl_term::{Payload, Pid, Reference, Term};

const PLACES: [Place; 4] = [0, 1, 2, 3];

const REASONS: [Reason; 6] = [
    Reason::Normal,
    Reason::Kill,
    Reason::Killed,
    Reason::NoProc,
    Reason::NoConnection,
    Reason::Boom,
];

/// The process of a pid, where its node can be one of a world's.
pub fn process(pid: &Pid) -> Option<Process> {
    let place = PLACES
        .iter()
        .find(|place| pid.node.text() == name(**place))?;
    if pid.serial != 0 {
        return None;
    }
    Some(Process {
        place: *place,
        creation: pid.creation,
        id: pid.id,
    })
}

/// The reason of a term, where it is one of these.
pub fn reason(term: &Term) -> Option<Reason> {
    match term {
        Term::Atom(atom) => {
            let found = REASONS
                .iter()
                .find(|reason| atom.text() == reason_text(**reason))?;
            Some(*found)
        }
        _ => None,
    }
}

fn is_atom(term: &Term, text: &str) -> bool {
    match term {
        Term::Atom(atom) => atom.text() == text,
        _ => false,
    }
}

// The first word of a reference whose others are 0.
fn word(reference: &Reference) -> Option<u32> {
    match reference.words.as_slice() {
        [word, 0, 0] => Some(*word),
        _ => None,
    }
}

fn exit(elements: &[Term]) -> Option<Message> {
    match elements {
        [tag, Term::Pid(sender), why] if is_atom(tag, "EXIT") => {
            Some(Message::Exit(process(sender)?, reason(why)?))
        }
        _ => None,
    }
}

fn down(elements: &[Term]) -> Option<Message> {
    match elements {
        [
            tag,
            Term::Reference(reference),
            kind,
            Term::Pid(target),
            info,
        ] if is_atom(tag, "DOWN") && is_atom(kind, "process") => {
            Some(Message::Down(word(reference)?, process(target)?, reason(info)?))
        }
        _ => None,
    }
}

/// What a message says, where it is one of these.
pub fn message(message: &Payload) -> Option<Message> {
    match message.term() {
        Term::Tuple(elements) if elements.len() == 3 => exit(elements),
        Term::Tuple(elements) => down(elements),
        term if is_atom(term, "hi") => Some(Message::Hi),
        _ => None,
    }
}

fn received(payload: &Payload) -> Told {
    match message(payload) {
        Some(message) => Told::Received(message),
        None => Told::Other,
    }
}

fn monitors(reference: &Reference) -> Told {
    match word(reference) {
        Some(word) => Told::Monitors(word),
        None => Told::Other,
    }
}

/// What an answer says.
pub fn told(answer: &Answer) -> Told {
    match answer {
        Answer::Done => Told::Done,
        Answer::Pid(pid) => Told::Spawned(pid.id),
        Answer::Reference(reference) => monitors(reference),
        Answer::Message(Some(payload)) => received(payload),
        Answer::Message(_) => Told::Empty,
        Answer::Links(links) => Told::Links(links.entries.len()),
        Answer::Alive(_) => Told::Other,
        Answer::Holder(_) => Told::Other,
        Answer::Trunk(trunk) => Told::Dialed(trunk.count),
        Answer::Took(kind) => Told::Took(*kind),
        Answer::Broken(fault) => Told::Broken(fault.number()),
        Answer::Swept(swept) => Told::Swept(*swept),
        Answer::Stopped => Told::Stopped,
        Answer::Started(creation) => Told::Started(*creation),
    }
}
