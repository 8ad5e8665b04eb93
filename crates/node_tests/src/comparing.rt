//! The comparison of an event's outcome with the wanted one.
use crate::acting::{act, atom, node, pid};
use crate::rows::{Answered, Brought, Event, Process, Step, Text, Trunk};
use dist_model::{Answer, Effect, Links, Report};
use erl_names::TrunkId;
use erl_term::{Payload, Pid, Reference, Refusal, Term};
use link_core::End;
use node_core::Node;
use node_frames::Frame;
use node_tables::Life;
use std::alloc::Global;

fn is_pid(pid: &Pid, process: Process) -> bool {
    let (node, creation, id) = process;
    pid.node.text() == node && pid.creation == creation && pid.id == id && pid.serial == 0
}

fn is_own_reference(reference: &Reference, word: u32) -> bool {
    reference.node.text() == "a@h" && reference.words.as_slice() == [word, 0, 0].as_slice()
}

fn is_trunk(trunk: &TrunkId, wanted: Trunk) -> bool {
    let (dialer, count) = wanted;
    trunk.dialer.text() == dialer && trunk.count == count
}

fn is_atom(term: &Term, name: &str) -> bool {
    match term {
        Term::Atom(atom) => atom.text() == name,
        _ => false,
    }
}

fn is_term_pid(term: &Term, process: Process) -> bool {
    match term {
        Term::Pid(pid) => is_pid(pid, process),
        _ => false,
    }
}

fn is_term_reference(term: &Term, word: u32) -> bool {
    match term {
        Term::Reference(reference) => is_own_reference(reference, word),
        _ => false,
    }
}

fn is_exit(elements: &[Term], process: Process, reason: &str) -> bool {
    match elements {
        [exit, sender, why] => {
            is_atom(exit, "EXIT") && is_term_pid(sender, process) && is_atom(why, reason)
        }
        _ => false,
    }
}

/// Returns the object of {'DOWN',Ref,process,Object,Info}, with this reference and this info.
fn object_of_down<'a>(elements: &'a [Term], word: u32, info: &str) -> Option<&'a Term> {
    match elements {
        [down, reference, kind, object, why]
            if is_atom(down, "DOWN")
                && is_term_reference(reference, word)
                && is_atom(kind, "process")
                && is_atom(why, info) => { Some(object) }
        _ => None,
    }
}

fn is_down(elements: &[Term], word: u32, process: Process, info: &str) -> bool {
    match object_of_down(elements, word, info) {
        Some(object) => is_term_pid(object, process),
        None => false,
    }
}

/// Returns true if the term is {Name,Node}.
fn is_term_name(term: &Term, name: &str, node: &str) -> bool {
    match term {
        Term::Tuple(elements) => match elements.as_slice() {
            [first, second] => is_atom(first, name) && is_atom(second, node),
            _ => false,
        },
        _ => false,
    }
}

fn is_down_of_name(elements: &[Term], word: u32, name: &str, node: &str, info: &str) -> bool {
    match object_of_down(elements, word, info) {
        Some(object) => is_term_name(object, name, node),
        None => false,
    }
}

fn says(message: &Payload, text: Text) -> bool {
    match (message.term(), text) {
        (term, Text::Atom(name)) => is_atom(term, name),
        (Term::Tuple(elements), Text::Exit(process, reason)) => is_exit(elements, process, reason),
        (Term::Tuple(elements), Text::Down(word, process, info)) => {
            is_down(elements, word, process, info)
        }
        (Term::Tuple(elements), Text::DownOfName(word, name, node, info)) => {
            is_down_of_name(elements, word, name, node, info)
        }
        _ => false,
    }
}

fn is_end(end: End, unlink_id: u64) -> bool {
    match end {
        End::None => false,
        End::Active => unlink_id == 0,
        End::Pending(id) => id == unlink_id,
    }
}

fn are_links(links: &Links, wanted: &[(Process, u64)]) -> bool {
    links.entries.len() == wanted.len()
        && links.entries.iter().zip(wanted).all(|((partner, end), (process, unlink_id))| {
            is_pid(partner, *process) && is_end(*end, *unlink_id)
        })
}

fn answers(answer: &Answer, wanted: Answered) -> bool {
    match (answer, wanted) {
        (Answer::Done, Answered::Done) | (Answer::Stopped, Answered::Stopped) => true,
        (Answer::Pid(pid), Answered::Pid(id)) => pid.id == id,
        (Answer::Reference(reference), Answered::Reference(word)) => {
            is_own_reference(reference, word)
        }
        (Answer::Message(Some(message)), Answered::Message(text)) => says(message, text),
        (Answer::Message(message), Answered::Empty) => message.is_none(),
        (Answer::Links(links), Answered::Links(wanted)) => are_links(links, wanted),
        (Answer::Alive(is), Answered::Alive(wanted)) => *is == wanted,
        (Answer::Holder(Some(pid)), Answered::Holder(process)) => is_pid(pid, process),
        (Answer::Holder(holder), Answered::Nobody) => holder.is_none(),
        (Answer::Trunk(trunk), Answered::Connection(wanted)) => is_trunk(trunk, wanted),
        (Answer::Took(kind), Answered::Took(wanted)) => *kind == wanted,
        (Answer::Broken(fault), Answered::Broken(number)) => fault.number() == number,
        (Answer::Swept(kind), Answered::Swept(wanted)) => *kind == wanted,
        (Answer::Started(creation), Answered::Started(wanted)) => *creation == wanted,
        _ => false,
    }
}

fn is_sent(trunk: &Option<TrunkId>, on: Option<Trunk>) -> bool {
    match (trunk, on) {
        (Some(trunk), Some(on)) => is_trunk(trunk, on),
        (None, None) => true,
        _ => false,
    }
}

fn brings(effect: &Effect<Frame>, wanted: Brought) -> bool {
    match (effect, wanted) {
        (Effect::Put { to, message }, Brought::Put(process, text)) => {
            is_pid(to, process) && says(message, text)
        }
        (Effect::Ended { process, reason }, Brought::Ended(wanted, why)) => {
            is_pid(process, wanted) && is_atom(reason.term(), why)
        }
        (
            Effect::LinkExit {
                process,
                partner,
                reason,
            },
            Brought::LinkExit(wanted, other, why),
        ) => { is_pid(process, wanted) && is_pid(partner, other) && is_atom(reason.term(), why) }
        (Effect::Sent { trunk, item, .. }, Brought::Sent(on, wire)) => {
            is_sent(trunk, Some(on)) && item.as_slice() == wire.bytes()
        }
        (Effect::Sent { trunk, item, .. }, Brought::SentHome(wire)) => {
            is_sent(trunk, None) && item.as_slice() == wire.bytes()
        }
        _ => false,
    }
}

fn are_effects(effects: &[Effect<Frame>], wanted: &[Brought]) -> bool {
    effects.len() == wanted.len()
        && effects
            .iter()
            .zip(wanted)
            .all(|(effect, wanted)| brings(effect, *wanted))
}

fn tells(report: &Report<Frame>, wanted: Answered, effects: Option<&[Brought]>) -> bool {
    let are_these = match effects {
        Some(effects) => are_effects(&report.effects, effects),
        None => true,
    };
    are_these && answers(&report.answer, wanted)
}

/// Returns true if `event` has the answer `wanted` and, if given, the effects `effects`.
fn does(
    alloc: Global,
    node: &mut Node,
    event: Event,
    wanted: Answered,
    effects: Option<&[Brought]>,
) -> Result<bool, Refusal> {
    let report = act(alloc, node, event)?;
    let is_so = tells(&report, wanted, effects);
    drop(report);
    Ok(is_so)
}

/// Returns true if the node refuses `event` for the reason `why`. Returns an error if out of memory.
fn refuses(alloc: Global, node: &mut Node, event: Event, why: Refusal) -> Result<bool, Refusal> {
    match act(alloc, node, event) {
        Ok(report) => {
            drop(report);
            Ok(false)
        }
        Err(Refusal::OutOfMemory) => Err(Refusal::OutOfMemory),
        Err(found) => Ok(found == why),
    }
}

/// Lets signals in flight from the node to itself come, in at most 100 events. Returns true once an event
/// finds none.
fn settles(alloc: Global, node: &mut Node) -> Result<bool, Refusal> {
    for _ in 0..100 {
        match node.local(alloc) {
            Ok(report) => drop(report),
            Err(Refusal::NothingThere) => return Ok(true),
            Err(e) => return Err(e),
        }
    }
    Ok(false)
}

/// The state of a process.
#[derive(Clone, Copy)]
enum Standing<'a> {
    /// It lives, and traps exits or doesn't.
    Lives(bool),
    /// It has ended, for this reason.
    HasEnded(&'a str),
    IsUnknown,
}

fn is_standing(life: Option<&Life>, wanted: Standing<'_>) -> bool {
    match (life, wanted) {
        (Some(Life::Living { process, .. }), Standing::Lives(trap)) => process.trap == trap,
        (Some(Life::Ended(reason)), Standing::HasEnded(why)) => is_atom(reason.term(), why),
        (None, Standing::IsUnknown) => true,
        _ => false,
    }
}

fn stands(
    alloc: Global,
    node: &Node,
    process: Process,
    wanted: Standing<'_>,
) -> Result<bool, Refusal> {
    let process = pid(alloc, process)?;
    Ok(is_standing(node.life(&process), wanted))
}

fn routes(alloc: Global, node: &Node, peer: &str, wanted: Option<Trunk>) -> Result<bool, Refusal> {
    let peer = atom(alloc, peer)?;
    Ok(match (node.route(&peer), wanted) {
        (Some(trunk), Some(wanted)) => is_trunk(trunk, wanted),
        (None, None) => true,
        _ => false,
    })
}

fn travels(alloc: Global, node: &Node, p: Process, q: Process) -> Result<bool, Refusal> {
    let p = pid(alloc, p)?;
    let q = pid(alloc, q)?;
    Ok(!node.has_nothing_between(&p, &q))
}

/// Returns true if `step` comes out as it has to.
fn goes(alloc: Global, node: &mut Node, step: Step) -> Result<bool, Refusal> {
    match step {
        Step::Does(event, answer, effects) => does(alloc, node, event, answer, Some(effects)),
        Step::Goes(event, answer) => does(alloc, node, event, answer, None),
        Step::Refuses(event, why) => refuses(alloc, node, event, why),
        Step::Settles => settles(alloc, node),
        Step::Lives(process, trap) => stands(alloc, node, process, Standing::Lives(trap)),
        Step::HasEnded(process, why) => stands(alloc, node, process, Standing::HasEnded(why)),
        Step::IsUnknown(process) => stands(alloc, node, process, Standing::IsUnknown),
        Step::Routes(peer, trunk) => routes(alloc, node, peer, trunk),
        Step::HasSpawned(creation, spawned) => {
            Ok(node.creation() == creation && node.spawned() == spawned)
        }
        Step::Travels(p, q, wanted) => Ok(travels(alloc, node, p, q)? == wanted),
    }
}

fn first_wrong(alloc: Global, node: &mut Node, steps: &[Step]) -> Result<Option<usize>, Refusal> {
    for (number, step) in steps.iter().enumerate() {
        if !goes(alloc, node, *step)? {
            return Ok(Some(number));
        }
    }
    Ok(None)
}

/// Returns the index of the first of `steps` that comes out otherwise, behind the steps of `start`. Returns
/// an error if a step of `start` comes out otherwise.
fn first_wrong_behind(
    alloc: Global,
    node: &mut Node,
    start: [&[Step]; 2],
    steps: &[Step],
) -> Result<Option<usize>, Refusal> {
    for part in start {
        if first_wrong(alloc, node, part)?.is_some() {
            return Err(Refusal::BadMessage);
        }
    }
    first_wrong(alloc, node, steps)
}

/// Returns the index of the first of `steps` that comes out otherwise, at a new node a@h behind `start`.
pub fn wrong_step(
    alloc: Global,
    start: [&[Step]; 2],
    steps: &[Step],
) -> Result<Option<usize>, Refusal> {
    let mut node = node(alloc)?;
    let wrong = first_wrong_behind(alloc, &mut node, start, steps);
    drop(node);
    wrong
}

/// The start of a scenario at a new node: no steps.
const NEW: [&[Step]; 2] = [&[], &[]];

/// Returns the index of the first scenario at a new node, of those at `places`, that comes out otherwise,
/// and of its step that does. Returns an index without a scenario with step 0.
pub fn wrong_among(
    alloc: Global,
    scenarios: &[&[Step]],
    places: &[usize],
) -> Result<Option<(usize, usize)>, Refusal> {
    for place in places {
        let Some(steps) = scenarios.get(*place) else {
            return Ok(Some((*place, 0)));
        };
        if let Some(step) = wrong_step(alloc, NEW, steps)? {
            return Ok(Some((*place, step)));
        }
    }
    Ok(None)
}

/// Returns the index of the first scenario at a new node, of all, that comes out otherwise, and of its step
/// that does.
pub fn wrong_of_all(
    alloc: Global,
    scenarios: &[&[Step]],
) -> Result<Option<(usize, usize)>, Refusal> {
    for (place, steps) in scenarios.iter().enumerate() {
        if let Some(step) = wrong_step(alloc, NEW, steps)? {
            return Ok(Some((place, step)));
        }
    }
    Ok(None)
}
