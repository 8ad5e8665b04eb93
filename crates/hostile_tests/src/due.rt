//! The due outcome of bytes at a side, by the codec's answer alone.
use crate::items::{DIGEST, Reader};
use crate::states::{Awaits, State};
use conn_core::SideState;
use erl_control::{FrameError, Item, Signal, unframe};
use erl_handshake::{Flags, Role, ShakeMsg, Status, read};
use erl_term::{Pid, Refusal};
use std::alloc::Global;

/// The outcome of bytes that arrive.
#[derive(Clone, Copy, Debug, PartialEq, Eq)]
pub enum Due {
    /// The side reads nothing, since it is lost or gone.
    Deaf,
    /// The item isn't whole yet.
    Asks,
    /// The side takes the item, and stands in this state.
    Takes(SideState),
    /// The side takes the signal. The node breaks it, since the signal is forged.
    Forged,
    /// The side breaks by the fault of this number.
    Breaks(u8),
}

/// Returns the due outcome of bytes in a state.
///
/// # Errors
/// [`Refusal::OutOfMemory`].
pub fn outcome_due(alloc: Global, state: State, bytes: &[u8]) -> Result<Due, Refusal> {
    match state.awaits.reader() {
        None => Ok(Due::Deaf),
        Some(Reader::Connected) => frame_due(alloc, state.creation, bytes),
        Some(Reader::Dialer) => message_due(alloc, state.awaits, Role::Dialer, bytes),
        Some(Reader::Acceptor) => message_due(alloc, state.awaits, Role::Acceptor, bytes),
    }
}

fn message_due(alloc: Global, awaits: Awaits, role: Role, bytes: &[u8]) -> Result<Due, Refusal> {
    match read(alloc, role, bytes) {
        Ok(None) => Ok(Due::Asks),
        Ok(Some((message, _))) => {
            let due = on_message(awaits, &message);
            drop(message);
            Ok(due)
        }
        Err(Refusal::OutOfMemory) => Err(Refusal::OutOfMemory),
        Err(_) => Ok(Due::Breaks(10)),
    }
}

fn on_message(awaits: Awaits, message: &ShakeMsg) -> Due {
    match (awaits, message) {
        (Awaits::Status, ShakeMsg::Status(status)) => on_status(*status),
        (Awaits::Challenge, ShakeMsg::Challenge { flags, name, .. }) => {
            on_introduction(name.text(), *flags, SideState::Dialing)
        }
        (Awaits::Ack, ShakeMsg::ChallengeAck { digest }) => on_digest(digest.as_slice()),
        (Awaits::Name, ShakeMsg::SendName { flags, name, .. }) => {
            on_introduction(name.text(), *flags, SideState::Fresh)
        }
        (Awaits::Answer, ShakeMsg::Status(Status::True)) => Due::Takes(SideState::Parked),
        (Awaits::Answer, ShakeMsg::Status(Status::False)) => Due::Breaks(14),
        (Awaits::Reply, ShakeMsg::ChallengeReply { digest, .. }) => on_digest(digest.as_slice()),
        _ => Due::Breaks(10),
    }
}

fn on_status(status: Status) -> Due {
    match status {
        Status::Ok | Status::OkSimultaneous | Status::Alive => Due::Takes(SideState::Dialing),
        Status::Nok | Status::NotAllowed => Due::Breaks(14),
        Status::True | Status::False => Due::Breaks(10),
    }
}

fn on_introduction(name: &str, flags: Flags, state: SideState) -> Due {
    if name != "b@h" {
        Due::Breaks(20)
    } else if !flags.has_all_of(Flags::mandatory()) {
        Due::Breaks(11)
    } else {
        Due::Takes(state)
    }
}

fn on_digest(digest: &[u8]) -> Due {
    if digest == DIGEST {
        Due::Takes(SideState::Up)
    } else {
        Due::Breaks(13)
    }
}

fn frame_due(alloc: Global, creation: u32, bytes: &[u8]) -> Result<Due, Refusal> {
    match unframe(alloc, bytes) {
        Ok(None) => Ok(Due::Asks),
        Ok(Some((item, _))) => {
            let due = on_item(creation, &item);
            drop(item);
            Ok(due)
        }
        Err(FrameError::OutOfMemory) => Err(Refusal::OutOfMemory),
        Err(why) => Ok(Due::Breaks(why.number())),
    }
}

fn on_item(creation: u32, item: &Item) -> Due {
    let is_honest = match item {
        Item::Tick => true,
        Item::Signal(signal) => names_rightly(creation, signal),
    };
    if is_honest {
        Due::Takes(SideState::Up)
    } else {
        Due::Forged
    }
}

fn names_rightly(creation: u32, signal: &Signal) -> bool {
    match signal {
        Signal::Send { to, .. } | Signal::MonitorNameExit { to, .. } => is_spawned_here(to),
        Signal::RegSend { from, .. }
        | Signal::MonitorName { from, .. }
        | Signal::DemonitorName { from, .. } => is_of_peer(creation, from),
        Signal::Link { from, to }
        | Signal::Exit { from, to, .. }
        | Signal::Exit2 { from, to, .. }
        | Signal::Monitor { from, to, .. }
        | Signal::Demonitor { from, to, .. }
        | Signal::MonitorExit { from, to, .. }
        | Signal::UnlinkId { from, to, .. }
        | Signal::UnlinkIdAck { from, to, .. } => is_of_peer(creation, from) && is_spawned_here(to),
    }
}

// b@h is known in this creation.
fn is_of_peer(creation: u32, pid: &Pid) -> bool {
    pid.node.text() == "b@h" && pid.creation <= creation
}

// a@h is in its first incarnation, and has spawned P alone.
fn is_spawned_here(pid: &Pid) -> bool {
    let is_possible = pid.creation == 0 || (pid.creation == 1 && pid.id == 1);
    pid.node.text() == "a@h" && pid.serial == 0 && pid.id > 0 && is_possible
}
