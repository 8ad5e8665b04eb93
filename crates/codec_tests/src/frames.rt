//! Signals that can't be written, and the texts of faults. The frames that are read, and those that are written, are
//! vectors.

use crate::bytes::joined;
use erl_control::{
    FrameError, Signal, canonical_is_framed, fits, frame, one_answer, one_frame, read_again,
};
use erl_term::{Atom, Payload, Pid, Term, TermError, decode, pid_at};
use std::alloc::{AllocError, Global};
use std::test::*;

/// The term that a signal carries.
#[derive(Clone, Copy, Debug)]
enum Carried {
    Spelled(&'static str),
    /// A list in the tail of another, which is no value of the profile.
    ListInTail,
}

/// Terms, each with true if a signal can carry it: at most 60 levels and 1,000,000 bytes.
const CARRIED: &[(Carried, bool)] = &[
    (Carried::Spelled("83 59*6801 6800"), true),
    (Carried::Spelled("83 60*6801 6800"), false),
    (Carried::Spelled("83 63*6801 6800"), false),
    // A binary, with its head of 6 bytes.
    (
        Carried::Spelled("83 6D000F423A 99999*07070707070707070707 4*07"),
        true,
    ),
    (
        Carried::Spelled("83 6D000F423B 99999*07070707070707070707 5*07"),
        false,
    ),
    // Four lists of 50,100 integers of a byte, written as LISTs in 1,002,027 bytes, are STRINGs in 200,415.
    (Carried::Spelled("83 6804 BYTES BYTES BYTES BYTES"), true),
    // 300 before a STRING of 62,600 bytes makes a LIST. Eight of them, which came in 500,907 bytes, take 1,001,691.
    (
        Carried::Spelled("83 6808 MIXED MIXED MIXED MIXED MIXED MIXED MIXED MIXED"),
        false,
    ),
    // Lists with no elements are levels of the spelling, and none of the term.
    (Carried::Spelled("83 63*6C00000000 6A"), true),
    (Carried::ListInTail, false),
];

/// A signal that is sent.
#[derive(Clone, Copy)]
enum Sent {
    Send(Carried),
    RegSend(Carried),
    Exit2(Carried),
    /// With this id.
    UnlinkIdAck(u64),
}

fn pid(alloc: Global, spelling: &str) -> Result<Pid, Fail> {
    let bytes = joined(alloc, &[spelling])?;
    let pid = pid_in(alloc, &bytes);
    drop(bytes);
    Ok(pid?.ok_or("no pid")?)
}

fn pid_in(alloc: Global, bytes: &[u8]) -> Result<Option<Pid>, AllocError> {
    match pid_at(1, bytes) {
        Some((pid, _)) => Ok(Some(pid.to_pid(alloc)?)),
        None => Ok(None),
    }
}

fn pids(alloc: Global) -> Result<(Pid, Pid), Fail> {
    let from = pid(alloc, "A")?;
    Ok((from, pid(alloc, "B")?))
}

fn term(alloc: Global, spelling: &str) -> Result<Term, Fail> {
    let bytes = joined(alloc, &[spelling])?;
    let term = term_in(alloc, &bytes);
    drop(bytes);
    Ok(term?)
}

fn term_in(alloc: Global, bytes: &[u8]) -> Result<Term, TermError> {
    let (term, _) = decode(alloc, bytes)?;
    Ok(term)
}

fn list_in_tail(alloc: Global) -> Result<Term, Fail> {
    let tail = Box::new(alloc, Term::list(Vec::new(alloc)))?;
    let items = vec![in alloc; Term::Int(1)]?;
    Ok(Term::List {
        items,
        tail: Some(tail),
    })
}

fn term_of(alloc: Global, carried: Carried) -> Result<Term, Fail> {
    match carried {
        Carried::Spelled(spelling) => term(alloc, spelling),
        Carried::ListInTail => list_in_tail(alloc),
    }
}

fn send_of(alloc: Global, message: Term) -> Result<Signal, Fail> {
    let to = pid(alloc, "B")?;
    let message = Payload::new(message);
    Ok(Signal::Send { to, message })
}

fn name(alloc: Global) -> Result<Atom, Fail> {
    match term(alloc, "83 SRV")? {
        Term::Atom(name) => Ok(name),
        _ => Err("no atom".into()),
    }
}

fn reg_send_of(alloc: Global, message: Term) -> Result<Signal, Fail> {
    let from = pid(alloc, "A")?;
    let name = name(alloc)?;
    let message = Payload::new(message);
    Ok(Signal::RegSend {
        from,
        name,
        message,
    })
}

fn exit2_of(alloc: Global, reason: Term) -> Result<Signal, Fail> {
    let (from, to) = pids(alloc)?;
    let reason = Payload::new(reason);
    Ok(Signal::Exit2 { from, to, reason })
}

fn unlink_id_ack_of(alloc: Global, id: u64) -> Result<Signal, Fail> {
    let (from, to) = pids(alloc)?;
    Ok(Signal::UnlinkIdAck { id, from, to })
}

fn signal_of(alloc: Global, sent: Sent) -> Result<Signal, Fail> {
    match sent {
        Sent::Send(message) => send_of(alloc, term_of(alloc, message)?),
        Sent::RegSend(message) => reg_send_of(alloc, term_of(alloc, message)?),
        Sent::Exit2(reason) => exit2_of(alloc, term_of(alloc, reason)?),
        Sent::UnlinkIdAck(id) => unlink_id_ack_of(alloc, id),
    }
}

/// Returns the error of a signal that can't be sent, else [`None`].
fn refusal_of(alloc: Global, sent: Sent) -> Result<Option<FrameError>, Fail> {
    let signal = signal_of(alloc, sent)?;
    let refused = frame(alloc, &signal, false).err();
    let with_payload = frame(alloc, &signal, true).err();
    drop(signal);
    if refused == with_payload {
        Ok(refused)
    } else {
        Err("the spellings are refused otherwise".into())
    }
}

fn is_fit(alloc: Global, carried: Carried) -> Result<bool, Fail> {
    let term = term_of(alloc, carried)?;
    Ok(fits(&term))
}

/// Returns true if the term can be carried, by each call that tells. Returns [`None`] if they differ.
fn can_be_carried(alloc: Global, carried: Carried) -> Result<Option<bool>, Fail> {
    let is_fit = is_fit(alloc, carried)?;
    let wanted = if is_fit {
        None
    } else {
        Some(FrameError::TooLong)
    };
    if refusal_of(alloc, Sent::Send(carried))? == wanted
        && refusal_of(alloc, Sent::RegSend(carried))? == wanted
        && refusal_of(alloc, Sent::Exit2(carried))? == wanted
    {
        Ok(Some(is_fit))
    } else {
        Ok(None)
    }
}

#[test]
fn what_is_carried_has_a_size(rt: HostRuntime) -> Result<(), Fail> {
    for &(carried, wanted) in CARRIED {
        assert_eq!(rt;
            can_be_carried(rt.alloc(), carried)?,
            Some(wanted),
            "{carried:?}"
        );
    }
    let zero = refusal_of(rt.alloc(), Sent::UnlinkIdAck(0))?;
    assert_eq!(rt; zero, Some(FrameError::BadControl));
    Ok(())
}

const ERRORS: &[(FrameError, u8, &str)] = &[
    (FrameError::NotPassThrough, 6, "6 NotPassThrough"),
    (FrameError::BadControl, 7, "7 BadControl"),
    (FrameError::TooLong, 8, "8 TooLong"),
    (FrameError::Term(TermError::Cut), 9, "9 Term"),
    (FrameError::OutOfMemory, 12, "12 OutOfMemory"),
];

fn is_error(alloc: Global, error: FrameError, number: u8, text: &str) -> Result<bool, AllocError> {
    let printed = format!(in alloc; "{error}")?;
    Ok((printed.as_str(), error.number()) == (text, number))
}

/// Returns true if the error is a fault of that number and text. Out of memory is none.
fn is_fault(alloc: Global, error: FrameError, number: u8, text: &str) -> Result<bool, AllocError> {
    let Some(fault) = error.fault() else {
        return Ok(error == FrameError::OutOfMemory);
    };
    let printed = format!(in alloc; "{fault}")?;
    Ok((printed.as_str(), fault.number()) == (text, number))
}

#[test]
fn errors_have_numbers_and_texts(rt: HostRuntime) -> Result<(), Fail> {
    for &(error, number, text) in ERRORS {
        assert!(rt; is_error(rt.alloc(), error, number, text)?, "{text}");
        assert!(rt; is_fault(rt.alloc(), error, number, text)?, "{text}");
    }
    Ok(())
}

#[test]
fn laws() {
    one_answer();
    one_frame();
    read_again();
    canonical_is_framed();
}
