//! The decision between attempts, line by line of its table, and states in which no message is due. The messages of
//! both roles are vectors.
use crate::sides::{SECRET, identity, node_name};
use erl_handshake::{
    AcceptorState, Admission, Cookie, DialerState, Identity, Introduction, OtherConnections,
    Progress, ShakeFault, ShakeMsg, Status, done_only_by_digest, handshake_comes_about,
    later_attempt_goes_on, one_of_two_dials, right_peers_pass,
};
use erl_names::TrunkId;
use erl_term::Refusal;
use std::alloc::Global;
use std::test::*;

/// The peer, as it tells of itself.
const KNOWN: Introduction = Introduction {
    creation: 7,
    flags: 0x4_0305_010C,
};

/// An acceptor that has heard the dialer's name.
const GREETED: AcceptorState = AcceptorState::AwaitsAdmission {
    challenge: 1,
    introduction: KNOWN,
};

const CONNECTED: DialerState = DialerState::Done {
    introduction: KNOWN,
};

/// The status that a dialer is told, and the progress of the attempt.
type Said = (Status, Progress);

const TOLD: Said = (Status::Ok, Progress::Go);

const TOLD_OF_BOTH: Said = (Status::OkSimultaneous, Progress::Go);

const QUESTIONED: Said = (Status::Alive, Progress::Go);

const REFUSED: Said = (Status::Nok, Progress::Ended(ShakeFault::Nok));

const TOO_LATE: Said = (Status::Nok, Progress::Ended(ShakeFault::Superseded));

/// The second attempt of a@h. The acceptor's name, which is greater than a@h or isn't; the count of
/// a waiting attempt; true for a connection, and true for a dial of the acceptor; the status and the progress;
/// and true if the waiting attempt ends, and if the acceptor's own does.
type Line = (&'static str, Option<u64>, bool, bool, Said, bool, bool);

const DECISIONS: &[Line] = &[
    // Nothing else.
    ("z@h", None, false, false, TOLD, false, false),
    // A later or the same attempt goes on here; an older one gives way.
    ("z@h", Some(3), false, false, TOO_LATE, false, false),
    ("z@h", Some(2), true, true, TOO_LATE, false, false),
    ("z@h", Some(1), false, false, TOLD, true, false),
    // A connection stands, with and without another attempt.
    ("z@h", None, true, false, QUESTIONED, false, false),
    ("A@h", None, true, true, QUESTIONED, false, false),
    ("z@h", Some(1), true, true, QUESTIONED, true, false),
    // Both dial.
    ("A@h", None, false, true, TOLD_OF_BOTH, false, true),
    ("z@h", None, false, true, REFUSED, false, false),
    ("z@h", Some(1), false, true, REFUSED, true, false),
];

/// Returns the decision on the second attempt of a@h at this node.
fn decision_at(alloc: Global, own: &str, others: OtherConnections) -> Result<Admission, Refusal> {
    let own = node_name(alloc, own)?;
    let dialer = node_name(alloc, "a@h")?;
    let trunk = TrunkId { dialer, count: 2 };
    match GREETED.admit(&own, &trunk, others) {
        Some((_, admission)) => Ok(admission),
        None => Err(Refusal::NothingThere),
    }
}

/// Returns true if the attempt is decided on so.
fn is_decided(alloc: Global, line: Line) -> Result<bool, Refusal> {
    let (own, waiting, connected, dialing, (status, progress), ends_waiting, ends_dialing) = line;
    let others = OtherConnections {
        waiting,
        connected,
        dialing,
    };
    let wanted = Admission {
        status,
        progress,
        ends_waiting,
        ends_dialing,
    };
    Ok(decision_at(alloc, own, others)? == wanted)
}

#[test]
fn decisions(rt: HostRuntime) -> Result<(), Fail> {
    for (number, line) in DECISIONS.iter().enumerate() {
        assert!(rt; is_decided(rt.alloc(), *line)?, "row {number}");
    }
    Ok(())
}

const UNDUE: Progress = Progress::Ended(ShakeFault::BadMessage);

/// Returns true if a name ends an attempt that waits for the decision.
fn name_is_undue(alloc: Global, own: &Identity) -> Result<bool, Refusal> {
    let dialer = node_name(alloc, "a@h")?;
    let message = own.send_name()?;
    let turn = GREETED.step(own, &dialer, &message, 0);
    Ok(turn.state == AcceptorState::Over && turn.next.progress == UNDUE)
}

/// Returns true if an acknowledgement ends a dialer that is done.
fn ack_is_undue(alloc: Global, own: &Identity) -> Result<bool, Refusal> {
    let peer = node_name(alloc, "b@h")?;
    let message = ShakeMsg::ChallengeAck { digest: [0; 16] };
    let turn = CONNECTED.step(own, &peer, &message);
    Ok(turn.state == DialerState::Over && turn.next.progress == UNDUE)
}

#[test]
fn undue_messages(rt: HostRuntime) -> Result<(), Fail> {
    let own = identity(rt.alloc(), "b@h", SECRET)?;
    let name_is_undue = name_is_undue(rt.alloc(), &own);
    let ack_is_undue = ack_is_undue(rt.alloc(), &own);
    drop(own);
    assert!(rt; name_is_undue? && ack_is_undue?);
    Ok(())
}

/// A cookie of which there are two.
#[test]
fn cookies(rt: HostRuntime) -> Result<(), Fail> {
    let cookie = Cookie::new(Vec::from_slice(rt.alloc(), b"secret")?);
    assert!(rt; cookie.clone()?.as_slice() == b"secret".as_slice());
    Ok(())
}

/// The laws of the two roles.
#[test]
fn laws() {
    done_only_by_digest();
    handshake_comes_about();
    later_attempt_goes_on();
    one_of_two_dials();
    right_peers_pass();
}
