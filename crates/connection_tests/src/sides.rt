//! Sides driven by hand, message by message, over the bytes that travel.
use conn_core::{
    Arrival, Fault, Side, SideState, Standing, Taken, one_arrival, two_sides_come_up,
    up_only_by_digest,
};
use erl_control::{FrameFault, Item};
use erl_handshake::{
    Admission, Cookie, Flags, Identity, Introduction, OtherConnections, Progress, ShakeFault,
    ShakeMsg, Status, put, write,
};
use erl_names::{Creation, NodeName, TrunkId};
use erl_term::{Refusal, TermError};
use std::alloc::{AllocError, Global};
use std::test::*;

pub(crate) const SECRET: &[u8] =
    b"1234567890123456789012345678901234567890123456789012345678901234567890";

const OTHER_SECRET: &[u8] = b"d";

pub(crate) const CHALLENGE: u32 = 1234567890;

/// The messages of a handshake of a@h with b@h, in its order.
pub(crate) const SEND_NAME: &[u8] = b"\0\x12N\0\0\0\x04\x03\x05\x01\x0C\0\0\0\x01\0\x03a@h";

pub(crate) const OK: &[u8] = b"\0\x03sok";

pub(crate) const CHALLENGES: &[u8] =
    b"\0\x16N\0\0\0\x04\x03\x05\x01\x0C\x49\x96\x02\xD2\0\0\0\x01\0\x03b@h";

pub(crate) const REPLIES: &[u8] =
    b"\0\x15r\x49\x96\x02\xD2\x57\xED\xF4\xA2\x2B\xE3\xC9\x55\xAC\x49\xDA\x2E\x21\x07\xB6\x7A";

pub(crate) const ACKNOWLEDGES: &[u8] =
    b"\0\x11a\x57\xED\xF4\xA2\x2B\xE3\xC9\x55\xAC\x49\xDA\x2E\x21\x07\xB6\x7A";

/// The answer that the dialer goes on.
const TRUE: &[u8] = b"\0\x05strue";

pub(crate) const TICK: &[u8] = &[0, 0, 0, 0];

/// A LINK from the first process of b@h to that of a@h.
pub(crate) const LINK: &[u8] = &[
    0, 0, 0, 0x2A, 0x70, 0x83, 0x68, 3, 0x61, 1, 0x58, 0x77, 3, 0x62, 0x40, 0x68, 0, 0, 0, 1, 0, 0,
    0, 0, 0, 0, 0, 1, 0x58, 0x77, 3, 0x61, 0x40, 0x68, 0, 0, 0, 1, 0, 0, 0, 0, 0, 0, 0, 1,
];

/// The names of a peer with more flags, as a dialer and as an acceptor.
const SEND_NAME_OFFERING: &[u8] = b"\0\x12N\x80\0\0\x04\x03\x45\x01\x0C\0\0\0\x02\0\x03a@h";

const CHALLENGES_OFFERING: &[u8] =
    b"\0\x16N\x80\0\0\x04\x03\x45\x01\x0C\x49\x96\x02\xD2\0\0\0\x02\0\x03b@h";

/// A digest with another last byte.
const OTHER_DIGEST: &[u8] =
    b"\0\x11a\x57\xED\xF4\xA2\x2B\xE3\xC9\x55\xAC\x49\xDA\x2E\x21\x07\xB6\0";

pub(crate) const ALONE: OtherConnections = OtherConnections {
    waiting: None,
    connected: false,
    dialing: false,
};

const CONNECTED: OtherConnections = OtherConnections {
    waiting: None,
    connected: true,
    dialing: false,
};

/// A later attempt of the same dialer goes on.
const LATER: OtherConnections = OtherConnections {
    waiting: Some(2),
    connected: false,
    dialing: false,
};

/// A step at a side, with its due outcome.
#[derive(Clone, Copy)]
enum Step {
    /// A message comes, and nothing is sent back.
    Takes(&'static [u8]),
    /// A message comes, and the second bytes are sent back.
    Answers(&'static [u8], &'static [u8]),
    /// A tick comes.
    Ticks,
    /// A signal comes.
    Signals(&'static [u8]),
    /// The bytes break the side, by a fault of this number.
    Breaks(&'static [u8], u8),
    /// Each beginning of the bytes asks for more.
    AsksForMore(&'static [u8]),
    /// The bytes behind the message at the front stay, so many.
    Leaves(&'static [u8], usize),
    /// Nothing is taken.
    IsDeaf,
    /// The node decides on the attempt beside these others, and this status is sent.
    Admits(OtherConnections, Status),
    /// The attempt gives way to a later one.
    GivesWay,
    /// The node decides in vain.
    RefusesToAdmit,
    /// The node lets the challenge be sent, in these bytes.
    GoesOn(&'static [u8]),
    /// The node does so in vain.
    RefusesToGoOn,
    /// The connection is lost.
    Loses,
    /// There is nothing to lose.
    RefusesToLose,
    /// The side is cleared away.
    Closes,
    /// The side's state, and the peer's creation and flags.
    Stands(SideState, Option<Introduction>),
}

use Step::*;

/// A peer in its first incarnation that offers the mandatory flags alone.
const PLAIN: Option<Introduction> = Some(Introduction {
    creation: 1,
    flags: 0x4_0305_010C,
});

/// A peer in its second incarnation that offers EXIT_PAYLOAD too, and a flag without a name here.
const OFFERING: Option<Introduction> = Some(Introduction {
    creation: 2,
    flags: 0x8000_0004_0345_010C,
});

const GONE: Step = Stands(SideState::Gone, None);

const LOSING: Step = Stands(SideState::Losing, PLAIN);

/// A side, and the steps that come first.
#[derive(Clone, Copy)]
struct Start {
    /// True for a@h, which dials; false for b@h, which a@h dials.
    dials: bool,
    secret: &'static [u8],
    steps: &'static [Step],
}

const DIALING: Start = Start {
    dials: true,
    secret: SECRET,
    steps: &[],
};

const UP: Start = Start {
    steps: &[Takes(OK), Answers(CHALLENGES, REPLIES), Takes(ACKNOWLEDGES)],
    ..DIALING
};

const FRESH: Start = Start {
    dials: false,
    secret: SECRET,
    steps: &[],
};

/// a@h was asked to go on or to give up.
const ASKED: Start = Start {
    steps: &[Takes(SEND_NAME), Admits(CONNECTED, Status::Alive)],
    ..FRESH
};

const ACCEPTING: Start = Start {
    steps: &[
        Takes(SEND_NAME),
        Admits(ALONE, Status::Ok),
        GoesOn(CHALLENGES),
    ],
    ..FRESH
};

/// The steps at a side from a start.
const SCENARIOS: &[(Start, &[Step])] = &[
    // The handshake of the dialer.
    (
        DIALING,
        &[
            Takes(OK),
            Stands(SideState::Dialing, None),
            Answers(CHALLENGES, REPLIES),
            Stands(SideState::Dialing, PLAIN),
            Takes(ACKNOWLEDGES),
            Stands(SideState::Up, PLAIN),
        ],
    ),
    // The handshake of the acceptor.
    (
        FRESH,
        &[
            Stands(SideState::Fresh, None),
            Takes(SEND_NAME),
            Admits(ALONE, Status::Ok),
            GoesOn(CHALLENGES),
            Stands(SideState::Accepting, PLAIN),
            Answers(REPLIES, ACKNOWLEDGES),
            Stands(SideState::Up, PLAIN),
            Ticks,
        ],
    ),
    // Each side keeps the flags and the creation of its peer, and not its own, until it is gone.
    (
        DIALING,
        &[
            Takes(OK),
            Answers(CHALLENGES_OFFERING, REPLIES),
            Stands(SideState::Dialing, OFFERING),
            Takes(ACKNOWLEDGES),
            Stands(SideState::Up, OFFERING),
            Loses,
            Stands(SideState::Losing, OFFERING),
            Closes,
            GONE,
        ],
    ),
    (
        FRESH,
        &[
            Takes(SEND_NAME_OFFERING),
            Admits(ALONE, Status::Ok),
            GoesOn(CHALLENGES),
            Stands(SideState::Accepting, OFFERING),
            Answers(REPLIES, ACKNOWLEDGES),
            Stands(SideState::Up, OFFERING),
        ],
    ),
    (
        FRESH,
        &[
            Takes(SEND_NAME_OFFERING),
            Admits(CONNECTED, Status::Alive),
            Stands(SideState::Asked, OFFERING),
            Takes(TRUE),
            Stands(SideState::Parked, OFFERING),
        ],
    ),
    // There is a connection already: the dialer goes on, and waits until it is cleared away.
    (
        ASKED,
        &[
            Stands(SideState::Asked, PLAIN),
            RefusesToGoOn,
            Takes(TRUE),
            Stands(SideState::Parked, PLAIN),
            GoesOn(CHALLENGES),
            Stands(SideState::Accepting, PLAIN),
        ],
    ),
    // A later attempt goes on: this one is gone.
    (FRESH, &[Takes(SEND_NAME), GivesWay, GONE, RefusesToAdmit]),
    // The digest of another cookie, and one with another last byte. The side is gone.
    (
        Start {
            secret: OTHER_SECRET,
            ..ACCEPTING
        },
        &[Breaks(REPLIES, 13), GONE],
    ),
    (
        DIALING,
        &[
            Takes(OK),
            Answers(CHALLENGES, REPLIES),
            Breaks(OTHER_DIGEST, 13),
            GONE,
        ],
    ),
    // A frame that can't be read leaves a side that was up Losing, by its own number.
    (UP, &[Breaks(&[0, 0, 0, 2, 131, 97], 6), LOSING, IsDeaf]),
    (
        UP,
        &[Breaks(&[0, 0, 0, 4, 112, 131, 97, 1], 7), LOSING, IsDeaf],
    ),
    (UP, &[Breaks(&[0, 16, 0, 1], 8), LOSING, IsDeaf]),
    (UP, &[Breaks(&[0, 0, 0, 1, 112], 9), LOSING, IsDeaf]),
    // A side that was up is lost, and cleared away.
    (
        UP,
        &[
            Loses,
            LOSING,
            RefusesToLose,
            LOSING,
            Closes,
            RefusesToLose,
            GONE,
        ],
    ),
    // An attempt is lost, if it was decided on.
    (ASKED, &[Loses, GONE]),
    (DIALING, &[Loses, GONE]),
    (FRESH, &[RefusesToLose, Stands(SideState::Fresh, None)]),
    // A signal.
    (UP, &[Signals(LINK), Stands(SideState::Up, PLAIN)]),
    // The bytes behind a message are left. A whole message of no row breaks a side, with bytes behind it too.
    (
        FRESH,
        &[Leaves(
            b"\0\x12N\0\0\0\x04\x03\x05\x01\x0C\0\0\0\x01\0\x03a@h\0\x03s",
            3,
        )],
    ),
    (UP, &[Leaves(&[0, 0, 0, 0, 0, 0], 2)]),
    (FRESH, &[Breaks(&[0, 0, 0xFF], 10), GONE]),
    (DIALING, &[Breaks(&[0, 1, 0, 0, 0, 0, 0], 10), GONE]),
    (UP, &[Breaks(&[0, 0, 0, 1, 111, 0], 6), LOSING]),
    // An item that is cut at any byte asks for more.
    (FRESH, &[AsksForMore(SEND_NAME)]),
    (DIALING, &[AsksForMore(CHALLENGES)]),
    (UP, &[AsksForMore(&[0, 0, 0, 2, 112, 131])]),
    (UP, &[AsksForMore(&[0, 1, 0, 1, 112, 131])]),
    (UP, &[AsksForMore(&[0, 16, 0, 0, 112, 131])]),
];

/// A node's name, of whose text a proof knows nothing more.
pub(crate) fn node_name(alloc: Global, text: &str) -> Result<NodeName, Refusal> {
    NodeName::read(alloc, text)
}

fn cookie(alloc: Global, secret: &[u8]) -> Result<Cookie, Refusal> {
    Ok(Cookie::new(Vec::from_slice(alloc, secret)?))
}

pub(crate) fn identity(alloc: Global, name: &str, secret: &[u8]) -> Result<Identity, Refusal> {
    let cookie = cookie(alloc, secret)?;
    match node_name(alloc, name) {
        Ok(name) => Ok(Identity {
            name,
            creation: Creation::first(),
            flags: Flags::mandatory(),
            cookie,
        }),
        Err(why) => {
            drop(cookie);
            Err(why)
        }
    }
}

/// A side, and its node.
#[derive(Drop)]
pub(crate) struct Held {
    pub(crate) own: Identity,
    pub(crate) side: Side,
}

/// Returns the side of a@h, which dials b@h.
pub(crate) fn dialing(alloc: Global, count: u64, secret: &[u8]) -> Result<Held, Refusal> {
    let dialer = node_name(alloc, "a@h")?;
    let peer = node_name(alloc, "b@h")?;
    Ok(Held {
        own: identity(alloc, "a@h", secret)?,
        side: Side::dial(TrunkId { dialer, count }, peer, CHALLENGE),
    })
}

/// Returns the side of b@h, which a@h dials.
pub(crate) fn fresh(alloc: Global, secret: &[u8]) -> Result<Held, Refusal> {
    let dialer = node_name(alloc, "a@h")?;
    Ok(Held {
        own: identity(alloc, "b@h", secret)?,
        side: Side::fresh(TrunkId { dialer, count: 1 })?,
    })
}

/// Returns the side with which a scenario begins.
fn begun(alloc: Global, start: &Start) -> Result<Held, Refusal> {
    if start.dials {
        dialing(alloc, 1, start.secret)
    } else {
        fresh(alloc, start.secret)
    }
}

/// The kind of bytes, as a side takes them.
#[derive(Clone, Copy, PartialEq, Eq)]
pub(crate) enum Kind {
    Message,
    Tick,
    Signal,
    Fault(u8),
    /// They ask for more.
    Begun,
    /// They came to a side that takes nothing.
    NotLive,
}

/// Returns the kind of an answer, and appends the bytes that are sent back.
pub(crate) fn kind_of(
    answer: &Result<Option<Arrival>, Refusal>,
    sent: &mut Vec<u8>,
) -> Result<Kind, Refusal> {
    match answer {
        Ok(Some(arrival)) => Ok(kind_of_taken(&arrival.was, sent)?),
        Ok(None) => Ok(Kind::Begun),
        Err(Refusal::NotLive) => Ok(Kind::NotLive),
        Err(why) => Err(*why),
    }
}

fn kind_of_message(answer: &ShakeMsg, sent: &mut Vec<u8>) -> Result<Kind, AllocError> {
    put(sent, answer)?;
    Ok(Kind::Message)
}

/// Returns the kind of taken bytes, and appends the bytes that are sent back.
fn kind_of_taken(taken: &Taken, sent: &mut Vec<u8>) -> Result<Kind, AllocError> {
    match taken {
        Taken::Message { send: None, .. } => Ok(Kind::Message),
        Taken::Message {
            send: Some(message),
            ..
        } => kind_of_message(message, sent),
        Taken::Item(Item::Tick) => Ok(Kind::Tick),
        Taken::Item(Item::Signal(_)) => Ok(Kind::Signal),
        Taken::Broken(fault) => Ok(Kind::Fault(fault.number())),
    }
}

/// Returns the standing of the side after the answer, and the number of bytes that it took.
pub(crate) fn after(held: &Held, answer: &Result<Option<Arrival>, Refusal>) -> (Standing, usize) {
    match answer {
        Ok(Some(arrival)) => (arrival.standing, arrival.len),
        _ => (held.side.standing, 0),
    }
}

/// Returns the kind of these bytes at a side, and the number that it takes.
fn kind_at(
    alloc: Global,
    held: &mut Held,
    bytes: &[u8],
    sent: &mut Vec<u8>,
) -> Result<(Kind, usize), Refusal> {
    let answer = held.side.judge(alloc, &held.own, bytes, CHALLENGE);
    let kind = kind_of(&answer, sent);
    let (standing, len) = after(held, &answer);
    drop(answer);
    held.side.standing = standing;
    Ok((kind?, len))
}

/// Returns true if so many bytes were taken of these: all that could be read, and else none.
fn is_taken(kind: Kind, bytes: &[u8], len: usize) -> bool {
    match kind {
        Kind::Message | Kind::Tick | Kind::Signal => len == bytes.len(),
        Kind::Fault(_) => len == bytes.len() || len == 0,
        Kind::Begun | Kind::NotLive => len == 0,
    }
}

/// Returns true if the first bytes are of this kind at a side, and the second are sent back.
fn arrives(
    alloc: Global,
    held: &mut Held,
    bytes: &[u8],
    kind: Kind,
    answer: &[u8],
) -> Result<bool, Refusal> {
    let mut sent = Vec::new(alloc);
    let (found, len) = kind_at(alloc, held, bytes, &mut sent)?;
    Ok(found == kind && is_taken(kind, bytes, len) && sent.as_slice() == answer)
}

/// Returns true if the item at the front leaves so many bytes.
fn leaves(alloc: Global, held: &mut Held, bytes: &[u8], rest: usize) -> Result<bool, Refusal> {
    let mut sent = Vec::new(alloc);
    let (_, len) = kind_at(alloc, held, bytes, &mut sent)?;
    Ok(bytes.len().checked_sub(len) == Some(rest))
}

fn asks_for_more(alloc: Global, held: &mut Held, bytes: &[u8]) -> Result<bool, Refusal> {
    for end in 0..bytes.len() {
        if !arrives(alloc, held, &bytes[..end], Kind::Begun, &[])? {
            return Ok(false);
        }
    }
    Ok(true)
}

/// Returns the decision of the node on the attempt. The side stands so then.
pub(crate) fn decided(held: &mut Held, others: OtherConnections) -> Option<Admission> {
    let (standing, admission) = held.side.admit(&held.own.name, others)?;
    held.side.standing = standing;
    Some(admission)
}

fn admits(held: &mut Held, others: OtherConnections, status: Status) -> bool {
    match decided(held, others) {
        Some(admission) => admission.status == status,
        None => false,
    }
}

fn gives_way(held: &mut Held) -> bool {
    match decided(held, LATER) {
        Some(admission) => admission.progress == Progress::Ended(ShakeFault::Superseded),
        None => false,
    }
}

/// Returns the bytes of a message.
fn bytes_of(alloc: Global, message: ShakeMsg) -> Result<Vec<u8>, AllocError> {
    let bytes = write(alloc, &message);
    drop(message);
    bytes
}

/// Returns the bytes of the challenge, none if the side doesn't await it. The side stands so then.
pub(crate) fn challenge(alloc: Global, held: &mut Held) -> Result<Vec<u8>, Refusal> {
    let Some((standing, message)) = held.side.send_challenge(&held.own)? else {
        return Ok(Vec::new(alloc));
    };
    held.side.standing = standing;
    Ok(bytes_of(alloc, message)?)
}

fn goes_on(alloc: Global, held: &mut Held, bytes: &[u8]) -> Result<bool, Refusal> {
    Ok(challenge(alloc, held)?.as_slice() == bytes)
}

/// Returns true if there is a connection to lose, which is lost then.
fn loses(held: &mut Held) -> bool {
    let is_live = held.side.standing.state().is_live();
    if is_live {
        held.side.standing = held.side.standing.lost();
    }
    is_live
}

fn closes(held: &mut Held) -> bool {
    held.side.standing = Standing::Gone;
    true
}

fn stands(held: &Held, state: SideState, introduction: Option<Introduction>) -> bool {
    let standing = held.side.standing;
    standing.state() == state && standing.introduction() == introduction
}

/// Returns true if the step has its due outcome.
fn goes(alloc: Global, held: &mut Held, step: Step) -> Result<bool, Refusal> {
    match step {
        Takes(bytes) => arrives(alloc, held, bytes, Kind::Message, &[]),
        Answers(bytes, answer) => arrives(alloc, held, bytes, Kind::Message, answer),
        Ticks => arrives(alloc, held, TICK, Kind::Tick, &[]),
        Signals(bytes) => arrives(alloc, held, bytes, Kind::Signal, &[]),
        Breaks(bytes, number) => arrives(alloc, held, bytes, Kind::Fault(number), &[]),
        IsDeaf => arrives(alloc, held, TICK, Kind::NotLive, &[]),
        AsksForMore(bytes) => asks_for_more(alloc, held, bytes),
        Leaves(bytes, rest) => leaves(alloc, held, bytes, rest),
        Admits(others, status) => Ok(admits(held, others, status)),
        GivesWay => Ok(gives_way(held)),
        RefusesToAdmit => Ok(decided(held, LATER).is_none()),
        GoesOn(bytes) => goes_on(alloc, held, bytes),
        RefusesToGoOn => goes_on(alloc, held, &[]),
        Loses => Ok(loses(held)),
        RefusesToLose => Ok(!loses(held)),
        Closes => Ok(closes(held)),
        Stands(state, introduction) => Ok(stands(held, state, introduction)),
    }
}

/// Returns the first step with another outcome.
fn first_wrong(alloc: Global, held: &mut Held, steps: &[Step]) -> Result<Option<usize>, Refusal> {
    for (number, step) in steps.iter().enumerate() {
        if !goes(alloc, held, *step)? {
            return Ok(Some(number));
        }
    }
    Ok(None)
}

/// Returns the first step with another outcome behind those of a start, which all have theirs.
fn first_wrong_behind(
    alloc: Global,
    held: &mut Held,
    start: &Start,
    steps: &[Step],
) -> Result<Option<usize>, Refusal> {
    if first_wrong(alloc, held, start.steps)?.is_some() {
        return Err(Refusal::NothingThere);
    }
    first_wrong(alloc, held, steps)
}

/// Returns the first step of a scenario with another outcome.
fn wrong_step(alloc: Global, start: &Start, steps: &[Step]) -> Result<Option<usize>, Refusal> {
    let mut held = begun(alloc, start)?;
    let wrong = first_wrong_behind(alloc, &mut held, start, steps);
    drop(held);
    wrong
}

#[test]
fn scenarios(rt: HostRuntime) -> Result<(), Fail> {
    for (number, (start, steps)) in SCENARIOS.iter().enumerate() {
        let wrong = wrong_step(rt.alloc(), start, steps)?;
        assert_eq!(rt; wrong, None, "scenario {number}");
    }
    Ok(())
}

fn is_between(side: &Side, dialer: &str, count: u64, peer: &str) -> bool {
    let trunk = &side.trunk;
    trunk.dialer.text() == dialer && trunk.count == count && side.peer.text() == peer
}

/// Returns true if this is the side of a@h that has just dialed b@h.
fn dials(alloc: Global) -> Result<bool, Refusal> {
    let held = dialing(alloc, 7, SECRET)?;
    let is_so = stands(&held, SideState::Dialing, None) && is_between(&held.side, "a@h", 7, "b@h");
    drop(held);
    Ok(is_so)
}

fn is_dialed_by_a(alloc: Global) -> Result<bool, Refusal> {
    let held = fresh(alloc, SECRET)?;
    let is_so = is_between(&held.side, "a@h", 1, "a@h");
    drop(held);
    Ok(is_so)
}

/// The connection that either side is of.
#[test]
fn connections(rt: HostRuntime) -> Result<(), Fail> {
    assert!(rt; dials(rt.alloc())?);
    assert!(rt; is_dialed_by_a(rt.alloc())?);
    Ok(())
}

/// Takes the bytes that a side sends at the other side, and returns the bytes that it sends back.
fn passed(alloc: Global, bytes: &[u8], held: &mut Held) -> Result<Vec<u8>, Refusal> {
    let mut sent = Vec::new(alloc);
    if kind_at(alloc, held, bytes, &mut sent)?.0 != Kind::Message {
        return Err(Refusal::BadMessage);
    }
    Ok(sent)
}

fn send_name(own: &Identity) -> Result<ShakeMsg, AllocError> {
    own.send_name()
}

/// Returns the bytes of a dialer's first message.
fn name(alloc: Global, held: &Held) -> Result<Vec<u8>, AllocError> {
    bytes_of(alloc, send_name(&held.own)?)
}

/// Returns the bytes of the status that is sent, if the node decides on the attempt.
fn status(alloc: Global, held: &mut Held) -> Result<Vec<u8>, Refusal> {
    match decided(held, ALONE) {
        Some(admission) => Ok(bytes_of(alloc, ShakeMsg::Status(admission.status))?),
        None => Err(Refusal::NothingThere),
    }
}

/// Lets the sides shake hands to the end. Each takes the bytes that the other sends.
fn shake_hands(alloc: Global, a: &mut Held, b: &mut Held) -> Result<bool, Refusal> {
    passed(alloc, &name(alloc, a)?, b)?;
    passed(alloc, &status(alloc, b)?, a)?;
    let reply = passed(alloc, &challenge(alloc, b)?, a)?;
    let acknowledgement = passed(alloc, &reply, b)?;
    Ok(passed(alloc, &acknowledgement, a)?.is_empty())
}

/// Returns true if the side is up, and takes frames.
fn is_up(alloc: Global, held: &mut Held) -> Result<bool, Refusal> {
    Ok(stands(held, SideState::Up, PLAIN) && goes(alloc, held, Ticks)?)
}

/// Returns true if the sides shake hands, and both come up.
fn come_up(alloc: Global, a: &mut Held, b: &mut Held) -> Result<bool, Refusal> {
    Ok(shake_hands(alloc, a, b)? && is_up(alloc, a)? && is_up(alloc, b)?)
}

/// Returns true if the side of a@h comes up with one of b@h.
fn meets(alloc: Global, a: &mut Held) -> Result<bool, Refusal> {
    let mut b = fresh(alloc, SECRET)?;
    let is_so = come_up(alloc, a, &mut b);
    drop(b);
    is_so
}

#[test]
fn two_sides(rt: HostRuntime) -> Result<(), Fail> {
    let mut a = dialing(rt.alloc(), 1, SECRET)?;
    let is_so = meets(rt.alloc(), &mut a);
    drop(a);
    assert!(rt; is_so?);
    Ok(())
}

/// The steps at a side while allocations are refused.
const ALLOCATING: &[(Start, &[Step])] = &[
    (ACCEPTING, &[Answers(REPLIES, ACKNOWLEDGES)]),
    (UP, &[]),
];

/// Run by the script fail-allocations too, with each allocation refused in turn.
#[test]
fn sides_allocations(rt: HostRuntime) -> Result<(), Fail> {
    for (start, steps) in ALLOCATING {
        assert_eq!(rt; wrong_step(rt.alloc(), start, steps)?, None);
    }
    Ok(())
}

/// The number of a fault of a frame, and the laws of sides.
#[test]
fn laws(rt: HostRuntime) {
    assert_eq!(rt; Fault::Frame(FrameFault::Term(TermError::Cut)).number(), 9);
    one_arrival();
    two_sides_come_up();
    up_only_by_digest();
}
