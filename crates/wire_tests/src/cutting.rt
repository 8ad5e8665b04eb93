//! Items that go over a wire in pieces.
use crate::acts::{name, trunk};
use crate::passing::parcel;
use crate::rows::{Ask, Row};
use crate::stage::{Stage, open};
use crate::stories::{A, B, CONNECTED, P, Q};
use crate::telling::{Machine, Wrong, check};
use erl_names::{NodeName, TrunkId};
use erl_term::Refusal;
use link_core::End::Active;
use std::alloc::Global;
use std::sync::Wait;
use wire_core::{LONGEST, Offer, Port, Spelling, WireIn, connect, front_length};

/// What one node sends to the other, how long its pieces may be, and how long they are.
struct Cut {
    ask: Ask,
    greatest: usize,
    lengths: &'static [usize],
}

/// Frames of 1,036 and of 1,024 bytes, and a link's, which has 46.
const CUTS: &[Cut] = &[
    Cut {
        ask: Ask::SendBinary(P, Q, 1000),
        greatest: 512,
        lengths: &[512, 512, 12],
    },
    Cut {
        ask: Ask::SendBinary(P, Q, 988),
        greatest: 512,
        lengths: &[512, 512],
    },
    Cut {
        ask: Ask::SendBinary(P, Q, 1000),
        greatest: 500,
        lengths: &[500, 500, 36],
    },
    Cut {
        ask: Ask::Link(P, Q),
        greatest: 512,
        lengths: &[46],
    },
    Cut {
        ask: Ask::Link(P, Q),
        greatest: 45,
        lengths: &[45, 1],
    },
    Cut {
        ask: Ask::Link(P, Q),
        greatest: 23,
        lengths: &[23, 23],
    },
];

/// Bytes at the front of an item, how many of them tell its length, and the length.
type Front = (&'static [u8], usize, usize);

/// Each status, other messages, a tick, and frames whose first two bytes make the lengths of messages. The
/// longest of them is longer than a frame may be.
const FRONTS: &[Front] = &[
    (b"\0\x03sok", 5, 5),
    (b"\0\x10sok_simultaneous", 5, 18),
    (b"\0\x04snok", 5, 6),
    (b"\0\x0csnot_allowed", 5, 14),
    (b"\0\x06salive", 5, 8),
    (b"\0\x05strue", 5, 7),
    (b"\0\x06sfalse", 5, 8),
    (b"\0\x11a\0\0pp", 2, 19),
    (b"\0\x15r\0\0pp", 2, 23),
    (b"\0\x12N\0\0pp", 2, 20),
    (&[0, 0, 0, 0], 4, 4),
    (&[0, 0, 0, 42, 112, 131], 4, 46),
    (&[0, 1, 255, 255, 112, 131], 4, 0x0002_0003),
    (&[0, 2, 0, 0, 112, 131], 5, 0x0002_0004),
    (&[0, 3, 0, 0, 112, 131], 5, 0x0003_0004),
    (&[0, 3, 115, 111, 112, 131], 5, 0x0003_7373),
    (&[0, 4, 0, 0, 112, 131], 5, 0x0004_0004),
    (&[0, 5, 0, 0, 112, 131], 5, 0x0005_0004),
    (&[0, 6, 0, 0, 112, 131], 5, 0x0006_0004),
    (&[0, 12, 0, 0, 112, 131], 5, 0x000C_0004),
    (&[0, 16, 0, 0, 112, 131], 5, 0x0010_0004),
    (&[0, 16, 255, 255, 112, 131], 5, 0x0011_0003),
];

/// The longest item of a handshake and a link is the link.
const LONGEST_ITEM: usize = 46;

// What is sent when two connected nodes are asked for this.
fn frame<R: Wait>(rt: &R, alloc: Global, ask: Ask) -> Result<Spelling, Refusal> {
    let mut stage = open(alloc, &[A, B])?;
    let put = sent(rt, alloc, &mut stage, ask);
    drop(stage);
    put
}

fn sent<R: Wait>(rt: &R, alloc: Global, stage: &mut Stage, ask: Ask) -> Result<Spelling, Refusal> {
    for row in CONNECTED {
        stage.holds(rt, alloc, &[], *row)?;
    }
    for row in [Row::Repeats(0, ask, 1), Row::Settles(0, 1)] {
        stage.holds(rt, alloc, &[], row)?;
    }
    stage.last_put(0)
}

// How long the piece is that comes next.
fn length<R: Wait>(rt: &R, into: &mut WireIn) -> usize {
    match into.take(rt) {
        Some(piece) => piece.as_slice().len(),
        None => 0,
    }
}

// Whether a port puts pieces of these lengths.
fn is_cut<R: Wait>(
    rt: &R,
    from: &mut Port,
    into: &mut WireIn,
    lengths: &[usize],
) -> Result<bool, Refusal> {
    for wanted in lengths {
        if !from.flush(rt)? || length(rt, into) != *wanted {
            return Ok(false);
        }
    }
    Ok(!from.flush(rt)?)
}

fn cut_on<R: Wait>(
    rt: &R,
    alloc: Global,
    trunk: &TrunkId,
    from: &mut Port,
    into: &mut WireIn,
    cut: &Cut,
) -> Result<bool, Refusal> {
    if cut.greatest == 0 || cut.greatest > LONGEST {
        return Ok(false);
    }
    from.set_piece(cut.greatest);
    let frame = frame(rt, alloc, cut.ask)?;
    from.send(parcel(trunk, 0, &frame)?)?;
    is_cut(rt, from, into, cut.lengths)
}

// Whether what is asked for goes in pieces of these lengths.
fn holds<R: Wait>(rt: &R, alloc: Global, cut: &Cut) -> Result<bool, Refusal> {
    let (dialer, acceptor) = connect(alloc, trunk(alloc)?)?;
    let peer = NodeName::read(alloc, name(1))?;
    let mut from = Port::new(alloc, peer, dialer);
    let Offer {
        mut into,
        trunk,
        ..
    } = acceptor;
    let held = cut_on(rt, alloc, &trunk, &mut from, &mut into, cut);
    drop(from);
    drop(into);
    drop(trunk);
    held
}

/// Frames go in pieces of the lengths that they should have.
pub fn cut_frames<R: Machine>(rt: &R, alloc: Global) -> Result<(), Wrong> {
    let mut number = 0u32;
    for cut in CUTS {
        number = number.saturating_add(1);
        check(number, holds(rt, alloc, cut)?)?;
    }
    Ok(())
}

// Returns true if these bytes tell the length of an item as soon as they are as many as are needed.
fn is_told(front: Front) -> bool {
    let (bytes, needed, length) = front;
    for count in 0..bytes.len() {
        let wanted = if count < needed { None } else { Some(length) };
        if front_length(&bytes[..count]) != wanted {
            return false;
        }
    }
    front_length(bytes) == Some(length)
}

/// Statuses and long frames are told apart, cut at each byte.
pub fn told_fronts() -> Result<(), Wrong> {
    let mut number = 0u32;
    for front in FRONTS {
        number = number.saturating_add(1);
        check(number, is_told(*front))?;
    }
    Ok(())
}

fn links_on<R: Wait>(
    rt: &R,
    alloc: Global,
    stage: &mut Stage,
    greatest: usize,
) -> Result<bool, Refusal> {
    let mut all = true;
    for row in [Row::SetsPiece(0, greatest), Row::SetsPiece(1, greatest)] {
        all &= stage.holds(rt, alloc, &[], row)?;
    }
    for row in CONNECTED {
        all &= stage.holds(rt, alloc, &[], *row)?;
    }
    for row in [
        Row::Repeats(0, Ask::Link(P, Q), 1),
        Row::Settles(0, 1),
        Row::Has(0, P, Q, Active),
        Row::Has(1, Q, P, Active),
    ] {
        all &= stage.holds(rt, alloc, &[], row)?;
    }
    Ok(all)
}

// Whether a handshake and a link come about in pieces of so many bytes at most.
fn links<R: Wait>(rt: &R, alloc: Global, greatest: usize) -> Result<bool, Refusal> {
    let mut stage = open(alloc, &[A, B])?;
    let held = links_on(rt, alloc, &mut stage, greatest);
    drop(stage);
    held
}

/// A handshake and a link come about, however short the pieces are.
pub fn each_length<R: Machine>(rt: &R, alloc: Global) -> Result<(), Wrong> {
    let mut number = 0u32;
    for greatest in 1..=LONGEST_ITEM {
        number = number.saturating_add(1);
        check(number, links(rt, alloc, greatest)?)?;
    }
    Ok(())
}
