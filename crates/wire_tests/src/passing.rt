//! Pieces on a wire, and parcels between two ports.
ghost use Rattle.std.specs.Prelude.{◌≡◌, [], IfSome};
ghost use Rattle.wire_core.specs.Spellings.{SpellsItem};
ghost use Rattle.wire_tests.specs.Whole.{AreItems};

use crate::acts::{name, trunk};
use crate::telling::{Machine, Wrong, check};
use erl_names::{NodeName, TrunkId};
use erl_term::Refusal;
use std::alloc::{AllocError, Global};
use std::sync::Wait;
use std::thread::{join, yield_now};
use wire_core::{
    CAPACITY, Direction, LONGEST, Offer, Parcel, Piece, Port, Spelling, WireIn, WireOut, audit,
    connect, wire,
};

/// So many pieces pass from thread to thread.
const COUNT: u64 = 10_000;

/// What ticks carry.
pub fn tick(alloc: Global) -> Result<Spelling, AllocError> {
    Ok(Spelling::new(vec![in alloc; 0; 4]?))
}

/// A parcel that carries this, at this place in its direction.
pub fn parcel(trunk: &TrunkId, seq: u64, bytes: &Spelling) -> Result<Parcel, AllocError> {
    Ok(Parcel {
        trunk: trunk.clone()?,
        towards: Direction::ToAcceptor,
        seq,
        stamp: seq.wrapping_add(1),
        bytes: bytes.clone()?,
    })
}

/// So many parcels in order that carry this.
pub fn parcels(alloc: Global, bytes: &Spelling, count: u64) -> Result<Vec<Parcel>, Refusal> {
    let trunk = trunk(alloc)?;
    let mut all = Vec::new(alloc);
    for seq in 0..count {
        all.push(parcel(&trunk, seq, bytes)?)?;
    }
    Ok(all)
}

// The one piece of a parcel that isn't too long for it.
fn piece(parcel: Parcel) -> Option<Piece>
    ensures { IfSome result (λ piece. SpellsItem piece.bytes) }
{
    let Parcel { stamp, bytes, .. } = parcel;
    let bytes = bytes.into_bytes();
    if bytes.len() == 0 || bytes.len() > LONGEST {
        return None;
    }
    Some(Piece::new(stamp, bytes))
}

// Tries until there is room.
fn put<R: Wait>(rt: &R, out: &mut WireOut, piece: Piece)
    requires before { AreItems out.old.pieces }
    requires item { SpellsItem piece.bytes }
    ensures wire { out.new.wire ≡ out.old.wire }
    ensures after { AreItems out.new.pieces }
{
    let mut waiting = piece;
    for _ in rt.forever() {
        match out.put(rt, waiting) {
            Ok(()) => return,
            Err(back) => waiting = back,
        }
        yield_now();
    }
    unreachable!()
}

fn put_all<R: Wait>(rt: &R, mut out: WireOut, parcels: Vec<Parcel>) -> WireOut
    requires { out.pieces ≡ [] }
    ensures { result.wire ≡ out.wire }
{
    for parcel in parcels {
        if let Some(piece) = piece(parcel) {
            put(rt, &mut out, piece);
        }
    }
    out
}

// Tries until there is one.
fn take<R: Wait>(rt: &R, into: &mut WireIn) -> Piece
    ensures { into.new.wire ≡ into.old.wire }
{
    for _ in rt.forever() {
        if let Some(piece) = into.take(rt) {
            return piece;
        }
        yield_now();
    }
    unreachable!()
}

// Whether so many pieces come in their order, with these bytes each.
fn take_all<R: Wait>(rt: &R, mut into: WireIn, count: u64, bytes: &[u8]) -> (WireIn, bool)
    ensures { result.0.wire ≡ into.wire }
{
    let mut in_order = true;
    for seq in 0..count {
        let piece = take(rt, &mut into);
        in_order &= piece.stamp() == seq.wrapping_add(1) && piece.as_slice() == bytes;
    }
    (into, in_order)
}

/// What comes of it where pieces pass.
#[derive(Clone, Copy)]
pub struct Passed {
    /// Whether they come in their order, and with their bytes.
    pub in_order: bool,
    /// How many the wire still holds.
    pub left: u64,
}

/// Parcels that have these bytes each pass over a wire from one thread to another, each as one piece.
pub fn pass<R: Machine>(
    rt: &R,
    alloc: Global,
    parcels: Vec<Parcel>,
    bytes: &[u8],
) -> Result<Passed, AllocError> {
    let (out, into) = wire(alloc)?;
    let count = parcels.len() as u64;
    let (out, (into, in_order)) = join(
        rt,
        move ||
            requires { out.pieces ≡ [] }
            ensures { result.wire ≡ out.wire }
        { put_all(rt, out, parcels) },
        move ||
            ensures { result.0.wire ≡ into.wire }
        { take_all(rt, into, count, bytes) },
    );
    Ok(Passed {
        in_order,
        left: audit(rt, out, into),
    })
}

/// Pieces pass from thread to thread in their order, and none is left.
pub fn two_threads<R: Machine>(rt: &R, alloc: Global) -> Result<(), Wrong> {
    let bytes = tick(alloc)?;
    let parcels = parcels(alloc, &bytes, COUNT)?;
    let passed = pass(rt, alloc, parcels, bytes.as_slice())?;
    check(1, passed.in_order)?;
    check(2, passed.left == 0)
}

// Puts the piece of a parcel. The stamp of one that came back.
fn try_put<R: Wait>(rt: &R, out: &mut WireOut, parcel: Parcel) -> Option<u64>
    requires { AreItems out.old.pieces }
    ensures { AreItems out.new.pieces }
{
    match piece(parcel) {
        Some(piece) => match out.put(rt, piece) {
            Ok(()) => None,
            Err(back) => Some(back.stamp()),
        },
        None => Some(0),
    }
}

// The stamp of the piece that was taken.
fn stamp(taken: Option<Piece>) -> Option<u64> {
    match taken {
        Some(piece) => Some(piece.stamp()),
        None => None,
    }
}

// Whether so many pieces are put that the wire is full.
fn fills<R: Wait>(
    rt: &R,
    out: &mut WireOut,
    trunk: &TrunkId,
    bytes: &Spelling,
) -> Result<bool, AllocError>
    requires { AreItems out.old.pieces }
    ensures { AreItems out.new.pieces }
{
    for seq in 0..CAPACITY as u64 {
        if try_put(rt, out, parcel(trunk, seq, bytes)?).is_some() {
            return Ok(false);
        }
    }
    Ok(true)
}

fn overfill<R: Wait>(
    rt: &R,
    out: &mut WireOut,
    into: &mut WireIn,
    trunk: &TrunkId,
    bytes: &Spelling,
) -> Result<(), Wrong>
    requires { AreItems out.old.pieces }
{
    check(1, fills(rt, out, trunk, bytes)?)?;
    let more = parcel(trunk, 64, bytes)?;
    check(2, try_put(rt, out, more) == Some(65))?;
    check(3, stamp(into.take(rt)) == Some(1))?;
    let more = parcel(trunk, 64, bytes)?;
    check(4, try_put(rt, out, more).is_none())
}

/// A full wire gives a piece back, and takes it when another was taken.
pub fn full_wire<R: Machine>(rt: &R, alloc: Global) -> Result<(), Wrong> {
    let bytes = tick(alloc)?;
    let (dialer, acceptor) = connect(alloc, trunk(alloc)?)?;
    let Offer { mut out, .. } = dialer;
    let Offer {
        mut into,
        trunk,
        ..
    } = acceptor;
    let filled = overfill(rt, &mut out, &mut into, &trunk, &bytes);
    drop(out);
    drop(into);
    drop(trunk);
    filled
}

/// What two ports are called for, and what they answer.
#[derive(Clone, Copy)]
enum Step {
    /// The one is to send a parcel of this number in its direction, from 1.
    Send(u64),
    /// Whether it puts one.
    Flush(bool),
    /// So many it has put.
    HasPut(usize),
    /// Whether the other takes one.
    Fetch(bool),
    /// The number of the one that comes next there.
    Next(Option<u64>),
    /// That one has come.
    DropFirst,
    /// So many it has taken.
    HasTaken(usize),
}

/// Two parcels, each of which comes when the one before has.
const STEPS: &[Step] = &[
    Step::Flush(false),
    Step::Send(1),
    Step::Send(2),
    Step::Flush(true),
    Step::Flush(true),
    Step::Flush(false),
    Step::HasPut(2),
    Step::Fetch(true),
    Step::Fetch(false),
    Step::Next(Some(1)),
    Step::DropFirst,
    Step::Fetch(true),
    Step::Next(Some(2)),
    Step::DropFirst,
    Step::Fetch(false),
    Step::Next(None),
    Step::HasTaken(2),
];

// Returns the number in its direction of the parcel that comes next.
fn next(port: &Port) -> Option<u64> {
    match port.first() {
        Some(parcel) => Some(parcel.seq),
        None => None,
    }
}

fn holds<R: Wait>(
    rt: &R,
    trunk: &TrunkId,
    bytes: &Spelling,
    from: &mut Port,
    to: &mut Port,
    step: Step,
) -> Result<bool, AllocError> {
    match step {
        Step::Send(seq) => {
            from.send(parcel(trunk, seq, bytes)?)?;
            Ok(true)
        }
        Step::Flush(does) => Ok(from.flush(rt)? == does),
        Step::HasPut(count) => Ok(from.put().len() == count),
        Step::Fetch(does) => Ok(to.fetch(rt)? == does),
        Step::Next(seq) => Ok(next(to) == seq),
        Step::DropFirst => {
            to.drop_first();
            Ok(true)
        }
        Step::HasTaken(count) => Ok(to.taken().len() == count),
    }
}

fn step_all<R: Wait>(
    rt: &R,
    alloc: Global,
    trunk: &TrunkId,
    from: &mut Port,
    to: &mut Port,
) -> Result<(), Wrong> {
    let bytes = tick(alloc)?;
    let mut number = 0u32;
    for step in STEPS {
        number = number.saturating_add(1);
        if !holds(rt, trunk, &bytes, from, to, *step)? {
            return Err(Wrong::Row(number));
        }
    }
    Ok(())
}

fn pass_two<R: Wait>(
    rt: &R,
    alloc: Global,
    trunk: &TrunkId,
    dialer: Offer,
    acceptor: Offer,
) -> Result<(), Wrong> {
    let ours = NodeName::read(alloc, name(0))?;
    let theirs = NodeName::read(alloc, name(1))?;
    let mut from = Port::new(alloc, theirs, dialer);
    let mut to = Port::new(alloc, ours, acceptor);
    let passed = step_all(rt, alloc, trunk, &mut from, &mut to);
    drop(from);
    drop(to);
    passed
}

/// Two parcels pass from one port to the other.
pub fn two_ports<R: Machine>(rt: &R, alloc: Global) -> Result<(), Wrong> {
    let trunk = trunk(alloc)?;
    let (dialer, acceptor) = connect(alloc, trunk.clone()?)?;
    let passed = pass_two(rt, alloc, &trunk, dialer, acceptor);
    drop(trunk);
    passed
}
