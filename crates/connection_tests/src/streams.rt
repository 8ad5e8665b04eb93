//! Streams of whole connections, which come in pieces of every size.
use crate::sides::{
    ACKNOWLEDGES, ALONE, CHALLENGE, CHALLENGES, Held, Kind, LINK, OK, REPLIES, SECRET, SEND_NAME,
    TICK, after, challenge, decided, dialing, fresh, kind_of,
};
use conn_pieces::{StreamSide, fed_in_pieces, pieces_are_the_stream};
use erl_term::Refusal;
use std::alloc::Global;
use std::test::*;

/// A stream that comes to one of the two nodes, in its parts, and what these are.
#[derive(Clone, Copy)]
struct Stream {
    /// Whether it comes to a@h, which dials, or to b@h.
    dials: bool,
    parts: &'static [&'static [u8]],
    kinds: &'static [Kind],
}

const STREAMS: &[Stream] = &[
    Stream {
        dials: true,
        parts: &[OK, CHALLENGES, ACKNOWLEDGES, TICK, LINK, TICK],
        kinds: &[
            Kind::Message,
            Kind::Message,
            Kind::Message,
            Kind::Tick,
            Kind::Signal,
            Kind::Tick,
        ],
    },
    Stream {
        dials: false,
        parts: &[SEND_NAME, REPLIES, TICK, TICK],
        kinds: &[Kind::Message, Kind::Message, Kind::Tick, Kind::Tick],
    },
    // what is no frame of this profile breaks the side, and what is behind it isn't taken
    Stream {
        dials: true,
        parts: &[OK, CHALLENGES, ACKNOWLEDGES, &[0, 0, 0, 1, 113], TICK],
        kinds: &[
            Kind::Message,
            Kind::Message,
            Kind::Message,
            Kind::Fault(6),
            Kind::NotLive,
        ],
    },
];

fn joined(alloc: Global, parts: &[&[u8]]) -> Result<Vec<u8>, Refusal> {
    let mut bytes = Vec::new(alloc);
    for part in parts {
        bytes.extend_from_slice(part)?;
    }
    Ok(bytes)
}

fn is_decided(held: &mut Held) -> bool {
    decided(held, ALONE).is_some()
}

/// Where the node has to decide on the attempt it goes on, and the challenge is sent.
fn decides(alloc: Global, held: &mut Held) -> Result<(), Refusal> {
    if is_decided(held) {
        drop(challenge(alloc, held)?);
    }
    Ok(())
}

/// What the stream's side takes next. None where it doesn't stand as the answer says then. The node
/// decides at the side that is held, and the other stands as this does.
fn next(alloc: Global, held: &mut Held, stream: &mut StreamSide) -> Result<Option<Kind>, Refusal> {
    let mut sent = Vec::new(alloc);
    let answer = stream.next(alloc, &held.own, CHALLENGE);
    let kind = kind_of(&answer, &mut sent);
    let (standing, _) = after(held, &answer);
    drop(answer);
    if stream.side.standing != standing {
        return Ok(None);
    }
    held.side.standing = standing;
    decides(alloc, held)?;
    stream.side.standing = held.side.standing;
    Ok(Some(kind?))
}

/// How many of these are taken next, in their order, until more bytes are needed. None where another
/// is taken.
fn takes(
    alloc: Global,
    held: &mut Held,
    stream: &mut StreamSide,
    kinds: &[Kind],
) -> Result<Option<usize>, Refusal> {
    for (number, kind) in kinds.iter().enumerate() {
        let Some(found) = next(alloc, held, stream)? else {
            return Ok(None);
        };
        if found == Kind::Begun {
            return Ok(Some(number));
        }
        if found != *kind {
            return Ok(None);
        }
    }
    Ok(Some(kinds.len()))
}

/// Whether all of these are taken, and nothing else, where the bytes come in pieces of this size.
fn comes(
    alloc: Global,
    held: &mut Held,
    stream: &mut StreamSide,
    bytes: &[u8],
    kinds: &[Kind],
    size: usize,
) -> Result<bool, Refusal> {
    let mut taken = 0;
    let mut start = 0;
    for _ in 0..bytes.len() {
        if start >= bytes.len() || taken > kinds.len() {
            break;
        }
        let end = bytes.len().min(start.saturating_add(size));
        stream.feed(&bytes[start..end])?;
        match takes(alloc, held, stream, &kinds[taken..])? {
            Some(count) => taken = taken.saturating_add(count),
            None => return Ok(false),
        }
        start = end;
    }
    Ok(taken == kinds.len())
}

/// The side that a stream comes to, at its beginning.
fn begun(alloc: Global, stream: &Stream) -> Result<Held, Refusal> {
    if stream.dials {
        dialing(alloc, 1, SECRET)
    } else {
        fresh(alloc, SECRET)
    }
}

/// The stream's side at its beginning.
fn reading(alloc: Global, stream: &Stream) -> Result<StreamSide, Refusal> {
    let Held { own, side } = begun(alloc, stream)?;
    drop(own);
    Ok(StreamSide::new(alloc, side))
}

/// Whether the stream is read as it has to be beside the side that is held.
fn comes_beside(
    alloc: Global,
    held: &mut Held,
    stream: &Stream,
    bytes: &[u8],
    size: usize,
) -> Result<bool, Refusal> {
    let mut reading = reading(alloc, stream)?;
    let is_so = comes(alloc, held, &mut reading, bytes, stream.kinds, size);
    drop(reading);
    is_so
}

/// Whether the stream gives what it has to in pieces of this size.
fn comes_in(alloc: Global, stream: &Stream, bytes: &[u8], size: usize) -> Result<bool, Refusal> {
    let mut held = begun(alloc, stream)?;
    let is_so = comes_beside(alloc, &mut held, stream, bytes, size);
    drop(held);
    is_so
}

/// The first size of pieces in which these bytes give something else.
fn wrong_size_of(alloc: Global, stream: &Stream, bytes: &[u8]) -> Result<Option<usize>, Refusal> {
    for size in 1..=bytes.len() {
        if !comes_in(alloc, stream, bytes, size)? {
            return Ok(Some(size));
        }
    }
    Ok(None)
}

/// The same of the stream's own bytes.
fn wrong_size(alloc: Global, stream: &Stream) -> Result<Option<usize>, Refusal> {
    let bytes = joined(alloc, stream.parts)?;
    let wrong = wrong_size_of(alloc, stream, bytes.as_slice());
    drop(bytes);
    wrong
}

#[test]
fn streams_in_pieces(rt: HostRuntime) -> Result<(), Fail> {
    pieces_are_the_stream();
    for (number, stream) in STREAMS.iter().enumerate() {
        let wrong = wrong_size(rt.alloc(), stream)?;
        assert_eq!(rt; wrong, None, "stream {number}");
    }
    Ok(())
}

/// Feeds a dialer's whole stream at once, and returns how many items are taken and how many bytes are left.
fn taken_at_once(alloc: Global, stream: &Stream) -> Result<(usize, usize), Refusal> {
    let Held { own, side } = begun(alloc, stream)?;
    let bytes = joined(alloc, stream.parts)?;
    let mut reading = StreamSide::new(alloc, side);
    reading.feed(bytes.as_slice())?;
    let mut arrivals = Vec::new(alloc);
    reading.take_all(alloc, &own, CHALLENGE, &mut arrivals)?;
    Ok((arrivals.len(), reading.kept().len()))
}

#[test]
fn streams_at_once(rt: HostRuntime) -> Result<(), Fail> {
    fed_in_pieces();
    assert_eq!(rt;
        taken_at_once(rt.alloc(), &STREAMS[0])?,
        (6, 0),
        "all of it"
    );
    // a fault keeps its five bytes and the tick behind it
    assert_eq!(rt;
        taken_at_once(rt.alloc(), &STREAMS[2])?,
        (4, 9),
        "up to the fault"
    );
    Ok(())
}
