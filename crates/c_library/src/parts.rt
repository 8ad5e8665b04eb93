//! The places of a signal's parts.
ghost use Rattle.std.specs.Prelude.{◌≡◌, ◌≤◌, length};
ghost use Rattle.c_library.specs.Places.{from_to, message_at, of_two, of_send, of_reg_send, of_unlink, parts_by};

use crate::elements::Ends;

/// A place in bytes.
#[repr(C)]
#[derive(Clone, Copy, Debug)]
pub struct ErldistPlace {
    /// The number of bytes before it.
    pub offset: usize,
    /// The number of its bytes, or 0 if there is no such part.
    pub length: usize,
}

/// The places of the parts of a signal.
#[derive(Clone, Copy)]
pub(crate) struct Parts {
    pub(crate) from: ErldistPlace,
    pub(crate) to: ErldistPlace,
    pub(crate) reference: ErldistPlace,
    pub(crate) payload: ErldistPlace,
}

/// The place of a part that a signal has not.
pub(crate) const NO_PLACE: ErldistPlace = ErldistPlace {
    offset: 0,
    length: 0,
};

/// Returns the place from `start` to `stop`.
fn between(start: usize, stop: usize) -> ErldistPlace
    ensures { result ≡ from_to start stop }
{
    ErldistPlace {
        offset: start,
        length: stop.saturating_sub(start),
    }
}

/// Returns the place behind the version byte at `start`, up to the end of the frame.
fn message(start: usize, frame: &[u8]) -> ErldistPlace
    requires { start ≤ length frame.now }
    ensures { result ≡ message_at start (length frame.now) }
{
    between(start + 1, frame.len())
}

fn of_two(ends: Ends) -> Parts
    ensures { result ≡ of_two ends }
{
    Parts {
        from: between(ends.start, ends.first),
        to: between(ends.first, ends.second),
        reference: NO_PLACE,
        payload: NO_PLACE,
    }
}

fn of_send(ends: Ends, frame: &[u8]) -> Parts
    requires { ends.second ≤ length frame.now }
    ensures { result ≡ of_send ends (length frame.now) }
{
    Parts {
        from: NO_PLACE,
        to: between(ends.first, ends.second),
        reference: NO_PLACE,
        payload: message(ends.second, frame),
    }
}

fn of_reg_send(ends: Ends, frame: &[u8]) -> Parts
    requires { ends.third ≤ length frame.now }
    ensures { result ≡ of_reg_send ends (length frame.now) }
{
    Parts {
        from: between(ends.start, ends.first),
        to: between(ends.second, ends.third),
        reference: NO_PLACE,
        payload: message(ends.third, frame),
    }
}

fn of_unlink(ends: Ends) -> Parts
    ensures { result ≡ of_unlink ends }
{
    Parts {
        from: between(ends.first, ends.second),
        to: between(ends.second, ends.third),
        reference: NO_PLACE,
        payload: NO_PLACE,
    }
}

/// Returns the places of the parts of a control term with this tag. No part has a place if the tag is
/// that of no row.
pub(crate) fn parts_of(tag: u64, ends: Ends, frame: &[u8]) -> Parts
    requires second { ends.second ≤ length frame.now }
    requires third { ends.third ≤ length frame.now }
    ensures { result ≡ parts_by tag ends (length frame.now) }
{
    let two = of_two(ends);
    let third = between(ends.second, ends.third);
    match tag {
        1 => two,
        2 => of_send(ends, frame),
        6 => of_reg_send(ends, frame),
        3 | 8 => Parts {
            payload: third,
            ..two
        },
        24 | 26 => Parts {
            payload: message(ends.second, frame),
            ..two
        },
        19 | 20 => Parts {
            reference: third,
            ..two
        },
        21 => Parts {
            reference: third,
            payload: between(ends.third, ends.fourth),
            ..two
        },
        28 => Parts {
            reference: third,
            payload: message(ends.third, frame),
            ..two
        },
        35 | 36 => of_unlink(ends),
        _ => Parts {
            from: NO_PLACE,
            to: NO_PLACE,
            reference: NO_PLACE,
            payload: NO_PLACE,
        },
    }
}
