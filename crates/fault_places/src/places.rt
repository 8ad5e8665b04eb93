//! The place of a fault.
ghost use Rattle.std.specs.Prelude.{◌≡◌, ◌<◌, ◌≤◌, ◌+◌, ◌↔◌, IfOk, IsTrue, Ok, Err, length, slice_index};
ghost use Rattle.byteorder.specs.Endian.{big_number};
ghost use Rattle.readers.specs.Places.{Begins};
ghost use Rattle.fault_places.specs.Places.{Goes, IsFrameBody, IsLength, IsPlace, least, own_len};

use byteorder::{BigEndian, ByteOrder};
use control_beginnings::signal_begins;
use erl_control::FRAME_LIMIT;
use erl_handshake::Role;
use erl_term::{TermError, one_answer, term_len};
use message_beginnings::body_begins;
use std::alloc::{AllocError, Global};

/// A reader of bytes.
#[derive(Clone, Copy, Debug, PartialEq, Eq)]
pub enum Reader {
    /// Of the version byte and a term. (ERTS User's Guide, External Term Format.)
    Term,
    /// Of a frame between connected nodes. (ERTS User's Guide, Distribution Protocol, Protocol between Connected
    /// Nodes.)
    Frame,
    /// Of a message of the handshake, for a node in this role. (ERTS User's Guide, Distribution Protocol,
    /// Distribution Handshake.)
    Message(Role),
}

// Returns true if the answer is that the bytes end inside a term.
fn is_cut(answer: &Result<usize, TermError>) -> bool
    ensures { IsTrue result ↔ (answer.now ≡ Err TermError.Cut) }
{
    match answer {
        Ok(_) => false,
        Err(TermError::Cut) => true,
        Err(_) => false,
    }
}

fn term_goes(bytes: &[u8]) -> bool
    ensures { IsTrue result ↔ Goes Reader.Term bytes.now }
{
    one_answer();
    is_cut(&term_len(bytes))
}

// Returns the byte at a place, or 0 behind all of them.
fn byte_at(bytes: &[u8], place: usize) -> u8
    ensures { result ≡ slice_index bytes.now place }
{
    match bytes.get(place) {
        Some(byte) => *byte,
        None => 0,
    }
}

// Returns the number of the first four bytes, with 0 in place of each that is missing.
fn number_of(bytes: &[u8]) -> u32
    ensures { result ≡ big_number 4 bytes.now }
{
    let first = [
        byte_at(bytes, 0),
        byte_at(bytes, 1),
        byte_at(bytes, 2),
        byte_at(bytes, 3),
    ];
    BigEndian::read_u32(&first)
}

// Returns true if the length of a frame begins with the bytes.
fn length_begins(field: &[u8]) -> bool
    ensures { IsTrue result ↔ Begins IsLength field.now }
{
    field.len() <= 4 && number_of(field) as usize <= FRAME_LIMIT
}

// Returns true if the body of a frame, behind its length, begins with the bytes.
fn frame_body_begins(alloc: Global, body: &[u8]) -> Result<bool, AllocError>
    ensures { IfOk result (λ begins. IsTrue begins ↔ Begins IsFrameBody body.now) }
{
    let Some((first, text)) = body.split_first() else {
        return Ok(true);
    };
    if *first != 112 {
        return Ok(false);
    }
    signal_begins(alloc, text)
}

fn frame_goes(alloc: Global, bytes: &[u8]) -> Result<bool, AllocError>
    ensures { IfOk result (λ goes. IsTrue goes ↔ Goes Reader.Frame bytes.now) }
{
    if bytes.len() < 4 {
        return Ok(length_begins(bytes));
    }
    let (field, body) = bytes.split_at(4);
    if !length_begins(field) {
        return Ok(false);
    }
    frame_body_begins(alloc, body)
}

fn message_goes(role: Role, bytes: &[u8]) -> bool
    ensures { IsTrue result ↔ Goes (Reader.Message role) bytes.now }
{
    match bytes.get(2..) {
        Some(body) => body_begins(role, body),
        None => body_begins(role, &[]),
    }
}

// Returns the number of bytes that a length of `width` bytes and those that it counts take, or all of the bytes if
// they are fewer.
fn counted_len(width: usize, number: usize, bytes: &[u8]) -> usize
    ensures { result ≡ least (width + number) (length bytes.now) }
{
    if bytes.len() < width || bytes.len() - width < number {
        return bytes.len();
    }
    width + number
}

impl Reader {
    /// Returns the number of bytes of the item at the front: of a frame or a message by its length, which may count
    /// more than there are, and of a term all of them.
    pub fn own_len(self, bytes: &[u8]) -> usize
        ensures value { result ≡ own_len self bytes.now }
        ensures within { result ≤ length bytes.now }
        ensures some { 0 < length bytes.now → 0 < result }
    {
        match self {
            Reader::Term => bytes.len(),
            Reader::Frame if bytes.len() >= 4 => {
                counted_len(4, BigEndian::read_u32(bytes) as usize, bytes)
            }
            Reader::Message(_) if bytes.len() >= 2 => {
                counted_len(2, usize::from(BigEndian::read_u16(bytes)), bytes)
            }
            _ => bytes.len(),
        }
    }

    // Returns true if a term, a frame or a message begins with the bytes.
    fn goes(self, alloc: Global, bytes: &[u8]) -> Result<bool, AllocError>
        ensures { IfOk result (λ goes. IsTrue goes ↔ Goes self bytes.now) }
    {
        match self {
            Reader::Term => Ok(term_goes(bytes)),
            Reader::Frame => frame_goes(alloc, bytes),
            Reader::Message(role) => Ok(message_goes(role, bytes)),
        }
    }

    /// Returns the place of the first fault in the item at the front: so many of its bytes begin a term, a frame or a
    /// message, and one byte more doesn't. It is the number of all its bytes if these begin one. Then the item ends
    /// too early, or its message or reason doesn't fit.
    ///
    /// # Errors
    /// [`AllocError`] if out of memory.
    pub fn place(self, alloc: Global, bytes: &[u8]) -> Result<usize, AllocError>
        ensures { IfOk result (λ n. IsPlace self bytes.now n) }
    {
        let len = self.own_len(bytes);
        if len == 0 || self.goes(alloc, &bytes[..len])? {
            return Ok(len);
        }
        let mut begun = 0usize;
        let mut refused = len;
        while refused - begun > 1 {
            let middle = begun + (refused - begun) / 2;
            if self.goes(alloc, &bytes[..middle])? {
                begun = middle;
            } else {
                refused = middle;
            }
        }
        Ok(begun)
    }
}
