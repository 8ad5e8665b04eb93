//! All that is told of the term or the item at the front of bytes.
ghost use Rattle.std.specs.Prelude.{◌≡◌, ◌≤◌, IfOk, length};
ghost use Rattle.fault_places.specs.Places.{IsPlace, own_len};
ghost use Rattle.item_decoder.specs.Told.{IsTold, Moves};
ghost use Rattle.item_decoder.specs.declared.answers.Answer.TheVariants as answer;

use crate::answers::{Answer, Why, answer_of};
use crate::frame_faults::put_frame_fault;
use crate::message_faults::put_message_fault;
use crate::term_faults::put_term_fault;
use fault_places::Reader;
use std::alloc::{AllocError, Global};

/// All that is told of the term or the item at the front of bytes.
#[derive(Debug, Drop)]
pub struct Told {
    /// The answer of the reader.
    pub answer: Answer,
    /// The number of bytes that it is about. The next item begins behind them.
    pub len: usize,
    /// The place of the fault, if the reader refuses the bytes: so many of the first bytes begin an item, and one
    /// byte more doesn't. The number of all bytes if more are needed, and else 0.
    pub place: usize,
    /// The fault in words. Empty if an item was read.
    pub why: String,
}

// Returns the words for the fault at this place of an item.
fn words_for(
    alloc: Global,
    reader: Reader,
    item: &[u8],
    why: Why,
    place: usize,
) -> Result<String, AllocError> {
    let mut out = String::new(alloc);
    match why {
        Why::Term(error) => put_term_fault(&mut out, item, error, place)?,
        Why::Frame(fault) => put_frame_fault(&mut out, item, fault, place)?,
        Why::Message => put_message_fault(&mut out, reader, item, place)?,
    }
    Ok(out)
}

// Returns the words for bytes that end inside an item.
fn words_for_end(alloc: Global, reader: Reader) -> Result<String, AllocError> {
    let noun = match reader {
        Reader::Term => "a term",
        Reader::Frame => "a frame",
        Reader::Message(_) => "a message of the handshake",
    };
    format!(in alloc; "the bytes end inside {noun}")
}

// Returns all that is told of bytes that the reader refuses.
fn refused(alloc: Global, reader: Reader, bytes: &[u8], why: Why) -> Result<Told, AllocError>
    ensures told { IfOk result (λ told. (told.answer ≡ answer.Refused why) × (told.len ≡ own_len reader bytes.now) × IsPlace reader bytes.now told.place) }
    ensures moves { IfOk result (λ told. Moves bytes.now told.len) }
{
    let len = reader.own_len(bytes);
    let place = reader.place(alloc, bytes)?;
    Ok(Told {
        answer: Answer::Refused(why),
        len,
        place,
        why: words_for(alloc, reader, &bytes[..len], why, place)?,
    })
}

/// Returns all that is told of the term or the item at the front of the bytes.
///
/// # Errors
/// [`AllocError`] if out of memory.
pub fn told_of(alloc: Global, reader: Reader, bytes: &[u8]) -> Result<Told, AllocError>
    ensures told { IfOk result (λ told. IsTold reader bytes.now told) }
    ensures moves { IfOk result (λ told. Moves bytes.now told.len) }
    ensures place { IfOk result (λ told. told.place ≤ length bytes.now) }
{
    match answer_of(alloc, reader, bytes)? {
        Answer::Found(found, len) => Ok(Told {
            answer: Answer::Found(found, len),
            len,
            place: 0,
            why: String::new(alloc),
        }),
        Answer::Begun => Ok(Told {
            answer: Answer::Begun,
            len: bytes.len(),
            place: bytes.len(),
            why: words_for_end(alloc, reader)?,
        }),
        Answer::Refused(why) => refused(alloc, reader, bytes, why),
    }
}
