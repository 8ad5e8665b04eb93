//! The answer of a reader to the bytes at the front.
ghost use Rattle.std.specs.Prelude.{◌≡◌, ◌↔◌, IfOk, IsTrue};
ghost use Rattle.item_decoder.specs.Answers.{IsAnswer, framed_answer, is_found};
ghost use Rattle.item_decoder.specs.declared.answers.Answer.TheVariants as answer;
ghost use Rattle.fault_places.specs.declared.places.Reader.{Reader};

use erl_control::{FrameError, FrameFault, Item, unframe};
use erl_handshake::{Role, read};
use erl_term::{Refusal, Term, TermError, decode};
use fault_places::Reader;
use item_texts::ReadItem;
use std::alloc::{AllocError, Global};

/// A term or an item that was read from bytes. (ERTS User's Guide, External Term Format and Distribution Protocol.)
#[derive(Debug, Drop)]
pub enum Found {
    /// A term behind the version byte.
    Term(Term),
    /// A signal, a message of the handshake, or a tick.
    Item(ReadItem),
}

/// The reason for which a reader refuses bytes.
#[derive(Clone, Copy, Debug, PartialEq, Eq)]
pub enum Why {
    /// No term stands at the front.
    Term(TermError),
    /// No frame stands at the front.
    Frame(FrameFault),
    /// No message of the handshake for this reader stands at the front.
    Message,
}

/// The answer of a reader to bytes.
#[derive(Debug, Drop)]
pub enum Answer {
    /// This stands at the front, and takes so many bytes.
    Found(Found, usize),
    /// The bytes begin a term, a frame or a message, and more bytes are needed.
    Begun,
    /// The reader refuses the bytes.
    Refused(Why),
}

// Returns the answer where a term is due.
fn term_answer(alloc: Global, bytes: &[u8]) -> Result<Answer, AllocError>
    ensures { IfOk result (λ answer. IsAnswer Reader.Term bytes.now answer) }
{
    match decode(alloc, bytes) {
        Ok((term, taken)) => Ok(Answer::Found(Found::Term(term), taken)),
        Err(TermError::OutOfMemory) => Err(AllocError),
        Err(TermError::Cut) => Ok(Answer::Begun),
        Err(why) => Ok(Answer::Refused(Why::Term(why))),
    }
}

// Returns the answer where a frame has this item.
fn framed(item: Item, taken: usize) -> Answer
    ensures { result ≡ framed_answer item taken }
{
    match item {
        Item::Signal(signal) => Answer::Found(Found::Item(ReadItem::Signal(signal)), taken),
        Item::Tick => Answer::Found(Found::Item(ReadItem::Tick), taken),
    }
}

// Returns the answer where a frame is due.
fn frame_answer(alloc: Global, bytes: &[u8]) -> Result<Answer, AllocError>
    ensures { IfOk result (λ answer. IsAnswer Reader.Frame bytes.now answer) }
{
    match unframe(alloc, bytes) {
        Ok(Some((item, taken))) => Ok(framed(item, taken)),
        Ok(None) => Ok(Answer::Begun),
        Err(why) => match why.fault() {
            Some(fault) => Ok(Answer::Refused(Why::Frame(fault))),
            None => Err(AllocError),
        },
    }
}

// Returns the answer where a message of the handshake is due.
fn message_answer(alloc: Global, role: Role, bytes: &[u8]) -> Result<Answer, AllocError>
    ensures { IfOk result (λ answer. IsAnswer (Reader.Message role) bytes.now answer) }
{
    match read(alloc, role, bytes) {
        Ok(Some((message, taken))) => {
            Ok(Answer::Found(Found::Item(ReadItem::Message(message)), taken))
        }
        Ok(None) => Ok(Answer::Begun),
        Err(Refusal::OutOfMemory) => Err(AllocError),
        Err(_) => Ok(Answer::Refused(Why::Message)),
    }
}

/// Returns the answer of a reader to the bytes at the front, which is due to them by the standard. What follows a
/// term, a frame or a message isn't read. (ERTS User's Guide, External Term Format and Distribution Protocol.)
///
/// # Errors
/// [`AllocError`] if out of memory.
pub fn answer_of(alloc: Global, reader: Reader, bytes: &[u8]) -> Result<Answer, AllocError>
    ensures { IfOk result (λ answer. IsAnswer reader bytes.now answer) }
{
    match reader {
        Reader::Term => term_answer(alloc, bytes),
        Reader::Frame => frame_answer(alloc, bytes),
        Reader::Message(role) => message_answer(alloc, role, bytes),
    }
}

impl Answer {
    /// Returns true if an item was read.
    pub fn is_found(&self) -> bool
        ensures { result ≡ is_found self.now }
    {
        matches!(self, Answer::Found(..))
    }

    /// Returns true if more bytes are needed.
    pub fn is_begun(&self) -> bool
        ensures { IsTrue result ↔ (self.now ≡ answer.Begun) }
    {
        matches!(self, Answer::Begun)
    }
}
