//! Reading an item from its bytes.
ghost use Rattle.std.specs.Prelude.{◌≡◌, IfOk, Some, true, false};
ghost use Rattle.item_texts.specs.Reading.{IsRead, of_frame, reader_in};
ghost use Rattle.node_frames.specs.Beginnings.{begins_message};

use dist_model::Kind;
use erl_control::{FrameError, Item, Signal, read_again, unframe};
use erl_handshake::{Role, ShakeMsg, read, read_again as message_again};
use erl_term::Refusal;
use node_frames::{begins_message, kind_in};
use std::alloc::{AllocError, Global};

/// An item that was read from its bytes. (ERTS User's Guide, Distribution Protocol.)
#[derive(Debug, Drop)]
pub enum ReadItem {
    /// A signal from one process to another.
    Signal(Signal),
    /// A message of the handshake.
    Message(ShakeMsg),
    /// A tick.
    Tick,
}

// Returns the item of a frame.
fn of_frame(item: Item) -> ReadItem
    ensures { result ≡ of_frame item }
{
    match item {
        Item::Signal(signal) => ReadItem::Signal(signal),
        Item::Tick => ReadItem::Tick,
    }
}

// Reads a frame.
fn read_frame(alloc: Global, bytes: &[u8]) -> Result<Option<ReadItem>, AllocError>
    ensures { begins_message bytes.now ≡ Some false → IfOk result (λ read. IsRead bytes.now read) }
{
    read_again();
    match unframe(alloc, bytes) {
        Ok(Some((item, taken))) => {
            if taken == bytes.len() {
                Ok(Some(of_frame(item)))
            } else {
                Ok(None)
            }
        }
        Ok(None) => Ok(None),
        Err(why) if why == FrameError::OutOfMemory => Err(AllocError),
        Err(_) => Ok(None),
    }
}

// Returns the role that reads a message: one letter begins a name for the one and a challenge for the other.
fn reader_in(bytes: &[u8]) -> Role
    ensures { result ≡ reader_in bytes.now }
{
    match kind_in(bytes) {
        Some(Kind::Challenge) => Role::Dialer,
        _ => Role::Acceptor,
    }
}

// Reads a message of the handshake.
fn read_message(alloc: Global, bytes: &[u8]) -> Result<Option<ReadItem>, AllocError>
    ensures { begins_message bytes.now ≡ Some true → IfOk result (λ read. IsRead bytes.now read) }
{
    message_again();
    match read(alloc, reader_in(bytes), bytes) {
        Ok(Some((message, taken))) => {
            if taken == bytes.len() {
                Ok(Some(ReadItem::Message(message)))
            } else {
                Ok(None)
            }
        }
        Ok(None) => Ok(None),
        Err(why) if why == Refusal::OutOfMemory => Err(AllocError),
        Err(_) => Ok(None),
    }
}

/// Returns the item that takes all of these bytes, as its receiver reads it. Returns None if they are those of
/// no item. (ERTS User's Guide, Distribution Protocol, Distribution Handshake and Protocol between Connected
/// Nodes.)
///
/// # Errors
/// [`AllocError`] if out of memory.
pub fn read_item(alloc: Global, bytes: &[u8]) -> Result<Option<ReadItem>, AllocError>
    ensures { IfOk result (λ read. IsRead bytes.now read) }
{
    match begins_message(bytes) {
        Some(true) => read_message(alloc, bytes),
        Some(false) => read_frame(alloc, bytes),
        None => Ok(None),
    }
}
