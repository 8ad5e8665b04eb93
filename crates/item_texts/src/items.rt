//! The words for an item, read from its bytes.
ghost use Rattle.std.specs.Prelude.{◌≡◌, ◌++◌, OnOk, string_bytes};
ghost use Rattle.dist_model.specs.Items.{Item as TheItem};
ghost use Rattle.item_texts.specs.Words.{item_text, read_text};
ghost use Rattle.node_frames.specs.Frames.{IsSpelled, bytes_of};

use crate::laws::one_item;
use crate::messages::put_message;
use crate::reading::{ReadItem, read_item};
use crate::signals::put_signal;
use std::alloc::{AllocError, Global};

// Stands in place of the words for bytes that are no item.
const UNKNOWN: &str = "unknown";

// Appends the words for an item that was read.
fn put_read(alloc: Global, out: &mut String, item: &ReadItem) -> Result<(), AllocError>
    ensures { OnOk result (string_bytes out.new ≡ string_bytes out.old ++ read_text item.now) }
{
    match item {
        ReadItem::Signal(signal) => put_signal(out, signal),
        ReadItem::Message(message) => put_message(alloc, out, message),
        ReadItem::Tick => out.push_str("tick"),
    }
}

/// Appends the words for the item of some bytes: a signal, a message of the handshake, or a tick. Appends
/// `unknown` if the bytes are no item. (ERTS User's Guide, Distribution Protocol.)
///
/// # Errors
/// [`AllocError`] if out of memory.
pub fn put_item(alloc: Global, out: &mut String, bytes: &[u8]) -> Result<(), AllocError>
    ensures { (item : TheItem) → IsSpelled item → bytes.now ≡ bytes_of item → OnOk result (string_bytes out.new ≡ string_bytes out.old ++ item_text item) }
{
    one_item();
    match read_item(alloc, bytes)? {
        Some(item) => put_read(alloc, out, &item),
        None => out.push_str(UNKNOWN),
    }
}
