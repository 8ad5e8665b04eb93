//! The fields of an item that is sent, in JSON.
ghost use Rattle.std.specs.Prelude.{◌≡◌, IfOk};
ghost use Rattle.script_json.specs.Fields.{AreFields, fields_data};
ghost use Rattle.serde_json.specs.View.{view};

use crate::handshakes::message_fields;
use crate::signals::signal_fields;
use item_texts::{ReadItem, read_item};
use serde_json::{Value, json};
use std::alloc::{AllocError, Global};

/// Returns the object of an item's fields: the name of its operation or message, and each field under its name.
/// Flags and digests are in hex. (ERTS User's Guide, Distribution Protocol, Distribution Handshake and Protocol
/// between Connected Nodes.)
///
/// # Errors
/// [`AllocError`] if out of memory.
pub fn item_fields(alloc: Global, item: &ReadItem) -> Result<Value, AllocError>
    ensures { IfOk result (λ v. view v ≡ fields_data item.now) }
{
    match item {
        ReadItem::Signal(signal) => signal_fields(alloc, signal),
        ReadItem::Message(message) => message_fields(alloc, message),
        ReadItem::Tick => json!(in alloc; {"operation": "tick"}),
    }
}

/// Returns the object of the fields of the item that takes all of these bytes. Returns null if they are those of
/// no item.
pub(crate) fn fields(alloc: Global, bytes: &[u8]) -> Result<Value, AllocError>
    ensures { IfOk result (λ v. AreFields bytes.now (view v)) }
{
    match read_item(alloc, bytes)? {
        Some(item) => item_fields(alloc, &item),
        None => Ok(Value::Null),
    }
}
