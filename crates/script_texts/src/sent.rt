//! The items that an event sends, in hex.
ghost use Rattle.std.specs.Prelude.{◌≡◌, ◌++◌, OnOk, string_bytes};
ghost use Rattle.script_texts.specs.Texts.{sent_text};

use hex::encode_upper;
use std::alloc::{AllocError, Global};

/// Appends the item that a node of this name sent to its peer, a frame or a message of the handshake,
/// whole and in hex.
///
/// # Errors
/// Where there is no memory for it.
pub fn put_sent(
    alloc: Global,
    out: &mut String,
    node: &str,
    peer: &str,
    bytes: &[u8],
) -> Result<(), AllocError>
    ensures { OnOk result (string_bytes out.new ≡ string_bytes out.old ++ sent_text node.now peer.now bytes.now) }
{
    let hex = encode_upper(alloc, bytes)?;
    writeln!(out, "sent {node} {peer} {hex}")
}
