//! The line of an item that is sent, with its words.
ghost use Rattle.std.specs.Prelude.{◌≡◌, ◌++◌, OnOk, string_bytes};
ghost use Rattle.dist_model.specs.Items.{Item as TheItem};
ghost use Rattle.item_texts.specs.Words.{line_text, sent_words};
ghost use Rattle.node_frames.specs.Frames.{IsSpelled, bytes_of};

use crate::items::put_item;
use hex::encode_upper;
use std::alloc::{AllocError, Global};

fn put_line(
    out: &mut String,
    node: &str,
    peer: &str,
    hex: &str,
    words: &str,
) -> Result<(), AllocError>
    ensures { OnOk result (string_bytes out.new ≡ string_bytes out.old ++ line_text node.now peer.now hex.now words.now) }
{
    writeln!(out, "sent {node} {peer} {hex} {words}")
}

/// Appends the line of an item that a node sends to a peer: the names of the two, the bytes in hex, and the
/// words of the item.
///
/// # Errors
/// [`AllocError`] if out of memory.
pub fn put_sent_words(
    alloc: Global,
    out: &mut String,
    node: &str,
    peer: &str,
    bytes: &[u8],
) -> Result<(), AllocError>
    ensures { (item : TheItem) → IsSpelled item → bytes.now ≡ bytes_of item → OnOk result (string_bytes out.new ≡ string_bytes out.old ++ sent_words node.now peer.now item) }
{
    let hex = encode_upper(alloc, bytes)?;
    let mut words = String::new(alloc);
    put_item(alloc, &mut words, bytes)?;
    put_line(out, node, peer, hex.as_str(), words.as_str())
}
