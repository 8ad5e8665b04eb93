//! The fields of an item, a line each, with their places and lengths. (ERTS User's Guide, External Term Format and
//! Distribution Protocol.)
use crate::answers::Found;
use crate::rows::{Row, row_of};
use crate::term_tree::{Names, put_term_tree};
use erl_handshake::ShakeMsg;
use erl_term::{integer_at, tuple_head_at};
use item_texts::ReadItem;
use std::alloc::{AllocError, Global};

/// A field of an item: so many levels in, at this place, of so many bytes.
#[derive(Clone, Copy, Debug)]
pub(crate) struct Part {
    pub(crate) depth: usize,
    pub(crate) at: u64,
    pub(crate) len: usize,
}

/// The most levels of a term, which are those of its tuples and lists.
const LEVELS: u32 = 64;

/// The number of bytes of a frame's length.
const FRAME_LENGTH: usize = 4;

/// The number of bytes of a message's length.
const MESSAGE_LENGTH: usize = 2;

/// Appends the line of a field: its place, its length, its name and its value.
pub(crate) fn put_part(
    out: &mut String,
    part: Part,
    name: &str,
    value: &str,
) -> Result<(), AllocError> {
    for _ in 0..part.depth {
        out.push_str("  ")?;
    }
    let (at, len) = (part.at, part.len);
    if value.is_empty() {
        return writeln!(out, "{at} {len} {name}");
    }
    writeln!(out, "{at} {len} {name} {value}")
}

// Appends the line of a field whose value is a number.
fn put_number(
    out: &mut String,
    alloc: Global,
    part: Part,
    name: &str,
    value: u64,
) -> Result<(), AllocError> {
    let text = format!(in alloc; "{value}")?;
    put_part(out, part, name, text.as_str())
}

// Returns the number of bytes, the highest first.
fn number_of(bytes: &[u8]) -> u64 {
    let mut number = 0u64;
    for byte in bytes {
        number = number.wrapping_mul(256).wrapping_add(u64::from(*byte));
    }
    number
}

// Returns so many bytes behind a place, as far as they are there.
fn field(bytes: &[u8], at: usize, len: usize) -> &[u8] {
    let behind = bytes.get(at..).unwrap_or(&[]);
    behind.get(..len).unwrap_or(behind)
}

// Appends the line of a number of fixed length, and returns the place behind it.
fn put_fixed(
    alloc: Global,
    out: &mut String,
    item: &[u8],
    from: u64,
    at: usize,
    len: usize,
    name: &str,
) -> Result<usize, AllocError> {
    let part = Part {
        depth: 1,
        at: from.saturating_add(at as u64),
        len,
    };
    put_number(out, alloc, part, name, number_of(field(item, at, len)))?;
    Ok(at.saturating_add(len))
}

// Appends the line of the flags of a message, and returns the place behind them.
fn put_flags_field(
    alloc: Global,
    out: &mut String,
    message: &[u8],
    from: u64,
    at: usize,
) -> Result<usize, AllocError> {
    let part = Part {
        depth: 1,
        at: from.saturating_add(at as u64),
        len: 8,
    };
    let flags = number_of(field(message, at, 8));
    let text = format!(in alloc; "{flags:X}")?;
    put_part(out, part, "flags", text.as_str())?;
    Ok(at.saturating_add(8))
}

// Appends the line of the letter with which a message begins, and returns the place behind it.
fn put_letter(out: &mut String, message: &[u8], from: u64, at: usize) -> Result<usize, AllocError> {
    let part = Part {
        depth: 1,
        at: from.saturating_add(at as u64),
        len: 1,
    };
    let letter = match message.get(at) {
        Some(b'N') => "N",
        Some(b's') => "s",
        Some(b'r') => "r",
        Some(b'a') => "a",
        _ => "",
    };
    put_part(out, part, "tag", letter)?;
    Ok(at.saturating_add(1))
}

// Returns the row of the control message at the front, behind the version byte.
fn row_at(term: &[u8]) -> Option<Row> {
    let (head, elements) = tuple_head_at(LEVELS, term)?;
    let (operation, _) = integer_at(head.levels, elements)?;
    row_of(operation)
}

// Appends the fields of a frame that carries a signal.
fn put_signal_tree(
    alloc: Global,
    out: &mut String,
    frame: &[u8],
    from: u64,
) -> Result<(), AllocError> {
    let at = put_fixed(alloc, out, frame, from, 0, FRAME_LENGTH, "length")?;
    let at = put_fixed(alloc, out, frame, from, at, 1, "pass-through")?;
    let control = frame.get(at..).unwrap_or(&[]);
    let row = row_at(control.get(1..).unwrap_or(&[]));
    let place = from.saturating_add(at as u64);
    let len = put_term_tree(alloc, out, place, control, "control", Names::Of(row))?;
    let behind = control.get(len..).unwrap_or(&[]);
    if behind.is_empty() {
        return Ok(());
    }
    let name = match row {
        Some(
            Row {
                behind: Some(name),
                ..
            },
        ) => name,
        _ => "message",
    };
    put_term_tree(
        alloc,
        out,
        place.saturating_add(len as u64),
        behind,
        name,
        Names::Plain,
    )?;
    Ok(())
}

// Appends the fields that a send_name and a challenge end with: the length of the name, the name, and what follows.
fn put_name_tree(
    alloc: Global,
    out: &mut String,
    message: &[u8],
    from: u64,
    at: usize,
) -> Result<(), AllocError> {
    let len = number_of(field(message, at, 2)) as usize;
    let at = put_fixed(alloc, out, message, from, at, 2, "name length")?;
    let name = field(message, at, len);
    let part = Part {
        depth: 1,
        at: from.saturating_add(at as u64),
        len: name.len(),
    };
    put_part(out, part, "name", std::str::from_utf8(name).unwrap_or(""))?;
    let rest = field(message, at.saturating_add(len), message.len());
    if rest.is_empty() {
        return Ok(());
    }
    let part = Part {
        depth: 1,
        at: from.saturating_add(at.saturating_add(len) as u64),
        len: rest.len(),
    };
    put_part(out, part, "ignored", "")
}

// Appends the line of a field in hexadecimal digits.
fn put_hex(
    alloc: Global,
    out: &mut String,
    message: &[u8],
    from: u64,
    at: usize,
    name: &str,
) -> Result<(), AllocError> {
    let bytes = message.get(at..).unwrap_or(&[]);
    let part = Part {
        depth: 1,
        at: from.saturating_add(at as u64),
        len: bytes.len(),
    };
    let digits = hex::encode_upper(alloc, bytes)?;
    put_part(out, part, name, digits.as_str())
}

// Appends the fields of a message of the handshake.
fn put_message_tree(
    alloc: Global,
    out: &mut String,
    message: &[u8],
    from: u64,
    of: &ShakeMsg,
) -> Result<(), AllocError> {
    let at = put_fixed(alloc, out, message, from, 0, MESSAGE_LENGTH, "length")?;
    let at = put_letter(out, message, from, at)?;
    match of {
        ShakeMsg::SendName { .. } => {
            let at = put_flags_field(alloc, out, message, from, at)?;
            let at = put_fixed(alloc, out, message, from, at, 4, "creation")?;
            put_name_tree(alloc, out, message, from, at)
        }
        ShakeMsg::Challenge { .. } => {
            let at = put_flags_field(alloc, out, message, from, at)?;
            let at = put_fixed(alloc, out, message, from, at, 4, "challenge")?;
            let at = put_fixed(alloc, out, message, from, at, 4, "creation")?;
            put_name_tree(alloc, out, message, from, at)
        }
        ShakeMsg::Status(status) => {
            let part = Part {
                depth: 1,
                at: from.saturating_add(at as u64),
                len: message.len().saturating_sub(at),
            };
            put_part(out, part, "status", status.text())
        }
        ShakeMsg::ChallengeReply { .. } => {
            let at = put_fixed(alloc, out, message, from, at, 4, "challenge")?;
            put_hex(alloc, out, message, from, at, "digest")
        }
        ShakeMsg::ChallengeAck { .. } => put_hex(alloc, out, message, from, at, "digest"),
    }
}

/// Appends a line for each field of the item that was read from these bytes, the first of which is at this place. The
/// field of a field stands two spaces further in.
///
/// # Errors
/// [`AllocError`] if out of memory.
pub(crate) fn put_tree(
    alloc: Global,
    out: &mut String,
    item: &[u8],
    from: u64,
    found: &Found,
) -> Result<(), AllocError> {
    match found {
        Found::Term(_) => {
            put_term_tree(alloc, out, from, item, "term", Names::Plain)?;
            Ok(())
        }
        Found::Item(ReadItem::Signal(_)) => put_signal_tree(alloc, out, item, from),
        Found::Item(ReadItem::Message(message)) => put_message_tree(
            alloc, out, item, from, message,
        ),
        Found::Item(ReadItem::Tick) => {
            put_fixed(alloc, out, item, from, 0, FRAME_LENGTH, "length")?;
            Ok(())
        }
    }
}
