//! The faults of frames, in words.

use crate::rows::{Field, Kind, Row, foreign_operation, row_of};
use crate::tags::noun_of;
use crate::term_faults::put_term_fault;
use erl_control::{FRAME_LIMIT, FrameFault};
use erl_term::{TermError, atom_at, integer_at, pid_at, reference_at, term_at, tuple_head_at};
use std::alloc::AllocError;

/// The number of bytes of a frame's length, and of the byte 112 behind it.
const HEAD: usize = 5;

// Returns the bytes behind the pass-through byte.
fn text_of(frame: &[u8]) -> &[u8] {
    frame.get(HEAD..).unwrap_or(&[])
}

// Returns the noun for the term at the front.
fn noun_at(bytes: &[u8]) -> &'static str {
    match bytes.first() {
        Some(tag) => noun_of(*tag),
        None => "no term",
    }
}

// Appends the fault of a frame without pass-through.
fn put_not_pass_through(out: &mut String, frame: &[u8]) -> Result<(), AllocError> {
    match frame.get(4) {
        Some(131) => write!(
            out,
            "131 begins a distribution header; behind the length stands 112, pass-through"
        ),
        Some(byte) => write!(
            out,
            "behind the length stands 112, pass-through, and not {byte}"
        ),
        None => write!(out, "behind the length stands 112, pass-through"),
    }
}

// Appends the fault of a frame that is too long, or carries too much.
fn put_too_long(out: &mut String, place: usize) -> Result<(), AllocError> {
    if place < 4 {
        return write!(
            out,
            "a frame has at most {FRAME_LIMIT} bytes behind its length here"
        );
    }
    write!(
        out,
        "a message or a reason has at most 60 levels and 1000000 bytes here"
    )
}

// Appends the fault of a term in a frame: of the control term, or of the term behind it.
fn put_term(
    out: &mut String,
    frame: &[u8],
    error: TermError,
    place: usize,
) -> Result<(), AllocError> {
    let number = error.number();
    let name = error.name();
    write!(out, "{number} {name}, ")?;
    if error == TermError::Cut {
        return write!(out, "the frame ends inside a term");
    }
    let text = text_of(frame);
    put_term_fault(out, text, error, place.saturating_sub(HEAD))
}

// Returns the bytes behind the element at the front, if it is of the kind.
fn field_at(kind: Kind, levels: u32, bytes: &[u8]) -> Option<&[u8]> {
    match kind {
        Kind::Pid => Some(pid_at(levels, bytes)?.1),
        Kind::PidOrName => match pid_at(levels, bytes) {
            Some((_, rest)) => Some(rest),
            None => Some(atom_at(levels, bytes)?.1),
        },
        Kind::Name => Some(atom_at(levels, bytes)?.1),
        Kind::Reference => Some(reference_at(levels, bytes)?.1),
        Kind::Id => match integer_at(levels, bytes)? {
            (id, rest) if id > 0 && u64::try_from(id).is_ok() => Some(rest),
            _ => None,
        },
        Kind::Term => Some(term_at(levels, bytes)?.1),
    }
}

// Appends the fault of an element that isn't of its kind.
fn put_field(
    out: &mut String,
    row: &Row,
    field: &Field,
    levels: u32,
    bytes: &[u8],
) -> Result<(), AllocError> {
    let (operation, name, kind) = (row.name, field.name, field.kind.noun());
    if field.kind == Kind::Id
        && let Some((id, _)) = integer_at(levels, bytes)
    {
        return write!(
            out,
            "{name} of {operation} is {id}, and not 1 to 18446744073709551615"
        );
    }
    let noun = noun_at(bytes);
    write!(out, "{name} of {operation} is {noun}, and not {kind}")
}

// Appends the fault of the elements behind the operation, or that bytes are left over.
fn put_fields(out: &mut String, row: &Row, levels: u32, elements: &[u8]) -> Result<(), AllocError> {
    let mut rest = elements;
    for field in row.fields {
        match field_at(field.kind, levels, rest) {
            Some(behind) => rest = behind,
            None => return put_field(out, row, field, levels, rest),
        }
    }
    let name = row.name;
    match row.behind {
        Some(behind) => write!(out, "bytes are left over behind {behind} of {name}"),
        None => write!(out, "bytes are left over behind {name}"),
    }
}

// Appends the fault of an operation that is none of the profile.
fn put_operation(out: &mut String, operation: i128) -> Result<(), AllocError> {
    match foreign_operation(operation) {
        Some(name) => write!(
            out,
            "operation {operation} is {name}, which the profile lacks"
        ),
        None => write!(out, "operation {operation} is unknown"),
    }
}

// Appends the fault of a control message whose operation is of the profile.
fn put_row(
    out: &mut String,
    row: &Row,
    arity: u32,
    levels: u32,
    elements: &[u8],
) -> Result<(), AllocError> {
    let due = row.fields.len().saturating_add(1);
    if arity as usize == due {
        return put_fields(out, row, levels, elements);
    }
    let name = row.name;
    write!(out, "{name} has {due} elements, and not {arity}")
}

// Appends the fault of a control term that is none of the profile's messages.
fn put_control(out: &mut String, text: &[u8]) -> Result<(), AllocError> {
    let term = text.get(1..).unwrap_or(&[]);
    let Some((head, elements)) = tuple_head_at(64, term) else {
        let noun = noun_at(term);
        return write!(out, "the control term is {noun}, and not a tuple");
    };
    let Some((operation, fields)) = integer_at(head.levels, elements) else {
        let noun = if head.arity == 0 {
            "missing"
        } else {
            noun_at(elements)
        };
        return write!(out, "the operation is {noun}, and not an integer");
    };
    match row_of(operation) {
        Some(row) => put_row(out, &row, head.arity, head.levels, fields),
        None => put_operation(out, operation),
    }
}

/// Appends the fault of a frame, at this place in its bytes.
///
/// # Errors
/// [`AllocError`] if out of memory.
pub fn put_frame_fault(
    out: &mut String,
    frame: &[u8],
    fault: FrameFault,
    place: usize,
) -> Result<(), AllocError> {
    match fault {
        FrameFault::NotPassThrough => put_not_pass_through(out, frame),
        FrameFault::BadControl => put_control(out, text_of(frame)),
        FrameFault::TooLong => put_too_long(out, place),
        FrameFault::Term(error) => put_term(out, frame, error, place),
    }
}
