//! The lines about all items of some bytes.
ghost use Rattle.std.specs.Prelude.{◌≡◌, ◌<◌, ◌+◌, ◌^◌, ◌++◌, IfOk, List, OnOk, ℕ, drop, length, string_bytes};
ghost use Rattle.item_decoder.specs.All.{IsLine, IsProgress, MayStep};
ghost use Rattle.item_decoder.specs.Stages.{reader_of};
ghost use Rattle.item_decoder.specs.Told.{IsTold, Moves};
ghost use Rattle.item_decoder.specs.declared.all.Style.TheVariants as style;
ghost use Rattle.item_decoder.specs.declared.told.Told.{Told};

use crate::answers::Answer;
use crate::lines::put_told;
use crate::objects::put_object;
use crate::stages::Next;
use crate::told::{Told, told_of};
use crate::tree::put_tree;
use std::alloc::{AllocError, Global};

/// The style of the lines.
#[derive(Clone, Copy, Debug, PartialEq, Eq)]
pub enum Style {
    /// Words.
    Words,
    /// An object of JSON.
    Json,
    /// Words, and behind these a line for each field, with its place and its length.
    Tree,
}

// Appends the words of an item, and a line for each of its fields.
fn put_with_fields(
    alloc: Global,
    out: &mut String,
    at: u64,
    item: &[u8],
    told: &Told,
) -> Result<(), AllocError>
    requires { at + told.now.place < 2 ^ 64 }
    ensures { OnOk result ((line : List ℕ) × IsLine style.Tree at told.now line × (string_bytes out.new ≡ string_bytes out.old ++ line)) }
{
    put_told(alloc, out, at, told)?;
    let mut fields = String::new(alloc);
    if let Answer::Found(found, _) = &told.answer {
        put_tree(alloc, &mut fields, item, at, found)?;
    }
    out.push_str(fields.as_str())
}

// Appends the line of all that is told of an item, whose first byte is at this place.
fn put_line(
    alloc: Global,
    out: &mut String,
    style: Style,
    at: u64,
    item: &[u8],
    told: &Told,
) -> Result<(), AllocError>
    requires { at + told.now.place < 2 ^ 64 }
    ensures { OnOk result ((line : List ℕ) × IsLine style at told.now line × (string_bytes out.new ≡ string_bytes out.old ++ line)) }
{
    match style {
        Style::Words => put_told(alloc, out, at, told),
        Style::Json => put_object(alloc, out, at, told),
        Style::Tree => put_with_fields(alloc, out, at, item, told),
    }
}

/// The items of some bytes that were told of.
#[derive(Clone, Copy, Debug, PartialEq, Eq)]
pub struct Progress {
    /// The number of their bytes. Behind them stands nothing, or an item that may go on.
    pub taken: usize,
    /// True if each item was read.
    pub all_read: bool,
}

/// A step over one item.
#[derive(Clone, Copy, Debug, PartialEq, Eq)]
pub struct Step {
    /// The number of its bytes.
    pub len: usize,
    /// The form and the stage of the bytes behind it.
    pub next: Next,
    /// True if it was read.
    pub found: bool,
}

// Appends the line of an item at this place, and returns the step over it. Returns None if the item may go on.
fn put_step(
    alloc: Global,
    out: &mut String,
    style: Style,
    next: Next,
    at: u64,
    item: &[u8],
    told: &Told,
    ends: bool,
) -> Result<Option<Step>, AllocError>
    requires { at + told.now.place < 2 ^ 64 }
    ensures { IfOk result (λ step. MayStep style next at told.now ends (string_bytes out.old) (string_bytes out.new) step) }
{
    if !ends && told.answer.is_begun() {
        return Ok(None);
    }
    put_line(alloc, out, style, at, item, told)?;
    Ok(Some(Step {
        len: told.len,
        next: next.after(&told.answer),
        found: told.answer.is_found(),
    }))
}

// Returns the first bytes, so many.
fn front(bytes: &[u8], len: usize) -> &[u8] {
    bytes.get(..len).unwrap_or(bytes)
}

// Appends the line of the item at the front, which is at this place. Returns None if the item may go on.
fn put_one(
    alloc: Global,
    out: &mut String,
    style: Style,
    next: Next,
    at: u64,
    bytes: &[u8],
    ends: bool,
) -> Result<Option<Step>, AllocError>
    requires { at + length bytes.now < 2 ^ 64 }
    ensures { IfOk result (λ step. (told : Told) × IsTold (reader_of next bytes.now) bytes.now told × Moves bytes.now told.len
        × MayStep style next at told ends (string_bytes out.old) (string_bytes out.new) step) }
{
    match told_of(alloc, next.reader(bytes), bytes) {
        Ok(told) => put_step(
            alloc,
            out,
            style,
            next,
            at,
            front(bytes, told.len),
            &told,
            ends,
        ),
        Err(fault) => Err(fault),
    }
}

// Returns the bytes behind so many.
fn behind(bytes: &[u8], taken: usize) -> &[u8]
    ensures { result.now ≡ drop taken bytes.now }
{
    match bytes.get(taken..) {
        Some(rest) => rest,
        None => &[],
    }
}

/// Appends a line for each item of the bytes, of which the first is at this place. `ends` says that no bytes follow:
/// without it, bytes that end inside an item are left.
///
/// # Errors
/// [`AllocError`] if out of memory.
pub fn put_all(
    alloc: Global,
    out: &mut String,
    style: Style,
    next: &mut Next,
    from: u64,
    bytes: &[u8],
    ends: bool,
) -> Result<Progress, AllocError>
    requires { from + length bytes.now < 2 ^ 64 }
    ensures { IfOk result (λ progress. (lines : List ℕ) × (string_bytes out.new ≡ string_bytes out.old ++ lines) × IsProgress style next.old from bytes.now lines ends progress next.new) }
{
    let mut taken = 0usize;
    let mut all_read = true;
    while taken < bytes.len() {
        let at = from + taken as u64;
        let Some(step) = put_one(alloc, out, style, *next, at, behind(bytes, taken), ends)? else {
            break;
        };
        taken += step.len;
        all_read &= step.found;
        *next = step.next;
    }
    Ok(Progress { taken, all_read })
}
