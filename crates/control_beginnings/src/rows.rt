//! The text of a signal, as one of the rows of the table.
ghost use Rattle.std.specs.Prelude.{◌≤◌, ◌↔◌, map, IfOk, IsTrue};
ghost use Rattle.readers.specs.Places.{Begins};
ghost use Rattle.erl_term.specs.Parts.{IsHead};
ghost use Rattle.erl_control.specs.Frame.{IsSignalText};
ghost use Rattle.control_beginnings.specs.Parts.{Starts, IsHeadOf, AreElements, IsRowText, Skips, IsTagAt, HaveTags, AnyStarts, seen};

use crate::fronts::{Front, begins_word, front_of};
use crate::numbers::tag_begins;
use crate::parts::parts_begin;
use crate::table::{ROWS, Row};
use crate::tags::{LARGE_TUPLE, MOST_HEAD_LEVELS, MOST_LEVELS, SMALL_TUPLE, VERSION};
use erl_term::{integer_at, tuple_head_at};
use std::alloc::{AllocError, Global};

/// Returns true if the head of a tuple of so many elements begins with the bytes.
fn own_head_begins(arity: u8, bytes: &[u8]) -> bool
    ensures { IsTrue result ↔ Starts (IsHead arity) bytes.now }
{
    if begins_word(&[SMALL_TUPLE, arity], bytes) {
        return true;
    }
    begins_word(&[LARGE_TUPLE, 0, 0, 0, arity], bytes)
}

/// Returns true if the head of a tuple of so many elements, in a term, begins with the bytes. Each element
/// has at least one level.
fn head_begins(arity: u8, bytes: &[u8]) -> bool
    ensures { IsTrue result ↔ Starts (IsHeadOf arity) bytes.now }
{
    match front_of(MOST_HEAD_LEVELS, bytes) {
        Front::Inside => true,
        Front::Behind(text) => own_head_begins(arity, text),
        Front::Refused => false,
    }
}

/// Returns the bytes behind the tag at the front.
fn behind_tag(levels: u32, tag: u8, bytes: &[u8]) -> Option<&[u8]>
    ensures { Skips (IsTagAt levels tag) bytes.now result }
{
    let (number, rest) = integer_at(levels, bytes)?;
    if number != i128::from(tag) {
        return None;
    }
    Some(rest)
}

/// Returns true if the row's tag and parts, of at most `levels` levels, begin with the bytes.
fn elements_begin(
    alloc: Global,
    levels: u32,
    row: &Row<'_>,
    bytes: &[u8],
) -> Result<bool, AllocError>
    requires some { 1 ≤ levels }
    requires within { levels ≤ 64 }
    requires tag { 1 ≤ row.now.tag }
    ensures { IfOk result (λ begins. IsTrue begins ↔ Starts (AreElements levels row.now.tag row.now.parts.now) bytes.now) }
{
    match behind_tag(levels, row.tag, bytes) {
        Some(rest) => parts_begin(alloc, levels, row.parts, rest),
        None => Ok(tag_begins(levels, row.tag, bytes)),
    }
}

/// Returns true if a text of the row begins with the bytes, which follow the version byte.
fn row_begins(alloc: Global, row: &Row<'_>, bytes: &[u8]) -> Result<bool, AllocError>
    requires { 1 ≤ row.now.tag }
    ensures { IfOk result (λ begins. IsTrue begins ↔ Starts (IsRowText row.now.arity row.now.tag row.now.parts.now) bytes.now) }
{
    let Some((head, elements)) = tuple_head_at(MOST_LEVELS, bytes) else {
        return Ok(head_begins(row.arity, bytes));
    };
    if head.levels == 0 || head.arity != u32::from(row.arity) {
        return Ok(false);
    }
    elements_begin(alloc, head.levels, row, elements)
}

/// Returns true if a text of one of the rows begins with the bytes, which follow the version byte.
fn any_row_begins(alloc: Global, rows: &[Row<'_>], bytes: &[u8]) -> Result<bool, AllocError>
    requires { HaveTags rows.now }
    ensures { IfOk result (λ begins. IsTrue begins ↔ AnyStarts (map seen rows.now) bytes.now) }
{
    for row in rows {
        if row_begins(alloc, row, bytes)? {
            return Ok(true);
        }
    }
    Ok(false)
}

/// Returns true if a control message, in one of its spellings, begins with these bytes.
///
/// The bytes may be none, or the whole message. Memory is asked for only inside a term. (ERTS User's Guide, Distribution
/// Protocol, Protocol between Connected Nodes; External Term Format.)
pub fn signal_begins(alloc: Global, text: &[u8]) -> Result<bool, AllocError>
    ensures { IfOk result (λ begins. IsTrue begins ↔ Begins (λ s b. IsSignalText s b) text.now) }
{
    match text {
        [] => Ok(true),
        [VERSION, rest @ ..] => any_row_begins(alloc, &ROWS, rest),
        _ => Ok(false),
    }
}
