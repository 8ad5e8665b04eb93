//! The parts of a control message behind the tag of its operation.
ghost use Rattle.std.specs.Prelude.{◌≡◌, ◌≤◌, ◌↔◌, IfOk, IsTrue};
ghost use Rattle.control_beginnings.specs.Parts.{Starts, Skips, IsOwnOf, IsKindAt, IsPart, AreParts, has_tag};

use crate::fronts::{Front, front_of};
use crate::numbers::id_begins;
use crate::tags::{
    ATOM, ATOM_UTF8, MOST_LEVELS, NEW_PID, NEWER_REFERENCE, SMALL_ATOM, SMALL_ATOM_UTF8, VERSION,
};
use crate::terms::{spelling_begins, term_begins};
use erl_term::{atom_at, integer_at, pid_at, reference_at, term_at};
use std::alloc::{AllocError, Global};

/// A kind of terms.
#[derive(Clone, Copy)]
pub enum Kind {
    /// Pids.
    Pid,
    /// Registered names, which are atoms.
    Name,
    /// Processes that are monitored: by pid, or by registered name.
    Target,
    /// References.
    Reference,
}

/// A part of a control message.
#[derive(Clone, Copy)]
pub enum Part {
    /// The Id of UNLINK_ID, from 1 to 2^64 - 1.
    Id,
    /// An element of a kind.
    Of(Kind),
    /// An element that is any term.
    Term,
    /// The message behind the control term.
    Message,
}

impl Kind {
    /// Returns true if a term of the kind has a row with this tag.
    fn has_tag(self, tag: u8) -> bool
        ensures { result ≡ has_tag self tag }
    {
        match tag {
            NEW_PID => matches!(self, Kind::Pid | Kind::Target),
            ATOM | SMALL_ATOM | ATOM_UTF8 | SMALL_ATOM_UTF8 => matches!(
                self,
                Kind::Name | Kind::Target
            ),
            NEWER_REFERENCE => matches!(self, Kind::Reference),
            _ => false,
        }
    }
}

/// Returns true if a term of the kind, in one of its own rows, begins with the bytes.
fn own_begins(alloc: Global, kind: Kind, bytes: &[u8]) -> Result<bool, AllocError>
    ensures { IfOk result (λ begins. IsTrue begins ↔ Starts (IsOwnOf kind) bytes.now) }
{
    match bytes {
        [] => Ok(true),
        [tag, ..] => {
            if !kind.has_tag(*tag) {
                return Ok(false);
            }
            term_begins(alloc, MOST_LEVELS, bytes)
        }
    }
}

/// Returns true if a term of the kind, of at most `levels` levels, begins with the bytes.
fn kind_begins(alloc: Global, levels: u32, kind: Kind, bytes: &[u8]) -> Result<bool, AllocError>
    ensures { IfOk result (λ begins. IsTrue begins ↔ Starts (IsKindAt levels kind) bytes.now) }
{
    match front_of(levels, bytes) {
        Front::Inside => Ok(true),
        Front::Behind(text) => own_begins(alloc, kind, text),
        Front::Refused => Ok(false),
    }
}

/// Returns true if a part, whose elements have at most `levels` levels, begins with the bytes.
fn part_begins(alloc: Global, levels: u32, part: Part, bytes: &[u8]) -> Result<bool, AllocError>
    requires { levels ≤ 64 }
    ensures { IfOk result (λ begins. IsTrue begins ↔ Starts (IsPart levels part) bytes.now) }
{
    match part {
        Part::Id => Ok(id_begins(levels, bytes)),
        Part::Of(kind) => kind_begins(alloc, levels, kind, bytes),
        Part::Term => term_begins(alloc, levels, bytes),
        Part::Message => Ok(spelling_begins(bytes)),
    }
}

/// Returns the bytes behind the Id at the front.
fn behind_id(levels: u32, bytes: &[u8]) -> Option<&[u8]>
    ensures { Skips (IsPart levels Part.Id) bytes.now result }
{
    let (id, rest) = integer_at(levels, bytes)?;
    if id < 1 || id > u64::MAX as i128 {
        return None;
    }
    Some(rest)
}

/// Returns the bytes behind the process at the front that is monitored.
fn behind_target(levels: u32, bytes: &[u8]) -> Option<&[u8]>
    ensures { Skips (IsKindAt levels Kind.Target) bytes.now result }
{
    if let Some((_, rest)) = pid_at(levels, bytes) {
        return Some(rest);
    }
    let (_, rest) = atom_at(levels, bytes)?;
    Some(rest)
}

/// Returns the bytes behind the term of the kind at the front.
fn behind_kind(levels: u32, kind: Kind, bytes: &[u8]) -> Option<&[u8]>
    ensures { Skips (IsKindAt levels kind) bytes.now result }
{
    match kind {
        Kind::Pid => {
            let (_, rest) = pid_at(levels, bytes)?;
            Some(rest)
        }
        Kind::Name => {
            let (_, rest) = atom_at(levels, bytes)?;
            Some(rest)
        }
        Kind::Target => behind_target(levels, bytes),
        Kind::Reference => {
            let (_, rest) = reference_at(levels, bytes)?;
            Some(rest)
        }
    }
}

/// Returns the bytes behind the term at the front.
fn behind_term(levels: u32, bytes: &[u8]) -> Option<&[u8]>
    ensures { Skips (IsPart levels Part.Term) bytes.now result }
{
    let (_, rest) = term_at(levels, bytes)?;
    Some(rest)
}

/// Returns the bytes behind the message at the front.
fn behind_message(levels: u32, bytes: &[u8]) -> Option<&[u8]>
    ensures { Skips (IsPart levels Part.Message) bytes.now result }
{
    match bytes {
        [VERSION, term @ ..] => behind_term(MOST_LEVELS, term),
        _ => None,
    }
}

/// Returns the bytes behind the part at the front.
fn behind(levels: u32, part: Part, bytes: &[u8]) -> Option<&[u8]>
    ensures { Skips (IsPart levels part) bytes.now result }
{
    match part {
        Part::Id => behind_id(levels, bytes),
        Part::Of(kind) => behind_kind(levels, kind, bytes),
        Part::Term => behind_term(levels, bytes),
        Part::Message => behind_message(levels, bytes),
    }
}

/// Returns true if the parts in a row, whose elements have at most `levels` levels, begin with the bytes.
pub fn parts_begin(
    alloc: Global,
    levels: u32,
    parts: &[Part],
    bytes: &[u8],
) -> Result<bool, AllocError>
    requires some { 1 ≤ levels }
    requires within { levels ≤ 64 }
    ensures { IfOk result (λ begins. IsTrue begins ↔ Starts (AreParts levels parts.now) bytes.now) }
{
    let mut rest = bytes;
    for part in parts {
        match behind(levels, *part, rest) {
            Some(after) => rest = after,
            None => return part_begins(alloc, levels, *part, rest),
        }
    }
    Ok(rest.is_empty())
}
