//! The elements of a control term, by where each ends.
ghost use Rattle.std.specs.Prelude.{◌≡◌, ◌≤◌, length};
ghost use Rattle.erl_term.specs.Parts.{ReadsFront};
ghost use Rattle.erl_control.specs.Reading.{IsOpening, IsNaturalText, IsRowHead};
ghost use Rattle.c_library.specs.Elements.{IsEnd};

use erl_term::{TupleHead, integer_at, term_at, tuple_head_at};

/// The offsets at which the elements behind the tag end, and that of the first.
#[derive(Clone, Copy)]
pub(crate) struct Ends {
    pub(crate) start: usize,
    pub(crate) first: usize,
    pub(crate) second: usize,
    pub(crate) third: usize,
    pub(crate) fourth: usize,
}

/// Returns the head of the tuple behind the version byte, and the bytes behind the head.
fn opening_at(bytes: &[u8]) -> Option<(TupleHead, &[u8])>
    ensures { ReadsFront IsOpening bytes.now result }
{
    match bytes {
        [131, rest @ ..] => tuple_head_at(64, rest),
        _ => None,
    }
}

/// Returns the number at the front, if it is one of 64 bits without a sign, and the bytes behind it.
fn natural_at(levels: u32, bytes: &[u8]) -> Option<(u64, &[u8])>
    ensures { ReadsFront (IsNaturalText levels) bytes.now result }
{
    let (n, rest) = integer_at(levels, bytes)?;
    match u64::try_from(n) {
        Ok(natural) => Some((natural, rest)),
        Err(_) => None,
    }
}

/// Returns the head of the control term, its tag, and the bytes behind the tag.
pub(crate) fn row_head_at(bytes: &[u8]) -> Option<((TupleHead, u64), &[u8])>
    ensures { ReadsFront IsRowHead bytes.now result }
{
    let (head, elements) = opening_at(bytes)?;
    let (tag, fields) = natural_at(head.levels, elements)?;
    Some(((head, tag), fields))
}

/// Returns the offset behind the term that begins at `start`, or `start` if none begins there.
fn end_of(levels: u32, bytes: &[u8], start: usize) -> usize
    requires { start ≤ length bytes.now }
    ensures { IsEnd levels bytes.now start result }
{
    let (_, behind) = bytes.split_at(start);
    match term_at(levels, behind) {
        Some((_, rest)) => bytes.len() - rest.len(),
        None => start,
    }
}

/// Returns the ends of four terms that stand one behind the other from `start` on.
pub(crate) fn ends_of(levels: u32, bytes: &[u8], start: usize) -> Ends
    requires { start ≤ length bytes.now }
    ensures start { result.start ≡ start }
    ensures first { IsEnd levels bytes.now result.start result.first }
    ensures second { IsEnd levels bytes.now result.first result.second }
    ensures third { IsEnd levels bytes.now result.second result.third }
    ensures fourth { IsEnd levels bytes.now result.third result.fourth }
{
    let first = end_of(levels, bytes, start);
    let second = end_of(levels, bytes, first);
    let third = end_of(levels, bytes, second);
    let fourth = end_of(levels, bytes, third);
    Ends {
        start,
        first,
        second,
        third,
        fourth,
    }
}
