//! Reading over a term with no value and no memory: where it ends and what its canonical spelling
//! takes, or the first fault.
ghost use Rattle.std.specs.Prelude.{◌≤◌};
ghost use Rattle.erl_term.specs.Data.{atom, pid, reference};
ghost use Rattle.erl_term.specs.Reading.{seen, read_small, read_integer, read_big, read_atom, read_latin, read_pid, read_reference, read_string, read_binary, items_with, tuple_with, list_with, read_term, read_spelling};
ghost use Rattle.erl_term.specs.Skipping.{Skips};
ghost use Rattle.erl_term.specs.Size.{Measures, measure_of, run_of};

use crate::error::TermError;
use crate::field::{byte_of, half_of, number_of, part_of, word_of};
use crate::parts::{latin_ref_of, pid_fields_of, reference_fields_of, utf8_ref_of};
use crate::reading::big_value_of;
use crate::size::{Measure, Run};
use crate::tag;

/// The measure of the term at the front, and the bytes after it.
#[cycle(sizer)]
#[tactic(auto, unfolding(crate::specs::Reading::read_term, crate::specs::Reading::row_with))]
pub(crate) fn term_measure_of(levels: u32, bytes: &[u8]) -> Result<(Measure, &[u8]), TermError>
    ensures { Measures measure_of (read_term levels bytes.now) result }
{
    let Some(below) = levels.checked_sub(1) else {
        return Err(TermError::TooDeep);
    };
    let (tag, rest) = byte_of(bytes)?;
    match tag {
        tag::SMALL_INTEGER => small_measure_of(rest),
        tag::INTEGER => integer_measure_of(rest),
        tag::SMALL_BIG => big_measure_of(rest),
        tag::ATOM_UTF8 => atom_measure_of(2, rest),
        tag::SMALL_ATOM_UTF8 => atom_measure_of(1, rest),
        tag::SMALL_TUPLE => tuple_measure_of(below, 1, rest),
        tag::LARGE_TUPLE => tuple_measure_of(below, 4, rest),
        tag::NEW_PID => pid_measure_of(rest),
        tag::SMALL_ATOM => latin_measure_of(1, rest),
        tag::ATOM => latin_measure_of(2, rest),
        tag::NIL => Ok((Measure::of_bytes(&[]), rest)),
        tag::STRING => string_measure_of(rest),
        tag::LIST => list_measure_of(below, rest),
        tag::BINARY => binary_measure_of(rest),
        tag::NEWER_REFERENCE => reference_measure_of(rest),
        _ => Err(TermError::OutOfProfile(tag)),
    }
}

#[tactic(auto, unfolding(crate::specs::Reading::read_small))]
fn small_measure_of(bytes: &[u8]) -> Result<(Measure, &[u8]), TermError>
    ensures { Measures measure_of (read_small bytes.now) result }
{
    let (n, rest) = byte_of(bytes)?;
    Ok((Measure::of_integer(i128::from(n)), rest))
}

#[tactic(auto, unfolding(crate::specs::Reading::read_integer))]
fn integer_measure_of(bytes: &[u8]) -> Result<(Measure, &[u8]), TermError>
    ensures { Measures measure_of (read_integer bytes.now) result }
{
    let (n, rest) = word_of(bytes)?;
    Ok((Measure::of_integer(i128::from(n.cast_signed())), rest))
}

fn big_measure_of(bytes: &[u8]) -> Result<(Measure, &[u8]), TermError>
    ensures { Measures measure_of (read_big bytes.now) result }
{
    let (n, rest) = big_value_of(bytes)?;
    Ok((Measure::of_integer(n), rest))
}

fn atom_measure_of(width: usize, bytes: &[u8]) -> Result<(Measure, &[u8]), TermError>
    requires low { 1 ≤ width }
    requires high { width ≤ 2 }
    ensures { Measures measure_of (seen atom (read_atom width bytes.now)) result }
{
    let (atom, rest) = utf8_ref_of(width, bytes)?;
    Ok((Measure::of_atom(&atom), rest))
}

fn latin_measure_of(width: usize, bytes: &[u8]) -> Result<(Measure, &[u8]), TermError>
    requires low { 1 ≤ width }
    requires high { width ≤ 2 }
    ensures { Measures measure_of (seen atom (read_latin width bytes.now)) result }
{
    let (atom, rest) = latin_ref_of(width, bytes)?;
    Ok((Measure::of_atom(&atom), rest))
}

fn pid_measure_of(bytes: &[u8]) -> Result<(Measure, &[u8]), TermError>
    ensures { Measures measure_of (seen pid (read_pid bytes.now)) result }
{
    let (pid, rest) = pid_fields_of(bytes)?;
    Ok((Measure::of_pid(&pid), rest))
}

fn reference_measure_of(bytes: &[u8]) -> Result<(Measure, &[u8]), TermError>
    ensures { Measures measure_of (seen reference (read_reference bytes.now)) result }
{
    let (reference, rest) = reference_fields_of(bytes)?;
    Ok((Measure::of_reference(&reference), rest))
}

#[tactic(auto, unfolding(crate::specs::Reading::read_string))]
fn string_measure_of(bytes: &[u8]) -> Result<(Measure, &[u8]), TermError>
    ensures { Measures measure_of (read_string bytes.now) result }
{
    let (len, rest) = half_of(bytes)?;
    let (letters, rest) = part_of(rest, usize::from(len))?;
    Ok((Measure::of_bytes(letters), rest))
}

#[tactic(auto, unfolding(crate::specs::Reading::read_binary))]
fn binary_measure_of(bytes: &[u8]) -> Result<(Measure, &[u8]), TermError>
    ensures { Measures measure_of (read_binary bytes.now) result }
{
    let (len, rest) = word_of(bytes)?;
    let (part, rest) = part_of(rest, len as usize)?;
    Ok((Measure::of_binary(part), rest))
}

#[cycle(sizer)]
#[tactic(auto, unfolding(crate::specs::Reading::list_with))]
fn list_measure_of(below: u32, bytes: &[u8]) -> Result<(Measure, &[u8]), TermError>
    ensures { Measures measure_of (list_with below (read_term below) bytes.now) result }
{
    if below == 0 {
        return Err(TermError::TooDeep);
    }
    let (count, rest) = word_of(bytes)?;
    let (items, rest) = items_measure_of(below, u64::from(count), rest)?;
    let (tail, rest) = term_measure_of(below, rest)?;
    Ok((items.join(tail), rest))
}

#[cycle(sizer)]
#[tactic(auto, unfolding(crate::specs::Reading::tuple_with))]
fn tuple_measure_of(below: u32, width: usize, bytes: &[u8]) -> Result<(Measure, &[u8]), TermError>
    requires low { 1 ≤ width }
    requires high { width ≤ 8 }
    ensures { Measures measure_of (tuple_with below (read_term below) width bytes.now) result }
{
    let most = if below == 0 { 0 } else { u64::from(u32::MAX) };
    let (arity, rest) = number_of(bytes, width, most, TermError::TooDeep)?;
    let (items, rest) = items_measure_of(below, arity, rest)?;
    Ok((items.tuple(), rest))
}

#[cycle(sizer)]
fn items_measure_of(below: u32, count: u64, bytes: &[u8]) -> Result<(Run, &[u8]), TermError>
    ensures { Measures run_of (items_with (read_term below) count bytes.now) result }
{
    let mut items = Run::empty();
    let mut rest = bytes;
    for _ in 0..count {
        let (item, after) = term_measure_of(below, rest)?;
        items = items.then(item.alone());
        rest = after;
    }
    Ok((items, rest))
}

/// The bytes after the spelling at the front.
#[tactic(auto, unfolding(crate::specs::Reading::read_spelling))]
pub(crate) fn skip_spelling(bytes: &[u8]) -> Result<&[u8], TermError>
    ensures { Skips (read_spelling bytes.now) result }
{
    let (version, rest) = byte_of(bytes)?;
    if version != tag::VERSION {
        return Err(TermError::Malformed);
    }
    let (_, rest) = term_measure_of(64, rest)?;
    Ok(rest)
}
