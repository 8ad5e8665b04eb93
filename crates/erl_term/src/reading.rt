//! Reading a term from the left, up to the first fault.
ghost use Rattle.std.specs.Prelude.{◌≡◌, ◌≤◌};
ghost use Rattle.erl_term.specs.Reading.{Gives, Answers, seen, read_small, read_integer, read_big, read_atom, read_latin, read_pid, read_reference, read_string, read_binary, items_with, tuple_with, list_with, row_with, read_term, read_spelling};
ghost use Rattle.erl_term.specs.Data.{int, atom, pid, reference};
ghost use Rattle.erl_term.specs.View.{view, items_view};

use crate::atom::Atom;
use crate::error::TermError;
use crate::field::{byte_of, half_of, number_of, part_of, word_of};
use crate::lists::{byte_list, join};
use crate::magnitude::{number_in, signed_of};
use crate::parts::{atom_ref_of, letters_of, pid_fields_of, reference_fields_of};
use crate::tag;
use crate::term::Term;
use crate::text::latin_text;
use std::alloc::Global;

/// The term whose spelling stands at the front, and the bytes after it.
#[tactic(auto, unfolding(crate::specs::Reading::read_spelling))]
pub(crate) fn spelling_of(alloc: Global, bytes: &[u8]) -> Result<(Term, &[u8]), TermError>
    ensures { Gives (λ x. (view x.0, x.1.now)) result (read_spelling bytes.now) }
{
    let (version, rest) = byte_of(bytes)?;
    if version != tag::VERSION {
        return Err(TermError::Malformed);
    }
    term_of(alloc, 64, rest)
}

/// The term of at most so many levels at the front, and the bytes after it.
#[cycle(reader)]
#[tactic(auto, unfolding(crate::specs::Reading::read_term, crate::specs::Reading::row_with))]
pub(crate) fn term_of(alloc: Global, levels: u32, bytes: &[u8]) -> Result<(Term, &[u8]), TermError>
    ensures { Gives (λ x. (view x.0, x.1.now)) result (read_term levels bytes.now) }
{
    let Some(below) = levels.checked_sub(1) else {
        return Err(TermError::TooDeep);
    };
    let (tag, rest) = byte_of(bytes)?;
    match tag {
        tag::SMALL_INTEGER => small_of(rest),
        tag::INTEGER => integer_of(rest),
        tag::SMALL_BIG => big_of(rest),
        tag::ATOM_UTF8 => atom_term_of(alloc, 2, rest),
        tag::SMALL_ATOM_UTF8 => atom_term_of(alloc, 1, rest),
        tag::SMALL_TUPLE => tuple_of(alloc, below, 1, rest),
        tag::LARGE_TUPLE => tuple_of(alloc, below, 4, rest),
        tag::NEW_PID => pid_term_of(alloc, rest),
        tag::SMALL_ATOM => latin_term_of(alloc, 1, rest),
        tag::ATOM => latin_term_of(alloc, 2, rest),
        tag::NIL => Ok((Term::list(Vec::new(alloc)), rest)),
        tag::STRING => string_of(alloc, rest),
        tag::LIST => list_of(alloc, below, rest),
        tag::BINARY => binary_of(alloc, rest),
        tag::NEWER_REFERENCE => reference_term_of(alloc, rest),
        _ => Err(TermError::OutOfProfile(tag)),
    }
}

#[tactic(auto, unfolding(crate::specs::Reading::read_small))]
fn small_of(bytes: &[u8]) -> Result<(Term, &[u8]), TermError>
    ensures { Gives (λ x. (view x.0, x.1.now)) result (read_small bytes.now) }
{
    let (n, rest) = byte_of(bytes)?;
    Ok((Term::Int(i128::from(n)), rest))
}

#[tactic(auto, unfolding(crate::specs::Reading::read_integer))]
fn integer_of(bytes: &[u8]) -> Result<(Term, &[u8]), TermError>
    ensures { Gives (λ x. (view x.0, x.1.now)) result (read_integer bytes.now) }
{
    let (n, rest) = word_of(bytes)?;
    Ok((Term::Int(i128::from(n.cast_signed())), rest))
}

#[tactic(auto, unfolding(crate::specs::Reading::read_big))]
pub(crate) fn big_value_of(bytes: &[u8]) -> Result<(i128, &[u8]), TermError>
    ensures { Answers (λ x. (int x.0, x.1.now)) result (read_big bytes.now) }
{
    let (len, rest) = number_of(bytes, 1, 16, TermError::OutOfProfile(tag::SMALL_BIG))?;
    let (sign, rest) = number_of(rest, 1, 1, TermError::Malformed)?;
    let (magnitude, rest) = part_of(rest, len as usize)?;
    let magnitude = number_in(magnitude);
    if magnitude >= (1 << 127) + sign as u128 {
        return Err(TermError::OutOfProfile(tag::SMALL_BIG));
    }
    Ok((signed_of(sign, magnitude), rest))
}

fn big_of(bytes: &[u8]) -> Result<(Term, &[u8]), TermError>
    ensures { Gives (λ x. (view x.0, x.1.now)) result (read_big bytes.now) }
{
    let (n, rest) = big_value_of(bytes)?;
    Ok((Term::Int(n), rest))
}

/// The atom whose length, in so many bytes, and text come next.
fn atom_of(alloc: Global, width: usize, bytes: &[u8]) -> Result<(Atom, &[u8]), TermError>
    requires low { 1 ≤ width }
    requires high { width ≤ 8 }
    ensures { Gives (λ x. (x.0, x.1.now)) result (read_atom width bytes.now) }
{
    let (text, rest) = atom_ref_of(width, bytes)?;
    Ok((Atom::new(String::from_str(alloc, text)?)?, rest))
}

/// The atom in Latin-1 whose length, in so many bytes, and letters come next.
#[tactic(auto, unfolding(crate::specs::Reading::read_latin))]
fn latin_of(alloc: Global, width: usize, bytes: &[u8]) -> Result<(Atom, &[u8]), TermError>
    requires low { 1 ≤ width }
    requires high { width ≤ 8 }
    ensures { Gives (λ x. (x.0, x.1.now)) result (read_latin width bytes.now) }
{
    let (letters, rest) = letters_of(width, bytes)?;
    Ok((Atom::new(latin_text(alloc, letters)?)?, rest))
}

fn atom_term_of(alloc: Global, width: usize, bytes: &[u8]) -> Result<(Term, &[u8]), TermError>
    requires low { 1 ≤ width }
    requires high { width ≤ 8 }
    ensures { Gives (λ x. (view x.0, x.1.now)) result (seen atom (read_atom width bytes.now)) }
{
    let (atom, rest) = atom_of(alloc, width, bytes)?;
    Ok((Term::Atom(atom), rest))
}

fn latin_term_of(alloc: Global, width: usize, bytes: &[u8]) -> Result<(Term, &[u8]), TermError>
    requires low { 1 ≤ width }
    requires high { width ≤ 8 }
    ensures { Gives (λ x. (view x.0, x.1.now)) result (seen atom (read_latin width bytes.now)) }
{
    let (atom, rest) = latin_of(alloc, width, bytes)?;
    Ok((Term::Atom(atom), rest))
}

fn pid_term_of(alloc: Global, bytes: &[u8]) -> Result<(Term, &[u8]), TermError>
    ensures { Gives (λ x. (view x.0, x.1.now)) result (seen pid (read_pid bytes.now)) }
{
    let (pid, rest) = pid_fields_of(bytes)?;
    Ok((Term::Pid(pid.to_pid(alloc)?), rest))
}

fn reference_term_of(alloc: Global, bytes: &[u8]) -> Result<(Term, &[u8]), TermError>
    ensures { Gives (λ x. (view x.0, x.1.now)) result (seen reference (read_reference bytes.now)) }
{
    let (reference, rest) = reference_fields_of(bytes)?;
    Ok((Term::Reference(reference.to_reference(alloc)?), rest))
}

#[tactic(auto, unfolding(crate::specs::Reading::read_string))]
fn string_of(alloc: Global, bytes: &[u8]) -> Result<(Term, &[u8]), TermError>
    ensures { Gives (λ x. (view x.0, x.1.now)) result (read_string bytes.now) }
{
    let (len, rest) = half_of(bytes)?;
    let (letters, rest) = part_of(rest, usize::from(len))?;
    Ok((Term::list(byte_list(alloc, letters)?), rest))
}

#[tactic(auto, unfolding(crate::specs::Reading::read_binary))]
fn binary_of(alloc: Global, bytes: &[u8]) -> Result<(Term, &[u8]), TermError>
    ensures { Gives (λ x. (view x.0, x.1.now)) result (read_binary bytes.now) }
{
    let (len, rest) = word_of(bytes)?;
    let (part, rest) = part_of(rest, len as usize)?;
    Ok((Term::Binary(Vec::from_slice(alloc, part)?), rest))
}

#[cycle(reader)]
#[tactic(auto, unfolding(crate::specs::Reading::list_with))]
fn list_of(alloc: Global, below: u32, bytes: &[u8]) -> Result<(Term, &[u8]), TermError>
    ensures { Gives (λ x. (view x.0, x.1.now)) result (list_with below (read_term below) bytes.now) }
{
    if below == 0 {
        return Err(TermError::TooDeep);
    }
    let (count, rest) = word_of(bytes)?;
    let (items, rest) = items_of(alloc, below, u64::from(count), rest)?;
    let (tail, rest) = term_of(alloc, below, rest)?;
    Ok((join(alloc, items, tail)?, rest))
}

#[cycle(reader)]
#[tactic(auto, unfolding(crate::specs::Reading::tuple_with))]
fn tuple_of(
    alloc: Global,
    below: u32,
    width: usize,
    bytes: &[u8],
) -> Result<(Term, &[u8]), TermError>
    requires low { 1 ≤ width }
    requires high { width ≤ 8 }
    ensures { Gives (λ x. (view x.0, x.1.now)) result (tuple_with below (read_term below) width bytes.now) }
{
    let most = if below == 0 { 0 } else { u64::from(u32::MAX) };
    let (arity, rest) = number_of(bytes, width, most, TermError::TooDeep)?;
    let (items, rest) = items_of(alloc, below, arity, rest)?;
    Ok((Term::Tuple(items), rest))
}

#[cycle(reader)]
fn items_of(
    alloc: Global,
    below: u32,
    count: u64,
    bytes: &[u8],
) -> Result<(Vec<Term>, &[u8]), TermError>
    ensures { Gives (λ x. (items_view x.0.items, x.1.now)) result (items_with (read_term below) count bytes.now) }
{
    // Each item takes a byte at least.
    let mut items = Vec::with_capacity(alloc, bytes.len().min(count as usize))?;
    let mut rest = bytes;
    for _ in 0..count {
        let (item, after) = term_of(alloc, below, rest)?;
        items.push(item)?;
        rest = after;
    }
    Ok((items, rest))
}
