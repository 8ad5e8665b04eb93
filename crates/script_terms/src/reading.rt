//! Reading a term from a text.
ghost use Rattle.std.specs.Prelude.{◌≡◌, ◌<◌, true, IfOk, MatchResult, Ok, length, map};
ghost use Rattle.erl_term.specs.Data.{atom};
ghost use Rattle.erl_term.specs.Text.{is_atom_text};
ghost use Rattle.erl_term.specs.Data as terms;
ghost use Rattle.erl_term.specs.View.{view, items_view};
ghost use Rattle.script_terms.specs.Binding.{Look, Knows, named_data};
ghost use Rattle.script_terms.specs.Reading.{binary_at, byte_at, separated_at, leaf_at, tuple_at, list_at, cells_at, term_at, term_of};
ghost use Rattle.script_terms.specs.Checking.{Gives, IsRefused};

use crate::atoms::{atom_text, bare_of, quoted_of};
use crate::bytes::{after_mark, next_of};
use crate::checking::{BRACKETS, check_term};
use crate::fault::{ReadError, TermFault};
use crate::integers::{byte_of, integer_of};
use crate::lists::{Step, after_marks, step_of};
use crate::names::{Named, Names, named_of};
use erl_term::{Atom, Payload, Term};
use std::alloc::{AllocError, Global};

/// The term that the text is, with memory of its own.
///
/// `Fault` says what [`check_term`] does, and `OutOfMemory` comes only where the text is a term.
pub fn read_term(alloc: Global, names: &Names, text: &str) -> Result<Payload, ReadError>
    ensures { (look : Look) → Knows names.now look → MatchResult result (λ t. term_of look text.now ≡ Ok t) (λ e. IsRefused e (term_of look text.now)) }
{
    check_term(names, text)?;
    let (term, _) = value_of(alloc, names, BRACKETS, text.as_bytes())?;
    Ok(Payload::new(term))
}

/// The term at the front in which so many brackets may open, and the bytes after it.
#[cycle(read)]
fn value_of<'a>(
    alloc: Global,
    names: &Names,
    brackets: u32,
    bytes: &'a [u8],
) -> Result<(Term, &'a [u8]), ReadError>
    ensures { (look : Look) → Knows names.now look → Gives (λ x. (view x.0, x.1.now)) result (term_at look brackets bytes.now) }
{
    let (first, rest) = next_of(bytes)?;
    if first == b'{' {
        if brackets == 0 {
            return Err(ReadError::Fault(TermFault::BadTerm));
        }
        return tuple_of(alloc, names, brackets - 1, rest);
    }
    if first == b'[' {
        if brackets == 0 {
            return Err(ReadError::Fault(TermFault::BadTerm));
        }
        return list_of(alloc, names, brackets - 1, rest);
    }
    leaf_of(alloc, names, first, rest, bytes)
}

/// The term without brackets at the front, and the bytes after it.
#[tactic(auto, unfolding(crate::specs::Reading::leaf_at))]
fn leaf_of<'a>(
    alloc: Global,
    names: &Names,
    first: u8,
    rest: &'a [u8],
    bytes: &'a [u8],
) -> Result<(Term, &'a [u8]), ReadError>
    ensures { (look : Look) → Knows names.now look → Gives (λ x. (view x.0, x.1.now)) result (leaf_at look first rest.now bytes.now) }
{
    if first == b'$' {
        let (named, rest) = named_of(names, rest)?;
        return Ok((term_named(named)?, rest));
    }
    if first == b'\'' {
        let (text, rest) = quoted_of(rest)?;
        return Ok((atom_term(alloc, text.as_slice())?, rest));
    }
    if first == b'<' {
        let (bytes, rest) = binary_of(alloc, rest)?;
        return Ok((Term::Binary(bytes), rest));
    }
    if first.is_ascii_lowercase() {
        let (word, rest) = bare_of(bytes)?;
        return Ok((atom_term(alloc, word)?, rest));
    }
    let (n, rest) = integer_of(bytes)?;
    Ok((Term::Int(n), rest))
}

/// Returns the term of a process or of a reference.
fn term_named(named: &Named) -> Result<Term, AllocError>
    ensures { IfOk result (λ t. view t ≡ named_data named.now) }
{
    match named {
        Named::Process(pid) => Ok(Term::Pid(pid.clone()?)),
        Named::Monitor(reference) => Ok(Term::Reference(reference.clone()?)),
    }
}

/// The atom of this text.
fn atom_term(alloc: Global, text: &[u8]) -> Result<Term, AllocError>
    requires { is_atom_text text.now ≡ true }
    ensures { IfOk result (λ t. view t ≡ atom text.now) }
{
    match atom_text(text) {
        Some(text) => Ok(Term::Atom(Atom::new(String::from_str(alloc, text)?)?)),
        None => unreachable!(),
    }
}

/// The bytes of the binary whose first `<` came before, and the bytes after it.
#[tactic(auto, unfolding(crate::specs::Reading::binary_at))]
fn binary_of(alloc: Global, bytes: &[u8]) -> Result<(Vec<u8>, &[u8]), ReadError>
    ensures { Gives (λ x. (x.0.items, x.1.now)) result (binary_at bytes.now) }
{
    let bytes = after_mark(b'<', bytes)?;
    let (first, rest) = next_of(bytes)?;
    if first == b'>' {
        return Ok((Vec::new(alloc), after_mark(b'>', rest)?));
    }
    let (items, rest) = bytes_of(alloc, bytes)?;
    Ok((items, after_mark(b'>', rest)?))
}

fn bytes_of(alloc: Global, bytes: &[u8]) -> Result<(Vec<u8>, &[u8]), ReadError>
    ensures { Gives (λ x. (x.0.items, x.1.now)) result (separated_at byte_at 62 (length bytes.now) bytes.now) }
{
    let mut items = Vec::new(alloc);
    let mut rest = bytes;
    for _ in 0..bytes.len() {
        let (byte, after) = byte_of(rest)?;
        items.push(byte)?;
        let (mark, after) = next_of(after)?;
        match mark {
            b',' => rest = after,
            b'>' => return Ok((items, after)),
            _ => return Err(ReadError::Fault(TermFault::BadTerm)),
        }
    }
    Err(ReadError::Fault(TermFault::BadTerm))
}

/// The tuple whose brace came before, and the bytes after it.
#[cycle(read)]
#[tactic(auto, unfolding(crate::specs::Reading::tuple_at))]
fn tuple_of<'a>(
    alloc: Global,
    names: &Names,
    brackets: u32,
    bytes: &'a [u8],
) -> Result<(Term, &'a [u8]), ReadError>
    ensures { (look : Look) → Knows names.now look → Gives (λ x. (view x.0, x.1.now)) result (tuple_at (term_at look brackets) bytes.now) }
{
    let (first, rest) = next_of(bytes)?;
    if first == b'}' {
        return Ok((Term::Tuple(Vec::new(alloc)), rest));
    }
    let (elements, rest) = elements_of(alloc, names, brackets, bytes)?;
    Ok((Term::Tuple(elements), rest))
}

#[cycle(read)]
fn elements_of<'a>(
    alloc: Global,
    names: &Names,
    brackets: u32,
    bytes: &'a [u8],
) -> Result<(Vec<Term>, &'a [u8]), ReadError>
    ensures { (look : Look) → Knows names.now look → Gives (λ x. (map view x.0.items, x.1.now)) result (separated_at (term_at look brackets) 125 (length bytes.now) bytes.now) }
{
    let mut elements = Vec::new(alloc);
    let mut rest = bytes;
    for _ in 0..bytes.len() {
        let (element, after) = value_of(alloc, names, brackets, rest)?;
        elements.push(element)?;
        let (mark, after) = next_of(after)?;
        match mark {
            b',' => rest = after,
            b'}' => return Ok((elements, after)),
            _ => return Err(ReadError::Fault(TermFault::BadTerm)),
        }
    }
    Err(ReadError::Fault(TermFault::BadTerm))
}

/// The list whose bracket came before, and the bytes after it.
#[cycle(read)]
fn list_of<'a>(
    alloc: Global,
    names: &Names,
    brackets: u32,
    bytes: &'a [u8],
) -> Result<(Term, &'a [u8]), ReadError>
    ensures { (look : Look) → Knows names.now look → Gives (λ x. (view x.0, x.1.now)) result (list_at (cells_at (term_at look brackets) (length bytes.now)) bytes.now) }
{
    let (first, rest) = next_of(bytes)?;
    if first == b']' {
        return Ok((Term::list(Vec::new(alloc)), rest));
    }
    cells_of(alloc, names, brackets, bytes)
}

/// A list in the tail of a list goes on with its own items: nothing recurses there.
#[cycle(read)]
fn cells_of<'a>(
    alloc: Global,
    names: &Names,
    brackets: u32,
    bytes: &'a [u8],
) -> Result<(Term, &'a [u8]), ReadError>
    ensures { (look : Look) → Knows names.now look → Gives (λ x. (view x.0, x.1.now)) result (cells_at (term_at look brackets) (length bytes.now) bytes.now) }
{
    let mut items = Vec::new(alloc);
    let mut opened = 0;
    let mut rest = bytes;
    for _ in 0..bytes.len() {
        let (item, after) = value_of(alloc, names, brackets, rest)?;
        items.push(item)?;
        let (step, after) = step_of(after)?;
        match step {
            Step::Item => {}
            Step::List => opened += 1,
            Step::End => {
                let after = after_marks(b']', opened + 1, after)?;
                return Ok((Term::list(items), after));
            }
            Step::Tail => {
                let (tail, after) = value_of(alloc, names, brackets, after)?;
                let after = after_marks(b']', opened + 1, after)?;
                return Ok((improper(alloc, items, tail)?, after));
            }
        }
        rest = after;
    }
    Err(ReadError::Fault(TermFault::BadTerm))
}

/// The items with a tail behind them.
fn improper(alloc: Global, items: Vec<Term>, tail: Term) -> Result<Term, AllocError>
    ensures { IfOk result (λ t. view t ≡ terms.improper (items_view items.items) (view tail)) }
{
    let tail = Box::new(alloc, tail)?;
    Ok(Term::List {
        items,
        tail: Some(tail),
    })
}
