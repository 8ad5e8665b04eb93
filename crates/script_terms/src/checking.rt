//! The check that a text is a term. Nothing here takes memory.
ghost use Rattle.std.specs.Prelude.{◌≡◌, ◌+◌, ◌&&◌, ◌||◌, false, length, nat_le, nat_lt};
ghost use Rattle.erl_term.specs.Canonical.{levels_of, most_levels};
ghost use Rattle.erl_term.specs.Canonical as canonical;
ghost use Rattle.erl_term.specs.Data.{int};
ghost use Rattle.erl_term.specs.View.{items_of};
ghost use Rattle.script_terms.specs.Binding.{Look, Knows};
ghost use Rattle.script_terms.specs.Reading.{binary_at, byte_at, separated_at, leaf_at, tuple_at, list_at, cells_at, term_at, term_of};
ghost use Rattle.script_terms.specs.Checking.{Tells, HasShape, checked};

use crate::atoms::{bare_of, quoted_of};
use crate::bytes::{after_mark, next_of};
use crate::fault::TermFault;
use crate::integers::{byte_of, integer_of};
use crate::lists::{Step, after_marks, step_of};
use crate::names::{Names, named_of};

/// The most brackets, `{` or `[`, that open one inside another, and the most levels of a term.
pub(crate) const BRACKETS: u32 = 64;

/// The facts about a term that isn't kept.
#[derive(Clone, Copy, Debug)]
pub(crate) struct Shape {
    /// True if it has no more levels than brackets could open in its place.
    pub(crate) fits: bool,
    /// True if it is an integer of 0 to 255.
    pub(crate) is_byte: bool,
}

impl Shape {
    /// That of a tuple or a list.
    fn bracketed(fits: bool) -> Shape
        ensures fits { result.fits ≡ fits }
        ensures is_byte { result.is_byte ≡ false }
    {
        Shape {
            fits,
            is_byte: false,
        }
    }
}

/// The facts about terms in a row that aren't kept.
#[derive(Clone, Copy, Debug)]
struct Row {
    /// True if each of them fits.
    fit: bool,
    /// True if each of them is an integer of 0 to 255.
    are_bytes: bool,
}

impl Row {
    const EMPTY: Row = Row {
        fit: true,
        are_bytes: true,
    };

    /// The same with one more behind them.
    fn and(self, next: Shape) -> Row
        ensures fit { result.fit ≡ (self.fit && next.fits) }
        ensures are_bytes { result.are_bytes ≡ (self.are_bytes && next.is_byte) }
    {
        Row {
            fit: self.fit && next.fits,
            are_bytes: self.are_bytes && next.is_byte,
        }
    }

    /// Returns true if the list of them fits, with so many before the last. A list of fewer than 65,536
    /// bytes is one level.
    fn list_fits(self, before_last: usize) -> bool
        ensures { result ≡ (self.fit || (self.are_bytes && nat_lt before_last 65535)) }
    {
        self.fit || (self.are_bytes && before_last < 65535)
    }

    /// Returns true if the list of them and of this tail fits.
    fn improper_fits(self, tail: Shape) -> bool
        ensures { result ≡ (self.fit && tail.fits) }
    {
        self.fit && tail.fits
    }
}

/// Checks that the text is a term of a script, or returns its fault. It takes no memory.
///
/// The first fault from the left decides. More than 64 levels are looked at last, but that a
/// bracket is refused where it opens inside 64 others.
#[tactic(auto, unfolding(crate::specs::Reading::term_of))]
pub fn check_term(names: &Names, text: &str) -> Result<(), TermFault>
    ensures { (look : Look) → Knows names.now look → result ≡ checked (term_of look text.now) }
{
    let (shape, rest) = check_value(names, BRACKETS, text.as_bytes())?;
    if !rest.is_empty() || !shape.fits {
        return Err(TermFault::BadTerm);
    }
    Ok(())
}

/// The shape of the term at the front in which so many brackets may open, and the bytes after it.
#[cycle(check)]
fn check_value<'a>(
    names: &Names,
    brackets: u32,
    bytes: &'a [u8],
) -> Result<(Shape, &'a [u8]), TermFault>
    ensures { (look : Look) → Knows names.now look → Tells (λ x y. (y.1 ≡ x.1.now) × HasShape brackets y.0 x.0) result (term_at look brackets bytes.now) }
{
    let (first, rest) = next_of(bytes)?;
    if first == b'{' {
        if brackets == 0 {
            return Err(TermFault::BadTerm);
        }
        let (fits, rest) = check_tuple(names, brackets - 1, rest)?;
        return Ok((Shape::bracketed(fits), rest));
    }
    if first == b'[' {
        if brackets == 0 {
            return Err(TermFault::BadTerm);
        }
        let (fits, rest) = check_list(names, brackets - 1, rest)?;
        return Ok((Shape::bracketed(fits), rest));
    }
    let (is_byte, rest) = check_leaf(names, first, rest, bytes)?;
    let fits = brackets >= 1;
    Ok((Shape { fits, is_byte }, rest))
}

/// Returns true if the term without brackets at the front is an integer of a byte, and the bytes after it.
#[tactic(auto, unfolding(crate::specs::Reading::leaf_at))]
fn check_leaf<'a>(
    names: &Names,
    first: u8,
    rest: &'a [u8],
    bytes: &'a [u8],
) -> Result<(bool, &'a [u8]), TermFault>
    ensures { (look : Look) → Knows names.now look → Tells (λ x y. (y.1 ≡ x.1.now) × (x.0 ≡ canonical.is_byte y.0) × (levels_of y.0 ≡ 1)) result (leaf_at look first rest.now bytes.now) }
{
    if first == b'$' {
        let (_, rest) = named_of(names, rest)?;
        return Ok((false, rest));
    }
    if first == b'\'' {
        let (_, rest) = quoted_of(rest)?;
        return Ok((false, rest));
    }
    if first == b'<' {
        return Ok((false, check_binary(rest)?));
    }
    if first.is_ascii_lowercase() {
        let (_, rest) = bare_of(bytes)?;
        return Ok((false, rest));
    }
    let (n, rest) = integer_of(bytes)?;
    Ok((is_byte(n), rest))
}

/// Returns true if the integer is one of a byte.
fn is_byte(n: i128) -> bool
    ensures { result ≡ canonical.is_byte (int n) }
{
    u8::try_from(n).is_ok()
}

/// The bytes after the binary whose first `<` came before.
#[tactic(auto, unfolding(crate::specs::Reading::binary_at))]
fn check_binary(bytes: &[u8]) -> Result<&[u8], TermFault>
    ensures { Tells (λ x y. y.1 ≡ x.now) result (binary_at bytes.now) }
{
    let bytes = after_mark(b'<', bytes)?;
    let (first, rest) = next_of(bytes)?;
    if first == b'>' {
        return after_mark(b'>', rest);
    }
    after_mark(b'>', check_bytes(bytes)?)
}

fn check_bytes(bytes: &[u8]) -> Result<&[u8], TermFault>
    ensures { Tells (λ x y. y.1 ≡ x.now) result (separated_at byte_at 62 (length bytes.now) bytes.now) }
{
    let mut rest = bytes;
    for _ in 0..bytes.len() {
        let (_byte, after) = byte_of(rest)?;
        let (mark, after) = next_of(after)?;
        match mark {
            b',' => rest = after,
            b'>' => return Ok(after),
            _ => return Err(TermFault::BadTerm),
        }
    }
    Err(TermFault::BadTerm)
}

/// Returns true if the tuple whose brace came before has at most one level more than brackets may open in
/// it, and the bytes after it.
#[cycle(check)]
#[tactic(auto, unfolding(crate::specs::Reading::tuple_at))]
fn check_tuple<'a>(
    names: &Names,
    brackets: u32,
    bytes: &'a [u8],
) -> Result<(bool, &'a [u8]), TermFault>
    ensures { (look : Look) → Knows names.now look → Tells (λ x y. (y.1 ≡ x.1.now) × (x.0 ≡ nat_le (levels_of y.0) (brackets + 1)) × (canonical.is_byte y.0 ≡ false)) result (tuple_at (term_at look brackets) bytes.now) }
{
    let (first, rest) = next_of(bytes)?;
    if first == b'}' {
        return Ok((true, rest));
    }
    check_elements(names, brackets, bytes)
}

#[cycle(check)]
fn check_elements<'a>(
    names: &Names,
    brackets: u32,
    bytes: &'a [u8],
) -> Result<(bool, &'a [u8]), TermFault>
    ensures { (look : Look) → Knows names.now look → Tells (λ x y. (y.1 ≡ x.1.now) × (x.0 ≡ nat_le (most_levels (items_of y.0)) brackets)) result (separated_at (term_at look brackets) 125 (length bytes.now) bytes.now) }
{
    let mut row = Row::EMPTY;
    let mut rest = bytes;
    for _ in 0..bytes.len() {
        let (element, after) = check_value(names, brackets, rest)?;
        row = row.and(element);
        let (mark, after) = next_of(after)?;
        match mark {
            b',' => rest = after,
            b'}' => return Ok((row.fit, after)),
            _ => return Err(TermFault::BadTerm),
        }
    }
    Err(TermFault::BadTerm)
}

/// The same of the list whose bracket came before.
#[cycle(check)]
fn check_list<'a>(
    names: &Names,
    brackets: u32,
    bytes: &'a [u8],
) -> Result<(bool, &'a [u8]), TermFault>
    ensures { (look : Look) → Knows names.now look → Tells (λ x y. (y.1 ≡ x.1.now) × (x.0 ≡ nat_le (levels_of y.0) (brackets + 1)) × (canonical.is_byte y.0 ≡ false)) result (list_at (cells_at (term_at look brackets) (length bytes.now)) bytes.now) }
{
    let (first, rest) = next_of(bytes)?;
    if first == b']' {
        return Ok((true, rest));
    }
    check_cells(names, brackets, bytes)
}

#[cycle(check)]
fn check_cells<'a>(
    names: &Names,
    brackets: u32,
    bytes: &'a [u8],
) -> Result<(bool, &'a [u8]), TermFault>
    ensures { (look : Look) → Knows names.now look → Tells (λ x y. (y.1 ≡ x.1.now) × (x.0 ≡ nat_le (levels_of y.0) (brackets + 1)) × (canonical.is_byte y.0 ≡ false)) result (cells_at (term_at look brackets) (length bytes.now) bytes.now) }
{
    let mut row = Row::EMPTY;
    let mut opened = 0;
    let mut rest = bytes;
    for index in 0..bytes.len() {
        let (item, after) = check_value(names, brackets, rest)?;
        row = row.and(item);
        let (step, after) = step_of(after)?;
        match step {
            Step::Item => {}
            Step::List => opened += 1,
            Step::End => {
                let after = after_marks(b']', opened + 1, after)?;
                return Ok((row.list_fits(index), after));
            }
            Step::Tail => {
                let (tail, after) = check_value(names, brackets, after)?;
                let after = after_marks(b']', opened + 1, after)?;
                return Ok((row.improper_fits(tail), after));
            }
        }
        rest = after;
    }
    Err(TermFault::BadTerm)
}
