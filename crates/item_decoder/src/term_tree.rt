//! The parts of a term, a line each, with their places and lengths. (ERTS User's Guide, External Term Format.)
use crate::rows::Row;
use crate::tree::{Part, put_part};
use erl_term::{TermRef, term_at, tuple_head_at};
use script_terms::put_term;
use std::alloc::{AllocError, Global};

/// The names of the elements of a term, if it is a tuple.
#[derive(Clone, Copy, Debug)]
pub(crate) enum Names {
    /// Their numbers.
    Plain,
    /// The operation, and the fields of this row.
    Of(Option<Row>),
}

/// A tuple or a list of which elements are left.
#[derive(Clone, Copy, Debug)]
struct Open {
    /// The number of elements that are left. Behind those of a list its tail counts too.
    left: u32,
    /// The number of the next element, from 1.
    next: u32,
    /// True for a list.
    is_list: bool,
}

/// A term of which a part was told.
#[derive(Drop)]
struct Walk<'a> {
    /// The bytes that are left.
    rest: &'a [u8],
    /// The place of the first of them.
    at: u64,
    /// The tuples and lists that are open, the innermost last.
    open: Vec<Open>,
}

/// The most levels of a term.
const LEVELS: u32 = 64;

impl Names {
    // Returns the name of an element of the outermost tuple, from 1, or nothing.
    fn get(self, number: u32) -> &'static str {
        let Names::Of(Some(row)) = self else {
            return "";
        };
        if number == 1 {
            return "operation";
        }
        match row.fields.get((number as usize).saturating_sub(2)) {
            Some(field) => field.name,
            None => "",
        }
    }
}

// Returns the name of the tag of a term.
fn tag_name(tag: u8) -> &'static str {
    match tag {
        88 => "NEW_PID_EXT",
        90 => "NEWER_REFERENCE_EXT",
        97 => "SMALL_INTEGER_EXT",
        98 => "INTEGER_EXT",
        100 => "ATOM_EXT",
        104 => "SMALL_TUPLE_EXT",
        105 => "LARGE_TUPLE_EXT",
        106 => "NIL_EXT",
        107 => "STRING_EXT",
        108 => "LIST_EXT",
        109 => "BINARY_EXT",
        110 => "SMALL_BIG_EXT",
        115 => "SMALL_ATOM_EXT",
        118 => "ATOM_UTF8_EXT",
        119 => "SMALL_ATOM_UTF8_EXT",
        _ => "",
    }
}

// Returns the number of elements of the list at the front.
fn list_len(bytes: &[u8]) -> u32 {
    match bytes {
        [_, a, b, c, d, ..] => u32::from_be_bytes([*a, *b, *c, *d]),
        _ => 0,
    }
}

impl<'a> Walk<'a> {
    // Returns the field that the next bytes are, of so many.
    fn part(&self, len: usize) -> Part {
        Part {
            depth: self.open.len().saturating_add(1),
            at: self.at,
            len,
        }
    }

    // Passes over so many bytes.
    fn pass(&mut self, len: usize) {
        self.rest = self.rest.get(len..).unwrap_or(&[]);
        self.at = self.at.saturating_add(len as u64);
    }

    // Appends the line of a tuple or a list, and opens it.
    fn open(
        &mut self,
        alloc: Global,
        out: &mut String,
        name: &str,
        tag: &str,
        len: usize,
        open: Open,
    ) -> Result<(), AllocError> {
        let left = if open.is_list {
            open.left.saturating_sub(1)
        } else {
            open.left
        };
        let value = format!(in alloc; "{tag} {left}")?;
        put_part(out, self.part(len), name, value.as_str())?;
        self.pass(len);
        self.open.push(open)?;
        Ok(())
    }

    // Appends the line of a term that has no others in it.
    fn put_leaf(
        &mut self,
        alloc: Global,
        out: &mut String,
        name: &str,
        tag: &str,
        term: &TermRef<'_>,
        len: usize,
    ) -> Result<(), AllocError> {
        let mut value = format!(in alloc; "{tag} ")?;
        put_term(&mut value, &term.to_term(alloc)?)?;
        put_part(out, self.part(len), name, value.as_str())?;
        self.pass(len);
        Ok(())
    }

    // Appends the line of the term at the front, with its name. Returns false if no term stands there.
    fn put_next(
        &mut self,
        alloc: Global,
        out: &mut String,
        name: &str,
    ) -> Result<bool, AllocError> {
        let Some(tag) = self.rest.first() else {
            return Ok(false);
        };
        let word = tag_name(*tag);
        if let 104 | 105 = *tag
            && let Some((head, elements)) = tuple_head_at(LEVELS, self.rest)
        {
            let len = self.rest.len().saturating_sub(elements.len());
            let open = Open {
                left: head.arity,
                next: 1,
                is_list: false,
            };
            self.open(alloc, out, name, word, len, open)?;
            return Ok(true);
        }
        if *tag == 108 {
            let open = Open {
                left: list_len(self.rest).saturating_add(1),
                next: 1,
                is_list: true,
            };
            self.open(alloc, out, name, word, 5, open)?;
            return Ok(true);
        }
        let Some((term, behind)) = term_at(LEVELS, self.rest) else {
            return Ok(false);
        };
        let len = self.rest.len().saturating_sub(behind.len());
        self.put_leaf(alloc, out, name, word, &term, len)?;
        Ok(true)
    }

    // Closes each tuple or list that has no elements left, and takes an element of the innermost other. Returns it, with the
    // number of those outside, or None if nothing is open.
    fn next(&mut self) -> Option<(Open, usize)> {
        for _ in 0..self.open.len() {
            let depth = self.open.len().saturating_sub(1);
            if let Some(open) = self.open.last_mut()
                && open.left > 0
            {
                let taken = *open;
                open.left = taken.left - 1;
                open.next = taken.next.saturating_add(1);
                return Some((taken, depth));
            }
            let _closed = self.open.pop();
        }
        None
    }
}

// Returns the name of the next element.
fn name_of(names: Names, open: Open, depth: usize) -> &'static str {
    if open.is_list {
        return if open.left == 1 { "tail" } else { "element" };
    }
    let name = if depth == 0 { names.get(open.next) } else { "" };
    if name.is_empty() { "element" } else { name }
}

/// Appends a line for each part of the term behind the version byte at the front, whose first byte is at this place.
/// Returns the number of its bytes.
///
/// # Errors
/// [`AllocError`] if out of memory.
pub(crate) fn put_term_tree(
    alloc: Global,
    out: &mut String,
    at: u64,
    bytes: &[u8],
    name: &str,
    names: Names,
) -> Result<usize, AllocError> {
    let mut walk = Walk {
        rest: bytes,
        at,
        open: Vec::new(alloc),
    };
    put_part(out, walk.part(1), "version", "131")?;
    walk.pass(1);
    if !walk.put_next(alloc, out, name)? {
        return Ok(bytes.len().saturating_sub(walk.rest.len()));
    }
    for _ in 0..u64::MAX {
        let Some((open, depth)) = walk.next() else {
            break;
        };
        if !walk.put_next(alloc, out, name_of(names, open, depth))? {
            break;
        }
    }
    Ok(bytes.len().saturating_sub(walk.rest.len()))
}
