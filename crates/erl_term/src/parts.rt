//! Parts of a term, read where they lie: they take no memory.
//!
//! Each reader reads the front of the bytes by itself, so that a caller can tell a message by its
//! shape before it copies anything.
ghost use Rattle.std.specs.Prelude.{◌≡◌, ◌≤◌, ◌↔◌, List, ℕ, length, IsTrue, OnOk};
ghost use Rattle.erl_term.specs.Data.{atom, int, pid, reference};
ghost use Rattle.erl_term.specs.Spelling.{IsPid, IsReference, Spells, SpellsAtom};
ghost use Rattle.erl_term.specs.Reading.{Answers, read_small, read_integer, read_text, read_atom, read_letters, read_latin, read_node, read_pid, read_word_count, read_words, read_reference};
ghost use Rattle.erl_term.specs.Parts.{ReadsFront, PassesOver, IsHead, IsTupleHead, IsIntegerText, head_part_at, integer_part_at, pid_part_at, reference_part_at};

use crate::atom::Atom;
use crate::error::TermError;
use crate::field::{byte_of, number_of, part_of, word_of};
use crate::reading::big_value_of;
use crate::tag;
use crate::term::{Pid, Reference};
use crate::text::{atom_text, is_latin_text, latin_len, latin_text, may_become_text, utf8_len};
use crate::words::{MOST, ReferenceWords};
use std::alloc::{AllocError, Global};
use std::marker::Model;

/// The text of an atom, where it lies in the bytes that were read.
#[derive(Clone, Copy, Debug, Drop)]
pub enum Text<'a> {
    /// UTF-8.
    Utf8(&'a str),
    /// Letters of Latin-1.
    Latin(&'a [u8]),
}

/// An atom whose text still lies in the bytes that were read. Contracts see the atom.
#[derive(Debug, Drop)]
pub struct AtomRef<'a> {
    text: Text<'a>,
}

impl<'a> Model for AtomRef<'a> {
    ghost use Rattle.std.specs.Prelude.{List, ℕ};
    ghost use Rattle.erl_term.specs.PartText.{text_of, IsShort};

    ghost Value = { List ℕ };

    ghost view = { λ a. text_of a.text };

    ghost invariant = { λ a. IsShort a.text };
}

impl<'a> AtomRef<'a> {
    /// The atom, with a text of its own.
    pub fn to_atom(&self, alloc: Global) -> Result<Atom, AllocError>
        ensures { IfOk result (λ a. a ≡ self.now) }
    {
        match self.text {
            Text::Utf8(text) => Atom::new(String::from_str(alloc, text)?),
            Text::Latin(letters) => Atom::new(latin_text(alloc, letters)?),
        }
    }

    /// Returns true if it is this atom. It takes no memory.
    pub fn is_same(&self, atom: &Atom) -> bool
        ensures { IsTrue result ↔ (self.now ≡ atom.now) }
    {
        match self.text {
            Text::Utf8(text) => text == atom.text(),
            Text::Latin(letters) => is_latin_text(letters, atom.text()),
        }
    }

    /// Returns the number of bytes of the atom's canonical spelling.
    #[tactic(auto, unfolding(crate::specs::Canonical::canonical_atom))]
    pub(crate) fn written_len(&self) -> usize
        ensures len { result ≡ length (canonical_atom self.now) }
        ensures bound { result ≤ 1023 }
    {
        let len = self.text.len();
        if len < 256 { len + 2 } else { len + 3 }
    }
}

impl<'a> Text<'a> {
    /// Returns the number of bytes of the text in UTF-8.
    fn len(&self) -> usize
        requires { IsShort self.now }
        ensures len { result ≡ length (text_of self.now) }
        ensures bound { result ≤ 1020 }
    {
        match *self {
            Text::Utf8(text) => utf8_len(text),
            Text::Latin(letters) => latin_len(letters),
        }
    }
}

/// A process identifier whose node still lies in the bytes that were read. Contracts see the
/// [`Pid`] that it names.
#[derive(Debug, Drop)]
pub struct PidRef<'a> {
    node: AtomRef<'a>,
    id: u32,
    serial: u32,
    creation: u32,
}

impl<'a> Model for PidRef<'a> {
    ghost use Rattle.erl_term.specs.declared.term.Pid.{Pid};

    ghost Value = { Pid };

    ghost view = { λ p. record { node = p.node; creation = p.creation; id = p.id; serial = p.serial } };
}

impl<'a> PidRef<'a> {
    /// The process identifier, with a node of its own.
    pub fn to_pid(&self, alloc: Global) -> Result<Pid, AllocError>
        ensures { IfOk result (λ p. p ≡ self.now) }
    {
        Ok(Pid {
            node: self.node.to_atom(alloc)?,
            creation: self.creation,
            id: self.id,
            serial: self.serial,
        })
    }

    /// Returns true if it names this process. It takes no memory.
    pub fn is_same(&self, pid: &Pid) -> bool
        ensures { IsTrue result ↔ (self.now ≡ pid.now) }
    {
        self.id == pid.id
            && self.serial == pid.serial
            && self.creation == pid.creation
            && self.node.is_same(&pid.node)
    }

    /// Returns the number of bytes of the pid's canonical spelling.
    #[tactic(auto, unfolding(crate::specs::Canonical::canonical_pid))]
    pub(crate) fn written_len(&self) -> usize
        ensures len { result ≡ length (canonical_pid self.now) }
        ensures bound { result ≤ 1036 }
    {
        self.node.written_len() + 13
    }
}

/// A reference whose node still lies in the bytes that were read. Contracts see the [`Reference`]
/// that it names.
#[derive(Debug, Drop)]
pub struct ReferenceRef<'a> {
    node: AtomRef<'a>,
    creation: u32,
    words: ReferenceWords,
}

impl<'a> Model for ReferenceRef<'a> {
    ghost use Rattle.erl_term.specs.declared.term.Reference.{Reference};

    ghost Value = { Reference };

    ghost view = { λ r. record { node = r.node; creation = r.creation; words = r.words } };
}

impl<'a> ReferenceRef<'a> {
    /// The reference, with a node of its own.
    pub fn to_reference(&self, alloc: Global) -> Result<Reference, AllocError>
        ensures { IfOk result (λ r. r ≡ self.now) }
    {
        Ok(Reference {
            node: self.node.to_atom(alloc)?,
            creation: self.creation,
            words: self.words.clone()?,
        })
    }

    /// Returns true if it is this reference. It takes no memory.
    pub fn is_same(&self, reference: &Reference) -> bool
        ensures { IsTrue result ↔ (self.now ≡ reference.now) }
    {
        self.words == reference.words
            && self.creation == reference.creation
            && self.node.is_same(&reference.node)
    }

    /// Returns the number of bytes of the reference's canonical spelling.
    #[tactic(auto, unfolding(crate::specs::Canonical::canonical_reference))]
    pub(crate) fn written_len(&self) -> usize
        ensures len { result ≡ length (canonical_reference self.now) }
        ensures bound { result ≤ 1050 }
    {
        self.node.written_len() + 4 * self.words.as_slice().len() + 7
    }
}

ghost use Rattle.std.specs.Prelude.{IfOk};
ghost use Rattle.erl_term.specs.Canonical.{canonical_atom, canonical_pid, canonical_reference};
ghost use Rattle.erl_term.specs.PartText.{text_of, IsShort};

#[tactic(auto, unfolding(crate::specs::Parts::head_part_at))]
fn head_of(bytes: &[u8]) -> Result<(u32, &[u8]), TermError>
    ensures { Answers (λ x. (x.0, x.1.now)) result (head_part_at bytes.now) }
{
    let (tag, rest) = byte_of(bytes)?;
    match tag {
        tag::SMALL_TUPLE => {
            let (arity, rest) = byte_of(rest)?;
            Ok((u32::from(arity), rest))
        }
        tag::LARGE_TUPLE => word_of(rest),
        _ => Err(TermError::Malformed),
    }
}

/// The first bytes of a list with no elements. It stands for its tail, which follows.
const EMPTY_LIST: [u8; 5] = [tag::LIST, 0, 0, 0, 0];

/// The bytes behind all lists with no elements at the front, and how many levels are left below
/// what stands there. None where the levels don't suffice.
fn pass_over(levels: u32, bytes: &[u8]) -> Option<(u32, &[u8])>
    ensures { PassesOver levels bytes.now result }
{
    let below = levels.checked_sub(1)?;
    match bytes.strip_prefix(&EMPTY_LIST) {
        Some(tail) => pass_over(below, tail),
        None => Some((below, bytes)),
    }
}

/// The head of a tuple of at most so many levels, in front of its elements.
#[derive(Clone, Copy, Debug, PartialEq, Eq)]
pub struct TupleHead {
    /// The number of elements.
    pub arity: u32,
    /// The most levels of each element.
    pub levels: u32,
}

/// The head of the tuple at the front, where it has at most so many levels, and the bytes after the
/// head, with which its elements begin. None where no such tuple begins there. (ERTS User's Guide,
/// External Term Format, SMALL_TUPLE_EXT and LARGE_TUPLE_EXT.)
pub fn tuple_head_at(levels: u32, bytes: &[u8]) -> Option<(TupleHead, &[u8])>
    ensures { ReadsFront (IsTupleHead levels) bytes.now result }
{
    let (levels, bytes) = pass_over(levels, bytes)?;
    let (arity, elements) = own_head_at(bytes)?;
    Some((TupleHead { arity, levels }, elements))
}

fn own_head_at(bytes: &[u8]) -> Option<(u32, &[u8])>
    ensures { ReadsFront IsHead bytes.now result }
{
    match head_of(bytes) {
        Ok(head) => Some(head),
        Err(_) => None,
    }
}

#[tactic(auto, unfolding(crate::specs::Parts::integer_part_at, crate::specs::Reading::read_small, crate::specs::Reading::read_integer))]
fn integer_of(bytes: &[u8]) -> Result<(i128, &[u8]), TermError>
    ensures { Answers (λ x. (int x.0, x.1.now)) result (integer_part_at bytes.now) }
{
    let (tag, rest) = byte_of(bytes)?;
    match tag {
        tag::SMALL_INTEGER => {
            let (n, rest) = byte_of(rest)?;
            Ok((i128::from(n), rest))
        }
        tag::INTEGER => {
            let (n, rest) = word_of(rest)?;
            Ok((i128::from(n.cast_signed()), rest))
        }
        tag::SMALL_BIG => big_value_of(rest),
        _ => Err(TermError::Malformed),
    }
}

/// The integer at the front, in any spelling of at most so many levels, and the bytes after it.
/// None where no integer of the profile stands there. (ERTS User's Guide, External Term Format,
/// SMALL_INTEGER_EXT, INTEGER_EXT and SMALL_BIG_EXT.)
pub fn integer_at(levels: u32, bytes: &[u8]) -> Option<(i128, &[u8])>
    ensures { ReadsFront (λ z b. Spells levels (int z) b) bytes.now result }
{
    let (_, bytes) = pass_over(levels, bytes)?;
    own_integer_at(bytes)
}

fn own_integer_at(bytes: &[u8]) -> Option<(i128, &[u8])>
    ensures { ReadsFront IsIntegerText bytes.now result }
{
    match integer_of(bytes) {
        Ok(integer) => Some(integer),
        Err(_) => None,
    }
}

#[tactic(auto, unfolding(crate::specs::Reading::read_text))]
fn text_ref_of(len: usize, bytes: &[u8]) -> Result<(&str, &[u8]), TermError>
    ensures value { Answers (λ x. (x.0.now, x.1.now)) result (read_text len bytes.now) }
    ensures fits { IfOk result (λ x. length (chars x.0.now) ≤ 255) }
{
    if bytes.len() < len {
        if may_become_text(len, bytes) {
            return Err(TermError::Cut);
        }
        return Err(TermError::Malformed);
    }
    let (text, rest) = bytes.split_at(len);
    match atom_text(text) {
        None => Err(TermError::Malformed),
        Some(text) => Ok((text, rest)),
    }
}

ghost use Rattle.std.specs.Str.{chars};

/// The text of an atom whose length, in so many bytes, comes next.
#[tactic(auto, unfolding(crate::specs::Reading::read_atom))]
pub(crate) fn atom_ref_of(width: usize, bytes: &[u8]) -> Result<(&str, &[u8]), TermError>
    requires low { 1 ≤ width }
    requires high { width ≤ 8 }
    ensures value { Answers (λ x. (x.0.now, x.1.now)) result (read_atom width bytes.now) }
    ensures fits { IfOk result (λ x. length (chars x.0.now) ≤ 255) }
{
    let (len, rest) = number_of(bytes, width, 1020, TermError::Malformed)?;
    text_ref_of(len as usize, rest)
}

/// The letters of an atom in Latin-1 whose length, in so many bytes, comes next.
#[tactic(auto, unfolding(crate::specs::Reading::read_letters))]
pub(crate) fn letters_of(width: usize, bytes: &[u8]) -> Result<(&[u8], &[u8]), TermError>
    requires low { 1 ≤ width }
    requires high { width ≤ 8 }
    ensures value { Answers (λ x. (x.0.now, x.1.now)) result (read_letters width bytes.now) }
    ensures fits { IfOk result (λ x. length x.0.now ≤ 255) }
{
    let (len, rest) = number_of(bytes, width, 255, TermError::Malformed)?;
    part_of(rest, len as usize)
}

/// The atom whose length, in so many bytes, and text come next.
pub(crate) fn utf8_ref_of(width: usize, bytes: &[u8]) -> Result<(AtomRef<'_>, &[u8]), TermError>
    requires low { 1 ≤ width }
    requires high { width ≤ 8 }
    ensures { Answers (λ x. (x.0, x.1.now)) result (read_atom width bytes.now) }
{
    let (text, rest) = atom_ref_of(width, bytes)?;
    let atom = AtomRef {
        text: Text::Utf8(text),
    };
    Ok((atom, rest))
}

/// The atom in Latin-1 whose length, in so many bytes, and letters come next.
#[tactic(auto, unfolding(crate::specs::Reading::read_latin))]
pub(crate) fn latin_ref_of(width: usize, bytes: &[u8]) -> Result<(AtomRef<'_>, &[u8]), TermError>
    requires low { 1 ≤ width }
    requires high { width ≤ 8 }
    ensures { Answers (λ x. (x.0, x.1.now)) result (read_latin width bytes.now) }
{
    let (letters, rest) = letters_of(width, bytes)?;
    let atom = AtomRef {
        text: Text::Latin(letters),
    };
    Ok((atom, rest))
}

#[tactic(auto, unfolding(crate::specs::Reading::read_node))]
fn node_ref_of(bytes: &[u8]) -> Result<(AtomRef<'_>, &[u8]), TermError>
    ensures { Answers (λ x. (x.0, x.1.now)) result (read_node bytes.now) }
{
    let (tag, rest) = byte_of(bytes)?;
    match tag {
        tag::SMALL_ATOM_UTF8 => utf8_ref_of(1, rest),
        tag::ATOM_UTF8 => utf8_ref_of(2, rest),
        tag::SMALL_ATOM => latin_ref_of(1, rest),
        tag::ATOM => latin_ref_of(2, rest),
        _ => Err(TermError::Malformed),
    }
}

/// Reads the atom at the front, in any spelling of at most `levels` levels. Returns it with the bytes
/// behind it, or `None` where no atom of the profile stands there. Never allocates. (ERTS User's Guide,
/// External Term Format, SMALL_ATOM_UTF8_EXT, ATOM_UTF8_EXT, SMALL_ATOM_EXT and ATOM_EXT.)
pub fn atom_at(levels: u32, bytes: &[u8]) -> Option<(AtomRef<'_>, &[u8])>
    ensures { ReadsFront (λ a b. Spells levels (atom a) b) bytes.now result }
{
    let (_, bytes) = pass_over(levels, bytes)?;
    own_atom_at(bytes)
}

fn own_atom_at(bytes: &[u8]) -> Option<(AtomRef<'_>, &[u8])>
    ensures { ReadsFront SpellsAtom bytes.now result }
{
    match node_ref_of(bytes) {
        Ok(atom) => Some(atom),
        Err(_) => None,
    }
}

#[tactic(auto, unfolding(crate::specs::Parts::pid_part_at))]
fn pid_ref_of(bytes: &[u8]) -> Result<(PidRef<'_>, &[u8]), TermError>
    ensures { Answers (λ x. (x.0, x.1.now)) result (pid_part_at bytes.now) }
{
    let (tag, rest) = byte_of(bytes)?;
    if tag != tag::NEW_PID {
        return Err(TermError::Malformed);
    }
    pid_fields_of(rest)
}

/// The process identifier whose fields come next, behind its tag.
#[tactic(auto, unfolding(crate::specs::Reading::read_pid))]
pub(crate) fn pid_fields_of(bytes: &[u8]) -> Result<(PidRef<'_>, &[u8]), TermError>
    ensures { Answers (λ x. (x.0, x.1.now)) result (read_pid bytes.now) }
{
    let (node, rest) = node_ref_of(bytes)?;
    let (id, rest) = word_of(rest)?;
    let (serial, rest) = word_of(rest)?;
    let (creation, rest) = word_of(rest)?;
    let pid = PidRef {
        node,
        id,
        serial,
        creation,
    };
    Ok((pid, rest))
}

/// The process identifier at the front, in any spelling of at most so many levels, and the bytes
/// after it. None where no process identifier of the profile stands there. (ERTS User's Guide,
/// External Term Format, NEW_PID_EXT.)
pub fn pid_at(levels: u32, bytes: &[u8]) -> Option<(PidRef<'_>, &[u8])>
    ensures { ReadsFront (λ p b. Spells levels (pid p) b) bytes.now result }
{
    let (_, bytes) = pass_over(levels, bytes)?;
    own_pid_at(bytes)
}

fn own_pid_at(bytes: &[u8]) -> Option<(PidRef<'_>, &[u8])>
    ensures { ReadsFront IsPid bytes.now result }
{
    match pid_ref_of(bytes) {
        Ok(pid) => Some(pid),
        Err(_) => None,
    }
}

/// Returns the number of words of a reference, and the bytes after it.
#[tactic(auto, unfolding(crate::specs::Reading::read_word_count))]
fn word_count_of(bytes: &[u8]) -> Result<(usize, &[u8]), TermError>
    ensures value { Answers (λ x. (x.0, x.1.now)) result (read_word_count bytes.now) }
    ensures some { IfOk result (λ x. 1 ≤ x.0) }
    ensures few { IfOk result (λ x. x.0 ≤ 5) }
{
    let (count, rest) = number_of(bytes, 2, MOST as u64, TermError::Malformed)?;
    if count == 0 {
        return Err(TermError::Malformed);
    }
    Ok((count as usize, rest))
}

/// So many words.
fn words_of(count: usize, bytes: &[u8]) -> Result<(ReferenceWords, &[u8]), TermError>
    requires some { 1 ≤ count }
    requires few { count ≤ 5 }
    ensures { Answers (λ x. (x.0, x.1.now)) result (read_words count bytes.now) }
{
    let mut words = [0; MOST];
    let mut rest = bytes;
    for i in 0..count {
        let (word, after) = word_of(rest)?;
        words[i] = word;
        rest = after;
    }
    Ok((ReferenceWords::of(words, count), rest))
}

/// The reference whose fields come next, behind its tag.
#[tactic(auto, unfolding(crate::specs::Reading::read_reference))]
pub(crate) fn reference_fields_of(bytes: &[u8]) -> Result<(ReferenceRef<'_>, &[u8]), TermError>
    ensures { Answers (λ x. (x.0, x.1.now)) result (read_reference bytes.now) }
{
    let (count, rest) = word_count_of(bytes)?;
    let (node, rest) = node_ref_of(rest)?;
    let (creation, rest) = word_of(rest)?;
    let (words, rest) = words_of(count, rest)?;
    let reference = ReferenceRef {
        node,
        creation,
        words,
    };
    Ok((reference, rest))
}

#[tactic(auto, unfolding(crate::specs::Parts::reference_part_at))]
fn reference_ref_of(bytes: &[u8]) -> Result<(ReferenceRef<'_>, &[u8]), TermError>
    ensures { Answers (λ x. (x.0, x.1.now)) result (reference_part_at bytes.now) }
{
    let (tag, rest) = byte_of(bytes)?;
    if tag != tag::NEWER_REFERENCE {
        return Err(TermError::Malformed);
    }
    reference_fields_of(rest)
}

/// The reference at the front, in any spelling of at most so many levels, and the bytes after it.
/// None where no reference of the profile stands there. (ERTS User's Guide, External Term Format,
/// NEWER_REFERENCE_EXT.)
pub fn reference_at(levels: u32, bytes: &[u8]) -> Option<(ReferenceRef<'_>, &[u8])>
    ensures { ReadsFront (λ r b. Spells levels (reference r) b) bytes.now result }
{
    let (_, bytes) = pass_over(levels, bytes)?;
    own_reference_at(bytes)
}

fn own_reference_at(bytes: &[u8]) -> Option<(ReferenceRef<'_>, &[u8])>
    ensures { ReadsFront IsReference bytes.now result }
{
    match reference_ref_of(bytes) {
        Ok(reference) => Some(reference),
        Err(_) => None,
    }
}
