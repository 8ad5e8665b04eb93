//! Writing behind bytes that have room for it, so that nothing is refused.
ghost use Rattle.std.specs.Prelude.{◌≡◌, ◌≤◌, ◌<◌, ◌^◌, ◌+◌, ◌*◌, ◌++◌, ◌∷◌, [], true, length, All};
ghost use Rattle.std.specs.List.{flat_map};
ghost use Rattle.std.specs.Vec.{vec_len, vec_capacity};
ghost use Rattle.erl_term.specs.Canonical.{canonical_int, canonical_big, canonical_atom, canonical_head, canonical_pid, canonical_reference, canonical_binary, words_text, canonical_term, IsInRange};
ghost use Rattle.erl_term.specs.Canonical as canonical;
ghost use Rattle.byteorder.specs.Endian.{big_bytes};
ghost use Rattle.erl_term.specs.Data.{tuple, list};
ghost use Rattle.erl_term.specs.View.{view, items_view};

use crate::atom::Atom;
use crate::encoding::put_big;
use crate::lists::{byte_of, is_string};
use crate::tag;
use crate::term::{Pid, Reference, Term};

/// Writes the canonical spelling of a value of the profile where there is room for it, without a
/// version byte. (ERTS User's Guide, External Term Format.)
#[cycle(write)]
pub fn write_term(out: &mut Vec<u8>, term: &Term)
    requires range { IsInRange (view term.now) }
    requires room { vec_len out.old + length (canonical_term (view term.now)) ≤ vec_capacity out.old }
    ensures items { out.new.items ≡ out.old.items ++ canonical_term (view term.now) }
    ensures len { vec_len out.new ≡ vec_len out.old + length (canonical_term (view term.now)) }
    ensures capacity { vec_capacity out.old ≤ vec_capacity out.new }
{
    match term {
        Term::Int(n) => write_integer(out, *n),
        _ => write_other(out, term),
    }
}

/// The same of any term. It isn't inlined: integers don't pay for the rest.
#[cycle(write)]
#[inline(never)]
fn write_other(out: &mut Vec<u8>, term: &Term)
    requires range { IsInRange (view term.now) }
    requires room { vec_len out.old + length (canonical_term (view term.now)) ≤ vec_capacity out.old }
    ensures items { out.new.items ≡ out.old.items ++ canonical_term (view term.now) }
    ensures len { vec_len out.new ≡ vec_len out.old + length (canonical_term (view term.now)) }
    ensures capacity { vec_capacity out.old ≤ vec_capacity out.new }
{
    match term {
        Term::Int(n) => write_integer(out, *n),
        Term::Atom(atom) => write_atom(out, atom),
        Term::Tuple(items) => write_tuple(out, items),
        Term::List { items, tail } => match tail {
            None => write_list(out, items),
            Some(tail) => {
                write_cells(out, items);
                write_term(out, tail);
            }
        },
        Term::Binary(bytes) => write_binary(out, bytes),
        Term::Pid(pid) => write_pid(out, pid),
        Term::Reference(reference) => write_reference(out, reference),
    }
}

// Tuples, lists and binaries have functions of their own, not inlined: short terms don't pay for them.

#[cycle(write)]
#[inline(never)]
fn write_tuple(out: &mut Vec<u8>, items: &[Term])
    requires count { length items.now < 2 ^ 32 }
    requires items { All (λ t. IsInRange (view t)) items.now }
    requires room { vec_len out.old + length (canonical_term (tuple (items_view items.now))) ≤ vec_capacity out.old }
    ensures items { out.new.items ≡ out.old.items ++ canonical_term (tuple (items_view items.now)) }
    ensures len { vec_len out.new ≡ vec_len out.old + length (canonical_term (tuple (items_view items.now))) }
    ensures capacity { vec_capacity out.old ≤ vec_capacity out.new }
{
    write_tuple_head(out, items.len());
    write_items(out, items);
}

#[cycle(write)]
#[inline(never)]
fn write_items(out: &mut Vec<u8>, items: &[Term])
    requires items { All (λ t. IsInRange (view t)) items.now }
    requires room { vec_len out.old + length (flat_map (λ t. canonical_term (view t)) items.now) ≤ vec_capacity out.old }
    ensures items { out.new.items ≡ out.old.items ++ flat_map (λ t. canonical_term (view t)) items.now }
    ensures len { vec_len out.new ≡ vec_len out.old + length (flat_map (λ t. canonical_term (view t)) items.now) }
    ensures capacity { vec_capacity out.old ≤ vec_capacity out.new }
{
    for item in items {
        write_term(out, item);
    }
}

#[cycle(write)]
#[inline(never)]
fn write_list(out: &mut Vec<u8>, items: &[Term])
    requires count { length items.now < 2 ^ 32 }
    requires items { All (λ t. IsInRange (view t)) items.now }
    requires room { vec_len out.old + length (canonical_term (list (items_view items.now))) ≤ vec_capacity out.old }
    ensures items { out.new.items ≡ out.old.items ++ canonical_term (list (items_view items.now)) }
    ensures len { vec_len out.new ≡ vec_len out.old + length (canonical_term (list (items_view items.now))) }
    ensures capacity { vec_capacity out.old ≤ vec_capacity out.new }
{
    if items.is_empty() {
        write_byte(out, tag::NIL);
        return;
    }
    if is_string(items) {
        write_string(out, items);
        return;
    }
    write_cells(out, items);
    write_byte(out, tag::NIL);
}

/// Writes what comes before the tail of a LIST: its tag, how many elements it has, and these.
#[cycle(write)]
#[inline(never)]
fn write_cells(out: &mut Vec<u8>, items: &[Term])
    requires count { length items.now < 2 ^ 32 }
    requires items { All (λ t. IsInRange (view t)) items.now }
    requires room { vec_len out.old + (5 + length (flat_map (λ t. canonical_term (view t)) items.now)) ≤ vec_capacity out.old }
    ensures items { out.new.items ≡ out.old.items ++ (108 ∷ big_bytes 4 (length items.now)) ++ flat_map (λ t. canonical_term (view t)) items.now }
    ensures len { vec_len out.new ≡ vec_len out.old + (5 + length (flat_map (λ t. canonical_term (view t)) items.now)) }
    ensures capacity { vec_capacity out.old ≤ vec_capacity out.new }
{
    write_word(out, tag::LIST, items.len() as u32);
    write_items(out, items);
}

/// Writes a STRING of these integers.
fn write_string(out: &mut Vec<u8>, items: &[Term])
    requires string { canonical.is_string (items_view items.now) ≡ true }
    requires room { vec_len out.old + 3 + length items.now ≤ vec_capacity out.old }
    ensures items { out.new.items ≡ out.old.items ++ 107 ∷ (big_bytes 2 (length items.now) ++ canonical.bytes_of (items_view items.now)) }
    ensures len { vec_len out.new ≡ vec_len out.old + 3 + length items.now }
    ensures capacity { vec_capacity out.old ≤ vec_capacity out.new }
{
    write_byte(out, tag::STRING);
    write_half(out, items.len() as u16);
    for item in items {
        write_byte(out, byte_of(item));
    }
}

#[inline(never)]
#[tactic(auto, unfolding(crate::specs::Canonical::canonical_binary))]
fn write_binary(out: &mut Vec<u8>, bytes: &[u8])
    requires count { length bytes.now < 2 ^ 32 }
    requires room { vec_len out.old + length (canonical_binary bytes.now) ≤ vec_capacity out.old }
    ensures items { out.new.items ≡ out.old.items ++ canonical_binary bytes.now }
    ensures len { vec_len out.new ≡ vec_len out.old + length (canonical_binary bytes.now) }
    ensures capacity { vec_capacity out.old ≤ vec_capacity out.new }
{
    write_word(out, tag::BINARY, bytes.len() as u32);
    write_bytes(out, bytes);
}

/// Writes an integer where there is room for it, without a version byte. (ERTS User's Guide,
/// External Term Format, SMALL_INTEGER_EXT, INTEGER_EXT, SMALL_BIG_EXT.)
#[tactic(auto, unfolding(crate::specs::Canonical::canonical_int))]
pub fn write_integer(out: &mut Vec<u8>, n: i128)
    requires { vec_len out.old + length (canonical_int n) ≤ vec_capacity out.old }
    ensures items { out.new.items ≡ out.old.items ++ canonical_int n }
    ensures len { vec_len out.new ≡ vec_len out.old + length (canonical_int n) }
    ensures capacity { vec_capacity out.old ≤ vec_capacity out.new }
{
    if let Ok(small) = u8::try_from(n) {
        write_byte(out, tag::SMALL_INTEGER);
        write_byte(out, small);
        return;
    }
    if let Ok(word) = i32::try_from(n) {
        write_word(out, tag::INTEGER, word.cast_unsigned());
        return;
    }
    write_big(out, u8::from(n < 0), n.unsigned_abs());
}

/// Writes a SMALL_BIG of this sign and magnitude. It isn't inlined, so that a smaller integer makes no call.
#[inline(never)]
fn write_big(out: &mut Vec<u8>, sign: u8, n: u128)
    requires { vec_len out.old + length (canonical_big sign n) ≤ vec_capacity out.old }
    ensures items { out.new.items ≡ out.old.items ++ canonical_big sign n }
    ensures len { vec_len out.new ≡ vec_len out.old + length (canonical_big sign n) }
    ensures capacity { vec_capacity out.old ≤ vec_capacity out.new }
{
    put_big(out, sign, n).unwrap();
}

fn write_word(out: &mut Vec<u8>, tag: u8, word: u32)
    requires { vec_len out.old + 5 ≤ vec_capacity out.old }
    ensures items { out.new.items ≡ out.old.items ++ tag ∷ big_bytes 4 word }
    ensures len { vec_len out.new ≡ vec_len out.old + 5 }
    ensures capacity { vec_capacity out.old ≤ vec_capacity out.new }
{
    let [first, second, third, fourth] = word.to_be_bytes();
    out.push_reserved(tag);
    out.push_reserved(first);
    out.push_reserved(second);
    out.push_reserved(third);
    out.push_reserved(fourth);
}

/// Writes a number of 16 bits, its highest byte first.
fn write_half(out: &mut Vec<u8>, n: u16)
    requires { vec_len out.old + 2 ≤ vec_capacity out.old }
    ensures items { out.new.items ≡ out.old.items ++ big_bytes 2 n }
    ensures len { vec_len out.new ≡ vec_len out.old + 2 }
    ensures capacity { vec_capacity out.old ≤ vec_capacity out.new }
{
    let [first, second] = n.to_be_bytes();
    out.push_reserved(first);
    out.push_reserved(second);
}

/// Writes an atom where there is room for it, without a version byte. (ERTS User's Guide, External
/// Term Format, SMALL_ATOM_UTF8_EXT, ATOM_UTF8_EXT.)
#[inline(never)]
#[tactic(auto, unfolding(crate::specs::Canonical::canonical_atom))]
pub fn write_atom(out: &mut Vec<u8>, atom: &Atom)
    requires { vec_len out.old + length (canonical_atom atom.now) ≤ vec_capacity out.old }
    ensures items { out.new.items ≡ out.old.items ++ canonical_atom atom.now }
    ensures len { vec_len out.new ≡ vec_len out.old + length (canonical_atom atom.now) }
    ensures capacity { vec_capacity out.old ≤ vec_capacity out.new }
{
    let text = atom.text();
    if text.len() < 256 {
        write_byte(out, tag::SMALL_ATOM_UTF8);
        write_byte(out, text.len() as u8);
    } else {
        write_byte(out, tag::ATOM_UTF8);
        write_half(out, text.len() as u16);
    }
    write_bytes(out, text.as_bytes());
}

/// Writes what comes before the elements of a tuple, its tag and its arity, where there is room for
/// it. (ERTS User's Guide, External Term Format, SMALL_TUPLE_EXT, LARGE_TUPLE_EXT.)
#[tactic(auto, unfolding(crate::specs::Canonical::canonical_head))]
pub fn write_tuple_head(out: &mut Vec<u8>, count: usize)
    requires count { count < 2 ^ 32 }
    requires room { vec_len out.old + length (canonical_head count) ≤ vec_capacity out.old }
    ensures items { out.new.items ≡ out.old.items ++ canonical_head count }
    ensures len { vec_len out.new ≡ vec_len out.old + length (canonical_head count) }
    ensures capacity { vec_capacity out.old ≤ vec_capacity out.new }
{
    if count < 256 {
        write_byte(out, tag::SMALL_TUPLE);
        write_byte(out, count as u8);
        return;
    }
    write_word(out, tag::LARGE_TUPLE, count as u32);
}

/// Writes a pid where there is room for it, without a version byte. (ERTS User's Guide, External
/// Term Format, NEW_PID_EXT.)
#[inline(never)]
#[tactic(auto, unfolding(crate::specs::Canonical::canonical_pid))]
pub fn write_pid(out: &mut Vec<u8>, pid: &Pid)
    requires { vec_len out.old + length (canonical_pid pid.now) ≤ vec_capacity out.old }
    ensures items { out.new.items ≡ out.old.items ++ canonical_pid pid.now }
    ensures len { vec_len out.new ≡ vec_len out.old + length (canonical_pid pid.now) }
    ensures capacity { vec_capacity out.old ≤ vec_capacity out.new }
{
    write_byte(out, tag::NEW_PID);
    write_atom(out, &pid.node);
    write_bytes(out, &numbers_of(pid));
}

/// The bytes of the id, the serial and the creation.
fn numbers_of(pid: &Pid) -> [u8; 12]
    ensures { result ≡ big_bytes 4 pid.now.id ++ (big_bytes 4 pid.now.serial ++ big_bytes 4 pid.now.creation) }
{
    let [id_0, id_1, id_2, id_3] = pid.id.to_be_bytes();
    let [serial_0, serial_1, serial_2, serial_3] = pid.serial.to_be_bytes();
    let [creation_0, creation_1, creation_2, creation_3] = pid.creation.to_be_bytes();
    [
        id_0, id_1, id_2, id_3, serial_0, serial_1, serial_2, serial_3, creation_0, creation_1,
        creation_2, creation_3,
    ]
}

/// Writes a reference where there is room for it, without a version byte. (ERTS User's Guide,
/// External Term Format, NEWER_REFERENCE_EXT.)
#[inline(never)]
#[tactic(auto, unfolding(crate::specs::Canonical::canonical_reference))]
pub fn write_reference(out: &mut Vec<u8>, reference: &Reference)
    requires { vec_len out.old + length (canonical_reference reference.now) ≤ vec_capacity out.old }
    ensures items { out.new.items ≡ out.old.items ++ canonical_reference reference.now }
    ensures len { vec_len out.new ≡ vec_len out.old + length (canonical_reference reference.now) }
    ensures capacity { vec_capacity out.old ≤ vec_capacity out.new }
{
    let words = reference.words.as_slice();
    write_byte(out, tag::NEWER_REFERENCE);
    write_half(out, words.len() as u16);
    write_atom(out, &reference.node);
    write_bytes(out, &reference.creation.to_be_bytes());
    write_words(out, words);
}

/// Writes the words of a reference.
fn write_words(out: &mut Vec<u8>, words: &[u32])
    requires { vec_len out.old + 4 * length words.now ≤ vec_capacity out.old }
    ensures items { out.new.items ≡ out.old.items ++ words_text words.now }
    ensures len { vec_len out.new ≡ vec_len out.old + 4 * length words.now }
    ensures capacity { vec_capacity out.old ≤ vec_capacity out.new }
{
    for word in words {
        write_bytes(out, &word.to_be_bytes());
    }
}

pub(crate) fn write_byte(out: &mut Vec<u8>, byte: u8)
    requires { vec_len out.old + 1 ≤ vec_capacity out.old }
    ensures items { out.new.items ≡ out.old.items ++ byte ∷ [] }
    ensures len { vec_len out.new ≡ vec_len out.old + 1 }
    ensures capacity { vec_capacity out.old ≤ vec_capacity out.new }
{
    out.push_reserved(byte);
}

fn write_bytes(out: &mut Vec<u8>, bytes: &[u8])
    requires { vec_len out.old + length bytes.now ≤ vec_capacity out.old }
    ensures items { out.new.items ≡ out.old.items ++ bytes.now }
    ensures len { vec_len out.new ≡ vec_len out.old + length bytes.now }
    ensures capacity { vec_capacity out.old ≤ vec_capacity out.new }
{
    out.extend_from_slice(bytes).unwrap();
}
