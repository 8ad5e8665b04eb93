//! The numbers of a control message: an operation's tag, and an Id.
ghost use Rattle.std.specs.Prelude.{◌≡◌, ◌≤◌, ◌↔◌, length, IsTrue};
ghost use Rattle.erl_term.specs.Numbers.{low_first};
ghost use Rattle.control_beginnings.specs.Parts.{Starts, IsTagText, IsBigTag, big_word, IsIdText, IsByteId, IsWordId, IsBigId, IsSizedId, IsDigitsId, IsTagAt, IsIdAt};

use crate::fronts::{Front, begins_word, front_of};
use crate::tags::{INTEGER, MOST_DIGITS, SMALL_BIG, SMALL_INTEGER};
use byteorder::{BigEndian, ByteOrder, LittleEndian};

/// The most digits of an Id, but for zeros above them.
const MOST_ID_DIGITS: usize = 8;

/// Returns true if the number, as a SMALL_BIG of `len` digits, begins with the bytes.
fn big_word_begins(tag: u8, len: u8, bytes: &[u8]) -> bool
    ensures { IsTrue result ↔ ((1 ≤ len) × (len ≤ 16) × Starts (λ b. b ≡ big_word len tag) bytes.now) }
{
    if len < 1 || len > MOST_DIGITS {
        return false;
    }
    let word = [
        SMALL_BIG, len, 0, tag, 0, 0, 0, 0, 0, 0, 0, 0, 0, 0, 0, 0, 0, 0, 0,
    ];
    begins_word(&word[..len as usize + 3], bytes)
}

/// Returns true if the number, as a SMALL_BIG, begins with the bytes.
fn big_tag_begins(tag: u8, bytes: &[u8]) -> bool
    requires { 1 ≤ tag }
    ensures { IsTrue result ↔ Starts (IsBigTag tag) bytes.now }
{
    match bytes {
        [_, len, ..] => big_word_begins(tag, *len, bytes),
        _ => big_word_begins(tag, 1, bytes),
    }
}

/// Returns true if the number, in one of the rows of integers, begins with the bytes.
fn tag_text_begins(tag: u8, bytes: &[u8]) -> bool
    requires { 1 ≤ tag }
    ensures { IsTrue result ↔ Starts (IsTagText tag) bytes.now }
{
    if begins_word(&[SMALL_INTEGER, tag], bytes) {
        return true;
    }
    if begins_word(&[INTEGER, 0, 0, 0, tag], bytes) {
        return true;
    }
    big_tag_begins(tag, bytes)
}

/// Returns true if the number, in any spelling of at most `levels` levels, begins with the bytes.
pub fn tag_begins(levels: u32, tag: u8, bytes: &[u8]) -> bool
    requires { 1 ≤ tag }
    ensures { IsTrue result ↔ Starts (IsTagAt levels tag) bytes.now }
{
    match front_of(levels, bytes) {
        Front::Inside => true,
        Front::Behind(text) => tag_text_begins(tag, text),
        Front::Refused => false,
    }
}

/// Returns true if the field of a SMALL_INTEGER that is an Id begins with the bytes.
fn byte_id_begins(field: &[u8]) -> bool
    ensures { IsTrue result ↔ Starts IsByteId field.now }
{
    match field {
        [] => true,
        [0] => false,
        [_] => true,
        _ => false,
    }
}

/// Returns true if the field of an INTEGER that is an Id begins with the bytes.
fn word_id_begins(field: &[u8]) -> bool
    ensures { IsTrue result ↔ Starts IsWordId field.now }
{
    if field.len() > 4 {
        return false;
    }
    if field.is_empty() {
        return true;
    }
    // The highest bit is the sign.
    if field[0] >= 128 {
        return false;
    }
    field.len() < 4 || BigEndian::read_u32(field) != 0
}

/// Returns the number in the bytes, the lowest first.
fn low_first(digits: &[u8]) -> u128
    requires { length digits.now ≤ 16 }
    ensures { result ≡ low_first digits.now }
{
    if digits.is_empty() {
        return 0;
    }
    LittleEndian::read_uint128(digits, digits.len())
}

/// Returns true if a magnitude of `len` bytes that is an Id begins with the digits.
fn digits_begin(len: u8, digits: &[u8]) -> bool
    requires { len ≤ 16 }
    ensures { IsTrue result ↔ Starts (IsDigitsId len) digits.now }
{
    if digits.len() > len as usize {
        return false;
    }
    let number = low_first(digits);
    if number == 0 {
        // A digit that is not 0 can still come, among the eight that an Id has at most.
        digits.len() < usize::from(len).min(MOST_ID_DIGITS)
    } else {
        number <= u64::MAX as u128
    }
}

/// Returns true if an Id behind the tag of a SMALL_BIG and its `len` begins with the bytes.
fn sized_id_begins(len: u8, bytes: &[u8]) -> bool
    requires { len ≤ 16 }
    ensures { IsTrue result ↔ ((1 ≤ len) × Starts (IsSizedId len) bytes.now) }
{
    if len < 1 {
        return false;
    }
    match bytes {
        [] => true,
        [0, digits @ ..] => digits_begin(len, digits),
        _ => false,
    }
}

/// Returns true if an Id behind the tag of a SMALL_BIG begins with the bytes.
fn big_id_begins(bytes: &[u8]) -> bool
    ensures { IsTrue result ↔ Starts IsBigId bytes.now }
{
    match bytes {
        [] => true,
        [len, rest @ ..] => {
            if *len > MOST_DIGITS {
                return false;
            }
            sized_id_begins(*len, rest)
        }
    }
}

/// Returns true if an Id, in one of the rows of integers, begins with the bytes.
fn id_text_begins(bytes: &[u8]) -> bool
    ensures { IsTrue result ↔ Starts IsIdText bytes.now }
{
    match bytes {
        [] => true,
        [SMALL_INTEGER, field @ ..] => byte_id_begins(field),
        [INTEGER, field @ ..] => word_id_begins(field),
        [SMALL_BIG, rest @ ..] => big_id_begins(rest),
        _ => false,
    }
}

/// Returns true if an Id, in any spelling of at most `levels` levels, begins with the bytes.
pub fn id_begins(levels: u32, bytes: &[u8]) -> bool
    ensures { IsTrue result ↔ Starts (IsIdAt levels) bytes.now }
{
    match front_of(levels, bytes) {
        Front::Inside => true,
        Front::Behind(text) => id_text_begins(text),
        Front::Refused => false,
    }
}
