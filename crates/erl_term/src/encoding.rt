//! Writing the one canonical spelling of a term.
ghost use Rattle.std.specs.Prelude.{◌≡◌, ◌≢◌, ◌≤◌, ◌<◌, ◌^◌, ◌+◌, ◌++◌, ◌∷◌, ◌↔◌, length, IsOk, IfOk, IfErr, IsErrOf, MatchResult};
ghost use Rattle.std.specs.Vec.{vec_len, vec_capacity};
ghost use Rattle.erl_term.specs.Canonical.{canonical_int, canonical_big, canonical_head, canonical_pid, canonical_reference, canonical_term, canonical, levels_of, IsInRange, IsTooLongToWrite, IsWritable};
ghost use Rattle.byteorder.specs.Endian.{big_bytes};
ghost use Rattle.erl_term.specs.View.{view};

use crate::decoding::TERM_LIMIT;
use crate::error::TermError;
use crate::magnitude::digits_of;
use crate::part_len::{pid_len, reference_len};
use crate::profile::{has_levels, is_in_range};
use crate::room::{room_after, size_within};
use crate::tag;
use crate::term::{Pid, Reference, Term};
use crate::writing::{write_byte, write_pid, write_reference, write_term};
use std::alloc::{AllocError, Global};

/// The canonical spelling of the term.
///
/// Refused, in this order: `Malformed` where the term is no value of the profile, `TooDeep` where
/// the spelling has more than 64 levels, `TooLong` where it has more than [`TERM_LIMIT`] bytes, and
/// `OutOfMemory`. The bytes are asked for at once, after all else.
/// (ERTS User's Guide, External Term Format.)
pub fn encode(alloc: Global, term: &Term) -> Result<Vec<u8>, TermError>
    ensures ok { IfOk result (λ v. v.items ≡ canonical (view term.now)) }
    ensures writable { IfOk result (λ v. IsWritable (view term.now)) }
    // The refusals, in their order.
    ensures malformed { IsErrOf result TermError.Malformed ↔ ¬ IsInRange (view term.now) }
    ensures too_deep { IsErrOf result TermError.TooDeep ↔ (IsInRange (view term.now) × (64 < levels_of (view term.now))) }
    ensures too_long { IsErrOf result TermError.TooLong ↔ IsTooLongToWrite (view term.now) }
    // Memory is asked for only where the term can be written, and no other error comes.
    ensures memory { IfErr result (λ e. e ≢ TermError.Malformed → e ≢ TermError.TooDeep → e ≢ TermError.TooLong → (e ≡ TermError.OutOfMemory) × IsWritable (view term.now)) }
{
    let Some(len) = size_within(term, 64, TERM_LIMIT) else {
        return Err(refusal_of(term));
    };
    let mut out = Vec::with_capacity(alloc, len)?;
    write_byte(&mut out, tag::VERSION);
    write_term(&mut out, term);
    Ok(out)
}

/// Why the term isn't written.
#[cold]
#[inline(never)]
fn refusal_of(term: &Term) -> TermError
    ensures malformed { result ≡ TermError.Malformed ↔ ¬ IsInRange (view term.now) }
    ensures too_deep { result ≡ TermError.TooDeep ↔ (IsInRange (view term.now) × (64 < levels_of (view term.now))) }
    ensures too_long { result ≡ TermError.TooLong ↔ (IsInRange (view term.now) × (levels_of (view term.now) ≤ 64)) }
    ensures only { result ≢ TermError.Malformed → result ≢ TermError.TooDeep → result ≡ TermError.TooLong }
{
    if !is_in_range(term) {
        TermError::Malformed
    } else if !has_levels(term, 64) {
        TermError::TooDeep
    } else {
        TermError::TooLong
    }
}

/// Writes the canonical spelling of a value of the profile behind the bytes of `out`, without a
/// version byte. Where memory is wanting `out` stays as it was, and it isn't wanting where `out` has
/// room for that spelling.
///
/// (ERTS User's Guide, External Term Format.)
pub fn put_term(out: &mut Vec<u8>, term: &Term) -> Result<(), AllocError>
    requires { IsInRange (view term.now) }
    ensures items { MatchResult result (λ _. out.new.items ≡ out.old.items ++ canonical_term (view term.now)) (λ _. out.new.items ≡ out.old.items) }
    ensures room { vec_len out.old + length (canonical_term (view term.now)) ≤ vec_capacity out.old → IsOk result }
{
    let Some(left) = room_after(term, usize::MAX, usize::MAX) else {
        return Err(AllocError);
    };
    out.reserve(usize::MAX - left)?;
    write_term(out, term);
    Ok(())
}

/// Writes an integer behind the bytes of `out`, without a version byte. Where memory is wanting
/// `out` stays as it was, and it isn't wanting where `out` has room.
///
/// (ERTS User's Guide, External Term Format, SMALL_INTEGER_EXT, INTEGER_EXT, SMALL_BIG_EXT.)
#[tactic(auto, unfolding(crate::specs::Canonical::canonical_int))]
pub fn put_integer(out: &mut Vec<u8>, n: i128) -> Result<(), AllocError>
    ensures items { MatchResult result (λ _. out.new.items ≡ out.old.items ++ canonical_int n) (λ _. out.new.items ≡ out.old.items) }
    ensures room { vec_len out.old + length (canonical_int n) ≤ vec_capacity out.old → IsOk result }
    ensures capacity { vec_capacity out.old ≤ vec_capacity out.new }
{
    if let Ok(small) = u8::try_from(n) {
        return out.extend_from_slice(&[tag::SMALL_INTEGER, small]);
    }
    if let Ok(word) = i32::try_from(n) {
        return put_word(out, tag::INTEGER, word.cast_unsigned());
    }
    put_big(out, u8::from(n < 0), n.unsigned_abs())
}

/// Writes a tag and the bytes of a word. It isn't inlined, so that these are taken from 32 bits, also
/// where the word was one of 128.
#[inline(never)]
fn put_word(out: &mut Vec<u8>, tag: u8, word: u32) -> Result<(), AllocError>
    ensures items { MatchResult result (λ _. out.new.items ≡ out.old.items ++ tag ∷ big_bytes 4 word) (λ _. out.new.items ≡ out.old.items) }
    ensures room { vec_len out.old + 5 ≤ vec_capacity out.old → IsOk result }
    ensures capacity { vec_capacity out.old ≤ vec_capacity out.new }
{
    let [first, second, third, fourth] = word.to_be_bytes();
    out.extend_from_slice(&[tag, first, second, third, fourth])
}

/// Writes a SMALL_BIG of this sign and magnitude.
pub(crate) fn put_big(out: &mut Vec<u8>, sign: u8, n: u128) -> Result<(), AllocError>
    ensures items { MatchResult result (λ _. out.new.items ≡ out.old.items ++ canonical_big sign n) (λ _. out.new.items ≡ out.old.items) }
    ensures room { vec_len out.old + length (canonical_big sign n) ≤ vec_capacity out.old → IsOk result }
    ensures capacity { vec_capacity out.old ≤ vec_capacity out.new }
{
    let (bytes, len) = digits_of(n);
    out.reserve(len + 3)?;
    out.extend_from_slice(&[tag::SMALL_BIG, len as u8, sign])
        .unwrap();
    out.extend_from_slice(&bytes[..len]).unwrap();
    Ok(())
}

/// Writes what comes before the elements of a tuple: its tag and its arity. Where memory is wanting
/// `out` stays as it was, and it isn't wanting where `out` has room.
///
/// (ERTS User's Guide, External Term Format, SMALL_TUPLE_EXT, LARGE_TUPLE_EXT.)
#[tactic(auto, unfolding(crate::specs::Canonical::canonical_head))]
pub fn put_tuple_head(out: &mut Vec<u8>, count: usize) -> Result<(), AllocError>
    requires { count < 2 ^ 32 }
    ensures items { MatchResult result (λ _. out.new.items ≡ out.old.items ++ canonical_head count) (λ _. out.new.items ≡ out.old.items) }
    ensures room { vec_len out.old + length (canonical_head count) ≤ vec_capacity out.old → IsOk result }
    ensures capacity { vec_capacity out.old ≤ vec_capacity out.new }
{
    if count < 256 {
        return out.extend_from_slice(&[tag::SMALL_TUPLE, count as u8]);
    }
    put_word(out, tag::LARGE_TUPLE, count as u32)
}

/// Writes a pid behind the bytes of `out`, without a version byte. Where memory is wanting `out`
/// stays as it was.
///
/// (ERTS User's Guide, External Term Format, NEW_PID_EXT.)
pub fn put_pid(out: &mut Vec<u8>, pid: &Pid) -> Result<(), AllocError>
    ensures { MatchResult result (λ _. out.new.items ≡ out.old.items ++ canonical_pid pid.now) (λ _. out.new.items ≡ out.old.items) }
{
    out.reserve(pid_len(pid))?;
    write_pid(out, pid);
    Ok(())
}

/// Writes a reference behind the bytes of `out`, without a version byte. Where memory is wanting
/// `out` stays as it was.
///
/// (ERTS User's Guide, External Term Format, NEWER_REFERENCE_EXT.)
pub fn put_reference(out: &mut Vec<u8>, reference: &Reference) -> Result<(), AllocError>
    ensures { MatchResult result (λ _. out.new.items ≡ out.old.items ++ canonical_reference reference.now) (λ _. out.new.items ≡ out.old.items) }
{
    out.reserve(reference_len(reference))?;
    write_reference(out, reference);
    Ok(())
}
