//! Integers: an optional `-`, and digits.
ghost use Rattle.std.specs.Prelude.{◌≡◌, ◌≤◌, ◌<◌, ◌^◌, ◌+◌, MatchOption};
ghost use Rattle.std.specs.Char.{digit_value};
ghost use Rattle.std.specs.Str.Parse.{digits_value};
ghost use Rattle.erl_term.specs.Numbers.{signed};
ghost use Rattle.script_terms.specs.Reading.{Answers, digits_at, integer_at, byte_at};

use crate::bytes::next_of;
use crate::fault::TermFault;
use crate::words::{Kind, word_of};

/// The integer at the front, and the bytes after it.
#[tactic(auto, unfolding(crate::specs::Reading::integer_at))]
pub(crate) fn integer_of(bytes: &[u8]) -> Result<(i128, &[u8]), TermFault>
    ensures { Answers (λ x. (x.0, x.1.now)) result (integer_at bytes.now) }
{
    let (first, rest) = next_of(bytes)?;
    if first == b'-' {
        digits_of(1, rest)
    } else {
        digits_of(0, bytes)
    }
}

/// The integer of a sign, 1 for minus, and the digits at the front, and the bytes after it.
#[tactic(auto, unfolding(crate::specs::Reading::digits_at))]
fn digits_of(sign: u8, bytes: &[u8]) -> Result<(i128, &[u8]), TermFault>
    requires { sign ≤ 1 }
    ensures { Answers (λ x. (x.0, x.1.now)) result (digits_at sign bytes.now) }
{
    let (digits, rest) = word_of(Kind::Digits, bytes);
    if digits.is_empty() {
        return Err(TermFault::BadTerm);
    }
    let Some(magnitude) = value_of(10, digits) else {
        return Err(TermFault::BadTerm);
    };
    if magnitude >= (1 << 127) + u128::from(sign) {
        return Err(TermFault::BadTerm);
    }
    Ok((signed_of(sign, magnitude), rest))
}

/// The integer of 0 to 255 at the front, and the bytes after it.
#[tactic(auto, unfolding(crate::specs::Reading::byte_at))]
pub(crate) fn byte_of(bytes: &[u8]) -> Result<(u8, &[u8]), TermFault>
    ensures { Answers (λ x. (x.0, x.1.now)) result (byte_at bytes.now) }
{
    let (n, rest) = integer_of(bytes)?;
    match u8::try_from(n) {
        Ok(byte) => Ok((byte, rest)),
        Err(_) => Err(TermFault::BadTerm),
    }
}

/// The number that the digits write, if 128 bits hold it.
pub(crate) fn value_of(radix: u8, digits: &[u8]) -> Option<u128>
    requires { 1 ≤ radix }
    ensures { MatchOption result (2 ^ 128 ≤ digits_value radix digits.now) (λ n. n ≡ digits_value radix digits.now) }
{
    let mut value = 0u128;
    for c in digits {
        let Some(times) = value.checked_mul(u128::from(radix)) else {
            return None;
        };
        let Some(sum) = times.checked_add(u128::from(digit_of(*c))) else {
            return None;
        };
        value = sum;
    }
    Some(value)
}

/// The value of a digit, in a radix up to 36, and 36 of any other byte.
fn digit_of(c: u8) -> u8
    ensures { result ≡ digit_value c }
{
    match c {
        b'0'..=b'9' => c - b'0',
        b'A'..=b'Z' => c - b'A' + 10,
        b'a'..=b'z' => c - b'a' + 10,
        _ => 36,
    }
}

fn signed_of(sign: u8, magnitude: u128) -> i128
    requires sign { sign ≤ 1 }
    requires fits { magnitude < 2 ^ 127 + sign }
    ensures { result ≡ signed sign magnitude }
{
    if sign == 0 {
        magnitude as i128
    } else if magnitude == 0 {
        0
    } else {
        -1 - (magnitude - 1) as i128
    }
}
