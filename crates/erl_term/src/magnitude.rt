//! The magnitude of a SMALL_BIG: its bytes, the lowest first.
ghost use Rattle.std.specs.Prelude.{◌≡◌, ◌≤◌, ◌<◌, ◌^◌, ◌+◌, length, take};
ghost use Rattle.erl_term.specs.Numbers.{low_first, signed};
ghost use Rattle.erl_term.specs.Canonical.{magnitude};

use byteorder::{ByteOrder, LittleEndian};

/// The number in the bytes, the lowest first.
pub(crate) fn number_in(bytes: &[u8]) -> u128
    requires { length bytes.now ≤ 16 }
    ensures { result ≡ low_first bytes.now }
{
    if bytes.is_empty() {
        return 0;
    }
    LittleEndian::read_uint128(bytes, bytes.len())
}

/// The integer of a sign, 1 for minus, and a magnitude.
pub(crate) fn signed_of(sign: u64, magnitude: u128) -> i128
    requires sign { sign ≤ 1 }
    requires fits { magnitude < 2 ^ 127 + sign }
    ensures { result ≡ signed sign magnitude }
{
    if sign == 0 {
        magnitude as i128
    } else if magnitude == 0 {
        0
    } else {
        -1 - (magnitude - 1) as i128
    }
}

/// Returns the number of bytes of the number, but for the zeros above them.
#[tactic(auto, unfolding(crate::specs::Canonical::magnitude))]
pub(crate) fn digit_count(n: u128) -> usize
    ensures count { result ≡ length (magnitude n) }
    ensures bound { result ≤ 16 }
{
    if n == 0 {
        return 0;
    }
    n.ilog2() as usize / 8 + 1
}

/// The bytes of the number, the lowest first, and how many there are but for the zeros above them.
pub(crate) fn digits_of(n: u128) -> ([u8; 16], usize)
    ensures bound { result.1 ≤ 16 }
    ensures bytes { take result.1 result.0 ≡ magnitude n }
{
    (n.to_le_bytes(), digit_count(n))
}
