//! The fields of a term, read from the front of the bytes.
ghost use Rattle.std.specs.Prelude.{◌≡◌, ◌≤◌, length, IfOk};
ghost use Rattle.byteorder.specs.Endian.{big_number};
ghost use Rattle.erl_term.specs.Reading.{Answers, read_part, read_number, read_bounded};

use crate::error::TermError;
use byteorder::{BigEndian, ByteOrder};

/// The first byte.
pub(crate) fn byte_of(bytes: &[u8]) -> Result<(u8, &[u8]), TermError>
    ensures { Answers (λ x. (x.0, x.1.now)) result (read_number 1 bytes.now) }
{
    match bytes {
        [] => Err(TermError::Cut),
        [first, rest @ ..] => Ok((*first, rest)),
    }
}

/// The number of 32 bits in the first four bytes.
pub(crate) fn word_of(bytes: &[u8]) -> Result<(u32, &[u8]), TermError>
    ensures { Answers (λ x. (x.0, x.1.now)) result (read_number 4 bytes.now) }
{
    if bytes.len() < 4 {
        return Err(TermError::Cut);
    }
    let (field, rest) = bytes.split_at(4);
    Ok((BigEndian::read_u32(field), rest))
}

/// The number of 16 bits in the first two bytes.
pub(crate) fn half_of(bytes: &[u8]) -> Result<(u16, &[u8]), TermError>
    ensures { Answers (λ x. (x.0, x.1.now)) result (read_number 2 bytes.now) }
{
    if bytes.len() < 2 {
        return Err(TermError::Cut);
    }
    let (field, rest) = bytes.split_at(2);
    Ok((BigEndian::read_u16(field), rest))
}

/// The number that the first `width` bytes say, those that are missing being 0.
fn number_begun(bytes: &[u8], width: usize) -> u64
    requires low { 1 ≤ width }
    requires high { width ≤ 8 }
    ensures { result ≡ big_number width bytes.now }
{
    // Most fields are of one byte, which needs no copy.
    if width == 1 {
        return u64::from(bytes.first().copied().unwrap_or(0));
    }
    let mut field = [0u8; 8];
    let present = bytes.len().min(width);
    field[..present].copy_from_slice(&bytes[..present]);
    BigEndian::read_uint(&field, width)
}

/// The number in the first `width` bytes, or `fault` as soon as the bytes that are there say more than `most`.
pub(crate) fn number_of(
    bytes: &[u8],
    width: usize,
    most: u64,
    fault: TermError,
) -> Result<(u64, &[u8]), TermError>
    requires low { 1 ≤ width }
    requires high { width ≤ 8 }
    ensures value { Answers (λ x. (x.0, x.1.now)) result (read_bounded fault most width bytes.now) }
    ensures bound { IfOk result (λ x. x.0 ≤ most) }
{
    let number = number_begun(bytes, width);
    if number > most {
        return Err(fault);
    }
    if bytes.len() < width {
        return Err(TermError::Cut);
    }
    let (_, rest) = bytes.split_at(width);
    Ok((number, rest))
}

/// The first `len` bytes.
pub(crate) fn part_of(bytes: &[u8], len: usize) -> Result<(&[u8], &[u8]), TermError>
    ensures value { Answers (λ x. (x.0.now, x.1.now)) result (read_part len bytes.now) }
    ensures length { IfOk result (λ x. length x.0.now ≡ len) }
{
    if bytes.len() < len {
        return Err(TermError::Cut);
    }
    Ok(bytes.split_at(len))
}
