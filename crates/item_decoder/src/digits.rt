//! Bytes as hexadecimal digits.
ghost use Rattle.std.specs.Prelude.{◌≡◌};
ghost use Rattle.item_decoder.specs.declared.digits.DigitFault.TheVariants.{OutOfMemory};

use hex::FromHexError;
use std::alloc::{AllocError, Global};

/// The reason for which a line isn't read.
#[derive(Clone, Copy, Debug, PartialEq, Eq)]
pub enum DigitFault {
    /// This is no hexadecimal digit.
    NoDigit(char),
    /// The number of digits is odd.
    Odd,
    /// Memory is wanting.
    OutOfMemory,
}

impl DigitFault {
    /// Appends the fault in words.
    ///
    /// # Errors
    /// [`AllocError`] if out of memory.
    pub fn put(self, out: &mut String) -> Result<(), AllocError> {
        match self {
            DigitFault::NoDigit(c) => write!(out, "'{c}' is no hexadecimal digit"),
            DigitFault::Odd => write!(out, "an odd number of hexadecimal digits"),
            DigitFault::OutOfMemory => write!(out, "memory is wanting"),
        }
    }
}

impl From<AllocError> for DigitFault {
    ghost from_gives = { λ _ e. e ≡ OutOfMemory };

    fn from(_e: AllocError) -> DigitFault {
        DigitFault::OutOfMemory
    }
}

// Returns true if a byte parts words.
fn is_space(byte: u8) -> bool {
    byte == b' ' || byte == b'\t' || byte == b'\r'
}

// Returns the word without `0x` in front.
fn without_prefix(word: &[u8]) -> &[u8] {
    match word {
        [b'0', b'x' | b'X', digits @ ..] => digits,
        _ => word,
    }
}

// Returns the digits of a line: its words without `0x` in front, one behind the other.
fn digits_of(alloc: Global, line: &[u8]) -> Result<Vec<u8>, AllocError> {
    let mut digits = Vec::new(alloc);
    for word in line.split(|byte| is_space(*byte)) {
        digits.extend_from_slice(without_prefix(word))?;
    }
    Ok(digits)
}

/// Returns true if a line has no bytes: it is empty, has spaces alone, or is a comment behind `#`.
pub fn is_blank(line: &[u8]) -> bool {
    match line.iter().find(|byte| !is_space(**byte)) {
        Some(byte) => *byte == b'#',
        None => true,
    }
}

/// Returns the bytes of a line of hexadecimal digits. Spaces may stand between the digits, and `0x` before a word.
///
/// # Errors
/// [`DigitFault`] if the line has another form, or if memory is wanting.
pub fn bytes_of(alloc: Global, line: &[u8]) -> Result<Vec<u8>, DigitFault> {
    let digits = digits_of(alloc, line)?;
    match hex::decode(alloc, digits.as_slice()) {
        Ok(bytes) => Ok(bytes),
        Err(FromHexError::InvalidHexCharacter { c, .. }) => Err(DigitFault::NoDigit(c)),
        Err(FromHexError::OddLength) => Err(DigitFault::Odd),
        Err(_) => Err(DigitFault::OutOfMemory),
    }
}
