//! Why a term can't be read or written.

ghost use Rattle.std.specs.Prelude.{◌≡◌, ◌↔◌, IsTrue};
ghost use Rattle.erl_term.specs.declared.error.TermError.TheVariants.{OutOfMemory};
ghost use Rattle.erl_term.specs.ErrorNumbers.{error_number, error_name};

use std::alloc::{AllocError, AllocFailed};
use thiserror::Error;

/// Why a term can't be read or written.
///
/// Of bytes the first fault from the left decides, and each kind of fault has its variant. The text
/// of an error is its number and its name, and of [`OutOfProfile`](TermError::OutOfProfile) the tag
/// in parentheses behind them. (ERTS User's Guide, External Term Format.)
#[derive(Clone, Copy, Debug, PartialEq, Eq, Error)]
#[error("{number} {name}", number = self.number(), name = self.name())]
pub enum TermError {
    /// The bytes end inside a term, and more bytes can make it whole.
    Cut,
    /// A byte with which no term of the profile goes on; of a term to be written, a value that is
    /// none of the profile.
    Malformed,
    /// A term of the External Term Format that isn't of the profile: its tag, of which 110 is an
    /// integer outside of -2^127 to 2^127 - 1.
    #[error("{number} {name}({0})", number = self.number(), name = self.name())]
    OutOfProfile(u8),
    /// More than 64 levels of terms, one in another.
    TooDeep,
    /// More than 1,048,576 bytes.
    TooLong,
    /// Memory is wanting.
    OutOfMemory,
}

impl TermError {
    /// The number of the error, with which its text begins.
    pub fn number(self) -> u8
        ensures { result ≡ error_number self }
    {
        match self {
            TermError::Cut => 1,
            TermError::Malformed => 2,
            TermError::OutOfProfile(_) => 3,
            TermError::TooDeep => 4,
            TermError::TooLong => 5,
            TermError::OutOfMemory => 12,
        }
    }

    /// The name of the error, which follows the number in its text.
    pub fn name(self) -> &'static str
        ensures { result.now ≡ error_name self }
    {
        match self {
            TermError::Cut => "Cut",
            TermError::Malformed => "Malformed",
            TermError::OutOfProfile(_) => "OutOfProfile",
            TermError::TooDeep => "TooDeep",
            TermError::TooLong => "TooLong",
            TermError::OutOfMemory => "OutOfMemory",
        }
    }

    /// Returns true if memory was wanting.
    pub fn is_out_of_memory(self) -> bool
        ensures { IsTrue result ↔ (self ≡ OutOfMemory) }
    {
        matches!(self, TermError::OutOfMemory)
    }
}

impl From<AllocError> for TermError {
    ghost from_gives = { λ _ e. e ≡ OutOfMemory };

    fn from(_e: AllocError) -> TermError {
        TermError::OutOfMemory
    }
}

impl<T: Drop> From<AllocFailed<T>> for TermError {
    ghost from_gives = { λ _ e. e ≡ OutOfMemory };

    fn from(_e: AllocFailed<T>) -> TermError {
        TermError::OutOfMemory
    }
}
