//! Why a text is no term, or can't be read.
ghost use Rattle.std.specs.Prelude.{◌≡◌};
ghost use Rattle.script_terms.specs.declared.fault.ReadError.TheVariants.{Fault, OutOfMemory};

use std::alloc::{AllocError, AllocFailed};
use thiserror::Error;

/// Why a text is no term of a script. The first fault from the left decides.
#[derive(Clone, Copy, Debug, PartialEq, Eq, Error)]
pub enum TermFault {
    /// A `$` with a name that the script has bound to nothing.
    #[error("unknown name")]
    UnknownName,
    /// Anything else that no term goes on with, or more than 64 levels.
    #[error("bad term")]
    BadTerm,
}

/// Why a term of a script can't be read.
#[derive(Clone, Copy, Debug, PartialEq, Eq, Error)]
pub enum ReadError {
    /// The text is no term.
    #[error("{0}")]
    Fault(TermFault),
    /// Memory is wanting, for a text that is a term.
    #[error("out of memory")]
    OutOfMemory,
}

impl From<TermFault> for ReadError {
    ghost from_gives = { λ fault e. e ≡ Fault fault };

    fn from(fault: TermFault) -> ReadError {
        ReadError::Fault(fault)
    }
}

impl From<AllocError> for ReadError {
    ghost from_gives = { λ _ e. e ≡ OutOfMemory };

    fn from(_e: AllocError) -> ReadError {
        ReadError::OutOfMemory
    }
}

impl<T: Drop> From<AllocFailed<T>> for ReadError {
    ghost from_gives = { λ _ e. e ≡ OutOfMemory };

    fn from(_e: AllocFailed<T>) -> ReadError {
        ReadError::OutOfMemory
    }
}
