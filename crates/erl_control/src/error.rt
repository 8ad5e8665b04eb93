//! Why a frame could not be read or written.
ghost use Rattle.std.specs.Prelude.{◌≡◌};
ghost use Rattle.erl_control.specs.declared.error.FrameError.TheVariants.{OutOfMemory};

use erl_term::TermError;
use std::alloc::{AllocError, AllocFailed};
use thiserror::Error;

/// Why a frame could not be read or written.
#[derive(Clone, Copy, Debug, PartialEq, Eq, Error)]
pub enum FrameError {
    /// The first byte after the length isn't 112, pass-through.
    #[error("6 NotPassThrough")]
    NotPassThrough,
    /// The control term is no control message of the profile, or bytes are left over.
    #[error("7 BadControl")]
    BadControl,
    /// The length is above [`FRAME_LIMIT`](crate::FRAME_LIMIT), or a message or a reason doesn't fit
    /// ([`fits`](crate::fits)).
    #[error("8 TooLong")]
    TooLong,
    /// The control term or the message doesn't read.
    #[error("9 Term")]
    Term(TermError),
    /// Memory was refused.
    #[error("12 OutOfMemory")]
    OutOfMemory,
}

/// Why bytes are no frame. (ERTS User's Guide, Distribution Protocol, Protocol between Connected
/// Nodes.)
#[derive(Clone, Copy, Debug, PartialEq, Eq, Error)]
pub enum FrameFault {
    /// The first byte after the length isn't 112, pass-through.
    #[error("6 NotPassThrough")]
    NotPassThrough,
    /// The control term is no control message of the profile, or bytes are left over.
    #[error("7 BadControl")]
    BadControl,
    /// The length is above [`FRAME_LIMIT`](crate::FRAME_LIMIT), or a message or a reason doesn't fit
    /// ([`fits`](crate::fits)).
    #[error("8 TooLong")]
    TooLong,
    /// The control term or the message doesn't read.
    #[error("9 Term")]
    Term(TermError),
}

impl FrameFault {
    /// The number by which a side that breaks over the fault names it, 6 to 9: that of the same
    /// [`FrameError`].
    pub fn number(self) -> u8
        ensures { result ≡ frame_fault_number self }
    {
        match self {
            FrameFault::NotPassThrough => 6,
            FrameFault::BadControl => 7,
            FrameFault::TooLong => 8,
            FrameFault::Term(_) => 9,
        }
    }
}

impl FrameError {
    /// The number by which a side that breaks over the error names it.
    pub fn number(self) -> u8
        ensures { result ≡ frame_error_number self }
    {
        match self {
            FrameError::NotPassThrough => 6,
            FrameError::BadControl => 7,
            FrameError::TooLong => 8,
            FrameError::Term(_) => 9,
            FrameError::OutOfMemory => 12,
        }
    }

    /// Returns the fault of the frame. None where memory was refused, which says nothing of it.
    pub fn fault(self) -> Option<FrameFault>
        ensures { result ≡ fault_of self }
    {
        match self {
            FrameError::NotPassThrough => Some(FrameFault::NotPassThrough),
            FrameError::BadControl => Some(FrameFault::BadControl),
            FrameError::TooLong => Some(FrameFault::TooLong),
            FrameError::Term(e) => Some(FrameFault::Term(e)),
            FrameError::OutOfMemory => None,
        }
    }
}

ghost use Rattle.erl_control.specs.Numbers.{frame_error_number, frame_fault_number, fault_of, error_of};

impl From<FrameFault> for FrameError {
    ghost from_gives = { λ fault e. e ≡ error_of fault };

    fn from(fault: FrameFault) -> FrameError {
        match fault {
            FrameFault::NotPassThrough => FrameError::NotPassThrough,
            FrameFault::BadControl => FrameError::BadControl,
            FrameFault::TooLong => FrameError::TooLong,
            FrameFault::Term(e) => FrameError::Term(e),
        }
    }
}

impl From<AllocError> for FrameError {
    ghost from_gives = { λ _ e. e ≡ OutOfMemory };

    fn from(_e: AllocError) -> FrameError {
        FrameError::OutOfMemory
    }
}

impl<T: Drop> From<AllocFailed<T>> for FrameError {
    ghost from_gives = { λ _ e. e ≡ OutOfMemory };

    fn from(_e: AllocFailed<T>) -> FrameError {
        FrameError::OutOfMemory
    }
}
