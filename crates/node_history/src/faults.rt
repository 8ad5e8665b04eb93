//! Whether two faults are the same.
ghost use Rattle.std.specs.Prelude.{◌≡◌, ◌↔◌, IsTrue};

use conn_core::Fault;
use erl_control::FrameFault;
use erl_handshake::ShakeFault;
use erl_term::TermError;

fn is_same_shake_fault(a: ShakeFault, b: ShakeFault) -> bool
    ensures { IsTrue result ↔ (a ≡ b) }
{
    a == b
}

fn is_same_term_error(a: TermError, b: TermError) -> bool
    ensures { IsTrue result ↔ (a ≡ b) }
{
    match (a, b) {
        (TermError::Cut, TermError::Cut) => true,
        (TermError::Malformed, TermError::Malformed) => true,
        (TermError::OutOfProfile(tag), TermError::OutOfProfile(other)) => tag == other,
        (TermError::TooDeep, TermError::TooDeep) => true,
        (TermError::TooLong, TermError::TooLong) => true,
        (TermError::OutOfMemory, TermError::OutOfMemory) => true,
        _ => false,
    }
}

fn is_same_frame_fault(a: FrameFault, b: FrameFault) -> bool
    ensures { IsTrue result ↔ (a ≡ b) }
{
    match (a, b) {
        (FrameFault::NotPassThrough, FrameFault::NotPassThrough) => true,
        (FrameFault::BadControl, FrameFault::BadControl) => true,
        (FrameFault::TooLong, FrameFault::TooLong) => true,
        (FrameFault::Term(error), FrameFault::Term(other)) => is_same_term_error(error, other),
        _ => false,
    }
}

pub(crate) fn is_same_fault(a: Fault, b: Fault) -> bool
    ensures { IsTrue result ↔ (a ≡ b) }
{
    match (a, b) {
        (Fault::Shake(fault), Fault::Shake(other)) => is_same_shake_fault(fault, other),
        (Fault::Frame(fault), Fault::Frame(other)) => is_same_frame_fault(fault, other),
        (Fault::Forged, Fault::Forged) => true,
        _ => false,
    }
}
