//! What a signal can carry.
ghost use Rattle.std.specs.Prelude.{◌≡◌, ◌↔◌, ◌<◌, IsTrue, IfNone, IfSome, length};
ghost use Rattle.erl_term.specs.Canonical.{canonical_term};
ghost use Rattle.erl_term.specs.View.{view};
ghost use Rattle.erl_control.specs.Control as control;

use erl_term::{Payload, Term, size_within};

/// The most levels of a message or a reason.
pub const MOST_PAYLOAD_LEVELS: u32 = 60;

/// The most bytes of the canonical spelling of a message or a reason, its version byte included.
pub const MOST_PAYLOAD_BYTES: usize = 1_000_000;

/// Returns true if a signal can carry the term as its message or its reason. Such a term is a value of
/// the profile whose canonical spelling has at most [`MOST_PAYLOAD_LEVELS`] levels and
/// [`MOST_PAYLOAD_BYTES`] bytes. It takes no memory.
///
/// (ERTS User's Guide, External Term Format.)
pub fn fits(term: &Term) -> bool
    ensures { IsTrue result ↔ control.Fits (view term.now) }
{
    size_within(term, MOST_PAYLOAD_LEVELS, MOST_PAYLOAD_BYTES).is_some()
}

/// How many bytes the payload is written in, without a version byte, where it fits.
pub fn payload_len(payload: &Payload) -> Option<usize>
    ensures none { IfNone result (¬ control.Fits payload.now) }
    ensures fits { IfSome result (λ _. control.Fits payload.now) }
    ensures len { IfSome result (λ n. n ≡ length (canonical_term payload.now)) }
    ensures bound { IfSome result (λ n. n < MOST_PAYLOAD_BYTES) }
{
    let len = size_within(payload.term(), MOST_PAYLOAD_LEVELS, MOST_PAYLOAD_BYTES)?;
    Some(len - 1)
}
