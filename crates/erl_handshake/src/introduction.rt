//! A peer's introduction, and the tests that both roles of a handshake make.
ghost use Rattle.std.specs.Prelude.{◌≡◌};
ghost use Rattle.erl_handshake.specs.Roles as table;

use crate::cookie::Cookie;
use crate::digesting::digest;
use crate::fault::ShakeFault;
use crate::flags::Flags;
use erl_names::NodeName;

/// The creation and the flags that a peer has told of itself in the handshake. (ERTS User's Guide,
/// Distribution Protocol, Distribution Handshake and Distribution Flags.)
#[derive(Clone, Copy, Debug, PartialEq, Eq)]
pub struct Introduction {
    /// The peer's creation.
    pub creation: u32,
    /// The word of the flags that the peer offers, as [`Flags::bits`] gives it.
    pub flags: u64,
}

/// Returns the fault of a peer that introduces itself: another name than that of the connection, then
/// a mandatory flag that it doesn't offer.
pub(crate) fn introduction_fault(
    expected: &NodeName,
    name: &NodeName,
    flags: Flags,
) -> Option<ShakeFault>
    ensures { result ≡ table.introduction_fault expected.now name.now flags }
{
    if name.text() != expected.text() {
        return Some(ShakeFault::Forged);
    }
    if !flags.has_all_of(Flags::mandatory()) {
        return Some(ShakeFault::FlagsMissing);
    }
    None
}

/// Returns true if the answer to a challenge is the digest of the cookie and that challenge.
pub(crate) fn is_answered(cookie: &Cookie, challenge: u32, answer: &[u8; 16]) -> bool
    ensures { result ≡ table.is_answered cookie.now challenge answer.now }
{
    *answer == digest(cookie.as_slice(), challenge)
}
