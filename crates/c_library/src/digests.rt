//! The digest of a handshake.
ghost use Rattle.std.specs.Prelude.{◌≡◌};
ghost use Rattle.erl_handshake.specs.Digest.{digest_of};

use erl_handshake::digest;

/// Writes the digest of the cookie and the challenge to `out`. Never allocates. (ERTS User's Guide,
/// Distribution Protocol, Distribution Handshake.)
#[unsafe(no_mangle)]
pub extern "C" fn erldist_digest(cookie: &[u8], challenge: u32, out: &mut [u8; 16])
    ensures { out.new ≡ digest_of cookie.now challenge }
{
    *out = digest(cookie, challenge);
}
