//! How a node shows that it knows the cookie.
ghost use Rattle.std.specs.Prelude.{◌≡◌};
ghost use Rattle.erl_handshake.specs.Digest.{digest_of};

use itoa::Buffer;
use md5::{Digest, Md5};

/// The digest of the cookie and the challenge: MD5 of the cookie's bytes and the challenge in
/// decimal. Takes no memory. (ERTS User's Guide, Distribution Protocol, Distribution Handshake.)
pub fn digest(cookie: &[u8], challenge: u32) -> [u8; 16]
    ensures { result ≡ digest_of cookie.now challenge }
{
    let mut decimal = Buffer::new();
    let mut hasher = Md5::new();
    hasher.update(cookie);
    hasher.update(decimal.format(challenge).as_bytes());
    hasher.finalize()
}
