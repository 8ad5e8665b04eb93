//! What two nodes that connect both have to know.
ghost use Rattle.std.specs.Prelude.{◌≡◌};

use std::alloc::AllocError;
use std::marker::Model;

/// The secret that two nodes share. Contracts see its bytes.
///
/// It is never sent: a node shows that it knows the cookie by a [`digest`](crate::digest). (ERTS
/// User's Guide, Distribution Protocol, Distribution Handshake; Reference Manual, Distributed
/// Erlang, Security.)
#[derive(Drop)]
pub struct Cookie {
    bytes: Vec<u8>,
}

impl Model for Cookie {
    ghost use Rattle.std.specs.Prelude.{List, ℕ};

    ghost Value = { List ℕ };

    ghost view = { λ c. c.bytes.items };
}

impl Cookie {
    /// The cookie of these bytes, any bytes.
    pub fn new(bytes: Vec<u8>) -> Cookie
        ensures { result ≡ bytes.items }
    {
        Cookie { bytes }
    }

    /// The bytes of the cookie.
    pub fn as_slice(&self) -> &[u8]
        ensures { result.now ≡ self.now }
    {
        &self.bytes
    }
}

impl Clone for Cookie {
    ghost is_clone = { λ cookie copy. copy ≡ cookie };

    fn clone(&self) -> Result<Cookie, AllocError> {
        Ok(Cookie {
            bytes: self.bytes.clone()?,
        })
    }
}
