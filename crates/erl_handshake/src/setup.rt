//! The choices of a node before it begins.
ghost use Rattle.std.specs.Prelude.{◌≡◌, ◌↔◌, IsTrue};

use crate::cookie::Cookie;
use crate::profile::Profile;
use std::alloc::AllocError;

/// The cookie and the profile of a node. They stay the same in each of its incarnations. (ERTS User's
/// Guide, Distribution Protocol, Distribution Handshake.)
#[derive(Drop)]
pub struct Setup {
    /// The secret that the node shares with its peers.
    pub cookie: Cookie,
    /// The flags that the node offers.
    pub profile: Profile,
}

impl Setup {
    /// Returns true if the cookies and the profiles are the same. Never allocates.
    pub fn is_same(&self, other: &Setup) -> bool
        ensures { IsTrue result ↔ (self.now ≡ other.now) }
    {
        self.cookie.as_slice() == other.cookie.as_slice() && self.profile == other.profile
    }
}

impl Clone for Setup {
    ghost is_clone = { λ setup copy. copy ≡ setup };

    fn clone(&self) -> Result<Setup, AllocError> {
        Ok(Setup {
            cookie: self.cookie.clone()?,
            profile: self.profile,
        })
    }
}
