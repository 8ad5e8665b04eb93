//! Who a node is in a handshake.
ghost use Rattle.std.specs.Prelude.{◌≡◌, IfOk};
ghost use Rattle.erl_handshake.specs.Roles as table;

use crate::cookie::Cookie;
use crate::flags::Flags;
use crate::message::ShakeMsg;
use erl_names::{Creation, NodeName};
use std::alloc::AllocError;

/// A node as it introduces itself in a handshake, and the cookie that it shares with its peers. (ERTS
/// User's Guide, Distribution Protocol, Distribution Handshake.)
#[derive(Drop)]
pub struct Identity {
    /// The node's name.
    pub name: NodeName,
    /// The incarnation that shakes hands.
    pub creation: Creation,
    /// What the node can do.
    pub flags: Flags,
    /// What the peer has to know.
    pub cookie: Cookie,
}

impl Clone for Identity {
    ghost is_clone = { λ identity copy. copy ≡ identity };

    fn clone(&self) -> Result<Identity, AllocError> {
        Ok(Identity {
            name: self.name.clone()?,
            creation: self.creation,
            flags: self.flags,
            cookie: self.cookie.clone()?,
        })
    }
}

impl Identity {
    /// The first message of a dialer, send_name. (ERTS User's Guide, Distribution Protocol,
    /// Distribution Handshake.)
    ///
    /// # Errors
    /// Where there is no memory for the name.
    pub fn send_name(&self) -> Result<ShakeMsg, AllocError>
        ensures { IfOk result (λ message. message ≡ table.send_name self.now) }
    {
        Ok(ShakeMsg::SendName {
            flags: self.flags,
            creation: self.creation.number(),
            name: self.name.clone()?,
        })
    }

    /// The message send_challenge of an acceptor, with this challenge. (ERTS User's Guide,
    /// Distribution Protocol, Distribution Handshake.)
    ///
    /// # Errors
    /// Where there is no memory for the name.
    pub fn send_challenge(&self, challenge: u32) -> Result<ShakeMsg, AllocError>
        ensures { IfOk result (λ message. message ≡ table.challenge_of self.now challenge) }
    {
        Ok(ShakeMsg::Challenge {
            flags: self.flags,
            challenge,
            creation: self.creation.number(),
            name: self.name.clone()?,
        })
    }
}
