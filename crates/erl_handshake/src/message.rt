//! The messages of the handshake.

use crate::flags::Flags;
use crate::status::Status;
use erl_names::NodeName;

/// Which side of a connection attempt a node has.
#[derive(Clone, Copy, Debug, PartialEq, Eq)]
pub enum Role {
    /// The node that connects.
    Dialer,
    /// The node that it connects to.
    Acceptor,
}

/// A message of the handshake. (ERTS User's Guide, Distribution Protocol, Distribution Handshake.)
#[derive(Debug, Drop, PartialEq, Eq)]
pub enum ShakeMsg {
    /// send_name, the first message, from the dialer.
    SendName {
        /// What the dialer can do.
        flags: Flags,
        /// The dialer's creation; any number of 32 bits is read.
        creation: u32,
        /// The dialer's name.
        name: NodeName,
    },
    /// send_status, from the acceptor, and the dialer's answer to [`Status::Alive`].
    Status(Status),
    /// send_challenge, from the acceptor.
    Challenge {
        /// What the acceptor can do.
        flags: Flags,
        /// What the dialer is to make a digest of.
        challenge: u32,
        /// The acceptor's creation; any number of 32 bits is read.
        creation: u32,
        /// The acceptor's name.
        name: NodeName,
    },
    /// send_challenge_reply, from the dialer.
    ChallengeReply {
        /// What the acceptor is to make a digest of.
        challenge: u32,
        /// The digest of the dialer's cookie and the acceptor's challenge.
        digest: [u8; 16],
    },
    /// send_challenge_ack, the last message, from the acceptor.
    ChallengeAck {
        /// The digest of the acceptor's cookie and the dialer's challenge.
        digest: [u8; 16],
    },
}
