//! The node that connects.
ghost use Rattle.std.specs.Prelude.{◌≡◌};
ghost use Rattle.erl_handshake.specs.Roles as table;

use crate::digesting::digest;
use crate::fault::ShakeFault;
use crate::identity::Identity;
use crate::introduction::{Introduction, introduction_fault, is_answered};
use crate::message::ShakeMsg;
use crate::status::Status;
use crate::turn::Turn;
use erl_names::NodeName;

/// The state of a dialer, by the message that it awaits. Its challenge is what the acceptor has to make
/// a digest of.
///
/// A dialer begins with [`DialerState::AwaitsStatus`], sends
/// [`Identity::send_name`](crate::Identity::send_name), and then what its steps say. (ERTS User's
/// Guide, Distribution Protocol, Distribution Handshake.)
#[derive(Clone, Copy, Debug, PartialEq, Eq)]
pub enum DialerState {
    /// The acceptor's status.
    AwaitsStatus {
        /// The dialer's challenge.
        challenge: u32,
    },
    /// The acceptor's challenge.
    AwaitsChallenge {
        /// The dialer's challenge.
        challenge: u32,
    },
    /// The acceptor's acknowledgement.
    AwaitsAck {
        /// The dialer's challenge.
        challenge: u32,
        /// The acceptor's creation and flags.
        introduction: Introduction,
    },
    /// Nothing: the nodes are connected.
    Done {
        /// The acceptor's creation and flags.
        introduction: Introduction,
    },
    /// Nothing: the handshake has ended without a connection.
    Over,
}

impl DialerState {
    /// A message of the acceptor comes, the node of this name. Takes no memory.
    ///
    /// The handshake ends with [`ShakeFault::BadMessage`] where the message isn't due, with
    /// [`ShakeFault::Nok`] where the acceptor refuses, with [`ShakeFault::Forged`] where its name
    /// isn't the peer's, then with [`ShakeFault::FlagsMissing`], and with [`ShakeFault::BadDigest`]
    /// where the acknowledgement isn't the digest of the cookie and the dialer's challenge. (ERTS
    /// User's Guide, Distribution Protocol, Distribution Handshake.)
    pub fn step(self, own: &Identity, peer: &NodeName, message: &ShakeMsg) -> Turn<DialerState>
        ensures { result ≡ table.dialer_turn own.now peer.now self message.now }
    {
        match self {
            DialerState::AwaitsStatus { challenge } => on_status(challenge, message),
            DialerState::AwaitsChallenge { challenge } => {
                on_challenge(own, peer, challenge, message)
            }
            DialerState::AwaitsAck {
                challenge,
                introduction,
            } => on_ack(own, challenge, introduction, message),
            DialerState::Done { .. } | DialerState::Over => ends(ShakeFault::BadMessage),
        }
    }
}

fn on_status(challenge: u32, message: &ShakeMsg) -> Turn<DialerState>
    ensures { result ≡ table.awaits_status challenge message.now }
{
    match message {
        ShakeMsg::Status(Status::Ok | Status::OkSimultaneous) => {
            Turn::waits(DialerState::AwaitsChallenge { challenge })
        }
        ShakeMsg::Status(Status::Alive) => Turn::says(
            ShakeMsg::Status(Status::True),
            DialerState::AwaitsChallenge { challenge },
        ),
        ShakeMsg::Status(Status::Nok | Status::NotAllowed) => ends(ShakeFault::Nok),
        _ => ends(ShakeFault::BadMessage),
    }
}

fn on_challenge(
    own: &Identity,
    peer: &NodeName,
    challenge: u32,
    message: &ShakeMsg,
) -> Turn<DialerState>
    ensures { result ≡ table.awaits_challenge own.now peer.now challenge message.now }
{
    let ShakeMsg::Challenge {
        flags,
        challenge: theirs,
        creation,
        name,
    } = message
    else {
        return ends(ShakeFault::BadMessage);
    };
    if let Some(why) = introduction_fault(peer, name, *flags) {
        return ends(why);
    }
    let reply = ShakeMsg::ChallengeReply {
        challenge,
        digest: digest(own.cookie.as_slice(), *theirs),
    };
    Turn::says(
        reply,
        DialerState::AwaitsAck {
            challenge,
            introduction: Introduction {
                creation: *creation,
                flags: flags.bits(),
            },
        },
    )
}

fn on_ack(
    own: &Identity,
    challenge: u32,
    introduction: Introduction,
    message: &ShakeMsg,
) -> Turn<DialerState>
    ensures { result ≡ table.awaits_ack own.now challenge introduction message.now }
{
    let ShakeMsg::ChallengeAck { digest: answer } = message else {
        return ends(ShakeFault::BadMessage);
    };
    if !is_answered(&own.cookie, challenge, answer) {
        return ends(ShakeFault::BadDigest);
    }
    Turn::done(None, DialerState::Done { introduction })
}

// The handshake ends.
fn ends(why: ShakeFault) -> Turn<DialerState>
    ensures { result ≡ table.dialer_ends why }
{
    Turn::ended(why, DialerState::Over)
}
