//! The node to which another connects.
ghost use Rattle.std.specs.Prelude.{◌≡◌, true, false, IfOk, IfSome, MatchOption, MatchResult};
ghost use Rattle.erl_handshake.specs.Roles as table;
ghost use Rattle.erl_handshake.specs.Admission as rule;

use crate::admission::{Admission, OtherConnections, admission_of, status_due};
use crate::digesting::digest;
use crate::fault::ShakeFault;
use crate::identity::Identity;
use crate::introduction::{Introduction, introduction_fault, is_answered};
use crate::message::ShakeMsg;
use crate::status::Status;
use crate::turn::Turn;
use erl_names::{NodeName, TrunkId};
use std::alloc::AllocError;

/// The state of an acceptor, by the message that it awaits. Its challenge is what the dialer has to
/// make a digest of.
///
/// An acceptor begins with [`AcceptorState::AwaitsName`]. (ERTS User's Guide, Distribution Protocol,
/// Distribution Handshake.)
#[derive(Clone, Copy, Debug, PartialEq, Eq)]
pub enum AcceptorState {
    /// The dialer's name.
    AwaitsName,
    /// The node's word on whether the attempt may go on.
    AwaitsAdmission {
        /// The acceptor's challenge.
        challenge: u32,
        /// The dialer's creation and flags.
        introduction: Introduction,
    },
    /// The dialer's answer to the status `alive`.
    AwaitsAnswer {
        /// The acceptor's challenge.
        challenge: u32,
        /// The dialer's creation and flags.
        introduction: Introduction,
    },
    /// The node's word that the challenge may be sent.
    AwaitsTurn {
        /// The acceptor's challenge.
        challenge: u32,
        /// The dialer's creation and flags.
        introduction: Introduction,
    },
    /// The dialer's reply to the challenge.
    AwaitsReply {
        /// The acceptor's challenge.
        challenge: u32,
        /// The dialer's creation and flags.
        introduction: Introduction,
    },
    /// Nothing: the nodes are connected.
    Done {
        /// The dialer's creation and flags.
        introduction: Introduction,
    },
    /// Nothing: the handshake has ended without a connection.
    Over,
}

impl AcceptorState {
    /// A message of the dialer comes, the node of this name. Takes no memory.
    ///
    /// The word becomes the acceptor's challenge where the message is the dialer's name, and is not
    /// used elsewhere. The handshake ends with [`ShakeFault::BadMessage`] where the message isn't
    /// due, with [`ShakeFault::Forged`] where the name isn't the dialer's, then with
    /// [`ShakeFault::FlagsMissing`], with [`ShakeFault::Nok`] where the dialer doesn't go on, and
    /// with [`ShakeFault::BadDigest`] where the reply isn't the digest of the cookie and the
    /// acceptor's challenge. (ERTS User's Guide, Distribution Protocol, Distribution Handshake.)
    pub fn step(
        self,
        own: &Identity,
        dialer: &NodeName,
        message: &ShakeMsg,
        word: u32,
    ) -> Turn<AcceptorState>
        ensures { result ≡ table.acceptor_turn own.now dialer.now self message.now word }
    {
        match self {
            AcceptorState::AwaitsName => on_name(dialer, message, word),
            AcceptorState::AwaitsAnswer {
                challenge,
                introduction,
            } => on_answer(challenge, introduction, message),
            AcceptorState::AwaitsReply {
                challenge,
                introduction,
            } => on_reply(own, challenge, introduction, message),
            AcceptorState::AwaitsAdmission { .. }
            | AcceptorState::AwaitsTurn { .. }
            | AcceptorState::Done { .. }
            | AcceptorState::Over => ends(ShakeFault::BadMessage),
        }
    }

    /// Decides whether the attempt goes on at the node of this name, beside the other connections
    /// that the node has with the dialer. Answers what the acceptor awaits then, and what is said to
    /// the dialer; None where the acceptor doesn't await this. Takes no memory.
    ///
    /// An attempt that gives way to a later one of the dialer ends with [`ShakeFault::Superseded`],
    /// and one that gives way to the own node's with [`ShakeFault::Nok`]. (ERTS User's Guide,
    /// Distribution Protocol, Distribution Handshake.)
    pub fn admit(
        self,
        own: &NodeName,
        trunk: &TrunkId,
        others: OtherConnections,
    ) -> Option<(AcceptorState, Admission)>
        ensures due { MatchOption result (table.awaits_admission self ≡ false) (λ _. table.awaits_admission self ≡ true) }
        ensures state { let said = rule.status_due trunk.now.dialer own.now trunk.now.count others in
            IfSome result (λ x. x.0 ≡ table.admitted said self) }
        ensures admission { IfSome result (λ x. x.1 ≡ rule.admission trunk.now.dialer own.now trunk.now.count others) }
    {
        let AcceptorState::AwaitsAdmission {
            challenge,
            introduction,
        } = self
        else {
            return None;
        };
        let said = status_due(trunk, own, others);
        Some((
            after_status(said, challenge, introduction),
            admission_of(trunk.count, said, others),
        ))
    }

    /// Sends the challenge, now that no older connection stands in the way: answers what the acceptor
    /// awaits then, and the message send_challenge. None where the acceptor doesn't await this. (ERTS
    /// User's Guide, Distribution Protocol, Distribution Handshake.)
    ///
    /// # Errors
    /// Where it awaits this, and there is no memory for the name in the message.
    pub fn send_challenge(
        self,
        own: &Identity,
    ) -> Result<Option<(AcceptorState, ShakeMsg)>, AllocError>
        ensures due { MatchResult result (λ x. MatchOption x (table.awaits_turn self ≡ false) (λ _. table.awaits_turn self ≡ true)) (λ _. table.awaits_turn self ≡ true) }
        ensures state { IfOk result (λ x. IfSome x (λ c. c.0 ≡ table.goes_on self)) }
        ensures message { IfOk result (λ x. IfSome x (λ c. c.1 ≡ table.challenge_of own.now (table.turn_challenge self))) }
    {
        let AcceptorState::AwaitsTurn {
            challenge,
            introduction,
        } = self
        else {
            return Ok(None);
        };
        let message = own.send_challenge(challenge)?;
        let state = AcceptorState::AwaitsReply {
            challenge,
            introduction,
        };
        Ok(Some((state, message)))
    }
}

fn on_name(dialer: &NodeName, message: &ShakeMsg, word: u32) -> Turn<AcceptorState>
    ensures { result ≡ table.awaits_name dialer.now message.now word }
{
    let ShakeMsg::SendName {
        flags,
        creation,
        name,
    } = message
    else {
        return ends(ShakeFault::BadMessage);
    };
    if let Some(why) = introduction_fault(dialer, name, *flags) {
        return ends(why);
    }
    Turn::waits(AcceptorState::AwaitsAdmission {
        challenge: word,
        introduction: Introduction {
            creation: *creation,
            flags: flags.bits(),
        },
    })
}

fn on_answer(challenge: u32, introduction: Introduction, message: &ShakeMsg) -> Turn<AcceptorState>
    ensures { result ≡ table.awaits_answer challenge introduction message.now }
{
    match message {
        ShakeMsg::Status(Status::True) => Turn::waits(AcceptorState::AwaitsTurn {
            challenge,
            introduction,
        }),
        ShakeMsg::Status(Status::False) => ends(ShakeFault::Nok),
        _ => ends(ShakeFault::BadMessage),
    }
}

fn on_reply(
    own: &Identity,
    challenge: u32,
    introduction: Introduction,
    message: &ShakeMsg,
) -> Turn<AcceptorState>
    ensures { result ≡ table.awaits_reply own.now challenge introduction message.now }
{
    let ShakeMsg::ChallengeReply {
        challenge: theirs,
        digest: answer,
    } = message
    else {
        return ends(ShakeFault::BadMessage);
    };
    if !is_answered(&own.cookie, challenge, answer) {
        return ends(ShakeFault::BadDigest);
    }
    let acknowledgement = ShakeMsg::ChallengeAck {
        digest: digest(own.cookie.as_slice(), *theirs),
    };
    Turn::done(Some(acknowledgement), AcceptorState::Done { introduction })
}

// The handshake ends.
fn ends(why: ShakeFault) -> Turn<AcceptorState>
    ensures { result ≡ table.acceptor_ends why }
{
    Turn::ended(why, AcceptorState::Over)
}

// Returns the state of the acceptor once it has said this status.
fn after_status(said: Status, challenge: u32, introduction: Introduction) -> AcceptorState
    ensures { result ≡ table.after_status said challenge introduction }
{
    match said {
        Status::Ok | Status::OkSimultaneous => AcceptorState::AwaitsTurn {
            challenge,
            introduction,
        },
        Status::Alive => AcceptorState::AwaitsAnswer {
            challenge,
            introduction,
        },
        Status::Nok | Status::NotAllowed | Status::True | Status::False => AcceptorState::Over,
    }
}
