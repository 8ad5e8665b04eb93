//! One side of a connection.
ghost use Rattle.std.specs.Prelude.{◌≡◌, ◌↔◌, ◌⊎◌, true, false, IfOk, IfSome, IfErr, IsErrOf, MatchOption, MatchResult, Some};
ghost use Rattle.erl_handshake.specs.Roles.{challenge_of};
ghost use Rattle.erl_handshake.specs.Admission.{admission};
ghost use Rattle.conn_core.specs.declared.standing.Standing.TheVariants as standing;
ghost use Rattle.conn_core.specs.Side as table;
ghost use Rattle.conn_core.specs.Arrivals.{ArrivalDue, FrameDue, FrameTakesMemory, TakesMemory};
ghost use Rattle.conn_core.specs.Happenings.{dialed, unheard};

use crate::arrival::{Arrival, Fault};
use crate::standing::Standing;
use erl_control::frame_at;
use erl_handshake::{
    AcceptorState, Admission, DialerState, Identity, OtherConnections, Role, ShakeFault, ShakeMsg,
    read,
};
use erl_names::{NodeName, TrunkId};
use erl_term::Refusal;
use std::alloc::{AllocError, Global};

/// One node's part of a connection, or of an attempt at one.
///
/// What happens to a side is first judged, by calls that leave it as it is, and then taken by setting
/// `standing`, which can't be refused. Who the node is, is lent to each call. (ERTS User's Guide,
/// Distribution Protocol, Distribution Handshake and Protocol between Connected Nodes.)
#[derive(Debug, Drop)]
pub struct Side {
    /// The connection.
    pub trunk: TrunkId,
    /// The other node.
    pub peer: NodeName,
    /// How the side stands.
    pub standing: Standing,
}

impl Clone for Side {
    ghost is_clone = { λ side copy. copy ≡ side };

    fn clone(&self) -> Result<Side, AllocError> {
        Ok(Side {
            trunk: self.trunk.clone()?,
            peer: self.peer.clone()?,
            standing: self.standing,
        })
    }
}

impl Side {
    /// The side of a node that dials this peer, under a challenge of its own. What it sends is
    /// [`Identity::send_name`]. Takes no memory. (ERTS User's Guide, Distribution Protocol,
    /// Distribution Handshake.)
    pub fn dial(trunk: TrunkId, peer: NodeName, challenge: u32) -> Side
        ensures { result ≡ dialed trunk peer challenge }
    {
        Side {
            trunk,
            peer,
            standing: Standing::Dialing(DialerState::AwaitsStatus { challenge }),
        }
    }

    /// The side of a node that another dials, of which nothing has come yet.
    ///
    /// # Errors
    /// Where there is no memory for the peer's name.
    pub fn fresh(trunk: TrunkId) -> Result<Side, AllocError>
        ensures { IfOk result (λ side. side ≡ unheard trunk) }
    {
        Ok(Side {
            peer: trunk.dialer.clone()?,
            trunk,
            standing: Standing::Accepting(AcceptorState::AwaitsName),
        })
    }

    /// Returns the arrival of the message of the handshake at the front of the bytes, or of the frame
    /// if the side is up. None asks for more bytes. Changes nothing.
    ///
    /// The word becomes the challenge of a side that is fresh, and is not used elsewhere. A fault
    /// leaves a side that was up Losing, and any other Gone. (ERTS User's Guide, Distribution
    /// Protocol, Distribution Handshake and Protocol between Connected Nodes.)
    ///
    /// # Errors
    /// [`Refusal::NotLive`] on a side that is Losing or Gone, and [`Refusal::OutOfMemory`], only where
    /// a message or a signal has come.
    pub fn judge(
        &self,
        alloc: Global,
        own: &Identity,
        bytes: &[u8],
        word: u32,
    ) -> Result<Option<Arrival>, Refusal>
        ensures ok { IfOk result (λ due. ArrivalDue own.now self.now bytes.now word due) }
        ensures not_live { IsErrOf result Refusal.NotLive ↔ (table.listens (table.state_of self.now.standing) ≡ false) }
        ensures memory { IsErrOf result Refusal.OutOfMemory → TakesMemory self.now.standing bytes.now }
        ensures only { IfErr result (λ e. (e ≡ Refusal.NotLive) ⊎ (e ≡ Refusal.OutOfMemory)) }
    {
        match self.standing {
            Standing::Dialing(state) => self.judge_dialing(alloc, own, state, bytes),
            Standing::Accepting(state) => self.judge_accepting(alloc, own, state, bytes, word),
            Standing::Up { .. } => judge_frame(alloc, self.standing, bytes),
            Standing::Losing { .. } | Standing::Gone => Err(Refusal::NotLive),
        }
    }

    /// Returns the arrival of a message of the handshake that was read from `len` bytes. The word
    /// becomes the challenge of a side that is fresh, and is not used elsewhere. Changes nothing, and
    /// takes no memory. (ERTS User's Guide, Distribution Protocol, Distribution Handshake.)
    pub fn hear(&self, own: &Identity, message: ShakeMsg, word: u32, len: usize) -> Arrival
        ensures { result ≡ table.on_message own.now self.now.peer self.now.standing message word len }
    {
        match self.standing {
            Standing::Dialing(state) => {
                let turn = state.step(own, &self.peer, &message);
                Arrival::of_message(turn.state.into(), message, turn.next, len)
            }
            Standing::Accepting(state) => {
                let turn = state.step(own, &self.peer, &message, word);
                Arrival::of_message(turn.state.into(), message, turn.next, len)
            }
            Standing::Up { .. } | Standing::Losing { .. } | Standing::Gone => unread(self.standing),
        }
    }

    /// Returns the arrival of bytes that are no message of the handshake. Changes nothing, and takes no
    /// memory. (ERTS User's Guide, Distribution Protocol, Distribution Handshake.)
    pub fn hear_nothing(&self) -> Arrival
        ensures { result ≡ table.on_no_message self.now.standing }
    {
        unread(self.standing)
    }

    /// Decides whether the attempt of the peer goes on at the node of this name, beside the other
    /// connections that the node has with the peer ([`AcceptorState::admit`]). Answers how the side
    /// stands then, and what is said to the peer; None where the side doesn't await this. Changes
    /// nothing, and takes no memory. (ERTS User's Guide, Distribution Protocol, Distribution
    /// Handshake.)
    pub fn admit(&self, own: &NodeName, others: OtherConnections) -> Option<(Standing, Admission)>
        ensures due { let awaits = table.awaits_admission_of self.now.standing in
            MatchOption result (awaits ≡ false) (λ _. awaits ≡ true) }
        ensures standing { IfSome result (λ x. x.0 ≡ table.admitted_at own.now self.now.trunk self.now.standing others) }
        ensures admission { let trunk = self.now.trunk in
            IfSome result (λ x. x.1 ≡ admission trunk.dialer own.now trunk.count others) }
    {
        match self.standing {
            Standing::Accepting(state) => {
                let (state, admission) = state.admit(own, &self.trunk, others)?;
                Some((state.into(), admission))
            }
            _ => None,
        }
    }

    /// Sends the challenge, now that no older connection stands in the way
    /// ([`AcceptorState::send_challenge`]): answers how the side stands then, and the message
    /// send_challenge. None where the side doesn't await this. Changes nothing. (ERTS User's Guide,
    /// Distribution Protocol, Distribution Handshake.)
    ///
    /// # Errors
    /// Where the side awaits this, and there is no memory for the name in the challenge.
    pub fn send_challenge(&self, own: &Identity) -> Result<Option<(Standing, ShakeMsg)>, AllocError>
        ensures due { let awaits = table.awaits_turn_of self.now.standing in
            MatchResult result (λ x. MatchOption x (awaits ≡ false) (λ _. awaits ≡ true)) (λ _. awaits ≡ true) }
        ensures standing { IfOk result (λ x. IfSome x (λ c. c.0 ≡ table.gone_on self.now.standing)) }
        ensures message { IfOk result (λ x. IfSome x (λ c. c.1 ≡ challenge_of own.now (table.challenge_at self.now.standing))) }
    {
        let Standing::Accepting(state) = self.standing else {
            return Ok(None);
        };
        match state.send_challenge(own)? {
            Some((state, message)) => Ok(Some((state.into(), message))),
            None => Ok(None),
        }
    }

    // What comes to a side that dials.
    fn judge_dialing(
        &self,
        alloc: Global,
        own: &Identity,
        state: DialerState,
        bytes: &[u8],
    ) -> Result<Option<Arrival>, Refusal>
        ensures ok { IfOk result (λ due. ArrivalDue own.now (record self.now { standing = standing.Dialing state }) bytes.now 0 due) }
        ensures memory { IfErr result (λ e. (e ≡ Refusal.OutOfMemory) × TakesMemory (standing.Dialing state) bytes.now) }
    {
        match read(alloc, Role::Dialer, bytes) {
            Ok(Some((message, len))) => {
                let turn = state.step(own, &self.peer, &message);
                Ok(Some(Arrival::of_message(turn.state.into(), message, turn.next, len)))
            }
            Ok(None) => Ok(None),
            Err(Refusal::OutOfMemory) => Err(Refusal::OutOfMemory),
            Err(_) => Ok(Some(unread(Standing::Dialing(state)))),
        }
    }

    // What comes to a side that another node dials.
    fn judge_accepting(
        &self,
        alloc: Global,
        own: &Identity,
        state: AcceptorState,
        bytes: &[u8],
        word: u32,
    ) -> Result<Option<Arrival>, Refusal>
        ensures ok { IfOk result (λ due. ArrivalDue own.now (record self.now { standing = standing.Accepting state }) bytes.now word due) }
        ensures memory { IfErr result (λ e. (e ≡ Refusal.OutOfMemory) × TakesMemory (standing.Accepting state) bytes.now) }
    {
        match read(alloc, Role::Acceptor, bytes) {
            Ok(Some((message, len))) => {
                let turn = state.step(own, &self.peer, &message, word);
                Ok(Some(Arrival::of_message(turn.state.into(), message, turn.next, len)))
            }
            Ok(None) => Ok(None),
            Err(Refusal::OutOfMemory) => Err(Refusal::OutOfMemory),
            Err(_) => Ok(Some(unread(Standing::Accepting(state)))),
        }
    }
}

// Bytes come that are no message of the handshake.
fn unread(standing: Standing) -> Arrival
    ensures { result ≡ table.on_no_message standing }
{
    Arrival::broken(standing, Fault::Shake(ShakeFault::BadMessage))
}

// What comes to a side that is up.
fn judge_frame(alloc: Global, standing: Standing, bytes: &[u8]) -> Result<Option<Arrival>, Refusal>
    ensures ok { IfOk result (λ due. FrameDue standing bytes.now due) }
    ensures memory { IfErr result (λ e. (e ≡ Refusal.OutOfMemory) × FrameTakesMemory bytes.now) }
{
    match frame_at(bytes) {
        Ok(Some((item, len))) => {
            let item = item.to_item(alloc)?;
            Ok(Some(Arrival::of_item(standing, item, len)))
        }
        Ok(None) => Ok(None),
        Err(why) => Ok(Some(Arrival::broken(standing, Fault::Frame(why)))),
    }
}
