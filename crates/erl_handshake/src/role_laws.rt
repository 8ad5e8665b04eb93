//! Laws of the two roles. Each function does nothing: its contract is the law.
ghost use Rattle.std.specs.Prelude.{◌≡◌, ◌≢◌, ◌⊎◌, ℕ, List, Some, None, not, true, false};
ghost use Rattle.erl_handshake.specs.declared.admission.OtherConnections.{OtherConnections};
ghost use Rattle.erl_handshake.specs.declared.status.Status.TheVariants as Status;
ghost use Rattle.erl_handshake.specs.declared.message.ShakeMsg.{ShakeMsg};
ghost use Rattle.erl_handshake.specs.declared.message.ShakeMsg.TheVariants.{SendName, ChallengeReply, ChallengeAck};
ghost use Rattle.erl_handshake.specs.declared.identity.Identity.{Identity};
ghost use Rattle.erl_handshake.specs.declared.turn.Progress.TheVariants as Progress;
ghost use Rattle.erl_handshake.specs.declared.dialer.DialerState.{DialerState};
ghost use Rattle.erl_handshake.specs.declared.dialer.DialerState.TheVariants as dialer;
ghost use Rattle.erl_handshake.specs.declared.acceptor.AcceptorState.{AcceptorState};
ghost use Rattle.erl_handshake.specs.declared.acceptor.AcceptorState.TheVariants as acceptor;
ghost use Rattle.erl_handshake.specs.Digest.{digest_of};
ghost use Rattle.erl_handshake.specs.declared.introduction.Introduction.{Introduction};
ghost use Rattle.erl_handshake.specs.Roles.{dialer_turn, acceptor_turn, introduction_fault, introduction_of, is_answered};
ghost use Rattle.erl_handshake.specs.Admission.{is_superseded, status_due};
ghost use Rattle.erl_handshake.specs.Flags.{has_all_of, mandatory};
ghost use Rattle.erl_handshake.specs.Exchange.{met};

/// A handshake is done only on the digest of the node's own cookie and its own challenge: at the
/// dialer as an acknowledgement, at the acceptor as a reply.
pub fn done_only_by_digest()
    ensures dialer { (own : Identity) (peer : List ℕ) (was : DialerState) (message : ShakeMsg) →
        (dialer_turn own peer was message).next.progress ≡ Progress.Done →
        (challenge : ℕ) × (introduction : Introduction) × (was ≡ dialer.AwaitsAck challenge introduction) × (message ≡ ChallengeAck (digest_of own.cookie challenge)) }
    ensures acceptor { (own : Identity) (peer : List ℕ) (was : AcceptorState) (message : ShakeMsg) (word : ℕ) →
        (acceptor_turn own peer was message word).next.progress ≡ Progress.Done →
        (challenge theirs : ℕ) × (introduction : Introduction) × (was ≡ acceptor.AwaitsReply challenge introduction) × (message ≡ ChallengeReply theirs (digest_of own.cookie challenge)) }
{}

/// Of two attempts of one dialer one gives way to the other.
pub fn later_attempt_goes_on()
    ensures { (count other : ℕ) → count ≢ other → is_superseded count (Some other) ≡ not (is_superseded other (Some count)) }
{}

/// Where two nodes dial each other, and nothing else is between them, one of them keeps its attempt
/// and the other's is refused.
pub fn one_of_two_dials()
    ensures { (a b : List ℕ) (m n : ℕ) (others : OtherConnections) → a ≢ b → others.waiting ≡ None → others.connected ≡ false → others.dialing ≡ true →
        ((status_due a b m others ≡ Status.OkSimultaneous) × (status_due b a n others ≡ Status.Nok))
        ⊎ ((status_due a b m others ≡ Status.Nok) × (status_due b a n others ≡ Status.OkSimultaneous)) }
{}

/// A peer that gives its name and offers the mandatory flags has no fault, and the digest of the
/// cookie and the challenge is an answer.
pub fn right_peers_pass()
    ensures introduced { (name : List ℕ) (flags : ℕ) → has_all_of flags mandatory ≡ true → introduction_fault name name flags ≡ None }
    ensures answered { (cookie : List ℕ) (challenge : ℕ) → is_answered cookie challenge (digest_of cookie challenge) ≡ true }
{}

/// Two nodes that have nothing else between them, offer the mandatory flags and share a cookie, are
/// connected when all that they send has come, and each knows the other's incarnation and flags.
pub fn handshake_comes_about()
    ensures dialer { (own peer : Identity) (count challenge theirs : ℕ) → has_all_of own.flags mandatory ≡ true → has_all_of peer.flags mandatory ≡ true → own.cookie ≡ peer.cookie →
        (met own peer count challenge theirs).dialer ≡ dialer.Done (introduction_of peer) }
    ensures acceptor { (own peer : Identity) (count challenge theirs : ℕ) → has_all_of own.flags mandatory ≡ true → has_all_of peer.flags mandatory ≡ true → own.cookie ≡ peer.cookie →
        (met own peer count challenge theirs).acceptor ≡ acceptor.Done (introduction_of own) }
{
    right_peers_pass();
}
