//! Whether an item is read where it comes.
ghost use Rattle.std.specs.Prelude.{◌≡◌, not};
ghost use Rattle.std.specs.Option.{option_copied, option_map};
ghost use Rattle.node_core.specs.Model.{model_of};
ghost use Rattle.node_history.specs.Kinds.{ReadIsWhole, comes_here, is_for_acceptor, is_for_dialer, is_message, reads_kind, reads_kind_at};
ghost use Rattle.conn_core.specs.declared.standing.Standing.TheVariants as standing;
ghost use Rattle.node_core.specs.Arrived.{is_undialed};
ghost use Rattle.node_tables.specs.Standings.{side_of, state_of};

use crate::arriving::are_bytes;
use conn_core::{Side, Standing};
use dist_model::Kind;
use erl_handshake::{AcceptorState, DialerState};
use erl_names::TrunkId;
use node_core::Node;
use node_frames::{kind_in, same_name};

// Whether it is a message of the handshake, and no frame.
fn is_message(kind: Option<Kind>) -> bool
    ensures { result ≡ is_message kind }
{
    matches!(
        kind,
        Some(
            Kind::SendName
                | Kind::Status
                | Kind::Challenge
                | Kind::ChallengeReply
                | Kind::ChallengeAck
        )
    )
}

// Whether it is a message that is written to a dialer.
fn is_for_dialer(kind: Option<Kind>) -> bool
    ensures { result ≡ is_for_dialer kind }
{
    matches!(
        kind,
        Some(Kind::Status | Kind::Challenge | Kind::ChallengeAck)
    )
}

// Whether it is a message that is written to an acceptor.
fn is_for_acceptor(kind: Option<Kind>) -> bool
    ensures { result ≡ is_for_acceptor kind }
{
    matches!(
        kind,
        Some(Kind::SendName | Kind::Status | Kind::ChallengeReply)
    )
}

// Whether a side that dials reads it.
fn is_read_dialing(state: DialerState, kind: Option<Kind>) -> bool
    ensures { result ≡ reads_kind (state_of (standing.Dialing state)) kind }
{
    match state {
        DialerState::AwaitsStatus { .. } => is_for_dialer(kind),
        DialerState::AwaitsChallenge { .. } => is_for_dialer(kind),
        DialerState::AwaitsAck { .. } => is_for_dialer(kind),
        DialerState::Done { .. } => true,
        DialerState::Over => true,
    }
}

// Whether a side that was dialed reads it.
fn is_read_accepting(state: AcceptorState, kind: Option<Kind>) -> bool
    ensures { result ≡ reads_kind (state_of (standing.Accepting state)) kind }
{
    match state {
        AcceptorState::AwaitsAnswer { .. } => is_for_acceptor(kind),
        AcceptorState::AwaitsTurn { .. } => is_for_acceptor(kind),
        AcceptorState::AwaitsReply { .. } => is_for_acceptor(kind),
        AcceptorState::AwaitsName => true,
        AcceptorState::AwaitsAdmission { .. } => true,
        AcceptorState::Done { .. } => true,
        AcceptorState::Over => true,
    }
}

// Whether a side that stands so reads it.
fn is_read_in(standing: Standing, kind: Option<Kind>) -> bool
    ensures { result ≡ reads_kind (state_of standing) kind }
{
    match standing {
        Standing::Dialing(state) => is_read_dialing(state, kind),
        Standing::Accepting(state) => is_read_accepting(state, kind),
        Standing::Up { .. } => !is_message(kind),
        Standing::Losing { .. } => true,
        Standing::Gone => true,
    }
}

// Whether a side reads it, or a node without one.
fn is_read_at(side: Option<&Side>, kind: Option<Kind>) -> bool
    ensures { result ≡ reads_kind_at (option_map side_of (option_copied side.entry)) kind }
{
    match side {
        Some(side) => is_read_in(side.standing, kind),
        None => is_for_acceptor(kind),
    }
}

// Whether a side is there, or the node isn't the dialer.
fn is_dialed(node: &Node, trunk: &TrunkId, side: Option<&Side>) -> bool
    ensures { result ≡ not (is_undialed (model_of node.now) trunk.now (option_map side_of (option_copied side.entry))) }
{
    match side {
        Some(_) => true,
        None => !same_name(trunk.dialer.atom(), node.name().atom()),
    }
}

/// Returns true if the node reads an item of these bytes, sent on a connection, or refuses it whatever
/// it is. Takes no memory. (ERTS User's Guide, Distribution Protocol, Distribution Handshake and
/// Protocol between Connected Nodes.)
pub fn is_read(node: &Node, trunk: &TrunkId, bytes: &[u8]) -> bool
    ensures { result ≡ comes_here (model_of node.now) trunk.now bytes.now }
{
    let side = node.side(trunk);
    is_dialed(node, trunk, side) && is_read_at(side, kind_in(bytes))
}

/// Does nothing. What is sent and read here is whole ([`Node::whole`]): the node asks for no more bytes.
pub fn what_is_read_is_whole(bytes: &[u8])
    ensures { ReadIsWhole bytes.now }
{
    erl_control::one_answer();
    erl_control::read_again();
    are_bytes(bytes);
}
