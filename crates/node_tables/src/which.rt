//! Which sides are sought.
ghost use Rattle.std.specs.Prelude.{◌≡◌, not};
ghost use Rattle.dist_model.specs.Sides.{is_dialing, is_gone, is_losing, is_parked, is_up, is_waiting};
ghost use Rattle.node_tables.specs.Passing.{passes};
ghost use Rattle.node_tables.specs.Standings.{state_of};

use conn_core::Standing;
use erl_handshake::{AcceptorState, DialerState};

/// Which sides are sought, by how they stand. (ERTS User's Guide, Distribution Protocol, Distribution
/// Handshake.)
#[derive(Clone, Copy, Debug, PartialEq, Eq)]
pub enum Which {
    /// The nodes are connected.
    Up,
    /// The connection is lost, and what the node keeps of it is to be cleared away.
    Losing,
    /// The peer's attempt goes on once an older connection is cleared away.
    Parked,
    /// The peer dials, and its attempt was answered.
    Waiting,
    /// This node dials.
    Dialing,
    /// The node may keep records of processes at the peer.
    Holding,
    /// There is a connection, or an attempt at one.
    Open,
}

impl Which {
    /// Returns true if a side of this standing is sought.
    pub fn passes(self, standing: Standing) -> bool
        ensures { result ≡ passes self (state_of standing) }
    {
        match self {
            Which::Up => is_up(standing),
            Which::Losing => is_losing(standing),
            Which::Parked => is_parked(standing),
            Which::Waiting => is_waiting(standing),
            Which::Dialing => is_dialing(standing),
            Which::Holding => is_up(standing) || is_losing(standing),
            Which::Open => is_open(standing),
        }
    }
}

pub(crate) fn is_up(standing: Standing) -> bool
    ensures { result ≡ is_up (state_of standing) }
{
    match standing {
        Standing::Up { .. } => true,
        _ => false,
    }
}

pub(crate) fn is_losing(standing: Standing) -> bool
    ensures { result ≡ is_losing (state_of standing) }
{
    match standing {
        Standing::Losing { .. } => true,
        _ => false,
    }
}

fn is_parked(standing: Standing) -> bool
    ensures { result ≡ is_parked (state_of standing) }
{
    match standing {
        Standing::Accepting(AcceptorState::AwaitsTurn { .. }) => true,
        _ => false,
    }
}

fn is_waiting(standing: Standing) -> bool
    ensures { result ≡ is_waiting (state_of standing) }
{
    match standing {
        Standing::Accepting(
            AcceptorState::AwaitsAnswer { .. }
            | AcceptorState::AwaitsTurn { .. }
            | AcceptorState::AwaitsReply { .. },
        ) => true,
        _ => false,
    }
}

fn is_dialing(standing: Standing) -> bool
    ensures { result ≡ is_dialing (state_of standing) }
{
    match standing {
        Standing::Dialing(
            DialerState::AwaitsStatus { .. }
            | DialerState::AwaitsChallenge { .. }
            | DialerState::AwaitsAck { .. },
        ) => true,
        _ => false,
    }
}

pub(crate) fn is_open(standing: Standing) -> bool
    ensures { result ≡ not (is_gone (state_of standing)) }
{
    match standing {
        Standing::Up { .. } | Standing::Losing { .. } => true,
        Standing::Dialing(_) => is_dialing(standing),
        Standing::Accepting(_) => is_waiting(standing),
        Standing::Gone => false,
    }
}
