//! The standing of a side of a connection.
ghost use Rattle.std.specs.Prelude.{◌≡◌};
ghost use Rattle.conn_core.specs.Side as table;

use crate::state::SideState;
use erl_handshake::{AcceptorState, DialerState, Introduction};

/// The standing of a side of a connection. A handshake that is done is Up, and one that is over is Gone:
/// the roles' own words for these stand in no side. (ERTS User's Guide, Distribution Protocol,
/// Distribution Handshake.)
#[derive(Clone, Copy, Debug, PartialEq, Eq)]
pub enum Standing {
    /// This node dials.
    Dialing(DialerState),
    /// The peer dials.
    Accepting(AcceptorState),
    /// The nodes are connected.
    Up {
        /// The peer's creation and flags.
        introduction: Introduction,
    },
    /// The connection was up and is lost, and isn't cleared away yet.
    Losing {
        /// The peer's creation and flags.
        introduction: Introduction,
    },
    /// There is no connection.
    Gone,
}

impl Standing {
    /// The state by name.
    pub fn state(self) -> SideState
        ensures { result ≡ table.state_of self }
    {
        match self {
            Standing::Dialing(_) => SideState::Dialing,
            Standing::Accepting(state) => acceptor_state(state),
            Standing::Up { .. } => SideState::Up,
            Standing::Losing { .. } => SideState::Losing,
            Standing::Gone => SideState::Gone,
        }
    }

    /// Returns the peer's creation and flags, from when the peer has told them until the side is gone.
    pub fn introduction(self) -> Option<Introduction>
        ensures { result ≡ table.peer_introduction self }
    {
        match self {
            Standing::Dialing(state) => dialer_peer(state),
            Standing::Accepting(state) => acceptor_peer(state),
            Standing::Up { introduction } | Standing::Losing { introduction } => Some(introduction),
            Standing::Gone => None,
        }
    }

    /// Returns the standing once the connection is lost, or the attempt given up: Losing where the side
    /// was up, else Gone.
    pub fn lost(self) -> Standing
        ensures { result ≡ table.lost self }
    {
        match self {
            Standing::Up { introduction } | Standing::Losing { introduction } => {
                Standing::Losing { introduction }
            }
            Standing::Dialing(_) | Standing::Accepting(_) | Standing::Gone => Standing::Gone,
        }
    }
}

impl From<DialerState> for Standing {
    ghost from_gives = { λ state s. s ≡ table.of_dialer state };

    fn from(state: DialerState) -> Standing {
        match state {
            DialerState::Done { introduction } => Standing::Up { introduction },
            DialerState::Over => Standing::Gone,
            _ => Standing::Dialing(state),
        }
    }
}

impl From<AcceptorState> for Standing {
    ghost from_gives = { λ state s. s ≡ table.of_acceptor state };

    fn from(state: AcceptorState) -> Standing {
        match state {
            AcceptorState::Done { introduction } => Standing::Up { introduction },
            AcceptorState::Over => Standing::Gone,
            _ => Standing::Accepting(state),
        }
    }
}

fn acceptor_state(state: AcceptorState) -> SideState
    ensures { result ≡ table.acceptor_state state }
{
    match state {
        AcceptorState::AwaitsName | AcceptorState::AwaitsAdmission { .. } => SideState::Fresh,
        AcceptorState::AwaitsAnswer { .. } => SideState::Asked,
        AcceptorState::AwaitsTurn { .. } => SideState::Parked,
        AcceptorState::AwaitsReply { .. } | AcceptorState::Done { .. } | AcceptorState::Over => {
            SideState::Accepting
        }
    }
}

fn dialer_peer(state: DialerState) -> Option<Introduction>
    ensures { result ≡ table.dialer_peer state }
{
    match state {
        DialerState::AwaitsAck { introduction, .. } => Some(introduction),
        _ => None,
    }
}

fn acceptor_peer(state: AcceptorState) -> Option<Introduction>
    ensures { result ≡ table.acceptor_peer state }
{
    match state {
        AcceptorState::AwaitsAdmission { introduction, .. }
        | AcceptorState::AwaitsAnswer { introduction, .. }
        | AcceptorState::AwaitsTurn { introduction, .. }
        | AcceptorState::AwaitsReply { introduction, .. } => Some(introduction),
        AcceptorState::AwaitsName | AcceptorState::Done { .. } | AcceptorState::Over => None,
    }
}
