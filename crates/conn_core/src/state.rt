//! The states of a side of a connection, by name.
ghost use Rattle.std.specs.Prelude.{◌≡◌};
ghost use Rattle.conn_core.specs.Side as table;

/// How a side of a connection stands, by name. (ERTS User's Guide, Distribution Protocol,
/// Distribution Handshake.)
#[derive(Clone, Copy, Debug, PartialEq, Eq)]
pub enum SideState {
    /// The peer dials, and nothing was answered yet.
    Fresh,
    /// This node dials: it awaits the peer's status, challenge or acknowledgement.
    Dialing,
    /// There is a connection already, and the dialer was asked whether to go on.
    Asked,
    /// The dialer goes on. The challenge is to be sent once the older connection is cleared away.
    Parked,
    /// The challenge was sent, and the dialer's reply is awaited.
    Accepting,
    /// The nodes are connected.
    Up,
    /// The connection is lost, and what this node keeps of it is to be cleared away.
    Losing,
    /// There is no connection.
    Gone,
}

impl SideState {
    /// Returns true if there is a connection, or an attempt at one, that can be lost.
    pub fn is_live(self) -> bool
        ensures { result ≡ table.is_live self }
    {
        match self {
            SideState::Dialing
            | SideState::Asked
            | SideState::Parked
            | SideState::Accepting
            | SideState::Up => true,
            SideState::Fresh | SideState::Losing | SideState::Gone => false,
        }
    }

    /// Returns true if anything may arrive.
    pub fn listens(self) -> bool
        ensures { result ≡ table.listens self }
    {
        self == SideState::Fresh || self.is_live()
    }
}
