//! The items of a connection.

use crate::spelling::Spelling;
use erl_names::TrunkId;

/// The direction of an item on a connection.
#[derive(Clone, Copy, Debug, Drop, PartialEq, Eq)]
pub enum Direction {
    /// From the dialer to the acceptor.
    ToAcceptor,
    /// From the acceptor to the dialer.
    ToDialer,
}

/// One item that one event of the sending node wrote. It goes over a wire in pieces, which the
/// receiver puts together again.
#[derive(Clone, Drop)]
pub struct Parcel {
    /// The connection.
    pub trunk: TrunkId,
    /// The direction.
    pub towards: Direction,
    /// The number of the item among those of this connection in this direction, from 1.
    pub seq: u64,
    /// The stamp of the event that sent it, from 1.
    pub stamp: u64,
    /// The bytes of the item.
    pub bytes: Spelling,
}
