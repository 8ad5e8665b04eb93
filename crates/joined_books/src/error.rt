//! The faults of books that don't merge.
ghost use Rattle.std.specs.Prelude.{◌≡◌};
ghost use Rattle.joined_books.specs.declared.error.FinishError.TheVariants.{OutOfMemory};

use erl_names::TrunkId;
use std::alloc::{AllocError, AllocFailed};
use thiserror::Error;

/// The reason why books and seats don't join. Nodes and positions count from 0.
#[derive(Debug, Drop, Error)]
pub enum FinishError {
    /// The book at this place isn't that of the node there: its name, its cookie, its profile or its list of names is
    /// another, or a node before has its name. Or the node at this place is the first that has no book.
    #[error("23 StrangeBook {node}")]
    StrangeBook {
        /// The place among the books, and the nodes.
        node: usize,
    },
    /// A node took parcels of a connection that its peer hasn't put on it.
    #[error("21 Torn {dialer}/{count} {seq}", dialer = .trunk.dialer.text(), count = .trunk.count)]
    Torn {
        /// The connection.
        trunk: TrunkId,
        /// The number, from 1, of the first parcel that was taken and not put so.
        seq: usize,
    },
    /// A receipt doesn't stand at its place, or another stands there too.
    #[error("22 StrangeReceipt {node} {position}")]
    StrangeReceipt {
        /// The node of the receipt's seat.
        node: usize,
        /// The place in the node's history.
        position: usize,
    },
    /// The seats of a node haven't as many receipts as the node has entered acts.
    #[error("24 SeatsMissing {node}")]
    SeatsMissing {
        /// The node.
        node: usize,
    },
    /// Memory is wanting.
    #[error("12 OutOfMemory")]
    OutOfMemory,
}

impl From<AllocError> for FinishError {
    ghost from_gives = { λ _ e. e ≡ OutOfMemory };

    fn from(_e: AllocError) -> FinishError {
        FinishError::OutOfMemory
    }
}

impl<T: Drop> From<AllocFailed<T>> for FinishError {
    ghost from_gives = { λ _ e. e ≡ OutOfMemory };

    fn from(_e: AllocFailed<T>) -> FinishError {
        FinishError::OutOfMemory
    }
}
