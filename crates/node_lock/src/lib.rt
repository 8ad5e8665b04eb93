//! The book of a node under its lock, and the seats of the node's callers.
//!
//! [`Book`] has the node, the history of its events, and the node's ends of its connections. Its type keeps
//! that a log replays it (`specs/Standing`). The events make the node of a new one, with the items that came.
//! The items put on each connection, and then those that wait, are those that the events have sent. The items
//! taken are those that have come, and then those that wait to come.
//!
//! A [`Seat`] is a caller of one node, and keeps each act that it has asked for beside its receipt, which has
//! the node's answer. [`NodeLock`] keeps the node's book. It runs an act only in the very book that has the
//! receipt of the caller's last act.
#![tactic(auto)]

mod act;
mod applying;
mod arriving;
mod book;
mod calling;
mod dialing;
mod lock;
mod names;
mod outlet;
mod passing;
mod reading;
mod scanning;
mod seat;

pub use act::Act;
pub use book::Book;
pub use calling::call;
pub use dialing::Left;
pub use lock::NodeLock;
pub use node_history::is_act;
pub use outlet::Outlet;
pub use seat::{Asked, Receipt, Seat, stands_as};
