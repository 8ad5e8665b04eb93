//! Wires between two threads, and a node's end of a connection, which has one for each direction.
//!
//! A wire is a bounded queue of [`Piece`]s with an end at each node, so that each end can stand in the book of
//! a thread of its own. Pieces are put at [`WireOut`], and taken at [`WireIn`]. Each end carries a pass of the
//! queue, which knows the pieces that went through the end. The rule of the queue (`specs/Passing`) ties the
//! two: the pieces put are those taken, followed by those that the wire holds, and they are cut from items
//! (`specs/Cuts`). [`connect`] makes the two wires of a new connection.
//!
//! A [`Parcel`] is a whole item, with the [`Spelling`] in which it is sent. Its pieces are put together by
//! their bytes alone: [`front_length`] tells by the first of them how many the item has.
//!
//! [`Port`] is a node's end of a connection: its two wire ends, the parcels that wait to be put, and those
//! that have come. A book keeps one for each connection of its node, under the book's lock. [`ports_shift`]
//! proves how its calls change the book: `specs/Standing` reads the parcels as items.
#![tactic(auto)]

mod ends;
mod front;
mod laws;
mod offer;
mod parcel;
mod piece;
mod port;
mod port_laws;
mod rule;
mod spelling;

pub use ends::{CAPACITY, WireIn, WireOut, audit, wire};
pub use front::front_length;
pub use laws::{front_is_told, pieces_are_gathered};
pub use offer::{Offer, connect};
pub use parcel::{Direction, Parcel};
pub use piece::{LONGEST, Piece};
pub use port::Port;
pub use port_laws::ports_shift;
pub use spelling::Spelling;
