//! One side of a connection between two nodes.
//!
//! A [`Side`] is what one of the two nodes keeps of a connection, or of an attempt at one. Bytes from
//! the peer are judged by [`Side::judge`], which changes nothing: its [`Arrival`] says how the side
//! stands after them, what they are, a message of the handshake or a frame's item, and what is to be
//! sent back; or the [`Fault`] that broke the side.
//!
//! (ERTS User's Guide, Distribution Protocol, Distribution Handshake and Protocol between Connected
//! Nodes.)
#![tactic(auto)]

mod arrival;
mod laws;
mod side;
mod standing;
mod state;

pub use arrival::{Arrival, Fault, Taken};
pub use laws::{one_arrival, two_sides_come_up, up_only_by_digest};
pub use side::Side;
pub use standing::Standing;
pub use state::SideState;
