//! The beginnings of the messages of the handshake.
//!
//! A body is the bytes of a message behind its length. [`body_begins`] tells if bytes can still become a
//! body. [`body_of_length_begins`] tells the same of a body of a known length. The first byte that is wrong
//! is the last of the shortest front for which they return false.
//! (ERTS User's Guide, Distribution Protocol, Distribution Handshake.)
#![tactic(auto)]

mod bodies;
mod lengths;
mod names;
mod statuses;

pub use bodies::body_begins;
pub use lengths::body_of_length_begins;
