//! The handshake between two nodes.
//!
//! A [`ShakeMsg`] is one of the five messages by which two nodes connect. [`write`] gives the bytes
//! in which it travels, and [`read`] the message at the front of bytes, for a reader of either
//! [`Role`]. [`Flags`] are what a node says that it can do, and [`digest`] is how it shows that it
//! knows the cookie.
//!
//! A [`DialerState`] and an [`AcceptorState`] are what the two roles await: each of their steps takes
//! a message and answers what is awaited then, what is to be sent, and whether the handshake goes on.
//! [`AcceptorState::admit`] decides on an attempt beside [`OtherConnections`].
//!
//! (ERTS User's Guide, Distribution Protocol, Distribution Handshake and Distribution Flags.)
#![tactic(auto)]

mod acceptor;
mod admission;
mod cookie;
mod dialer;
mod digesting;
mod fault;
mod fields;
mod flags;
mod identity;
mod introduction;
mod laws;
mod message;
mod profile;
mod reading;
mod role_laws;
mod setup;
mod status;
mod turn;
mod writing;

pub use acceptor::AcceptorState;
pub use admission::{Admission, OtherConnections};
pub use cookie::Cookie;
pub use dialer::DialerState;
pub use digesting::digest;
pub use fault::ShakeFault;
pub use flags::{Flag, Flags};
pub use identity::Identity;
pub use introduction::Introduction;
pub use laws::{
    digests, flags_by_bits, flags_of_profiles, one_answer, one_message, read_again, short_messages,
    written_is_shake,
};
pub use message::{Role, ShakeMsg};
pub use profile::Profile;
pub use reading::read;
pub use role_laws::{
    done_only_by_digest, handshake_comes_about, later_attempt_goes_on, one_of_two_dials,
    right_peers_pass,
};
pub use setup::Setup;
pub use status::Status;
pub use turn::{Next, Progress, Turn};
pub use writing::{put, write};
