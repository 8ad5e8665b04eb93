//! Signals as frames between nodes.
//!
//! A [`Signal`] goes from one process to another: a message, an exit, a monitor or a link. [`frame`]
//! writes the bytes in which it travels between two nodes, and [`unframe`] reads the item at the
//! front of such bytes: a signal, or a tick. Neither needs a copy of a signal's parts: [`put_frame`]
//! writes it from [`SignalParts`], and [`frame_at`] reads it where it lies. A [`FrameError`] says why
//! bytes are no frame, or why a signal can't be sent: what it carries has to fit ([`fits`]).
//!
//! (ERTS User's Guide, Distribution Protocol, Protocol between Connected Nodes and New Link
//! Protocol.)
#![tactic(auto)]

mod control;
mod copying;
mod error;
mod fields;
mod fit;
mod framing;
mod laws;
mod signal;
mod signal_parts;
mod signal_ref;
mod tags;
mod unframing;

pub use error::{FrameError, FrameFault};
pub use fit::{MOST_PAYLOAD_BYTES, MOST_PAYLOAD_LEVELS, fits};
pub use framing::{frame, put_frame};
pub use laws::{canonical_is_framed, fits_test, one_answer, one_frame, read_again};
pub use signal::{Item, Signal};
pub use signal_parts::SignalParts;
pub use signal_ref::{ItemRef, SignalRef};
pub use unframing::{FRAME_LIMIT, frame_at, unframe};
