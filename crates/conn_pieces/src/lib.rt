//! A side that takes its peer's stream in pieces of any length.
//!
//! A stream may be cut anywhere, as TCP cuts it. A [`StreamSide`] is a side that keeps the bytes that it
//! hasn't taken yet. What a side takes of a stream that comes in pieces is what stands, whole, at the front of the
//! stream, up to the first fault (`pieces_are_the_stream`).
#![tactic(auto)]

mod laws;
mod stream_side;

pub use laws::{fed_in_pieces, pieces_are_the_stream};
pub use stream_side::StreamSide;
