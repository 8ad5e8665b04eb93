//! The items in flight between two nodes, as their bytes, and the kind of an item.
//!
//! [`Frame`] has the bytes of an item. [`begins_message`] tells a message of the handshake from a frame by the
//! first five bytes at most, and [`beginning_is_told`] proves that it is right. [`kind_in`] looks at a byte or
//! two more: a message has a letter, and the control term of a frame a tag. [`kind_is_told`] proves that this
//! is the kind of the item.
#![tactic(auto)]

mod beginning;
mod frame;
mod kinds;
mod laws;
mod names;

pub use beginning::begins_message;
pub use frame::Frame;
pub use kinds::kind_in;
pub use laws::{beginning_is_told, kind_is_told};
pub use names::{receiver, same_name, same_pid, sender};
