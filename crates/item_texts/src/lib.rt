//! Items in flight, read from their bytes, and the words for them: a signal, a message of the handshake, or a
//! tick, with its fields.
//!
//! [`read_item`] reads an item from its bytes, as its receiver does. [`put_item`] appends the words for it. Each
//! call fails for want of memory alone. Contracts see the UTF-8 bytes of a text.
#![tactic(auto)]

mod items;
mod laws;
mod messages;
mod reading;
mod sent;
mod signals;

pub use items::put_item;
pub use laws::one_item;
pub use messages::{message_name, put_message};
pub use reading::{ReadItem, read_item};
pub use sent::put_sent_words;
pub use signals::{operation_name, put_signal};
