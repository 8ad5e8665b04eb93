//! A node with the history of its events: one entry an event, under stamps that rise.
//!
//! A thread's book keeps a [`History`]. Each event is entered with the node's answer, a refusal too
//! (`specs/Entering`). Out of memory, nothing is entered and nothing has changed.
//!
//! [`is_same_event`] and [`is_same_answer`] compare events and answers exactly, and allocate nothing.
#![tactic(auto)]

mod acts;
mod answers;
mod arriving;
mod commands;
mod copying;
mod entry;
mod events;
mod faults;
mod history;
mod kinds;
mod reports;
mod same_events;
mod spare;
mod terms;

pub use acts::is_act;
pub use copying::copied_event;
pub use entry::{Answered, Entry, Told};
pub use history::History;
pub use kinds::{is_read, what_is_read_is_whole};
pub use reports::is_same_answer;
pub use same_events::is_same_event;
