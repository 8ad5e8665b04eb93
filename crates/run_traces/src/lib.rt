//! The trace of a run: a line for each item that an event sends, and for the connection that it breaks.
//!
//! [`put_trace`] appends the lines of an event, and [`put_sents`] those of its items alone. [`Breaks`] keeps the
//! fault by which the last connection of each node to each peer broke, and [`put_why`] prints one. Contracts
//! see the UTF-8 bytes of a text.
#![tactic(auto)]

mod breaks;
mod events;
mod sents;
mod trace;

pub use breaks::{Breaks, put_why};
pub use events::{fault_of, put_broke_in, put_trace, source_of};
pub use sents::put_sents;
pub use trace::Trace;
