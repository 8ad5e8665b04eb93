//! A sequence diagram: lanes side by side, and rows below one another in which items are sent from lane
//! to lane and are taken.
//!
//! A [`Diagram`] says what happened, row by row. [`lay_out`] says where that stands: how high each row
//! is, on which line of its row each mark stands, and where the arrow of each item ends. A queue hands
//! its items on in the order in which they were sent, so that the first row that takes from it ends the
//! arrow of the first item, and so on. It knows nothing of what lanes and items are.
#![tactic(auto)]

mod arrows;
mod laws;
mod layout;
mod lines;
mod queues;
mod rows;

pub use arrows::{Arrow, End};
pub use laws::{
    each_item_has_one_arrow, first_sent_is_first_taken, no_arrow_goes_up, nothing_overlaps,
};
pub use layout::{Layout, lay_out};
pub use rows::{Diagram, Item, Lane, Mark, Note, Row, Tone};
