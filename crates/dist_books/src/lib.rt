//! The books of nodes that are kept apart, and the one run of the model that they merge into.
//!
//! A log of `specs/Logs` is kept by one node alone, and `specs/Runs` has runs of all nodes. States, events,
//! answers, channels and symbols are any types there. A symbol travels on a channel: an item or a byte.
//! [`logs_are_a_run`] proves that such logs make a run. `specs/Sorting` has the order of all entries, and
//! [`sort_merges`] proves that a sort by it is that run.
//!
//! A thread keeps a book of its node: the node, the history of its events with their stamps, and the items
//! that each wire end has put and taken. `specs/Acting` has the events of a node, and `specs/Books` the
//! books. [`books_are_a_run`] proves that the histories of books whose wires agree, in the order of their
//! stamps, are one safe run of the model's world. [`books_grow`] proves that a book stays one, event by event
//! (`specs/Growing`). There is no code here.
#![tactic(auto)]

mod laws;
mod log_laws;
mod nodes;

pub use laws::{books_are_a_run, books_grow, events_are_lines, new_books_are_kept};
pub use log_laws::{log_grows, logs_are_a_run, order_of_stamps_is_needed, sort_merges};
pub use nodes::Nodes;
