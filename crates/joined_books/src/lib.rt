//! The books of all nodes, compared and merged when all threads are joined.
//!
//! [`merge_books`] does that. Where every book is of its node, what each took off a wire begins what the
//! other end has put on it, and the receipts that callers hold are the acts that the books have entered,
//! each once, all entries, by their stamps and then by their nodes, are one run of the model's world from
//! its opening, and a safe one (`specs/Joined`). Where one of these isn't so, the error says where
//! (`specs/Faults`). [`replay`] gives the world to which that run leads.
#![tactic(auto)]

mod error;
mod finding;
mod laws;
mod merge;
mod names;
mod order;
mod receipts;
mod rerun;
mod trace;
mod wires;

pub use error::FinishError;
pub use merge::merge_books;
pub use rerun::replay;
pub use trace::{Placed, Trace};
