//! The texts that show a world of Erlang nodes.
//!
//! [`put_world`] shows its nodes with their processes, and [`put_whole_world`] also links, monitors,
//! connections and the items in flight. [`put_travels`] shows the items in flight to a node from one of its
//! peers. Each call appends its text to a string, and fails for want of memory alone. Contracts see the UTF-8
//! bytes of a text.
#![tactic(auto)]

mod arriving;
mod coming;
mod showing;
mod travels;

pub use showing::{put_whole_world, put_world};
pub use travels::put_travels;
