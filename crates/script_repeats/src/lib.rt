//! A plain script that repeats a run of nodes in threads.
//!
//! The histories of nodes in threads merge into one run. [`repeat`] returns a script without threads whose lines
//! bring about the events of that run, each in its place. It runs each line before it appends it, and compares the
//! event of the line with that of the entry. A script that it returns therefore repeats the run (`specs/Repeats.antt`).
//! [`scripts_end_as_their_runs`] is the law that it ends in the world of the run, with the reports of the entries.
#![tactic(auto)]

mod laws;
mod own_lines;
mod repeating;
mod script;
mod texts;

pub use laws::scripts_end_as_their_runs;
pub use own_lines::OwnLines;
pub use repeating::{Unrepeated, repeat};
