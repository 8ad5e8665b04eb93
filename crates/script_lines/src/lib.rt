//! The lines of a script, the first fault of a bad line, and the advice on it.
//!
//! [`read_line`] reads a line: its words, with the names looked up that the script has bound. It allocates
//! nothing, so a bad line is told as such however little memory there is. Commands are carried out elsewhere.
//!
//! [`Reply`] is the last line that a command has printed, which an `expect` line compares with its words.
//!
//! [`put_advice`] tells the wrong part of a bad line, and the remedy where there is an obvious one.
#![tactic(auto)]

mod advice;
mod advised_words;
mod breaks;
mod command;
mod connections;
mod laws;
mod line;
mod naming;
mod places;
mod reading;
mod reason;
mod reply;
mod term_faults;
mod term_scan;
mod usages;
mod words;

pub use advice::put_advice;
pub use breaks::split_line;
pub use command::Verb;
pub use laws::words_are_never_unmet;
pub use line::{Connection, Line};
pub use reading::{LINE_LIMIT, MayCome, read_line, verb_in};
pub use reason::Reason;
pub use reply::{Reply, expected};
