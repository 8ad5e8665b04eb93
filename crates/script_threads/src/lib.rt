//! The lines of a script over Erlang nodes that have a thread each: their effects and their output.
//!
//! [`ThreadedSession::line`] runs a line, by the same words and with the same texts as the session of
//! `script_session`, and [`ThreadedSession::finish`] ends the threads and tells that the histories of all
//! nodes were merged to one run. The steps of threads are no function of a script's bytes, so no contract has
//! all that is printed: each line that asks something of a node prints the answer of an entry of its
//! history, and the end says that all entries are one safe run. [`ThreadedSession::finish_as_script`] ends them so too,
//! and returns a plain script that repeats the run.
#![tactic(auto)]

mod advice;
mod connections;
mod finishing;
mod looking;
mod nodes;
mod playing;
mod reading;
mod running;
mod session;
mod threads;

pub use finishing::Unfinished;
pub use running::Machine;
pub use session::ThreadedSession;
