//! The beginnings of control messages.
//!
//! [`signal_begins`] tells if bytes can still become the text of a signal: its control term, in any
//! spelling, and its message behind it where it has one. The first byte that is wrong is the last of the
//! shortest front for which it returns false. (ERTS User's Guide, Distribution Protocol, Protocol between
//! Connected Nodes; External Term Format.)
//!
//! The operations are the rows of a table. A text begins with the bytes if the text of a row does.
//!
//! The contract of `signal_begins` cites the definitions of erl_control. Those in specs/ serve the contracts
//! inside this crate.
#![tactic(auto)]

mod fronts;
mod numbers;
mod parts;
mod rows;
mod table;
mod tags;
mod terms;

pub use rows::signal_begins;
