//! The plans of commands and signals at the processes of a node, and of the ending of a process.
#![tactic(auto)]

mod acting;
mod commands;
mod downs;
mod ending;
mod linking;
mod monitoring;
mod naming;
mod obeying;
mod reacting;
mod taking;
mod taking_monitors;
mod taking_signals;

pub use downs::down;
pub use ending::{finish, is_active};
pub use obeying::obey;
pub use reacting::{break_link, link_exit, no_connection, no_process, other_exit};
pub use taking_signals::{kind, take, take_first};
