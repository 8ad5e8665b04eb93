//! The effect of an exit signal on a process, and the messages that exits become.
//!
//! A [`Proc`] traps exits or doesn't, and has a [`Mailbox`]. [`Proc::react`] answers what an
//! [`ExitSignal`] does to it: nothing, a message, or its end. [`exit_message`] and [`down_message`]
//! are the messages that a process gets of an exit that it traps, and of a monitor's end.
//!
//! (Reference Manual, Processes, Error Handling and Monitors.)
#![tactic(auto)]

mod laws;
mod mailbox;
mod messages;
mod process;
mod reaction;

pub use laws::{only_active_links, ways_to_end};
pub use mailbox::Mailbox;
pub use messages::{down_message, exit_message, named, named_down_message};
pub use process::Proc;
pub use reaction::{ExitSignal, Reaction};
