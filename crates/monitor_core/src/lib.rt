//! The monitors that the processes of a node own, and those of its processes that others own.
//!
//! [`Watches`] has the first, at the owner's node: a map from references to a [`Watch`]. [`Watchers`] has
//! the second, at the target's node: a map from references to a [`Registration`], which also has the
//! process that the monitor is bound to. The laws say the result of each call at one reference, and
//! that a reference leaves no more often than it comes. (Reference Manual, Processes, Monitors; ERTS
//! User's Guide, Distribution Protocol, MONITOR_P, DEMONITOR_P, MONITOR_P_EXIT.)
#![tactic(auto)]

mod kept;
mod laws;
mod monitor;
mod monitors;
mod orders;
mod slots;
mod trees;
mod watchers;
mod watches;

pub use laws::{first_is_least, leaves_once, one_entry, search_goes_on};
pub use monitor::{Registration, Target, Watch};
pub use watchers::Watchers;
pub use watches::Watches;
