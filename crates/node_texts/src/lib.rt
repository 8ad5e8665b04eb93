//! The texts that show one node.
//!
//! [`put_shown`] shows its processes, and [`put_whole`] also their links and monitors. [`put_monitors`] shows
//! the monitors of one process, and [`put_trunks`] the connections to a peer. Each call appends its
//! text to a string. Contracts see the UTF-8 bytes of a text.
#![tactic(auto)]

mod form;
mod monitors;
mod showing;
mod trunks;
mod whole;

pub use monitors::put_monitors;
pub use showing::put_shown;
pub use trunks::put_trunks;
pub use whole::put_whole;
