//! The link records of a process, and the protocol of the two ends of a link.
//!
//! [`Ends`] has the ends of one process, by partner: each call changes one of them by the rules of
//! the New Link Protocol, and gives the signal that goes to the partner. The laws say what these
//! rules make of two processes, whatever they do and whenever their signals come, also where a
//! process ends. (ERTS User's Guide, Distribution Protocol, New Link Protocol; Reference Manual,
//! Processes, Links.)
#![tactic(auto)]

mod end;
mod ends;
mod laws;

pub use end::{End, LinkSignal};
pub use ends::Ends;
pub use laws::{
    crossed_unlinks, end_by_partner, ended_partner, late_link, link_comes_about,
    old_acknowledgement, run_goes_on, two_processes,
};
