//! The plans of events at the connections of a node: dialing, the arrival of bytes, a loss, and the sweep of
//! the records towards a lost peer, one at a time.
#![tactic(auto)]

mod admitting;
mod answering;
mod arriving;
mod challenging;
mod clearing;
mod closing;
mod dialing;
mod events;
mod good;
mod hearing;
mod heeding;
mod leaving;
mod left;
mod losing;
mod monitors;
mod opening;
mod reaching;
mod records;
mod standing;
mod sweeping;
mod taking;
mod whole;

pub use admitting::open;
pub use arriving::arrive;
pub use closing::close_side;
pub use dialing::dial;
pub use events::sweep;
pub use hearing::hear;
pub use losing::{break_side, lose};
pub use sweeping::Sweeping;
pub use whole::is_whole;
