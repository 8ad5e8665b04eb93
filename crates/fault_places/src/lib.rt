//! The place of the first fault in bytes: so many of the first bytes begin a term, a frame or a message, and one
//! byte more doesn't.
#![tactic(auto)]

mod laws;
mod places;

pub use laws::one_place;
pub use places::Reader;
