//! Every order in which the blocks of a script, and all that is in flight, may come.
//!
//! A [`Plan`] is a script with blocks. An exploration visits each state that an order of its steps leads
//! to, states that are alike once, and finds the outcomes: the replies to the questions behind the blocks. Each
//! outcome has its shortest script, a plain one, which [`replay`] runs from the first line. [`explore`] returns
//! the text of all outcomes, and [`draw`] a drawing of their scripts, side by side.
#![tactic(auto)]

mod common;
mod drawing;
mod explored;
mod headings;
mod keys;
mod moves;
mod outcomes;
mod paths;
mod plan;
mod printing;
mod replaying;
mod search;
mod state;
mod texts;

pub use drawing::draw;
pub use explored::{Explored, explore};
pub use plan::{Numbered, Plan, PlanFault, Step, Unread};
pub use replaying::{Replayed, replay};
pub use state::Halt;
