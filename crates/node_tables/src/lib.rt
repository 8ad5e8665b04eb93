//! The tables of a node: its processes with their links and names, and the sides of its connections.
//!
//! Contracts see the maps that a node of `dist_model` keeps. A change of a table comes in two calls: one
//! reserves memory, and the other, which never allocates, changes the table.
//!
//! [`Sides`] keeps the sides of the connections that aren't gone, and the gone ones as runs of counts. One
//! run stands for a million connections whose counts follow one another. A table of its own has the
//! connection that is up to each peer.
#![tactic(auto)]

mod adding;
mod adding_sides;
mod at_place;
mod by_pid;
mod change;
mod changing;
mod copying;
mod end_change;
mod incarnation;
mod life;
mod lookup;
mod making;
mod names;
mod naming;
mod place_of_side;
mod reading;
mod reading_sides;
mod registering;
mod restarting;
mod run;
mod runs;
mod seeking;
mod seeking_sides;
mod sides;
mod spawning;
mod stopping;
mod which;

pub use change::SideChange;
pub use end_change::EndChange;
pub use incarnation::Incarnation;
pub use life::Life;
pub use names::Names;
pub use naming::Naming;
pub use registering::{one_name_each, others_keep_their_names};
pub use seeking::FoundLink;
pub use sides::Sides;
pub use which::Which;
