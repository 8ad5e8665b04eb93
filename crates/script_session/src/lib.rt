//! A script's commands, over a world of Erlang nodes: the effect of each line, and its output.
//!
//! [`Session::line`] runs a line. Its effect is told over the steps of `dist_model`'s world: each
//! command is a list of events, and each text one of their reports.
#![tactic(auto)]

mod connections;
mod events;
mod laws;
mod made;
mod pairs;
mod picture;
mod playing;
mod session;
mod settling;
mod stage;
mod telling;
mod touching;
mod turn;

pub use connections::{Live, trunk_of};
pub use laws::events_lead_to_every_line;
pub use made::Made;
pub use pairs::{node_name, setup};
pub use playing::{asked, new_name, starts};
pub use session::{MOST_NODES, Session, Stop, bind, compare};
