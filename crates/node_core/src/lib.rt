//! One node. Each event is planned and then carried out.
#![tactic(auto)]

mod arriving;
mod calling;
mod committing;
mod copying;
mod dialing;
mod events;
mod incarnations;
mod losing;
mod node;
mod node_event;
mod own_list;
mod planned;
mod reading;
mod settling;
mod sweeping;

pub use arriving::{Arrived, plan_arrival};
pub use calling::plan_call;
pub use dialing::plan_dial;
pub use incarnations::{start, stop};
pub use losing::plan_loss;
pub use node::Node;
pub use node_event::NodeEvent;
pub use own_list::plan_local;
pub use planned::Planned;
pub use sweeping::plan_sweep;
