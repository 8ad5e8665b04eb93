//! Several Erlang nodes in one thread, and the frames in flight between them: one event at a time.
//!
//! [`World`] has the nodes, and [`Lists`] the frames: for each node and each of its connections those that
//! were sent and haven't come, the first to come first. (Reference Manual, Processes, Delivery of Signals.)
//! The frames that an event sends go behind those in flight, and one that has come is taken from them.
#![tactic(auto)]

mod applying;
mod arriving;
mod copying;
mod event;
mod finishing;
mod forgetting;
mod happening;
mod laws;
mod line;
mod lists;
mod meeting;
mod naming;
mod opening;
mod queue;
mod reading;
mod running;
mod sending;
mod world;

pub use arriving::peer_on;
pub use event::Event;
pub use happening::happen;
pub use laws::nodes_take_by_their_own_sides;
pub use lists::Lists;
pub use node_core::{Node, NodeEvent};
pub use node_frames::Frame;
pub use node_tables::Life;
pub use queue::Queue;
pub use running::Answered;
pub use world::World;
