//! A run of nodes, as a sequence diagram.
//!
//! A [`Recorder`] is told of the nodes, and then of each event with its report, in the order of the run. It makes a
//! row of each. Items that are sent become arrows on the queue of their connection and their receiver. The words of
//! the event stand on the lane of its node. It reads reports alone, so it serves a world and a merged trace of node
//! threads alike.
#![tactic(auto)]

mod events;
mod labels;
mod messages;
mod names;
mod notes;
mod queues;
mod recorder;
mod replies;
mod row;
mod scope;

pub use recorder::Recorder;
pub use scope::LineRange;
