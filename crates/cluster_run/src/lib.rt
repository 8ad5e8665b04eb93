//! The nodes of a world, each in a thread of its own.
//!
//! A [`Cluster`] has the book of each node under the node's lock, and a thread for each node. The threads
//! bring in what is in flight, and sweep what a lost connection has left. A thread also takes the turns of
//! another node that it has given something to do, while that node's thread rests. Callers have seats, and
//! call from any thread. [`Cluster::finish`] ends the threads and merges the histories of all nodes: they are
//! one run of the model's world, and a safe one.
//!
//! No clause says that a thread ever runs, or that an item ever comes.
#![tactic(auto)]

mod books;
mod cluster;
mod desk;
mod finished;
mod gate;
mod settling;
mod thread_of_node;
mod turn;
mod worker;

pub use cluster::Cluster;
pub use finished::{Finished, Unmerged};
pub use gate::{Gate, Open};
pub use settling::Settled;
