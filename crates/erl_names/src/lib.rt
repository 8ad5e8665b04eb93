//! The names and numbers that one incarnation of a node gives out.
//!
//! A [`NodeName`] is the name of a node, and a [`Creation`] tells its incarnations apart. A [`Mint`]
//! is what one incarnation has drawn: the numbers of its pids, its references and its unlink ids,
//! of which none comes twice. A [`TrunkId`] names a connection between two nodes.
//! (Reference Manual, Distributed Erlang, Nodes; ERTS User's Guide, Distribution Protocol.)
#![tactic(auto)]

mod creation;
mod laws;
mod mint;
mod name;
mod trunk;

pub use creation::Creation;
pub use laws::{no_id_twice, orders, used_up_for_good};
pub use mint::Mint;
pub use name::NodeName;
pub use trunk::TrunkId;
