//! A finite map as a sorted vector, in which room can be made before keys come.
//!
//! [`SortedMap`] is for tables that must not be refused memory in the midst of a change: after
//! [`SortedMap::reserve`] the next insertions can't fail. [`IndexTree`] keeps slot numbers in the
//! order that the caller tells, for tables whose entries lie in slots.
#![tactic(auto)]

mod entries;
mod index_tree;
mod map;
mod nodes;
mod spare;
mod tree_map;

pub use index_tree::IndexTree;
pub use map::SortedMap;
pub use tree_map::TreeMap;
