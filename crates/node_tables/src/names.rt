//! The registered names of a node's processes.
ghost use Rattle.node_tables.specs.Turned.{AreInverse};

use erl_term::{Atom, Pid};
use sorted_map::TreeMap;

/// The registered names of a node's processes. A name has one process, and a process has one name at
/// most. Each look-up takes logarithmic time. A change never allocates. (Reference Manual, Processes,
/// Registered Processes.)
#[derive(Drop)]
pub struct Names {
    /// The process that has each name.
    pub(crate) by_name: TreeMap<Atom, Pid>,
    /// The name of each process that has one.
    pub(crate) by_holder: TreeMap<Pid, Atom>,
    ghost inverse: { AreInverse by_name.entries by_holder.entries },
}
