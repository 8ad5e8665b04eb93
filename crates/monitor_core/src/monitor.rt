//! Monitors and their targets.
ghost use Rattle.std.specs.Prelude.{IsTrue, ◌↔◌, ◌≡◌};
ghost use Rattle.monitor_core.specs.Monitors.{target_node};

use erl_term::{Atom, Pid};

/// The target of a monitor, as its call named it. (Reference Manual, Processes, Monitors; ERTS User's
/// Guide, Distribution Protocol, MONITOR_P: ToProc.)
#[derive(Clone, Debug, Drop, PartialEq, Eq)]
pub enum Target {
    /// A process.
    Pid(Pid),
    /// The process that has a name on a node, at the time when the node takes MONITOR_P.
    Name {
        /// The name of the process.
        name: Atom,
        /// The name of the node.
        node: Atom,
    },
}

/// A monitor that a process of this node owns. Its reference stands beside it.
#[derive(Clone, Debug, Drop, PartialEq, Eq)]
pub struct Watch {
    /// The process that gets the DOWN when the target ends.
    pub owner: Pid,
    /// The target, as the call named it.
    pub target: Target,
}

/// A monitor that others have of a process of this node. Its reference stands beside it.
#[derive(Clone, Debug, Drop, PartialEq, Eq)]
pub struct Registration {
    /// The process that gets the DOWN when the held process ends.
    pub owner: Pid,
    /// The target, as the call named it.
    pub target: Target,
    /// The process that the monitor is bound to. It is the target, or the process that had the target's
    /// name when the node took MONITOR_P.
    pub held: Pid,
}

impl Target {
    /// Returns the name of the target's node.
    pub fn node(&self) -> &Atom
        ensures { result.now ≡ target_node self.now }
    {
        match self {
            Target::Pid(pid) => &pid.node,
            Target::Name { name: _, node } => node,
        }
    }

    /// Returns true if the two are one pid, or one name on one node.
    pub fn is_same(&self, other: &Target) -> bool
        ensures { IsTrue result ↔ (self.now ≡ other.now) }
    {
        self == other
    }
}
