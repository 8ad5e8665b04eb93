//! Targets of monitors with borrowed parts.
ghost use Rattle.std.specs.Prelude.{◌≡◌, IfOk};
ghost use Rattle.monitor_core.specs.Monitors.{same_target, target_node};
ghost use Rattle.node_plan.specs.Targets.{target_of};

use erl_term::{Atom, Pid};
use monitor_core::Target;
use node_frames::{same_name, same_pid};
use std::alloc::AllocError;

/// A [`Target`] of a monitor, with borrowed parts. (Reference Manual, Processes, Monitors.)
#[derive(Clone, Copy)]
pub enum TargetParts<'a> {
    /// A process.
    Pid(&'a Pid),
    /// The process that has a name on a node.
    Name {
        /// The name of the process.
        name: &'a Atom,
        /// The name of the node.
        node: &'a Atom,
    },
}

impl<'a> TargetParts<'a> {
    /// Returns the same target, with its parts borrowed.
    pub fn of(target: &'a Target) -> TargetParts<'a>
        ensures { target_of result ≡ target.now }
    {
        match target {
            Target::Pid(pid) => TargetParts::Pid(pid),
            Target::Name { name, node } => TargetParts::Name { name, node },
        }
    }

    /// Returns the name of the target's node.
    pub fn node(self) -> &'a Atom
        ensures { result.now ≡ target_node (target_of self.entry) }
    {
        match self {
            TargetParts::Pid(pid) => &pid.node,
            TargetParts::Name { node, .. } => node,
        }
    }

    /// Returns true if `other` is the same pid, or the same name on the same node.
    pub fn is_same(self, other: &Target) -> bool
        ensures { result ≡ same_target other.now (target_of self.entry) }
    {
        match (other, self) {
            (Target::Pid(pid), TargetParts::Pid(own)) => same_pid(pid, own),
            (
                Target::Name { name, node },
                TargetParts::Name {
                    name: own,
                    node: at,
                },
            ) => same_name(name, own) && same_name(node, at),
            (Target::Pid(_), TargetParts::Name { .. }) => false,
            (Target::Name { .. }, TargetParts::Pid(_)) => false,
        }
    }

    /// Returns a copy.
    ///
    /// # Errors
    /// [`AllocError`] if out of memory.
    pub fn copied(self) -> Result<Target, AllocError>
        ensures { IfOk result (λ target. target ≡ target_of self.entry) }
    {
        match self {
            TargetParts::Pid(pid) => Ok(Target::Pid(pid.clone()?)),
            TargetParts::Name { name, node } => Ok(Target::Name {
                name: name.clone()?,
                node: node.clone()?,
            }),
        }
    }
}
