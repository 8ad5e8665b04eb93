//! Copies of a node.
ghost use Rattle.std.specs.Prelude.{◌≡◌, ◌++◌, IfOk, OnOk};
ghost use Rattle.node_plan.specs.Seen.{seen};

use crate::node::Node;
use erl_control::Signal;
use std::alloc::{AllocError, Global};
use std::collections::VecDeque;

// Appends copies of signals.
fn push_copies(
    alloc: Global,
    copies: &mut Vec<Signal>,
    signals: &[Signal],
) -> Result<(), AllocError>
    ensures { OnOk result (copies.new.items ≡ copies.old.items ++ signals.now) }
{
    for signal in signals {
        copies.push(signal.copy(alloc)?)?;
    }
    Ok(())
}

// Returns a copy of the signals in flight from a node to itself.
fn own_copies(alloc: Global, signals: &VecDeque<Signal>) -> Result<VecDeque<Signal>, AllocError>
    ensures { IfOk result (λ copies. copies.items ≡ signals.now.items) }
{
    let (older, newer) = signals.as_slices();
    let mut copies = Vec::with_capacity(alloc, signals.len())?;
    push_copies(alloc, &mut copies, older)?;
    push_copies(alloc, &mut copies, newer)?;
    Ok(VecDeque::from(copies))
}

impl Node {
    /// Returns a copy, which stands for the same node of the model. It has memory of its own.
    ///
    /// # Errors
    /// If memory runs out.
    pub fn copy(&self, alloc: Global) -> Result<Node, AllocError>
        ensures { IfOk result (λ copy. seen copy ≡ seen self.now) }
    {
        let incarnation = self.incarnation.copy(alloc)?;
        let names = self.names.copy(alloc)?;
        let own = self.own.clone()?;
        let watches = self.watches.copy(alloc)?;
        let watchers = self.watchers.copy(alloc)?;
        let sides = self.sides.copy(alloc)?;
        let local = own_copies(alloc, &self.local)?;
        Ok(Node {
            incarnation,
            names,
            own,
            dialed: self.dialed,
            watches,
            watchers,
            sides,
            local,
        })
    }
}
