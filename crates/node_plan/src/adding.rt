//! Records that a plan adds.
ghost use Rattle.std.specs.Prelude.{◌≡◌};
ghost use Rattle.node_plan.specs.Adding.{adds_towards};

use crate::plan::Plan;
use crate::registering::{changes_towards, registers_towards, watches_towards};
use erl_term::Atom;

impl Plan {
    /// Returns true if it adds a record towards a peer: a link to a process there, a monitor of one, or
    /// one that a process there has. (Reference Manual, Processes, Links and Monitors.)
    pub fn adds_towards(&self, peer: &Atom) -> bool
        ensures { result ≡ adds_towards peer.now self.now }
    {
        changes_towards(&self.change, peer)
            || watches_towards(&self.watches, peer)
            || registers_towards(&self.watchers, peer)
    }
}
