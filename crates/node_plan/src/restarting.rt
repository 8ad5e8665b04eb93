//! The stop and the start of a node.
ghost use Rattle.std.specs.Prelude.{◌≡◌, ◌↔◌, ◌-◌, ◌^◌, true, false, OnOk, OnErr, IsErr, IsOkUnless};
ghost use Rattle.dist_model.specs.Incarnations.{started, stopped};
ghost use Rattle.node_plan.specs.Seen.{seen};

use crate::node::Node;
use erl_term::Refusal;
use monitor_core::{Watchers, Watches};
use node_tables::Names;
use std::alloc::Global;

impl Node {
    /// Stops the node: drops its processes, with their names, links and monitors. All its connections are
    /// then gone. Sends nothing, and never allocates. (ERTS User's Guide, Distribution Protocol, Distribution
    /// Handshake, on creations.)
    pub fn stop(&mut self, alloc: Global)
        requires { (seen self.old).up ≡ true }
        ensures { seen self.new ≡ stopped (seen self.old) }
    {
        self.incarnation.stop();
        self.names = Names::new(alloc);
        self.watches = Watches::new(alloc);
        self.watchers = Watchers::new(alloc);
        self.sides.all_gone();
    }

    /// Starts the node again after it has stopped, in its next incarnation, which has drawn nothing.
    /// Never allocates. (ERTS User's Guide, Distribution Protocol, Distribution Handshake, on
    /// creations.)
    ///
    /// # Errors
    /// [`Refusal::IdsUsedUp`] if the creation is the last one, 2^32 - 1. On error nothing changes.
    pub fn start(&mut self, alloc: Global) -> Result<(), Refusal>
        requires { (seen self.old).up ≡ false }
        ensures node { OnOk result (seen self.new ≡ started (seen self.old)) }
        ensures last { IsErr result ↔ ((seen self.old).mint.creation ≡ 2 ^ 32 - 1) }
        ensures err { OnErr result (seen self.new ≡ seen self.old) }
        ensures only { IsOkUnless result Refusal.IdsUsedUp }
    {
        self.incarnation.start()?;
        self.own.creation = self.incarnation.mint().creation();
        self.names = Names::new(alloc);
        self.watches = Watches::new(alloc);
        self.watchers = Watchers::new(alloc);
        self.sides.all_gone();
        self.local.clear();
        Ok(())
    }
}
