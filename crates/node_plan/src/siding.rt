//! What is planned of the sides.
ghost use Rattle.std.specs.Prelude.{◌≡◌, ◌<◌, ◌-◌, ◌^◌, false};
ghost use Rattle.dist_model.specs.Dialing.{draw_trunk};
ghost use Rattle.dist_model.specs.Handshake.{write};
ghost use Rattle.dist_model.specs.Node.{Node as TheNode};
ghost use Rattle.dist_model.specs.Work.{Work};
ghost use Rattle.node_plan.specs.Suits.{Lets};
ghost use Rattle.node_plan.specs.Carried.{Makes, MakesOr, sided};
ghost use Rattle.node_plan.specs.Plans.{told};

use crate::plan::Plan;
use crate::sending::push_message;
use erl_handshake::ShakeMsg;
use erl_names::{NodeName, TrunkId};
use node_tables::SideChange;
use std::alloc::{AllocError, Global};

impl Plan {
    /// A side changes. (ERTS User's Guide, Distribution Protocol, Distribution Handshake.)
    ///
    /// # Errors
    /// Where there is no memory for the plan.
    pub fn change_side(&mut self, change: SideChange) -> Result<(), AllocError>
        ensures makes { (m : TheNode) (work : Work) → Lets change work.node.sides → Makes self.old m work → MakesOr m (sided change work) self.new result }
        ensures told { (m : TheNode) → told self.new m ≡ told self.old m }
    {
        self.sides.push(change)?;
        Ok(())
    }

    /// A message of the handshake is sent on a connection. (ERTS User's Guide, Distribution Protocol,
    /// Distribution Handshake.)
    ///
    /// # Errors
    /// Where there is no memory for it.
    pub fn write(
        &mut self,
        alloc: Global,
        trunk: &TrunkId,
        peer: &NodeName,
        message: &ShakeMsg,
    ) -> Result<(), AllocError>
        ensures makes { (m : TheNode) (work : Work) → Makes self.old m work → MakesOr m (write trunk.now peer.now message.now work) self.new result }
        ensures told { (m : TheNode) → told self.new m ≡ told self.old m }
    {
        push_message(&mut self.effects, alloc, trunk, peer, message)
    }

    /// The node dials on a new connection. Takes no memory.
    pub fn dial(&mut self)
        requires { self.old.dials ≡ false }
        ensures makes { (m : TheNode) (work : Work) → m.dialed < 2 ^ 64 - 1 → Makes self.old m work → Makes self.new m (record work { node = draw_trunk work.node }) }
        ensures told { (m : TheNode) → told self.new m ≡ told self.old m }
    {
        self.dials = true;
    }
}
