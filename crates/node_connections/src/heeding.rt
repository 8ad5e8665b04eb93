//! What a plan does to a sweep that is under way.
ghost use Rattle.std.specs.Prelude.{◌≡◌, false};
ghost use Rattle.dist_model.specs.Node.{Node as TheNode};
ghost use Rattle.node_plan.specs.Plans.{committed};
ghost use Rattle.node_connections.specs.Ahead.{IsAhead};

use crate::sweeping::Sweeping;
use node_plan::Plan;

impl Sweeping {
    // Whether a plan adds a record towards the peer.
    fn gets_more(&self, plan: &Plan) -> bool
        ensures { result ≡ false → (m : TheNode) → IsAhead self.now m → IsAhead self.now (committed plan.now m) }
    {
        match &self.peer {
            Some(peer) => plan.adds_towards(peer.atom()),
            None => false,
        }
    }

    /// A plan is to be carried out. Where it adds a record towards the peer, the next sweep begins again.
    /// Takes no memory.
    pub fn heed(&mut self, plan: &Plan)
        ensures { (m : TheNode) → IsAhead self.old m → IsAhead self.new (committed plan.now m) }
    {
        if self.gets_more(plan) {
            *self = Sweeping::new();
        }
    }
}
