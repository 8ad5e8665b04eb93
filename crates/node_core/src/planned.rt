//! The plan of an event.
ghost use Rattle.std.specs.Prelude.{◌≡◌};
ghost use Rattle.node_core.specs.Begun.{IsNew, IsTaking};

use dist_model::Effect;
use node_connections::Sweeping;
use node_frames::Frame;
use node_plan::Plan;
use std::alloc::Global;

/// The plan of an event. The caller makes it, a `plan_*` call of a node fills it, and `commit`
/// applies it. A filled plan has passed every refusal and has all its memory. After a refusal the
/// plan may be half filled: it can only be dropped, since `plan_*` wants a new one and `commit` a
/// filled one.
#[derive(Drop)]
pub struct Planned {
    /// The changes to the node's tables, and the effects.
    pub plan: Plan,
    /// The position that a sweep has reached, if the event is one.
    pub sweeping: Option<Sweeping>,
}

impl Planned {
    /// Creates an empty plan. Allocates nothing.
    pub fn new(alloc: Global) -> Planned
        ensures { IsNew result }
    {
        Planned {
            plan: Plan::new(alloc, false),
            sweeping: None,
        }
    }

    /// Creates a plan that takes the first signal in flight from the node to itself, and does
    /// nothing else. Allocates nothing.
    pub fn taking(alloc: Global) -> Planned
        ensures { IsTaking result }
    {
        Planned {
            plan: Plan::new(alloc, true),
            sweeping: None,
        }
    }

    /// Returns the planned effects in their order, sent items among them as bytes with their
    /// connection.
    pub fn effects(&self) -> &[Effect<Frame>]
        ensures { result.now ≡ self.now.plan.effects.items }
    {
        self.plan.effects()
    }
}
