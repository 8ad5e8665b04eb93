//! The reservation of memory for a plan.
ghost use Rattle.std.specs.Prelude.{◌≡◌, ◌<◌, ◌-◌, ◌^◌, OnOk, true};
ghost use Rattle.dist_model.specs.Keeping.{CountsOwn, Steady};
ghost use Rattle.node_plan.specs.Suits.{LetsAll};
ghost use Rattle.node_plan.specs.Carried.{IsSound};
ghost use Rattle.node_plan.specs.Plans.{committed};
ghost use Rattle.node_plan.specs.Room.{Fits};
ghost use Rattle.node_plan.specs.Seen.{seen};

use crate::changing_processes::reserve_processes;
use crate::monitors::{reserve_watchers, reserve_watches};
use crate::node::Node;
use crate::plan::Plan;
use std::alloc::AllocError;

impl Node {
    /// Reserves memory for everything that `plan` adds, and changes nothing else.
    ///
    /// # Errors
    /// [`AllocError`] if out of memory.
    #[inline(always)]
    pub fn reserve(&mut self, plan: &Plan) -> Result<(), AllocError>
        requires sound { IsSound plan.now (seen self.old) }
        requires lets { LetsAll plan.now.sides.items (seen self.old).sides }
        requires dialed { plan.now.dials ≡ true → self.old.dialed < 2 ^ 64 - 1 }
        requires steady { Steady (committed plan.now (seen self.old)) }
        requires counted { CountsOwn (committed plan.now (seen self.old)) }
        ensures seen { seen self.new ≡ seen self.old }
        ensures fits { OnOk result (Fits self.new plan.now) }
    {
        reserve_processes(&mut self.incarnation, &mut self.names, &plan.change)?;
        reserve_watches(&mut self.watches, &plan.watches)?;
        reserve_watchers(&mut self.watchers, &plan.watchers)?;
        self.sides.reserve(plan.sides.len())?;
        self.local.reserve(plan.local.len())
    }
}
