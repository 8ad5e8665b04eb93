//! The application of a plan to its node.
ghost use Rattle.std.specs.Prelude.{◌≡◌, ◌-◌, ◌^◌, ◌<◌, true};
ghost use Rattle.node_plan.specs.Plans as after;
ghost use Rattle.node_plan.specs.Room.{Fits};
ghost use Rattle.node_plan.specs.Seen.{seen};

use crate::changing_processes::{change_processes, draw};
use crate::monitors::{change_watchers, change_watches};
use crate::node::Node;
use crate::own_list::keep;
use crate::plan::Plan;
use crate::sides::change_sides;
use dist_model::Report;
use node_frames::Frame;
use std::alloc::Global;

fn dialed_after(dialed: u64, dials: bool) -> u64
    requires { dials ≡ true → dialed < 2 ^ 64 - 1 }
    ensures { result ≡ after.dialed_after dials dialed }
{
    if dials { dialed + 1 } else { dialed }
}

impl Node {
    /// Applies `plan`, which must have been made for the node's current state, and returns its report.
    /// [`Node::reserve`] must have reserved its memory. Never allocates.
    #[inline(always)]
    pub fn commit(&mut self, alloc: Global, plan: Plan) -> Report<Frame>
        requires { Fits self.old plan }
        ensures node { seen self.new ≡ after.committed plan (seen self.old) }
        ensures answer { result.answer ≡ after.told plan (seen self.old) }
        ensures effects { result.effects ≡ plan.effects }
    {
        let Plan {
            draws,
            change,
            watches,
            watchers,
            pops,
            local,
            sides,
            dials,
            answer,
            effects,
        } = plan;
        change_watches(&mut self.watches, watches, &change);
        change_watchers(&mut self.watchers, watchers, &change);
        let answer = change_processes(
            alloc,
            &mut self.incarnation,
            &mut self.names,
            change,
            answer,
        );
        draw(&mut self.incarnation, draws);
        keep(&mut self.local, pops, local);
        change_sides(&mut self.sides, sides);
        self.dialed = dialed_after(self.dialed, dials);
        Report { answer, effects }
    }
}
