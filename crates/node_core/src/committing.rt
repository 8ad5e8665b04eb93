//! What was planned is carried out.
ghost use Rattle.std.specs.Prelude.{◌≡◌, OnOk};
ghost use Rattle.dist_model.specs.Commands.{Outcome};
ghost use Rattle.dist_model.specs.Node.{Node as TheNode};
ghost use Rattle.node_core.specs.Model.{IsFor, model_of};
ghost use Rattle.node_core.specs.Done.{Does};
ghost use Rattle.node_core.specs.Suiting.{IsAheadIfAny};
ghost use Rattle.node_plan.specs.Planned.{Plans};
ghost use Rattle.node_plan.specs.Plans.{committed, told};
ghost use Rattle.node_connections.specs.Ahead.{IsAhead};

use crate::node::Node;
use crate::planned::Planned;
use dist_model::Report;
use erl_term::Refusal;
use node_connections::Sweeping;
use node_frames::Frame;
use std::alloc::Global;

// A sweep has come this far, if it has gone on.
fn go_on(sweeping: &mut Sweeping, next: Option<Sweeping>)
    ensures { (m : TheNode) → IsAhead sweeping.old m → IsAheadIfAny next m → IsAhead sweeping.new m }
{
    if let Some(next) = next {
        *sweeping = next;
    }
}

impl Node {
    /// Carries out what was planned, where it was.
    ///
    /// # Errors
    /// Why nothing was planned. Then nothing has changed.
    pub(crate) fn finish(
        &mut self,
        alloc: Global,
        planned: Planned,
        made: Result<(), Refusal>,
    ) -> Result<Report<Frame>, Refusal>
        requires { OnOk made (IsFor self.old planned) }
        ensures { (due : Outcome) → Plans (model_of self.old) due planned.plan made → Does due (model_of self.old) (model_of self.new) result }
    {
        match made {
            Ok(()) => Ok(self.commit(alloc, planned)),
            Err(e) => {
                drop(planned);
                Err(e)
            }
        }
    }

    /// Carries out what was planned for this node as it is. Takes no memory.
    #[inline(always)]
    pub fn commit(&mut self, alloc: Global, planned: Planned) -> Report<Frame>
        requires { IsFor self.old planned }
        ensures node { model_of self.new ≡ committed planned.plan (model_of self.old) }
        ensures answer { result.answer ≡ told planned.plan (model_of self.old) }
        ensures effects { result.effects ≡ planned.plan.effects }
    {
        let Planned { plan, sweeping } = planned;
        go_on(&mut self.sweeping, sweeping);
        self.sweeping.heed(&plan);
        self.state.commit(alloc, plan)
    }
}
