//! What was planned is sent, and carried out.
ghost use Rattle.std.specs.Prelude.{OnOk};
ghost use Rattle.dist_model.specs.Commands.{Outcome};
ghost use Rattle.node_core.specs.Model.{IsFor, model_of};
ghost use Rattle.node_plan.specs.Planned.{Plans};
ghost use Rattle.world_core.specs.Events.{Sends};

use crate::lists::Lists;
use dist_model::Report;
use erl_term::Refusal;
use node_core::{Node, Planned};
use node_frames::Frame;
use std::alloc::Global;

/// What was planned for a node as it is, where it was, is sent, and then carried out.
///
/// # Errors
/// Why nothing was planned, and [`Refusal::OutOfMemory`]. Then nothing has changed.
pub(crate) fn finish(
    alloc: Global,
    node: &mut Node,
    lists: &mut Lists,
    planned: Planned,
    made: Result<(), Refusal>,
) -> Result<Report<Frame>, Refusal>
    requires { OnOk made (IsFor node.old planned) }
    ensures { (due : Outcome) → Plans (model_of node.old) due planned.plan made →
        Sends due (model_of node.old) (model_of node.new) lists.old lists.new result }
{
    match made {
        Ok(()) => match lists.send(alloc, planned.effects()) {
            Ok(()) => Ok(node.commit(alloc, planned)),
            Err(_) => {
                drop(planned);
                Err(Refusal::OutOfMemory)
            }
        },
        Err(e) => {
            drop(planned);
            Err(e)
        }
    }
}
