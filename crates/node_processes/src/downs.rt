//! The message to the owner of a monitor that ends.
ghost use Rattle.std.specs.Prelude.{◌≡◌, IfOk};
ghost use Rattle.dist_model.specs.Telling.{object};
ghost use Rattle.exit_core.specs.Messages.{down_term};
ghost use Rattle.node_plan.specs.Targets.{target_of};

use erl_term::{Payload, Reference};
use exit_core::{down_message, named_down_message};
use node_plan::{TargetParts, copied};
use std::alloc::{AllocError, Global};

/// Returns DOWN of the target of a monitor, which its call named by a pid, or by a name and its node. (Reference
/// Manual, Processes, Monitors.)
///
/// # Errors
/// Where there is no memory for it.
pub fn down(
    alloc: Global,
    reference: &Reference,
    target: TargetParts<'_>,
    reason: Payload,
) -> Result<Payload, AllocError>
    ensures { IfOk result (λ m. m ≡ down_term reference.now (object (target_of target.entry)) reason) }
{
    let reference = copied(reference)?;
    match target {
        TargetParts::Pid(pid) => down_message(alloc, reference, pid.clone()?, reason),
        TargetParts::Name { name, node } => {
            named_down_message(alloc, reference, name.clone()?, node.clone()?, reason)
        }
    }
}
