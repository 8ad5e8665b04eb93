//! Copies of references, and the monitors between copies of pids and targets.
ghost use Rattle.std.specs.Prelude.{◌≡◌, IfOk};
ghost use Rattle.dist_model.specs.Monitoring.{bound};
ghost use Rattle.monitor_core.specs.Monitors.{watch_of};
ghost use Rattle.node_plan.specs.Targets.{target_of};

use crate::target::TargetParts;
use erl_term::{Pid, Reference};
use monitor_core::{Registration, Watch};
use std::alloc::AllocError;

/// Returns a copy of a reference.
///
/// # Errors
/// Where there is no memory for it.
pub fn copied(reference: &Reference) -> Result<Reference, AllocError>
    ensures { IfOk result (λ r. r ≡ reference.now) }
{
    reference.clone()
}

/// Returns the monitor that this owner has of this target. (Reference Manual, Processes, Monitors.)
///
/// # Errors
/// Where there is no memory for it.
pub fn watch_between(owner: &Pid, target: TargetParts<'_>) -> Result<Watch, AllocError>
    ensures { IfOk result (λ m. m ≡ watch_of owner.now (target_of target.entry)) }
{
    Ok(Watch {
        owner: owner.clone()?,
        target: target.copied()?,
    })
}

/// Returns the monitor that this owner has of this target, as the target's node registers it: bound to the
/// process `held`. (Reference Manual, Processes, Monitors.)
///
/// # Errors
/// Where there is no memory for it.
pub fn registration_between(
    owner: &Pid,
    target: TargetParts<'_>,
    held: &Pid,
) -> Result<Registration, AllocError>
    ensures { IfOk result (λ m. m ≡ bound owner.now (target_of target.entry) held.now) }
{
    Ok(Registration {
        owner: owner.clone()?,
        target: target.copied()?,
        held: held.clone()?,
    })
}
