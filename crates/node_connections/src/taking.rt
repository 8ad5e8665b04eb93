//! The plan by which a record goes.
ghost use Rattle.std.specs.Prelude.{◌≡◌, true};
ghost use Rattle.dist_model.specs.Losses.{sweep_end};
ghost use Rattle.dist_model.specs.Monitoring.{unregister, unwatch};
ghost use Rattle.dist_model.specs.Node as model;
ghost use Rattle.dist_model.specs.Node.{Node as TheNode};
ghost use Rattle.dist_model.specs.Telling.{object};
ghost use Rattle.dist_model.specs.Work.{Work, put};
ghost use Rattle.exit_core.specs.Messages.{down_term};
ghost use Rattle.link_core.specs.News.{noconnection};
ghost use Rattle.node_plan.specs.Carried.{Carries, CarriesOut, IsBlank};
ghost use Rattle.node_plan.specs.Plans.{told};
ghost use Rattle.node_plan.specs.Seen.{seen};

use erl_term::{Pid, Reference};
use link_core::End;
use monitor_core::Watch;
use node_plan::{Node, Plan, TargetParts, copied};
use node_processes::{break_link, down, is_active, no_connection};
use node_tables::EndChange;
use std::alloc::{AllocError, Global};

/// Plans that a link to a process that isn't reached any more goes, also one that waits for its acknowledgement.
/// (Reference Manual, Processes, Links.)
///
/// # Errors
/// Where there is no memory for the plan.
pub(crate) fn take_link(
    alloc: Global,
    node: &Node,
    plan: &mut Plan,
    process: &Pid,
    partner: &Pid,
    end: End,
) -> Result<(), AllocError>
    requires blank { IsBlank plan.old }
    requires living { model.living (seen node.now) process.now ≡ true }
    ensures carries { (work : Work) → CarriesOut plan.old (seen node.now) work → Carries (seen node.now) (sweep_end end process.now partner.now work) plan.new result }
    ensures told { (m : TheNode) → told plan.new m ≡ told plan.old m }
{
    if is_active(end) {
        break_link(alloc, node, plan, process, partner)
    } else {
        plan.change_end(process, partner, EndChange::Exits)
    }
}

/// Plans that a monitor goes whose target isn't reached any more, and that its owner gets DOWN. (Reference Manual,
/// Processes, Monitors.)
///
/// # Errors
/// Where there is no memory for the plan.
pub(crate) fn take_watch(
    alloc: Global,
    plan: &mut Plan,
    reference: &Reference,
    watch: &Watch,
) -> Result<(), AllocError>
    requires { IsBlank plan.old }
    ensures carries { (m : TheNode) (work : Work) → model.living m watch.now.owner ≡ true → CarriesOut plan.old m work →
        Carries m (put watch.now.owner (down_term reference.now (object watch.now.target) noconnection) (unwatch reference.now work)) plan.new result }
    ensures told { (m : TheNode) → told plan.new m ≡ told plan.old m }
{
    let reason = no_connection(alloc)?;
    let message = down(alloc, reference, TargetParts::of(&watch.target), reason)?;
    plan.unwatch(copied(reference)?);
    plan.put(alloc, &watch.owner, message)
}

/// Plans that a monitor goes whose owner isn't reached any more. (Reference Manual, Processes,
/// Monitors.)
///
/// # Errors
/// Where there is no memory for the plan.
pub(crate) fn take_registration(plan: &mut Plan, reference: &Reference) -> Result<(), AllocError>
    requires { IsBlank plan.old }
    ensures carries { (m : TheNode) (work : Work) → CarriesOut plan.old m work → Carries m (unregister reference.now work) plan.new result }
    ensures told { (m : TheNode) → told plan.new m ≡ told plan.old m }
{
    plan.unregister(copied(reference)?);
    Ok(())
}
