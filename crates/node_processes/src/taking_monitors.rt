//! The delivery of a signal about a monitor.
ghost use Rattle.std.specs.Prelude.{◌≡◌, Some, true};
ghost use Rattle.std.specs.Option.{option_copied, option_map};
ghost use Rattle.dist_model.specs.Monitoring as monitoring;
ghost use Rattle.dist_model.specs.Node as model;
ghost use Rattle.dist_model.specs.Node.{Node as TheNode};
ghost use Rattle.dist_model.specs.Telling.{object, told_end};
ghost use Rattle.dist_model.specs.Work.{Work, post, put};
ghost use Rattle.exit_core.specs.Messages.{down_term};
ghost use Rattle.link_core.specs.News.{noproc};
ghost use Rattle.monitor_core.specs.Monitors.{as_watch, is_this, itself, watch_of};
ghost use Rattle.monitor_core.specs.declared.monitor.Target.TheVariants as targets;
ghost use Rattle.node_plan.specs.Carried.{Carries, CarriesOut, IsBlank};
ghost use Rattle.node_plan.specs.Plans.{told};
ghost use Rattle.node_plan.specs.Seen.{seen};
ghost use Rattle.node_plan.specs.Targets.{target_of};

use crate::downs::down;
use crate::reacting::no_process;
use erl_term::{Atom, Payload, Pid, Reference};
use monitor_core::{Registration, Watch};
use node_frames::same_pid;
use node_plan::{Node, Plan, TargetParts, copied, registration_between};
use std::alloc::{AllocError, Global};

// Returns true if it is the monitor of this owner and this target.
fn is_this_watch(watch: Option<&Watch>, owner: &Pid, target: TargetParts<'_>) -> bool
    ensures { result ≡ is_this (option_map itself (option_copied watch.entry)) (watch_of owner.now (target_of target.entry)) }
{
    match watch {
        Some(watch) => same_pid(&watch.owner, owner) && target.is_same(&watch.target),
        None => false,
    }
}

// Returns true if it is the monitor of this owner and this target.
fn is_this_registration(
    registration: Option<&Registration>,
    owner: &Pid,
    target: TargetParts<'_>,
) -> bool
    ensures { result ≡ is_this (option_map as_watch (option_copied registration.entry)) (watch_of owner.now (target_of target.entry)) }
{
    match registration {
        Some(registration) => {
            same_pid(&registration.owner, owner) && target.is_same(&registration.target)
        }
        None => false,
    }
}

// Tells the owner of a monitor that there is no such process.
fn tell_no_target(
    alloc: Global,
    node: &Node,
    plan: &mut Plan,
    owner: &Pid,
    target: TargetParts<'_>,
    reference: &Reference,
) -> Result<(), AllocError>
    ensures carries { (work : Work) → CarriesOut plan.old (seen node.now) work → Carries (seen node.now) (post (told_end (target_of target.entry) owner.now reference.now noproc) work) plan.new result }
    ensures told { (m : TheNode) → told plan.new m ≡ told plan.old m }
{
    let reason = no_process(alloc)?;
    plan.tell_end(alloc, node, target, owner, reference, reason)
}

// Plans a monitor that is bound to the process `held`.
fn register(
    plan: &mut Plan,
    owner: &Pid,
    target: TargetParts<'_>,
    held: &Pid,
    reference: &Reference,
) -> Result<(), AllocError>
    requires { IsBlank plan.old }
    ensures carries { (m : TheNode) (work : Work) → CarriesOut plan.old m work → Carries m (monitoring.register reference.now (monitoring.bound owner.now (target_of target.entry) held.now) work) plan.new result }
    ensures told { (m : TheNode) → told plan.new m ≡ told plan.old m }
{
    let registration = registration_between(owner, target, held)?;
    plan.register(copied(reference)?, registration);
    Ok(())
}

// Plans a monitor that is bound to a process, if it is living. Otherwise its owner is told that there is no
// such process.
fn bind_to(
    alloc: Global,
    node: &Node,
    plan: &mut Plan,
    held: &Pid,
    owner: &Pid,
    target: TargetParts<'_>,
    reference: &Reference,
) -> Result<(), AllocError>
    requires { IsBlank plan.old }
    ensures carries { (work : Work) → CarriesOut plan.old (seen node.now) work → Carries (seen node.now) (monitoring.bind (Some held.now) owner.now (target_of target.entry) reference.now work) plan.new result }
    ensures told { (m : TheNode) → told plan.new m ≡ told plan.old m }
{
    if node.is_living(held) {
        register(plan, owner, target, held, reference)
    } else {
        tell_no_target(alloc, node, plan, owner, target, reference)
    }
}

/// Takes MONITOR_P to a process.
pub(crate) fn take_monitor(
    alloc: Global,
    node: &Node,
    plan: &mut Plan,
    owner: &Pid,
    target: &Pid,
    reference: &Reference,
) -> Result<(), AllocError>
    requires { IsBlank plan.old }
    ensures carries { (work : Work) → CarriesOut plan.old (seen node.now) work → Carries (seen node.now) (monitoring.take_monitor owner.now target.now reference.now work) plan.new result }
    ensures told { (m : TheNode) → told plan.new m ≡ told plan.old m }
{
    let held = target;
    let target = TargetParts::Pid(target);
    bind_to(alloc, node, plan, held, owner, target, reference)
}

/// Takes MONITOR_P to a name of this node: binds the monitor to the process that has the name now.
pub(crate) fn take_monitor_name(
    alloc: Global,
    node: &Node,
    plan: &mut Plan,
    owner: &Pid,
    name: &Atom,
    reference: &Reference,
) -> Result<(), AllocError>
    requires { IsBlank plan.old }
    ensures carries { (work : Work) → CarriesOut plan.old (seen node.now) work → Carries (seen node.now) (monitoring.take_monitor_name owner.now name.now reference.now work) plan.new result }
    ensures told { (m : TheNode) → told plan.new m ≡ told plan.old m }
{
    let at = node.name().atom();
    let target = TargetParts::Name { name, node: at };
    match node.holder(name) {
        Some(held) => bind_to(alloc, node, plan, held, owner, target, reference),
        None => tell_no_target(alloc, node, plan, owner, target, reference),
    }
}

// Removes a monitor that another has.
fn unregister(plan: &mut Plan, reference: &Reference) -> Result<(), AllocError>
    requires { IsBlank plan.old }
    ensures carries { (m : TheNode) (work : Work) → CarriesOut plan.old m work → Carries m (monitoring.unregister reference.now work) plan.new result }
    ensures told { (m : TheNode) → told plan.new m ≡ told plan.old m }
{
    plan.unregister(copied(reference)?);
    Ok(())
}

/// Takes DEMONITOR_P to a target: removes the monitor of this reference if its owner and its target are these.
pub(crate) fn take_demonitor(
    node: &Node,
    plan: &mut Plan,
    owner: &Pid,
    target: TargetParts<'_>,
    reference: &Reference,
) -> Result<(), AllocError>
    requires { IsBlank plan.old }
    ensures carries { (work : Work) → CarriesOut plan.old (seen node.now) work → Carries (seen node.now) (monitoring.take_demonitor owner.now (target_of target.entry) reference.now work) plan.new result }
    ensures told { (m : TheNode) → told plan.new m ≡ told plan.old m }
{
    if is_this_registration(node.watchers().get(reference), owner, target) {
        unregister(plan, reference)
    } else {
        Ok(())
    }
}

/// Takes DEMONITOR_P to a name of this node.
pub(crate) fn take_demonitor_name(
    node: &Node,
    plan: &mut Plan,
    owner: &Pid,
    name: &Atom,
    reference: &Reference,
) -> Result<(), AllocError>
    requires { IsBlank plan.old }
    ensures carries { (work : Work) → CarriesOut plan.old (seen node.now) work → Carries (seen node.now) (monitoring.take_demonitor owner.now (targets.Name name.now work.node.mint.name) reference.now work) plan.new result }
    ensures told { (m : TheNode) → told plan.new m ≡ told plan.old m }
{
    let at = node.name().atom();
    let target = TargetParts::Name { name, node: at };
    take_demonitor(node, plan, owner, target, reference)
}

// Ends a monitor of a living process, which gets DOWN.
fn take_down(
    alloc: Global,
    plan: &mut Plan,
    owner: &Pid,
    target: TargetParts<'_>,
    reference: &Reference,
    reason: &Payload,
) -> Result<(), AllocError>
    requires { IsBlank plan.old }
    ensures carries { (m : TheNode) (work : Work) → model.living m owner.now ≡ true → CarriesOut plan.old m work → Carries m (put owner.now (down_term reference.now (object (target_of target.entry)) reason.now) (monitoring.unwatch reference.now work)) plan.new result }
    ensures told { (m : TheNode) → told plan.new m ≡ told plan.old m }
{
    let reason = reason.copy(alloc)?;
    let message = down(alloc, reference, target, reason)?;
    plan.unwatch(copied(reference)?);
    plan.put(alloc, owner, message)
}

/// Takes MONITOR_P_EXIT of a target to the process that monitors it.
pub(crate) fn take_monitor_exit(
    alloc: Global,
    node: &Node,
    plan: &mut Plan,
    owner: &Pid,
    target: TargetParts<'_>,
    reference: &Reference,
    reason: &Payload,
) -> Result<(), AllocError>
    requires { IsBlank plan.old }
    ensures carries { (work : Work) → CarriesOut plan.old (seen node.now) work → Carries (seen node.now) (monitoring.take_monitor_exit (target_of target.entry) owner.now reference.now reason.now work) plan.new result }
    ensures told { (m : TheNode) → told plan.new m ≡ told plan.old m }
{
    if node.is_living(owner) && is_this_watch(node.watches().get(reference), owner, target) {
        take_down(alloc, plan, owner, target, reference, reason)
    } else {
        Ok(())
    }
}
