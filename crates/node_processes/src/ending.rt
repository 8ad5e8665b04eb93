//! The end of a process.
ghost use Rattle.std.specs.Prelude.{◌≡◌, true, if◌then◌else◌, ◌∷◌, []};
ghost use Rattle.std.specs.FinMap as fm;
ghost use Rattle.dist_model.specs.Exits.{demonitors, end_process, monitor_exits};
ghost use Rattle.dist_model.specs.Names.{same_pid};
ghost use Rattle.dist_model.specs.Node.{Node as TheNode, ends_of, living};
ghost use Rattle.dist_model.specs.Telling.{taken_back, told_end};
ghost use Rattle.dist_model.specs.Work.{Work, post, post_all};
ghost use Rattle.erl_control.specs.Fits.{fits};
ghost use Rattle.link_core.specs.Table.{is_active};
ghost use Rattle.node_plan.specs.Parts.{link_in};
ghost use Rattle.node_plan.specs.Carried.{Carries, CarriesOut, IsFree};
ghost use Rattle.node_processes.specs.Exiting.{OnlyExits, exit_to, exits_to};
ghost use Rattle.node_plan.specs.Plans.{told};
ghost use Rattle.node_plan.specs.Seen.{seen};
ghost use Rattle.node_plan.specs.declared.change.MonitorChange.TheVariants as monitor;

use erl_control::Signal;
use erl_term::{Payload, Pid, Reference};
use link_core::End;
use monitor_core::{Registration, Watch};
use node_frames::same_pid;
use node_plan::{Node, Plan, TargetParts};
use std::alloc::{AllocError, Global};

/// Returns true if a process is linked at this end. (Reference Manual, Processes, Links.)
pub fn is_active(end: End) -> bool
    ensures { result ≡ is_active end }
{
    matches!(end, End::Active)
}

// Posts EXIT to a partner to which the link is active, unless it is gone.
fn post_exit(
    plan: &mut Plan,
    alloc: Global,
    node: &Node,
    process: &Pid,
    reason: &Payload,
    partner: &Pid,
    end: End,
) -> Result<(), AllocError>
    requires { fits reason.now ≡ true }
    ensures carries { (work : Work) → CarriesOut plan.old (seen node.now) work → Carries (seen node.now) (post_all (exit_to (link_in plan.old.change) process.now reason.now partner.now end) work) plan.new result }
    ensures answer { plan.new.answer ≡ plan.old.answer }
    ensures change { plan.new.change ≡ plan.old.change }
    ensures watches { plan.new.watches ≡ plan.old.watches }
    ensures watchers { plan.new.watchers ≡ plan.old.watchers }
{
    if plan.is_gone(partner) || !is_active(end) {
        return Ok(());
    }
    let signal = Signal::Exit {
        from: process.clone()?,
        to: partner.clone()?,
        reason: reason.copy(alloc)?,
    };
    plan.post(alloc, node, &partner.node, signal)
}

// Posts EXIT to each partner to which the link is active, unless it is gone.
fn post_exits(
    plan: &mut Plan,
    alloc: Global,
    node: &Node,
    process: &Pid,
    reason: &Payload,
) -> Result<(), AllocError>
    requires { fits reason.now ≡ true }
    ensures carries { (work : Work) → CarriesOut plan.old (seen node.now) work → Carries (seen node.now) (post_all (exits_to (link_in plan.old.change) process.now reason.now (ends_of (seen node.now) process.now)) work) plan.new result }
    ensures answer { plan.new.answer ≡ plan.old.answer }
    ensures change { plan.new.change ≡ plan.old.change }
    ensures watches { plan.new.watches ≡ plan.old.watches }
    ensures watchers { plan.new.watchers ≡ plan.old.watchers }
{
    let mut behind: Option<&Pid> = None;
    while let Some((partner, end)) = node.next_link(process, behind) {
        post_exit(plan, alloc, node, process, reason, partner, *end)?;
        behind = Some(partner);
    }
    Ok(())
}

// Posts MONITOR_P_EXIT of the target to the owner of a monitor.
fn post_end(
    plan: &mut Plan,
    alloc: Global,
    node: &Node,
    reason: &Payload,
    reference: &Reference,
    registration: &Registration,
) -> Result<(), AllocError>
    requires { fits reason.now ≡ true }
    ensures carries { (work : Work) → CarriesOut plan.old (seen node.now) work → Carries (seen node.now) (post (told_end registration.now.target registration.now.owner reference.now reason.now) work) plan.new result }
    ensures answer { plan.new.answer ≡ plan.old.answer }
    ensures change { plan.new.change ≡ plan.old.change }
    ensures watches { plan.new.watches ≡ plan.old.watches }
    ensures watchers { plan.new.watchers ≡ plan.old.watchers }
{
    let reason = reason.copy(alloc)?;
    let target = TargetParts::of(&registration.target);
    plan.tell_end(alloc, node, target, &registration.owner, reference, reason)
}

// Posts MONITOR_P_EXIT to the owner of a monitor, if it is bound to the process.
fn post_monitor_exit(
    plan: &mut Plan,
    alloc: Global,
    node: &Node,
    process: &Pid,
    reason: &Payload,
    reference: &Reference,
    registration: &Registration,
) -> Result<(), AllocError>
    requires { fits reason.now ≡ true }
    ensures carries { (work : Work) → CarriesOut plan.old (seen node.now) work → Carries (seen node.now) (post_all (if same_pid registration.now.held process.now then told_end registration.now.target registration.now.owner reference.now reason.now ∷ [] else []) work) plan.new result }
    ensures answer { plan.new.answer ≡ plan.old.answer }
    ensures change { plan.new.change ≡ plan.old.change }
    ensures watches { plan.new.watches ≡ plan.old.watches }
    ensures watchers { plan.new.watchers ≡ plan.old.watchers }
{
    if !same_pid(&registration.held, process) {
        return Ok(());
    }
    post_end(plan, alloc, node, reason, reference, registration)
}

// Posts MONITOR_P_EXIT to the owner of each monitor of the process.
fn post_monitor_exits(
    plan: &mut Plan,
    alloc: Global,
    node: &Node,
    process: &Pid,
    reason: &Payload,
) -> Result<(), AllocError>
    requires { fits reason.now ≡ true }
    ensures carries { (work : Work) → CarriesOut plan.old (seen node.now) work → Carries (seen node.now) (post_all (monitor_exits process.now reason.now (fm.entries (seen node.now).registered)) work) plan.new result }
    ensures answer { plan.new.answer ≡ plan.old.answer }
    ensures change { plan.new.change ≡ plan.old.change }
    ensures watches { plan.new.watches ≡ plan.old.watches }
    ensures watchers { plan.new.watchers ≡ plan.old.watchers }
{
    let watchers = node.watchers();
    let mut behind: Option<&Reference> = None;
    while let Some((reference, registration)) = watchers.next_held(process, behind) {
        post_monitor_exit(plan, alloc, node, process, reason, reference, registration)?;
        behind = Some(reference);
    }
    Ok(())
}

// Posts DEMONITOR_P for a monitor, if the process owns it.
fn post_demonitor(
    plan: &mut Plan,
    alloc: Global,
    node: &Node,
    process: &Pid,
    reference: &Reference,
    watch: &Watch,
) -> Result<(), AllocError>
    ensures carries { (work : Work) → CarriesOut plan.old (seen node.now) work → Carries (seen node.now) (post_all (if same_pid watch.now.owner process.now then taken_back process.now watch.now.target reference.now ∷ [] else []) work) plan.new result }
    ensures answer { plan.new.answer ≡ plan.old.answer }
    ensures change { plan.new.change ≡ plan.old.change }
    ensures watches { plan.new.watches ≡ plan.old.watches }
    ensures watchers { plan.new.watchers ≡ plan.old.watchers }
{
    if !same_pid(&watch.owner, process) {
        return Ok(());
    }
    let target = TargetParts::of(&watch.target);
    plan.tell_demonitor(alloc, node, process, target, reference)
}

// Posts DEMONITOR_P for each monitor that the process owns.
fn post_demonitors(
    plan: &mut Plan,
    alloc: Global,
    node: &Node,
    process: &Pid,
) -> Result<(), AllocError>
    ensures carries { (work : Work) → CarriesOut plan.old (seen node.now) work → Carries (seen node.now) (post_all (demonitors process.now (fm.entries (seen node.now).watches)) work) plan.new result }
    ensures answer { plan.new.answer ≡ plan.old.answer }
    ensures change { plan.new.change ≡ plan.old.change }
    ensures watches { plan.new.watches ≡ plan.old.watches }
    ensures watchers { plan.new.watchers ≡ plan.old.watchers }
{
    let watches = node.watches();
    let mut behind: Option<&Reference> = None;
    while let Some((reference, watch)) = watches.next_owned_by(process, behind) {
        post_demonitor(plan, alloc, node, process, reference, watch)?;
        behind = Some(reference);
    }
    Ok(())
}

/// Plans the end of a process: EXIT goes to each partner to which it is linked, MONITOR_P_EXIT to the owners of
/// its monitors, and DEMONITOR_P for those that it owns itself. (Reference Manual, Processes,
/// Process Termination; ERTS User's Guide, Distribution Protocol.)
///
/// # Errors
/// Where there is no memory for it.
pub fn finish(
    plan: &mut Plan,
    alloc: Global,
    node: &Node,
    process: &Pid,
    reason: Payload,
) -> Result<(), AllocError>
    requires fits { fits reason ≡ true }
    requires free { IsFree plan.old.change process.now }
    requires link { OnlyExits (link_in plan.old.change) }
    requires watches { plan.old.watches ≡ monitor.Stays }
    requires watchers { plan.old.watchers ≡ monitor.Stays }
    requires living { living (seen node.now) process.now ≡ true }
    ensures carries { (work : Work) → CarriesOut plan.old (seen node.now) work → Carries (seen node.now) (end_process process.now reason work) plan.new result }
    ensures answer { plan.new.answer ≡ plan.old.answer }
    ensures told { (m : TheNode) → told plan.new m ≡ told plan.old m }
    ensures watches { plan.new.watches ≡ plan.old.watches }
    ensures watchers { plan.new.watchers ≡ plan.old.watchers }
{
    post_exits(plan, alloc, node, process, &reason)?;
    post_monitor_exits(plan, alloc, node, process, &reason)?;
    post_demonitors(plan, alloc, node, process)?;
    plan.bury(alloc, process, reason)
}
