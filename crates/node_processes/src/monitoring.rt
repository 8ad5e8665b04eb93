//! The calls by which a process monitors another, and takes that back.
ghost use Rattle.std.specs.Prelude.{◌≡◌, ◌+◌, ◌-◌, ◌^◌, ◌<◌, true, OnOk};
ghost use Rattle.dist_model.specs.Calls.{call};
ghost use Rattle.dist_model.specs.Monitoring as monitoring;
ghost use Rattle.dist_model.specs.Node.{Node as TheNode};
ghost use Rattle.dist_model.specs.Node as model;
ghost use Rattle.dist_model.specs.Telling.{asked, object, taken_back};
ghost use Rattle.dist_model.specs.Work.{Work, at_work, draw, post, put};
ghost use Rattle.dist_model.specs.declared.command.Command.TheVariants as command;
ghost use Rattle.dist_model.specs.declared.report.Answer.TheVariants as answer;
ghost use Rattle.erl_names.specs.Draw as kind;
ghost use Rattle.exit_core.specs.Messages.{down_term};
ghost use Rattle.erl_names.specs.Ids.{reference_of};
ghost use Rattle.link_core.specs.News.{noconnection};
ghost use Rattle.monitor_core.specs.Monitors.{watch_of};
ghost use Rattle.node_plan.specs.Carried.{Carries, CarriesOut, IsBlank};
ghost use Rattle.node_plan.specs.Planned.{Plans};
ghost use Rattle.node_plan.specs.Plans.{told};
ghost use Rattle.node_plan.specs.Seen.{seen};
ghost use Rattle.node_plan.specs.Targets.{target_of};
ghost use Rattle.node_plan.specs.declared.change.Change.TheVariants as change;
ghost use Rattle.node_plan.specs.declared.change.Draws.TheVariants as draws;
ghost use Rattle.node_plan.specs.declared.change.MonitorChange.TheVariants as stays;

use crate::acting::{acts, aims_at, offers, reaches};
use crate::downs::down;
use crate::reacting::no_connection;
use dist_model::Answer;
use erl_names::NodeName;
use erl_term::{Atom, Pid, Reference, Refusal};
use node_frames::same_pid;
use node_plan::{Node, Plan, TargetParts, copied, or_refuse, watch_between};
use std::alloc::{AllocError, Global};

// Plans a monitor of a target whose node is reached, under the reference that is drawn for this.
fn monitor_reached(
    alloc: Global,
    node: &Node,
    plan: &mut Plan,
    owner: &Pid,
    target: TargetParts<'_>,
    reference: &Reference,
) -> Result<(), AllocError>
    requires draws { plan.old.draws ≡ draws.Reference }
    requires change { plan.old.change ≡ change.None }
    requires watches { plan.old.watches ≡ stays.Stays }
    requires next { reference.now ≡ reference_of (seen node.now).mint ((seen node.now).mint.references + 1) }
    requires below { (seen node.now).mint.references < 2 ^ 18 - 1 }
    ensures carries { (work : Work) → CarriesOut plan.old (seen node.now) work → Carries (seen node.now) (post (asked owner.now (target_of target.entry) reference.now) (monitoring.watch reference.now (watch_of owner.now (target_of target.entry)) work)) plan.new result }
    ensures told { (m : TheNode) → told plan.new m ≡ told plan.old m }
{
    let watch = watch_between(owner, target)?;
    plan.watch(copied(reference)?, watch);
    plan.tell_monitor(alloc, node, owner, target, reference)
}

// Puts DOWN at once, since the node of the target isn't reached.
fn monitor_lost(
    alloc: Global,
    plan: &mut Plan,
    owner: &Pid,
    target: TargetParts<'_>,
    reference: &Reference,
) -> Result<(), AllocError>
    requires { plan.old.change ≡ change.None }
    ensures carries { (m : TheNode) (work : Work) → model.living m owner.now ≡ true → CarriesOut plan.old m work → Carries m (put owner.now (down_term reference.now (object (target_of target.entry)) noconnection) work) plan.new result }
    ensures told { (m : TheNode) → told plan.new m ≡ told plan.old m }
{
    let reason = no_connection(alloc)?;
    let message = down(alloc, reference, target, reason)?;
    plan.put(alloc, owner, message)
}

// Plans a monitor of a target under the reference that is drawn for this.
fn monitor_as(
    alloc: Global,
    node: &Node,
    plan: &mut Plan,
    owner: &Pid,
    target: TargetParts<'_>,
    reference: &Reference,
) -> Result<(), AllocError>
    requires blank { IsBlank plan.old }
    requires living { model.living (seen node.now) owner.now ≡ true }
    requires next { reference.now ≡ reference_of (seen node.now).mint ((seen node.now).mint.references + 1) }
    requires below { (seen node.now).mint.references < 2 ^ 18 - 1 }
    ensures carries { CarriesOut plan.old (seen node.now) (at_work (seen node.now)) → Carries (seen node.now) (monitoring.monitor reference.now owner.now (target_of target.entry) (draw kind.Reference (at_work (seen node.now)))) plan.new result }
    ensures told { (m : TheNode) → told plan.new m ≡ told plan.old m }
{
    plan.draw_reference();
    if reaches(node, target.node()) {
        monitor_reached(alloc, node, plan, owner, target, reference)
    } else {
        monitor_lost(alloc, plan, owner, target, reference)
    }
}

// Plans a monitor of a target under the reference of this count, and answers the reference.
fn monitor_under(
    alloc: Global,
    node: &Node,
    plan: &mut Plan,
    owner: &Pid,
    target: TargetParts<'_>,
    count: u32,
) -> Result<(), AllocError>
    requires blank { IsBlank plan.old }
    requires living { model.living (seen node.now) owner.now ≡ true }
    requires next { count ≡ (seen node.now).mint.references + 1 }
    requires below { (seen node.now).mint.references < 2 ^ 18 - 1 }
    ensures carries { CarriesOut plan.old (seen node.now) (at_work (seen node.now)) → Carries (seen node.now) (monitoring.monitor (reference_of (seen node.now).mint count) owner.now (target_of target.entry) (draw kind.Reference (at_work (seen node.now)))) plan.new result }
    ensures told { OnOk result (told plan.new (seen node.now) ≡ answer.Reference (reference_of (seen node.now).mint count)) }
{
    let reference = node.mint().reference(count)?;
    let told = copied(&reference)?;
    plan.answers(Answer::Reference(told));
    monitor_as(alloc, node, plan, owner, target, &reference)
}

/// Plans that a process monitors another.
pub(crate) fn monitor(
    alloc: Global,
    node: &Node,
    plan: &mut Plan,
    owner: &Pid,
    target: &Pid,
) -> Result<(), Refusal>
    requires blank { IsBlank plan.old }
    requires carries { CarriesOut plan.old (seen node.now) (at_work (seen node.now)) }
    ensures { Plans (seen node.now) (call (seen node.now) (command.Monitor owner.now target.now)) plan.new result }
{
    acts(node, owner)?;
    aims_at(node, target)?;
    let count = node.mint().peek_reference()?;
    let target = TargetParts::Pid(target);
    or_refuse(monitor_under(alloc, node, plan, owner, target, count))
}

/// Plans that a process monitors the one that has a name at a node.
pub(crate) fn monitor_name(
    alloc: Global,
    node: &Node,
    plan: &mut Plan,
    owner: &Pid,
    target: &NodeName,
    name: &Atom,
) -> Result<(), Refusal>
    requires blank { IsBlank plan.old }
    requires carries { CarriesOut plan.old (seen node.now) (at_work (seen node.now)) }
    ensures { Plans (seen node.now) (call (seen node.now) (command.MonitorName owner.now target.now name.now)) plan.new result }
{
    let at = target.atom();
    acts(node, owner)?;
    offers(node, at)?;
    let count = node.mint().peek_reference()?;
    let target = TargetParts::Name { name, node: at };
    or_refuse(monitor_under(alloc, node, plan, owner, target, count))
}

// Takes back a monitor of the process.
fn demonitor_own(
    alloc: Global,
    node: &Node,
    plan: &mut Plan,
    owner: &Pid,
    target: TargetParts<'_>,
    reference: &Reference,
) -> Result<(), AllocError>
    requires { IsBlank plan.old }
    ensures carries { (work : Work) → CarriesOut plan.old (seen node.now) work → Carries (seen node.now) (post (taken_back owner.now (target_of target.entry) reference.now) (monitoring.unwatch reference.now work)) plan.new result }
    ensures told { (m : TheNode) → told plan.new m ≡ told plan.old m }
{
    plan.unwatch(copied(reference)?);
    plan.tell_demonitor(alloc, node, owner, target, reference)
}

/// Plans that a process takes a monitor back.
pub(crate) fn demonitor(
    alloc: Global,
    node: &Node,
    plan: &mut Plan,
    owner: &Pid,
    reference: &Reference,
) -> Result<(), Refusal>
    requires blank { IsBlank plan.old }
    requires told { told plan.old (seen node.now) ≡ answer.Done }
    requires carries { CarriesOut plan.old (seen node.now) (at_work (seen node.now)) }
    ensures { Plans (seen node.now) (call (seen node.now) (command.Demonitor owner.now reference.now)) plan.new result }
{
    acts(node, owner)?;
    let Some(watch) = node.watches().get(reference) else {
        return Err(Refusal::NotTheOwner);
    };
    if !same_pid(&watch.owner, owner) {
        return Err(Refusal::NotTheOwner);
    }
    let target = TargetParts::of(&watch.target);
    or_refuse(demonitor_own(alloc, node, plan, owner, target, reference))
}
