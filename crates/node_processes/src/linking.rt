//! A process links itself to another, and takes its link back.
ghost use Rattle.std.specs.Prelude.{◌≡◌, ◌≤◌, true};
ghost use Rattle.dist_model.specs.Calls.{call};
ghost use Rattle.dist_model.specs.Linking as linking;
ghost use Rattle.dist_model.specs.Node as model;
ghost use Rattle.dist_model.specs.Node.{Node as TheNode};
ghost use Rattle.dist_model.specs.Work.{Work, at_work};
ghost use Rattle.dist_model.specs.declared.command.Command.TheVariants as command;
ghost use Rattle.dist_model.specs.declared.report.Answer.TheVariants as answer;
ghost use Rattle.erl_names.specs.Draw as kind;
ghost use Rattle.link_core.specs.Table.{is_active};
ghost use Rattle.node_plan.specs.Planned.{Plans};
ghost use Rattle.node_plan.specs.Carried.{Carries, CarriesOut, IsBlank};
ghost use Rattle.node_plan.specs.Plans.{told};
ghost use Rattle.node_plan.specs.Seen.{seen};
ghost use Rattle.node_plan.specs.declared.change.Change.TheVariants as change;

use crate::acting::{acts, aims_at, reaches};
use crate::ending::is_active;
use crate::reacting::break_link;
use erl_term::{Pid, Refusal};
use link_core::LinkSignal;
use node_frames::same_pid;
use node_plan::{Node, Plan, or_refuse};
use node_tables::EndChange;
use std::alloc::{AllocError, Global};

// It links itself to a process of a node that is reached.
fn link_reached(
    alloc: Global,
    node: &Node,
    plan: &mut Plan,
    process: &Pid,
    partner: &Pid,
) -> Result<(), AllocError>
    requires none { plan.old.change ≡ change.None }
    requires living { model.living (seen node.now) process.now ≡ true }
    ensures carries { (work : Work) → CarriesOut plan.old (seen node.now) work → Carries (seen node.now) (linking.link_new true process.now partner.now work) plan.new result }
    ensures told { (m : TheNode) → told plan.new m ≡ told plan.old m }
{
    plan.change_end(process, partner, EndChange::Links)?;
    plan.tell(alloc, node, process, partner, LinkSignal::Link)
}

// It links itself to a process to which it isn't linked.
fn link_new(
    alloc: Global,
    node: &Node,
    plan: &mut Plan,
    process: &Pid,
    partner: &Pid,
) -> Result<(), AllocError>
    requires blank { IsBlank plan.old }
    requires living { model.living (seen node.now) process.now ≡ true }
    ensures carries { (work : Work) → CarriesOut plan.old (seen node.now) work → Carries (seen node.now) (linking.link_new (model.reaches (seen node.now) partner.now.node) process.now partner.now work) plan.new result }
    ensures told { (m : TheNode) → told plan.new m ≡ told plan.old m }
{
    if reaches(node, &partner.node) {
        link_reached(alloc, node, plan, process, partner)
    } else {
        break_link(alloc, node, plan, process, partner)
    }
}

/// A process links itself to another.
pub(crate) fn link(
    alloc: Global,
    node: &Node,
    plan: &mut Plan,
    process: &Pid,
    partner: &Pid,
) -> Result<(), Refusal>
    requires blank { IsBlank plan.old }
    requires told { told plan.old (seen node.now) ≡ answer.Done }
    requires carries { CarriesOut plan.old (seen node.now) (at_work (seen node.now)) }
    ensures { Plans (seen node.now) (call (seen node.now) (command.Link process.now partner.now)) plan.new result }
{
    acts(node, process)?;
    aims_at(node, partner)?;
    if same_pid(process, partner) || is_active(node.end(process, partner)) {
        return Ok(());
    }
    or_refuse(link_new(alloc, node, plan, process, partner))
}

// It takes a link back that is active, under the next unlink id.
fn unlink_as(
    alloc: Global,
    node: &Node,
    plan: &mut Plan,
    id: u64,
    process: &Pid,
    partner: &Pid,
) -> Result<(), AllocError>
    requires blank { IsBlank plan.old }
    requires id { 1 ≤ id }
    requires living { model.living (seen node.now) process.now ≡ true }
    requires active { is_active (model.end_of (seen node.now) process.now partner.now) ≡ true }
    ensures carries { (work : Work) → CarriesOut plan.old (seen node.now) work → Carries (seen node.now) (linking.unlink_as id process.now partner.now work) plan.new result }
    ensures told { (m : TheNode) → told plan.new m ≡ told plan.old m }
{
    plan.draw_unlink_id();
    plan.change_end(process, partner, EndChange::Unlinks(id))?;
    plan.tell(alloc, node, process, partner, LinkSignal::Unlink(id))
}

/// A process takes its link to another back.
pub(crate) fn unlink(
    alloc: Global,
    node: &Node,
    plan: &mut Plan,
    process: &Pid,
    partner: &Pid,
) -> Result<(), Refusal>
    requires blank { IsBlank plan.old }
    requires told { told plan.old (seen node.now) ≡ answer.Done }
    requires carries { CarriesOut plan.old (seen node.now) (at_work (seen node.now)) }
    ensures { Plans (seen node.now) (call (seen node.now) (command.Unlink process.now partner.now)) plan.new result }
{
    acts(node, process)?;
    aims_at(node, partner)?;
    if !is_active(node.end(process, partner)) {
        return Ok(());
    }
    let id = node.mint().peek_unlink_id()?;
    or_refuse(unlink_as(alloc, node, plan, id, process, partner))
}
