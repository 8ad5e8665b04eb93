//! The commands of a process that concern no link and no monitor.
ghost use Rattle.std.specs.Prelude.{◌≡◌, true, IfOk};
ghost use Rattle.dist_model.specs.Calls.{call};
ghost use Rattle.dist_model.specs.Node.{Node as TheNode, ends_of};
ghost use Rattle.dist_model.specs.Work.{Work, at_work, post, to_pid};
ghost use Rattle.dist_model.specs.declared.command.Command.TheVariants as command;
ghost use Rattle.dist_model.specs.declared.report.Answer.TheVariants as answer;
ghost use Rattle.erl_control.specs.declared.signal.Signal.TheVariants as signal;
ghost use Rattle.node_frames.specs.Sendable.{is_sendable};
ghost use Rattle.node_plan.specs.Planned.{Plans};
ghost use Rattle.node_plan.specs.Carried.{Carries, CarriesOut, IsBlank};
ghost use Rattle.node_plan.specs.Plans.{told};
ghost use Rattle.node_plan.specs.Seen.{seen};

use crate::acting::{acts, aims_at, fits_in};
use crate::ending::finish;
use dist_model::{Answer, Links};
use erl_control::Signal;
use erl_names::NodeName;
use erl_term::{Atom, Payload, Pid, Refusal};
use node_plan::{Node, Plan, or_refuse};
use std::alloc::{AllocError, Global};

/// Plans to spawn a process.
pub(crate) fn spawn(node: &Node, plan: &mut Plan) -> Result<(), Refusal>
    requires up { (seen node.now).up ≡ true }
    requires blank { IsBlank plan.old }
    requires carries { CarriesOut plan.old (seen node.now) (at_work (seen node.now)) }
    ensures { Plans (seen node.now) (call (seen node.now) command.Spawn) plan.new result }
{
    let id = node.mint().peek_pid()?;
    let process = match node.mint().pid(id) {
        Ok(process) => process,
        Err(_) => return Err(Refusal::OutOfMemory),
    };
    plan.answers(Answer::Pid(process));
    plan.spawn();
    Ok(())
}

// Posts SEND to the node of its receiver.
fn post_message(
    alloc: Global,
    node: &Node,
    plan: &mut Plan,
    to: Pid,
    message: Payload,
) -> Result<(), AllocError>
    requires { is_sendable (signal.Send to message) ≡ true }
    ensures carries { (work : Work) → CarriesOut plan.old (seen node.now) work → Carries (seen node.now) (post (to_pid to (signal.Send to message)) work) plan.new result }
    ensures told { (m : TheNode) → told plan.new m ≡ told plan.old m }
{
    let target = to.node.clone()?;
    plan.post(alloc, node, &target, Signal::Send { to, message })
}

// Posts EXIT2 to the node of its receiver.
fn post_exit2(
    alloc: Global,
    node: &Node,
    plan: &mut Plan,
    from: Pid,
    to: Pid,
    reason: Payload,
) -> Result<(), AllocError>
    requires { is_sendable (signal.Exit2 from to reason) ≡ true }
    ensures carries { (work : Work) → CarriesOut plan.old (seen node.now) work → Carries (seen node.now) (post (to_pid to (signal.Exit2 from to reason)) work) plan.new result }
    ensures told { (m : TheNode) → told plan.new m ≡ told plan.old m }
{
    let target = to.node.clone()?;
    plan.post(alloc, node, &target, Signal::Exit2 { from, to, reason })
}

/// Plans to send a message from a process to another.
pub(crate) fn send(
    alloc: Global,
    node: &Node,
    plan: &mut Plan,
    from: &Pid,
    to: Pid,
    message: Payload,
) -> Result<(), Refusal>
    requires told { told plan.old (seen node.now) ≡ answer.Done }
    requires carries { CarriesOut plan.old (seen node.now) (at_work (seen node.now)) }
    ensures { Plans (seen node.now) (call (seen node.now) (command.Send from.now to message)) plan.new result }
{
    acts(node, from)?;
    aims_at(node, &to)?;
    fits_in(&message)?;
    or_refuse(post_message(alloc, node, plan, to, message))
}

/// Plans to send a message from a process to the process that has a name at a node.
pub(crate) fn send_name(
    alloc: Global,
    node: &Node,
    plan: &mut Plan,
    from: Pid,
    target: &NodeName,
    name: Atom,
    message: Payload,
) -> Result<(), Refusal>
    requires told { told plan.old (seen node.now) ≡ answer.Done }
    requires carries { CarriesOut plan.old (seen node.now) (at_work (seen node.now)) }
    ensures { Plans (seen node.now) (call (seen node.now) (command.SendName from target.now name message)) plan.new result }
{
    acts(node, &from)?;
    fits_in(&message)?;
    let signal = Signal::RegSend {
        from,
        name,
        message,
    };
    or_refuse(plan.post(alloc, node, target.atom(), signal))
}

/// Plans to send an exit signal from a process to another.
pub(crate) fn exit_to(
    alloc: Global,
    node: &Node,
    plan: &mut Plan,
    from: Pid,
    to: Pid,
    reason: Payload,
) -> Result<(), Refusal>
    requires told { told plan.old (seen node.now) ≡ answer.Done }
    requires carries { CarriesOut plan.old (seen node.now) (at_work (seen node.now)) }
    ensures { Plans (seen node.now) (call (seen node.now) (command.ExitTo from to reason)) plan.new result }
{
    acts(node, &from)?;
    aims_at(node, &to)?;
    fits_in(&reason)?;
    or_refuse(post_exit2(alloc, node, plan, from, to, reason))
}

/// Plans that a process traps exits from now on, or doesn't.
pub(crate) fn trap(node: &Node, plan: &mut Plan, process: Pid, on: bool) -> Result<(), Refusal>
    requires blank { IsBlank plan.old }
    requires told { told plan.old (seen node.now) ≡ answer.Done }
    requires carries { CarriesOut plan.old (seen node.now) (at_work (seen node.now)) }
    ensures { Plans (seen node.now) (call (seen node.now) (command.Trap process on)) plan.new result }
{
    acts(node, &process)?;
    plan.trap(process, on);
    Ok(())
}

/// Plans to take the oldest message of a process out of its mailbox.
pub(crate) fn receive(node: &Node, plan: &mut Plan, process: Pid) -> Result<(), Refusal>
    requires blank { IsBlank plan.old }
    requires carries { CarriesOut plan.old (seen node.now) (at_work (seen node.now)) }
    ensures { Plans (seen node.now) (call (seen node.now) (command.Receive process)) plan.new result }
{
    acts(node, &process)?;
    plan.take_first(process);
    Ok(())
}

/// Plans the answer of true if a process is living.
pub(crate) fn is_alive(node: &Node, plan: &mut Plan, process: &Pid) -> Result<(), Refusal>
    requires blank { IsBlank plan.old }
    requires carries { CarriesOut plan.old (seen node.now) (at_work (seen node.now)) }
    ensures { Plans (seen node.now) (call (seen node.now) (command.IsAlive process.now)) plan.new result }
{
    plan.answers(Answer::Alive(node.is_living(process)));
    Ok(())
}

/// Plans the end of a process.
pub(crate) fn exit_self(
    alloc: Global,
    node: &Node,
    plan: &mut Plan,
    process: &Pid,
    reason: Payload,
) -> Result<(), Refusal>
    requires blank { IsBlank plan.old }
    requires told { told plan.old (seen node.now) ≡ answer.Done }
    requires carries { CarriesOut plan.old (seen node.now) (at_work (seen node.now)) }
    ensures { Plans (seen node.now) (call (seen node.now) (command.ExitSelf process.now reason)) plan.new result }
{
    acts(node, process)?;
    fits_in(&reason)?;
    or_refuse(finish(plan, alloc, node, process, reason))
}

// Returns copies of the links of a process.
fn copied_links(alloc: Global, node: &Node, process: &Pid) -> Result<Links, AllocError>
    ensures { IfOk result (λ told. told ≡ ends_of (seen node.now) process.now) }
{
    let mut entries = Vec::new(alloc);
    let mut behind: Option<&Pid> = None;
    while let Some((partner, end)) = node.next_link(process, behind) {
        entries.push((partner.clone()?, *end))?;
        behind = Some(partner);
    }
    Ok(Links { entries })
}

/// Plans the answer of the links of a process.
pub(crate) fn links_of(
    alloc: Global,
    node: &Node,
    plan: &mut Plan,
    process: &Pid,
) -> Result<(), Refusal>
    requires blank { IsBlank plan.old }
    requires carries { CarriesOut plan.old (seen node.now) (at_work (seen node.now)) }
    ensures { Plans (seen node.now) (call (seen node.now) (command.LinksOf process.now)) plan.new result }
{
    acts(node, process)?;
    match copied_links(alloc, node, process) {
        Ok(links) => {
            plan.answers(Answer::Links(links));
            Ok(())
        }
        Err(_) => Err(Refusal::OutOfMemory),
    }
}
