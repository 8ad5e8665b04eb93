//! The plan of a caller's command.
ghost use Rattle.std.specs.Prelude.{◌≡◌, true};
ghost use Rattle.dist_model.specs.Calls.{call};
ghost use Rattle.dist_model.specs.Work.{at_work};
ghost use Rattle.dist_model.specs.declared.report.Answer.TheVariants as answer;
ghost use Rattle.node_plan.specs.Carried.{CarriesOut, IsBlank};
ghost use Rattle.node_plan.specs.Planned.{Plans};
ghost use Rattle.node_plan.specs.Plans.{told};
ghost use Rattle.node_plan.specs.Seen.{seen};

use crate::commands::{
    exit_self, exit_to, is_alive, links_of, receive, send, send_name, spawn, trap,
};
use crate::linking::{link, unlink};
use crate::monitoring::{demonitor, monitor, monitor_name};
use crate::naming::{register, unregister, where_is};
use dist_model::Command;
use erl_term::Refusal;
use node_plan::{Node, Plan};
use std::alloc::Global;

/// Plans `command` at a node that runs. (Reference Manual, Processes.)
///
/// # Errors
/// The refusal of the model, if it refuses the command. Otherwise [`Refusal::OutOfMemory`] if out of memory.
pub fn obey(alloc: Global, node: &Node, plan: &mut Plan, command: Command) -> Result<(), Refusal>
    requires up { (seen node.now).up ≡ true }
    requires blank { IsBlank plan.old }
    requires told { told plan.old (seen node.now) ≡ answer.Done }
    requires carries { CarriesOut plan.old (seen node.now) (at_work (seen node.now)) }
    ensures { Plans (seen node.now) (call (seen node.now) command) plan.new result }
{
    match command {
        Command::Spawn => spawn(node, plan),
        Command::Send { from, to, message } => send(alloc, node, plan, &from, to, message),
        Command::SendName {
            from,
            node: target,
            name,
            message,
        } => send_name(alloc, node, plan, from, &target, name, message),
        Command::Link { from, to } => link(alloc, node, plan, &from, &to),
        Command::Unlink { from, to } => unlink(alloc, node, plan, &from, &to),
        Command::Monitor { owner, target } => monitor(alloc, node, plan, &owner, &target),
        Command::MonitorName {
            owner,
            node: target,
            name,
        } => monitor_name(alloc, node, plan, &owner, &target, &name),
        Command::Demonitor { owner, reference } => demonitor(alloc, node, plan, &owner, &reference),
        Command::Trap { process, on } => trap(node, plan, process, on),
        Command::ExitTo { from, to, reason } => exit_to(alloc, node, plan, from, to, reason),
        Command::ExitSelf { process, reason } => exit_self(alloc, node, plan, &process, reason),
        Command::Receive { process } => receive(node, plan, process),
        Command::LinksOf { process } => links_of(alloc, node, plan, &process),
        Command::IsAlive { process } => is_alive(node, plan, &process),
        Command::Register { process, name } => register(node, plan, &process, &name),
        Command::Unregister { process } => unregister(node, plan, process),
        Command::WhereIs { name } => where_is(node, plan, &name),
    }
}
