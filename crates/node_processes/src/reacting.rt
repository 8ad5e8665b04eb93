//! An exit signal comes to a process, and what it does to it.
ghost use Rattle.std.specs.Prelude.{◌≡◌, true, IfOk};
ghost use Rattle.dist_model.specs.Exits.{carry_out, link_exit, other_exit};
ghost use Rattle.dist_model.specs.Node.{Node as TheNode, living, traps};
ghost use Rattle.dist_model.specs.Work.{Work, put, set_end};
ghost use Rattle.erl_control.specs.Fits.{fits};
ghost use Rattle.exit_core.specs.Reaction.{reaction};
ghost use Rattle.link_core.specs.News.{noconnection, noproc};
ghost use Rattle.link_core.specs.declared.end.End.TheVariants as the_end;
ghost use Rattle.node_plan.specs.Parts.{link_in};
ghost use Rattle.node_plan.specs.Carried.{Carries, CarriesOut, IsBlank, IsFree};
ghost use Rattle.node_processes.specs.Exiting.{FitsWhereEnds, OnlyExits};
ghost use Rattle.node_plan.specs.Plans.{told};
ghost use Rattle.node_plan.specs.Seen.{seen};
ghost use Rattle.node_plan.specs.declared.change.Change.TheVariants as the_change;
ghost use Rattle.node_plan.specs.declared.change.LinkChange.TheVariants as link;
ghost use Rattle.node_plan.specs.declared.change.MonitorChange.TheVariants as monitor;
ghost use Rattle.node_tables.specs.declared.end_change.EndChange.TheVariants as end;

use crate::ending::finish;
use erl_term::{Payload, Pid};
use exit_core::{ExitSignal, Reaction, named};
use node_frames::same_pid;
use node_plan::{Node, Plan};
use node_tables::{EndChange, Life};
use std::alloc::{AllocError, Global};

/// The reason noproc: there is no such process. (Reference Manual, Processes, Links and Monitors.)
///
/// # Errors
/// Where there is no memory for it.
pub fn no_process(alloc: Global) -> Result<Payload, AllocError>
    ensures { IfOk result (λ p. p ≡ noproc) }
{
    named(alloc, "noproc")
}

/// The reason noconnection: the node isn't reached. (Reference Manual, Processes, Links and
/// Monitors.)
///
/// # Errors
/// Where there is no memory for it.
pub fn no_connection(alloc: Global) -> Result<Payload, AllocError>
    ensures { IfOk result (λ p. p ≡ noconnection) }
{
    named(alloc, "noconnection")
}

// What an exit signal does to a process that is living.
fn react(
    alloc: Global,
    node: &Node,
    process: &Pid,
    signal: ExitSignal,
) -> Result<Reaction, AllocError>
    requires { living (seen node.now) process.now ≡ true }
    ensures { IfOk result (λ r. r ≡ reaction (traps (seen node.now) process.now) signal) }
{
    match node.life(process) {
        Some(Life::Living { process, .. }) => process.react(alloc, signal),
        _ => unreachable!(),
    }
}

/// The exit signal of its active link with a partner comes to a process: the link is gone.
/// (Reference Manual, Processes, Links; ERTS User's Guide, Distribution Protocol, EXIT.)
///
/// # Errors
/// Where there is no memory for it.
pub fn link_exit(
    plan: &mut Plan,
    alloc: Global,
    node: &Node,
    process: &Pid,
    partner: &Pid,
    reason: Payload,
) -> Result<(), AllocError>
    requires fits { fits reason ≡ true }
    requires free { IsFree plan.old.change process.now }
    requires gone { link_in plan.old.change ≡ link.Becomes partner.now end.Exits }
    requires watches { plan.old.watches ≡ monitor.Stays }
    requires watchers { plan.old.watchers ≡ monitor.Stays }
    requires living { living (seen node.now) process.now ≡ true }
    ensures carries { (work : Work) → CarriesOut plan.old (seen node.now) work → Carries (seen node.now) (link_exit process.now partner.now reason work) plan.new result }
    ensures answer { plan.new.answer ≡ plan.old.answer }
    ensures told { (m : TheNode) → told plan.new m ≡ told plan.old m }
    ensures watches { plan.new.watches ≡ plan.old.watches }
    ensures watchers { plan.new.watchers ≡ plan.old.watchers }
{
    plan.reacted(alloc, process, partner, &reason)?;
    let signal = ExitSignal {
        sender: partner.clone()?,
        reason,
        link: true,
        is_active: true,
        is_own: same_pid(partner, process),
    };
    let reaction = react(alloc, node, process, signal)?;
    carry_out(plan, alloc, node, process, reaction)
}

/// A link that is active breaks, and its process gets the exit signal noconnection. (Reference Manual,
/// Processes, Links.)
///
/// # Errors
/// Where there is no memory for it.
pub fn break_link(
    alloc: Global,
    node: &Node,
    plan: &mut Plan,
    process: &Pid,
    partner: &Pid,
) -> Result<(), AllocError>
    requires blank { IsBlank plan.old }
    requires living { living (seen node.now) process.now ≡ true }
    ensures carries { (work : Work) → CarriesOut plan.old (seen node.now) work →
        Carries (seen node.now) (link_exit process.now partner.now noconnection (set_end process.now partner.now the_end.None work)) plan.new result }
    ensures told { (m : TheNode) → told plan.new m ≡ told plan.old m }
{
    let reason = no_connection(alloc)?;
    plan.change_end(process, partner, EndChange::Exits)?;
    link_exit(plan, alloc, node, process, partner, reason)
}

/// An exit signal comes to a process as another, or it itself, sent it. (Reference Manual,
/// Processes, Sending Exit Signals; ERTS User's Guide, Distribution Protocol, EXIT2.)
///
/// # Errors
/// Where there is no memory for it.
pub fn other_exit(
    plan: &mut Plan,
    alloc: Global,
    node: &Node,
    process: &Pid,
    sender: &Pid,
    reason: Payload,
) -> Result<(), AllocError>
    requires fits { fits reason ≡ true }
    requires none { plan.old.change ≡ the_change.None }
    requires watches { plan.old.watches ≡ monitor.Stays }
    requires watchers { plan.old.watchers ≡ monitor.Stays }
    requires living { living (seen node.now) process.now ≡ true }
    ensures carries { (work : Work) → CarriesOut plan.old (seen node.now) work → Carries (seen node.now) (other_exit process.now sender.now reason work) plan.new result }
    ensures answer { plan.new.answer ≡ plan.old.answer }
    ensures told { (m : TheNode) → told plan.new m ≡ told plan.old m }
    ensures watches { plan.new.watches ≡ plan.old.watches }
    ensures watchers { plan.new.watchers ≡ plan.old.watchers }
{
    let signal = ExitSignal {
        sender: sender.clone()?,
        reason,
        link: false,
        is_active: false,
        is_own: same_pid(sender, process),
    };
    let reaction = react(alloc, node, process, signal)?;
    carry_out(plan, alloc, node, process, reaction)
}

// A process does as it reacts.
fn carry_out(
    plan: &mut Plan,
    alloc: Global,
    node: &Node,
    process: &Pid,
    reaction: Reaction,
) -> Result<(), AllocError>
    requires fits { FitsWhereEnds reaction }
    requires free { IsFree plan.old.change process.now }
    requires link { OnlyExits (link_in plan.old.change) }
    requires watches { plan.old.watches ≡ monitor.Stays }
    requires watchers { plan.old.watchers ≡ monitor.Stays }
    requires living { living (seen node.now) process.now ≡ true }
    ensures carries { (work : Work) → CarriesOut plan.old (seen node.now) work → Carries (seen node.now) (carry_out reaction process.now work) plan.new result }
    ensures answer { plan.new.answer ≡ plan.old.answer }
    ensures told { (m : TheNode) → told plan.new m ≡ told plan.old m }
    ensures watches { plan.new.watches ≡ plan.old.watches }
    ensures watchers { plan.new.watchers ≡ plan.old.watchers }
{
    match reaction {
        Reaction::Ignore => Ok(()),
        Reaction::Put(message) => plan.put(alloc, process, message),
        Reaction::End(reason) => finish(plan, alloc, node, process, reason),
    }
}
