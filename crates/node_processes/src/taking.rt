//! The delivery of a signal to the process that it names, or to the holder of a name.
ghost use Rattle.std.specs.Prelude.{◌≡◌, true, false, IfOk};
ghost use Rattle.dist_model.specs.Linking.{take_link, take_link_by};
ghost use Rattle.dist_model.specs.Exits.{link_exit};
ghost use Rattle.dist_model.specs.Items.{telling};
ghost use Rattle.dist_model.specs.Node as model;
ghost use Rattle.dist_model.specs.Node.{Node as TheNode};
ghost use Rattle.dist_model.specs.Taking.{take};
ghost use Rattle.dist_model.specs.Names.{Name};
ghost use Rattle.dist_model.specs.Work.{Work, post, set_end, to_pid};
ghost use Rattle.link_core.specs.News.{Exited, Signals, noproc};
ghost use Rattle.link_core.specs.declared.end.End.TheVariants as end;
ghost use Rattle.erl_control.specs.declared.signal.Signal.TheVariants as signal;
ghost use Rattle.erl_control.specs.Fits.{fits};
ghost use Rattle.erl_term.specs.declared.term.Pid.{Pid as ThePid};
ghost use Rattle.node_plan.specs.Carried.{Carries, CarriesOut, IsBlank};
ghost use Rattle.node_frames.specs.Sendable.{is_sendable};
ghost use Rattle.node_plan.specs.Plans.{told};
ghost use Rattle.node_plan.specs.Seen.{seen};

use crate::ending::is_active;
use crate::reacting::{link_exit, no_process, other_exit};
use erl_control::Signal;
use erl_term::{Atom, Payload, Pid};
use exit_core::down_message;
use link_core::LinkSignal;
use node_plan::{Node, Plan};
use node_tables::EndChange;
use std::alloc::{AllocError, Global};

// Takes SEND to a process.
pub(crate) fn take_message(
    alloc: Global,
    node: &Node,
    plan: &mut Plan,
    to: &Pid,
    message: &Payload,
) -> Result<(), AllocError>
    requires { IsBlank plan.old }
    ensures carries { (source : Name) (work : Work) → CarriesOut plan.old (seen node.now) work → Carries (seen node.now) (take source (signal.Send to.now message.now) work) plan.new result }
    ensures told { (m : TheNode) → told plan.new m ≡ told plan.old m }
{
    if !node.is_living(to) {
        return Ok(());
    }
    plan.put(alloc, to, message.copy(alloc)?)
}

// Takes REG_SEND to the process that has a name.
pub(crate) fn take_named(
    alloc: Global,
    node: &Node,
    plan: &mut Plan,
    name: &Atom,
    message: &Payload,
) -> Result<(), AllocError>
    requires { IsBlank plan.old }
    ensures carries { (source : Name) (from : ThePid) (work : Work) → CarriesOut plan.old (seen node.now) work → Carries (seen node.now) (take source (signal.RegSend from name.now message.now) work) plan.new result }
    ensures told { (m : TheNode) → told plan.new m ≡ told plan.old m }
{
    match node.holder(name) {
        Some(process) => take_message(alloc, node, plan, process, message),
        None => Ok(()),
    }
}

// Takes a signal of the New Link Protocol to a living process.
fn take_at_living(
    alloc: Global,
    node: &Node,
    plan: &mut Plan,
    to: &Pid,
    from: &Pid,
    news: LinkSignal,
) -> Result<(), AllocError>
    requires blank { IsBlank plan.old }
    requires sendable { is_sendable (telling from.now to.now (Signals news)) ≡ true }
    requires living { model.living (seen node.now) to.now ≡ true }
    ensures carries { (work : Work) → CarriesOut plan.old (seen node.now) work → Carries (seen node.now) (take_link_by true to.now from.now (Signals news) work) plan.new result }
    ensures told { (m : TheNode) → told plan.new m ≡ told plan.old m }
{
    plan.change_end(to, from, EndChange::Receives(news))?;
    match news {
        LinkSignal::Unlink(id) => plan.tell(alloc, node, to, from, LinkSignal::Ack(id)),
        LinkSignal::Link => Ok(()),
        LinkSignal::Ack(_) => Ok(()),
    }
}

// Answers LINK to a process that isn't living.
fn tell_no_process(
    alloc: Global,
    node: &Node,
    plan: &mut Plan,
    to: &Pid,
    from: &Pid,
) -> Result<(), AllocError>
    ensures carries { (work : Work) → CarriesOut plan.old (seen node.now) work → Carries (seen node.now) (post (to_pid from.now (signal.Exit to.now from.now noproc)) work) plan.new result }
    ensures told { (m : TheNode) → told plan.new m ≡ told plan.old m }
{
    let reason = no_process(alloc)?;
    plan.post(alloc, node, &from.node, exit_signal(to, from, reason)?)
}

// Returns EXIT of copies of the two pids.
fn exit_signal(from: &Pid, to: &Pid, reason: Payload) -> Result<Signal, AllocError>
    ensures { IfOk result (λ s. s ≡ signal.Exit from.now to.now reason) }
{
    Ok(Signal::Exit {
        from: from.clone()?,
        to: to.clone()?,
        reason,
    })
}

// Takes a signal of the New Link Protocol to a process that isn't living.
fn take_at_none(
    alloc: Global,
    node: &Node,
    plan: &mut Plan,
    to: &Pid,
    from: &Pid,
    news: LinkSignal,
) -> Result<(), AllocError>
    requires { is_sendable (telling from.now to.now (Signals news)) ≡ true }
    ensures carries { (work : Work) → CarriesOut plan.old (seen node.now) work → Carries (seen node.now) (take_link_by false to.now from.now (Signals news) work) plan.new result }
    ensures told { (m : TheNode) → told plan.new m ≡ told plan.old m }
{
    match news {
        LinkSignal::Link => tell_no_process(alloc, node, plan, to, from),
        LinkSignal::Unlink(id) => plan.tell(alloc, node, to, from, LinkSignal::Ack(id)),
        LinkSignal::Ack(_) => Ok(()),
    }
}

// Takes a signal of the New Link Protocol to a process.
pub(crate) fn take_news(
    alloc: Global,
    node: &Node,
    plan: &mut Plan,
    to: &Pid,
    from: &Pid,
    news: LinkSignal,
) -> Result<(), AllocError>
    requires blank { IsBlank plan.old }
    requires sendable { is_sendable (telling from.now to.now (Signals news)) ≡ true }
    ensures carries { (work : Work) → CarriesOut plan.old (seen node.now) work → Carries (seen node.now) (take_link to.now from.now (Signals news) work) plan.new result }
    ensures told { (m : TheNode) → told plan.new m ≡ told plan.old m }
{
    if node.is_living(to) {
        take_at_living(alloc, node, plan, to, from, news)
    } else {
        take_at_none(alloc, node, plan, to, from, news)
    }
}

// Takes the exit of an active link to a process, whose end goes.
fn take_active_exit(
    alloc: Global,
    node: &Node,
    plan: &mut Plan,
    to: &Pid,
    from: &Pid,
    reason: &Payload,
) -> Result<(), AllocError>
    requires blank { IsBlank plan.old }
    requires fits { fits reason.now ≡ true }
    requires living { model.living (seen node.now) to.now ≡ true }
    ensures carries { (work : Work) → CarriesOut plan.old (seen node.now) work → Carries (seen node.now) (link_exit to.now from.now reason.now (set_end to.now from.now end.None work)) plan.new result }
    ensures told { (m : TheNode) → told plan.new m ≡ told plan.old m }
{
    let reason = reason.copy(alloc)?;
    plan.change_end(to, from, EndChange::Exits)?;
    link_exit(plan, alloc, node, to, from, reason)
}

// Takes EXIT to a process.
pub(crate) fn take_exit(
    alloc: Global,
    node: &Node,
    plan: &mut Plan,
    to: &Pid,
    from: &Pid,
    reason: &Payload,
) -> Result<(), AllocError>
    requires blank { IsBlank plan.old }
    requires fits { fits reason.now ≡ true }
    ensures carries { (work : Work) → CarriesOut plan.old (seen node.now) work → Carries (seen node.now) (take_link to.now from.now (Exited reason.now) work) plan.new result }
    ensures told { (m : TheNode) → told plan.new m ≡ told plan.old m }
{
    if !node.is_living(to) {
        return Ok(());
    }
    if is_active(node.end(to, from)) {
        take_active_exit(alloc, node, plan, to, from, reason)
    } else {
        plan.change_end(to, from, EndChange::Exits)
    }
}

// Takes EXIT2 to a process.
pub(crate) fn take_exit2(
    alloc: Global,
    node: &Node,
    plan: &mut Plan,
    to: &Pid,
    from: &Pid,
    reason: &Payload,
) -> Result<(), AllocError>
    requires blank { IsBlank plan.old }
    requires fits { fits reason.now ≡ true }
    ensures carries { (source : Name) (work : Work) → CarriesOut plan.old (seen node.now) work → Carries (seen node.now) (take source (signal.Exit2 from.now to.now reason.now) work) plan.new result }
    ensures told { (m : TheNode) → told plan.new m ≡ told plan.old m }
{
    if !node.is_living(to) {
        return Ok(());
    }
    other_exit(plan, alloc, node, to, from, reason.copy(alloc)?)
}
