//! The delivery of a signal to its process, and of the first signal of the own list.
ghost use Rattle.std.specs.Prelude.{◌≡◌, true, false, List, ◌∷◌};
ghost use Rattle.dist_model.specs.Arrivals.{take_local};
ghost use Rattle.dist_model.specs.Items.{Item as TheItem, Signalled, kind_of};
ghost use Rattle.dist_model.specs.Node.{Node as TheNode};
ghost use Rattle.dist_model.specs.Taking.{take};
ghost use Rattle.dist_model.specs.Work.{Work, at_work};
ghost use Rattle.node_plan.specs.Carried.{Carries, CarriesOut, IsBlank};
ghost use Rattle.node_frames.specs.Sendable.{is_sendable};
ghost use Rattle.node_plan.specs.Planned.{Plans};
ghost use Rattle.node_plan.specs.Plans.{told};
ghost use Rattle.node_plan.specs.Seen.{seen};

use crate::taking::{take_exit, take_exit2, take_message, take_named, take_news};
use crate::taking_monitors::{
    take_demonitor, take_demonitor_name, take_monitor, take_monitor_exit, take_monitor_name,
};
use dist_model::{Answer, Kind};
use erl_control::Signal;
use erl_term::{Atom, Refusal};
use link_core::LinkSignal;
use node_plan::{Node, Plan, TargetParts, or_refuse};
use std::alloc::{AllocError, Global};

/// Returns the kind of a signal.
pub fn kind(signal: &Signal) -> Kind
    ensures { result ≡ kind_of (Signalled signal.now false) }
{
    match signal {
        Signal::Link { .. } => Kind::Link,
        Signal::Send { .. } => Kind::Send,
        Signal::RegSend { .. } => Kind::RegSend,
        Signal::Exit { .. } => Kind::Exit,
        Signal::Exit2 { .. } => Kind::Exit2,
        Signal::Monitor { .. } => Kind::Monitor,
        Signal::MonitorName { .. } => Kind::Monitor,
        Signal::Demonitor { .. } => Kind::Demonitor,
        Signal::DemonitorName { .. } => Kind::Demonitor,
        Signal::MonitorExit { .. } => Kind::MonitorExit,
        Signal::MonitorNameExit { .. } => Kind::MonitorExit,
        Signal::UnlinkId { .. } => Kind::Unlink,
        Signal::UnlinkIdAck { .. } => Kind::UnlinkAck,
    }
}

/// Takes a signal from the node `source` to the process that it names, or to the process that has the name. A name
/// in MONITOR_P_EXIT is one of the source. (ERTS User's Guide, Distribution Protocol, Protocol between Connected
/// Nodes.)
///
/// # Errors
/// [`AllocError`] if out of memory.
pub fn take(
    alloc: Global,
    node: &Node,
    plan: &mut Plan,
    source: &Atom,
    signal: &Signal,
) -> Result<(), AllocError>
    requires blank { IsBlank plan.old }
    requires sendable { is_sendable signal.now ≡ true }
    ensures carries { (work : Work) → CarriesOut plan.old (seen node.now) work → Carries (seen node.now) (take source.now signal.now work) plan.new result }
    ensures told { (m : TheNode) → told plan.new m ≡ told plan.old m }
{
    match signal {
        Signal::Link { from, to } => take_news(alloc, node, plan, to, from, LinkSignal::Link),
        Signal::Send { to, message } => take_message(alloc, node, plan, to, message),
        Signal::RegSend { name, message, .. } => take_named(alloc, node, plan, name, message),
        Signal::Exit { from, to, reason } => take_exit(alloc, node, plan, to, from, reason),
        Signal::Exit2 { from, to, reason } => take_exit2(alloc, node, plan, to, from, reason),
        Signal::Monitor {
            from,
            to,
            reference,
        } => take_monitor(alloc, node, plan, from, to, reference),
        Signal::MonitorName {
            from,
            name,
            reference,
        } => take_monitor_name(alloc, node, plan, from, name, reference),
        Signal::Demonitor {
            from,
            to,
            reference,
        } => take_demonitor(node, plan, from, TargetParts::Pid(to), reference),
        Signal::DemonitorName {
            from,
            name,
            reference,
        } => take_demonitor_name(node, plan, from, name, reference),
        Signal::MonitorExit {
            from,
            to,
            reference,
            reason,
        } => {
            let target = TargetParts::Pid(from);
            take_monitor_exit(alloc, node, plan, to, target, reference, reason)
        }
        Signal::MonitorNameExit {
            name,
            to,
            reference,
            reason,
        } => {
            let target = TargetParts::Name { name, node: source };
            take_monitor_exit(alloc, node, plan, to, target, reference, reason)
        }
        Signal::UnlinkId { id, from, to } => {
            take_news(alloc, node, plan, to, from, LinkSignal::Unlink(*id))
        }
        Signal::UnlinkIdAck { id, from, to } => {
            take_news(alloc, node, plan, to, from, LinkSignal::Ack(*id))
        }
    }
}

/// Takes the first signal of the own list.
pub fn take_first(alloc: Global, node: &Node, plan: &mut Plan) -> Result<(), Refusal>
    requires blank { IsBlank plan.old }
    requires taken { (first : TheItem) (rest : List TheItem) → (seen node.now).local ≡ first ∷ rest → CarriesOut plan.old (seen node.now) (at_work (record (seen node.now) { local = rest })) }
    ensures { Plans (seen node.now) (take_local (seen node.now) (seen node.now).local) plan.new result }
{
    let Some(signal) = node.first_local() else {
        return Err(Refusal::NothingThere);
    };
    plan.answers(Answer::Took(kind(signal)));
    or_refuse(take(alloc, node, plan, node.name().atom(), signal))
}
