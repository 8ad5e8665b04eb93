//! A record is swept, and its side closed once none is left.
ghost use Rattle.std.specs.Prelude.{◌≡◌, None, Some, true, OnOk};
ghost use Rattle.std.specs.FinMap as fm;
ghost use Rattle.dist_model.specs.Losses.{close_if_swept, link_to, sweep_record, watch_to};
ghost use Rattle.dist_model.specs.Losses as model_record;
ghost use Rattle.dist_model.specs.Node.{Node as TheNode};
ghost use Rattle.dist_model.specs.Sides.{is_losing};
ghost use Rattle.dist_model.specs.Work.{Work, at_work};
ghost use Rattle.dist_model.specs.declared.report.Answer.TheVariants as the_answer;
ghost use Rattle.dist_model.specs.declared.report.Swept.TheVariants as the_kind;
ghost use Rattle.node_plan.specs.Carried.{CarriesOut, IsBlank, Makes, MakesOr};
ghost use Rattle.node_plan.specs.Plans.{told};
ghost use Rattle.node_plan.specs.Seen.{seen};
ghost use Rattle.node_tables.specs.Standings.{side_of, state_of};
ghost use Rattle.node_connections.specs.Ahead.{NoneOwnedBefore};
ghost use Rattle.node_connections.specs.Next.{IsNextLink};
ghost use Rattle.node_connections.specs.Records.{has_records, record_of};
ghost use Rattle.node_connections.specs.declared.records.Record.TheVariants as the_record;

use crate::closing::close_side;
use crate::leaving::{link_leaves, registration_leaves, watch_leaves};
use crate::taking::{take_link, take_registration, take_watch};
use conn_core::Side;
use dist_model::{Answer, Swept};
use erl_term::Reference;
use monitor_core::Watch;
use node_plan::{Node, Plan};
use node_tables::FoundLink;
use std::alloc::{AllocError, Global};

// The side is closed unless a record is left.
fn close_unless(
    alloc: Global,
    node: &Node,
    plan: &mut Plan,
    side: &Side,
    left: bool,
) -> Result<(), AllocError>
    requires there { fm.get (seen node.now).sides side.now.trunk ≡ Some (side_of side.now) }
    requires losing { is_losing (state_of side.now.standing) ≡ true }
    ensures makes { (work : Work) → work.node.sides ≡ (seen node.now).sides → left ≡ has_records side.now.peer work.node →
        Makes plan.old (seen node.now) work → MakesOr (seen node.now) (close_if_swept side.now.trunk (side_of side.now) work) plan.new result }
    ensures told { (m : TheNode) → told plan.new m ≡ told plan.old m }
{
    if left {
        Ok(())
    } else {
        close_side(alloc, node, plan, side)
    }
}

/// The first link is swept.
pub(crate) fn clear_link(
    alloc: Global,
    node: &Node,
    plan: &mut Plan,
    side: &Side,
    link: &FoundLink<'_>,
) -> Result<(), AllocError>
    requires blank { IsBlank plan.old }
    requires carries { CarriesOut plan.old (seen node.now) (at_work (seen node.now)) }
    requires there { fm.get (seen node.now).sides side.now.trunk ≡ Some (side_of side.now) }
    requires losing { is_losing (state_of side.now.standing) ≡ true }
    requires next { IsNextLink side.now.peer link.now (seen node.now) }
    ensures makes { let swept = sweep_record (Some (record_of (seen node.now).mint (the_record.Link link.now))) (at_work (seen node.now)) in
        MakesOr (seen node.now) (close_if_swept side.now.trunk (side_of side.now) swept) plan.new result }
    ensures told { OnOk result (told plan.new (seen node.now) ≡ the_answer.Swept the_kind.Link) }
{
    plan.answers(Answer::Swept(Swept::Link));
    let process = node.mint().pid(link.id)?;
    take_link(alloc, node, plan, &process, link.partner, link.end)?;
    let left = link_leaves(node, side.peer.atom(), &process, link);
    close_unless(alloc, node, plan, side, left)
}

/// The first monitor of a process at the peer is swept, where no link is left.
pub(crate) fn clear_watch(
    alloc: Global,
    node: &Node,
    plan: &mut Plan,
    side: &Side,
    watch: &(Reference, Watch),
) -> Result<(), AllocError>
    requires blank { IsBlank plan.old }
    requires carries { CarriesOut plan.old (seen node.now) (at_work (seen node.now)) }
    requires there { fm.get (seen node.now).sides side.now.trunk ≡ Some (side_of side.now) }
    requires losing { is_losing (state_of side.now.standing) ≡ true }
    requires links { link_to side.now.peer (fm.entries (seen node.now).ends) ≡ None }
    requires first { watch_to side.now.peer (fm.entries (seen node.now).watches) ≡ Some watch.now }
    ensures makes { let swept = sweep_record (Some (model_record.OfWatch watch.now.0 watch.now.1)) (at_work (seen node.now)) in
        MakesOr (seen node.now) (close_if_swept side.now.trunk (side_of side.now) swept) plan.new result }
    ensures told { OnOk result (told plan.new (seen node.now) ≡ the_answer.Swept the_kind.Watch) }
{
    plan.answers(Answer::Swept(Swept::Watch));
    take_watch(alloc, plan, &watch.0, &watch.1)?;
    let left = watch_leaves(node, side.peer.atom(), &watch.0);
    close_unless(alloc, node, plan, side, left)
}

/// The first monitor that a process at the peer has is swept, where no other record is left.
pub(crate) fn clear_registration(
    alloc: Global,
    node: &Node,
    plan: &mut Plan,
    side: &Side,
    reference: &Reference,
) -> Result<(), AllocError>
    requires blank { IsBlank plan.old }
    requires carries { CarriesOut plan.old (seen node.now) (at_work (seen node.now)) }
    requires there { fm.get (seen node.now).sides side.now.trunk ≡ Some (side_of side.now) }
    requires losing { is_losing (state_of side.now.standing) ≡ true }
    requires links { link_to side.now.peer (fm.entries (seen node.now).ends) ≡ None }
    requires watches { watch_to side.now.peer (fm.entries (seen node.now).watches) ≡ None }
    requires first { NoneOwnedBefore side.now.peer (Some reference.now) (seen node.now).registered }
    ensures makes { let swept = sweep_record (Some (model_record.OfRegistration reference.now)) (at_work (seen node.now)) in
        MakesOr (seen node.now) (close_if_swept side.now.trunk (side_of side.now) swept) plan.new result }
    ensures told { OnOk result (told plan.new (seen node.now) ≡ the_answer.Swept the_kind.Registration) }
{
    plan.answers(Answer::Swept(Swept::Registration));
    take_registration(plan, reference)?;
    let left = registration_leaves(node, side.peer.atom(), reference);
    close_unless(alloc, node, plan, side, left)
}
