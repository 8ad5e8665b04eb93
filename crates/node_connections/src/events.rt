//! One event of a sweep.
ghost use Rattle.std.specs.Prelude.{◌≡◌, None, Some, true, IfOk, OnOk};
ghost use Rattle.std.specs.FinMap as fm;
ghost use Rattle.dist_model.specs.Losses.{any_side, close_if_swept, least_record, sweep, sweep_record, swept_kind};
ghost use Rattle.dist_model.specs.Sides.{is_losing};
ghost use Rattle.dist_model.specs.Work.{at_work};
ghost use Rattle.dist_model.specs.declared.report.Answer.TheVariants as the_answer;
ghost use Rattle.dist_model.specs.declared.report.Swept.TheVariants as the_kind;
ghost use Rattle.node_plan.specs.Carried.{CarriesOut, IsBlank, MakesOr};
ghost use Rattle.node_plan.specs.Planned.{Plans};
ghost use Rattle.node_plan.specs.Plans.{told};
ghost use Rattle.node_plan.specs.Seen.{seen};
ghost use Rattle.node_tables.specs.Standings.{entry_of, side_of, state_of};
ghost use Rattle.node_connections.specs.Ahead.{IsAhead, NoneLinkedUpTo};
ghost use Rattle.node_connections.specs.Done.{done};
ghost use Rattle.node_connections.specs.Records.{record_of};

use crate::clearing::{clear_link, clear_registration, clear_watch};
use crate::closing::close_side;
use crate::reaching::{at_link, behind_links};
use crate::records::{Record, least};
use crate::sweeping::{Sweeping, reached};
use conn_core::Side;
use dist_model::{Answer, Swept};
use erl_term::Refusal;
use node_plan::{Node, Plan};
use std::alloc::{AllocError, Global};

// The least record is swept, and the side closed where none is left.
fn clear(
    alloc: Global,
    node: &Node,
    plan: &mut Plan,
    side: &Side,
    next: &Record<'_>,
) -> Result<(), AllocError>
    requires up { (seen node.now).up ≡ true }
    requires blank { IsBlank plan.old }
    requires carries { CarriesOut plan.old (seen node.now) (at_work (seen node.now)) }
    requires there { fm.get (seen node.now).sides side.now.trunk ≡ Some (side_of side.now) }
    requires losing { is_losing (state_of side.now.standing) ≡ true }
    requires least { least_record side.now.peer (seen node.now) ≡ Some (record_of (seen node.now).mint next.now) }
    ensures makes { let swept = sweep_record (Some (record_of (seen node.now).mint next.now)) (at_work (seen node.now)) in
        MakesOr (seen node.now) (close_if_swept side.now.trunk (side_of side.now) swept) plan.new result }
    ensures told { OnOk result (told plan.new (seen node.now) ≡ the_answer.Swept (swept_kind (Some (record_of (seen node.now).mint next.now)))) }
{
    match next {
        Record::Link(link) => clear_link(alloc, node, plan, side, link),
        Record::Watch(watch) => clear_watch(alloc, node, plan, side, watch),
        Record::Registration(registration) => clear_registration(
            alloc,
            node,
            plan,
            side,
            &registration.0,
        ),
    }
}

// Returns the progress of the sweep at the least record.
fn stand_at(node: &Node, side: &Side, next: &Record<'_>) -> Result<Sweeping, AllocError>
    requires least { least_record side.now.peer (seen node.now) ≡ Some (record_of (seen node.now).mint next.now) }
    ensures { IfOk result (λ s. IsAhead s (seen node.now)) }
{
    match next {
        Record::Link(link) => at_link(node, &side.peer, link),
        Record::Watch(_) => behind_links(node, &side.peer),
        Record::Registration(_) => behind_links(node, &side.peer),
    }
}

// The least record is swept.
fn sweep_least(
    alloc: Global,
    node: &Node,
    plan: &mut Plan,
    side: &Side,
    next: &Record<'_>,
) -> Result<Sweeping, AllocError>
    requires up { (seen node.now).up ≡ true }
    requires blank { IsBlank plan.old }
    requires carries { CarriesOut plan.old (seen node.now) (at_work (seen node.now)) }
    requires first { any_side is_losing (fm.entries (seen node.now).sides) ≡ Some (entry_of side.now) }
    requires there { fm.get (seen node.now).sides side.now.trunk ≡ Some (side_of side.now) }
    requires losing { is_losing (state_of side.now.standing) ≡ true }
    requires least { least_record side.now.peer (seen node.now) ≡ Some (record_of (seen node.now).mint next.now) }
    ensures makes { let swept = sweep_record (Some (record_of (seen node.now).mint next.now)) (at_work (seen node.now)) in
        MakesOr (seen node.now) (close_if_swept side.now.trunk (side_of side.now) swept) plan.new (done result) }
    ensures told { OnOk result (told plan.new (seen node.now) ≡ the_answer.Swept (swept_kind (Some (record_of (seen node.now).mint next.now)))) }
    ensures ahead { IfOk result (λ s. IsAhead s (seen node.now)) }
{
    clear(alloc, node, plan, side, next)?;
    stand_at(node, side, next)
}

// No record is left: the side is closed.
fn close_swept(
    alloc: Global,
    node: &Node,
    plan: &mut Plan,
    side: &Side,
) -> Result<Sweeping, AllocError>
    requires blank { IsBlank plan.old }
    requires carries { CarriesOut plan.old (seen node.now) (at_work (seen node.now)) }
    requires there { fm.get (seen node.now).sides side.now.trunk ≡ Some (side_of side.now) }
    requires losing { is_losing (state_of side.now.standing) ≡ true }
    requires none { least_record side.now.peer (seen node.now) ≡ None }
    ensures makes { MakesOr (seen node.now) (close_if_swept side.now.trunk (side_of side.now) (at_work (seen node.now))) plan.new (done result) }
    ensures told { OnOk result (told plan.new (seen node.now) ≡ the_answer.Swept the_kind.Side) }
    ensures ahead { IfOk result (λ s. IsAhead s (seen node.now)) }
{
    plan.answers(Answer::Swept(Swept::Side));
    close_side(alloc, node, plan, side)?;
    Ok(Sweeping::new())
}

// Sweeps the least record of a connection whose side is losing, or closes the side if none is left.
fn sweep_side(
    alloc: Global,
    node: &Node,
    plan: &mut Plan,
    side: &Side,
    from: &Sweeping,
) -> Result<Sweeping, AllocError>
    requires up { (seen node.now).up ≡ true }
    requires blank { IsBlank plan.old }
    requires carries { CarriesOut plan.old (seen node.now) (at_work (seen node.now)) }
    requires first { any_side is_losing (fm.entries (seen node.now).sides) ≡ Some (entry_of side.now) }
    requires there { fm.get (seen node.now).sides side.now.trunk ≡ Some (side_of side.now) }
    requires losing { is_losing (state_of side.now.standing) ≡ true }
    requires behind { NoneLinkedUpTo side.now.peer from.now.id (seen node.now).ends }
    ensures makes { let least = least_record side.now.peer (seen node.now) in
        MakesOr (seen node.now) (close_if_swept side.now.trunk (side_of side.now) (sweep_record least (at_work (seen node.now)))) plan.new (done result) }
    ensures told { OnOk result (told plan.new (seen node.now) ≡ the_answer.Swept (swept_kind (least_record side.now.peer (seen node.now)))) }
    ensures ahead { IfOk result (λ s. IsAhead s (seen node.now)) }
{
    match least(node, side.peer.atom(), from) {
        Some(next) => sweep_least(alloc, node, plan, side, &next),
        None => close_swept(alloc, node, plan, side),
    }
}

/// A node that is losing a connection sweeps one record towards its peer: the least link, or else the
/// least monitor of a process there, or else the least that a process there has. A process that was
/// linked gets the exit signal noconnection, and the owner of a monitor DOWN. Once no record is left,
/// the side is gone. Returns the progress of the sweep. (Reference Manual, Processes, Links and
/// Monitors; Distributed Erlang. That records go one at a time is own.)
///
/// # Errors
/// [`Refusal::NothingThere`] where no connection is losing, and then [`Refusal::OutOfMemory`].
pub fn sweep(
    alloc: Global,
    node: &Node,
    plan: &mut Plan,
    so_far: &Sweeping,
) -> Result<Sweeping, Refusal>
    requires up { (seen node.now).up ≡ true }
    requires blank { IsBlank plan.old }
    requires carries { CarriesOut plan.old (seen node.now) (at_work (seen node.now)) }
    requires ahead { IsAhead so_far.now (seen node.now) }
    ensures plans { Plans (seen node.now) (sweep (seen node.now)) plan.new (done result) }
    ensures ahead { IfOk result (λ s. IsAhead s (seen node.now)) }
{
    let Some(side) = node.first_losing() else {
        return Err(Refusal::NothingThere);
    };
    let beginning = Sweeping::new();
    let from = reached(node, side.peer.atom(), so_far, &beginning);
    match sweep_side(alloc, node, plan, side, from) {
        Ok(sweeping) => Ok(sweeping),
        Err(_) => Err(Refusal::OutOfMemory),
    }
}
