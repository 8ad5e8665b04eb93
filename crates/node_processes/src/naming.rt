//! The commands about registered names.
ghost use Rattle.std.specs.Prelude.{◌≡◌, IfOk, MatchResult, None, OnOk, true};
ghost use Rattle.std.specs.FinMap as fm;
ghost use Rattle.dist_model.specs.Calls as calls;
ghost use Rattle.dist_model.specs.Calls.{call};
ghost use Rattle.dist_model.specs.Commands.{Outcome, Refuses};
ghost use Rattle.dist_model.specs.Naming.{name_of};
ghost use Rattle.dist_model.specs.Work.{at_work};
ghost use Rattle.dist_model.specs.declared.command.Command.TheVariants as command;
ghost use Rattle.dist_model.specs.declared.report.Answer.TheVariants as answer;
ghost use Rattle.node_plan.specs.Carried.{CarriesOut, IsBlank};
ghost use Rattle.node_plan.specs.Planned.{Plans};
ghost use Rattle.node_plan.specs.Plans.{told};
ghost use Rattle.node_plan.specs.Seen.{seen};

use crate::acting::acts;
use dist_model::Answer;
use erl_term::{Atom, Pid, Refusal};
use node_plan::{Node, Plan};
use node_tables::Naming;
use std::alloc::AllocError;

// Returns an error if `process` can't take `name`.
fn takes(node: &Node, process: &Pid, name: &Atom) -> Result<(), Refusal>
    ensures free { OnOk result (fm.get (seen node.now).names name.now ≡ None) }
    ensures nameless { OnOk result (name_of (seen node.now).names process.now ≡ None) }
    ensures due { (outcome : Outcome) → let due = calls.taking (seen node.now) process.now name.now outcome in
        MatchResult result (λ _. due ≡ outcome) (λ e. due ≡ Refuses e) }
{
    if name.text() == "undefined" {
        Err(Refusal::BadName)
    } else if node.holder(name).is_some() {
        Err(Refusal::NameTaken)
    } else if node.has_name(process) {
        Err(Refusal::HasName)
    } else {
        Ok(())
    }
}

/// Plans that `process` takes `name`.
pub(crate) fn register(
    node: &Node,
    plan: &mut Plan,
    process: &Pid,
    name: &Atom,
) -> Result<(), Refusal>
    requires blank { IsBlank plan.old }
    requires told { told plan.old (seen node.now) ≡ answer.Done }
    requires carries { CarriesOut plan.old (seen node.now) (at_work (seen node.now)) }
    ensures { Plans (seen node.now) (call (seen node.now) (command.Register process.now name.now)) plan.new result }
{
    acts(node, process)?;
    takes(node, process, name)?;
    match Naming::of(name, process) {
        Ok(naming) => {
            plan.take_name(naming);
            Ok(())
        }
        Err(_) => Err(Refusal::OutOfMemory),
    }
}

// Returns an error if a process has no name.
fn gives_up(node: &Node, process: &Pid) -> Result<(), Refusal>
    ensures { (outcome : Outcome) → let due = calls.giving_up (seen node.now) process.now outcome in
        MatchResult result (λ _. due ≡ outcome) (λ e. due ≡ Refuses e) }
{
    if node.has_name(process) {
        Ok(())
    } else {
        Err(Refusal::NoName)
    }
}

/// Plans that `process` gives its name up.
pub(crate) fn unregister(node: &Node, plan: &mut Plan, process: Pid) -> Result<(), Refusal>
    requires blank { IsBlank plan.old }
    requires told { told plan.old (seen node.now) ≡ answer.Done }
    requires carries { CarriesOut plan.old (seen node.now) (at_work (seen node.now)) }
    ensures { Plans (seen node.now) (call (seen node.now) (command.Unregister process)) plan.new result }
{
    acts(node, &process)?;
    gives_up(node, &process)?;
    plan.give_name(process);
    Ok(())
}

// Returns a copy of the process that has a name.
fn copied_holder(node: &Node, name: &Atom) -> Result<Option<Pid>, AllocError>
    ensures { IfOk result (λ holder. holder ≡ fm.get (seen node.now).names name.now) }
{
    match node.holder(name) {
        Some(process) => Ok(Some(process.clone()?)),
        None => Ok(None),
    }
}

/// Plans an answer with the process that has `name`, if there is one.
pub(crate) fn where_is(node: &Node, plan: &mut Plan, name: &Atom) -> Result<(), Refusal>
    requires blank { IsBlank plan.old }
    requires carries { CarriesOut plan.old (seen node.now) (at_work (seen node.now)) }
    ensures { Plans (seen node.now) (call (seen node.now) (command.WhereIs name.now)) plan.new result }
{
    match copied_holder(node, name) {
        Ok(holder) => {
            plan.answers(Answer::Holder(holder));
            Ok(())
        }
        Err(_) => Err(Refusal::OutOfMemory),
    }
}
