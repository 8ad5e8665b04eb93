//! The answers and the refusals of a node, in JSON.
ghost use Rattle.std.specs.Prelude.{◌≡◌, IfOk, map};
ghost use Rattle.std.specs.Option.{option_copied};
ghost use Rattle.dist_model.specs.declared.report.Answer.TheVariants as answer;
ghost use Rattle.script_json.specs.Reports.{answer_data, holder_data, link_data, message_data, refusal_data};
ghost use Rattle.serde_json.specs.Data.{array, string};
ghost use Rattle.serde_json.specs.View.{items_of, view};
ghost use Rattle.script_texts.specs.Texts.{end_text};

use crate::objects::{told, told_kind, told_text};
use crate::texts::{printed_pid, printed_reference, printed_term, printed_trunk};
use conn_core::Fault;
use dist_model::{Answer, Links};
use erl_names::TrunkId;
use erl_term::{Payload, Pid, Reference, Refusal};
use link_core::End;
use script_texts::{fault_name, kind_name, put_end, swept_name};
use serde_json::{Value, json};
use std::alloc::{AllocError, Global};

fn message(alloc: Global, message: Option<&Payload>) -> Result<Value, AllocError>
    ensures { IfOk result (λ v. view v ≡ message_data (option_copied message.entry)) }
{
    match message {
        Some(message) => Ok(Value::String(printed_term(alloc, message)?)),
        None => Ok(Value::Null),
    }
}

fn end(alloc: Global, end: End) -> Result<Value, AllocError>
    ensures { IfOk result (λ v. view v ≡ string (end_text end)) }
{
    let mut text = String::new(alloc);
    put_end(&mut text, end)?;
    Ok(Value::String(text))
}

fn link(alloc: Global, partner: &Pid, own: End) -> Result<Value, AllocError>
    ensures { IfOk result (λ v. view v ≡ link_data (partner.now, own)) }
{
    let (own, partner) = (end(alloc, own)?, printed_pid(alloc, partner)?);
    json!(in alloc; {"end": own, "partner": partner})
}

fn links(alloc: Global, links: &[(Pid, End)]) -> Result<Value, AllocError>
    ensures { IfOk result (λ v. view v ≡ array (items_of (map link_data links.now))) }
{
    let mut all = Vec::new(alloc);
    for (partner, end) in links {
        all.push(link(alloc, partner, *end)?)?;
    }
    Ok(Value::Array(all))
}

fn broken(alloc: Global, fault: Fault) -> Result<Value, AllocError>
    ensures { IfOk result (λ v. view v ≡ answer_data (answer.Broken fault)) }
{
    let (name, number) = (fault_name(fault), fault.number());
    json!(in alloc; {"kind": "broken", "name": name, "number": number})
}

fn pid(alloc: Global, pid: &Pid) -> Result<Value, AllocError>
    ensures { IfOk result (λ v. view v ≡ answer_data (answer.Pid pid.now)) }
{
    let pid = Value::String(printed_pid(alloc, pid)?);
    told(alloc, "pid", "process", pid)
}

fn reference(alloc: Global, reference: &Reference) -> Result<Value, AllocError>
    ensures { IfOk result (λ v. view v ≡ answer_data (answer.Reference reference.now)) }
{
    let reference = Value::String(printed_reference(alloc, reference)?);
    told(alloc, "reference", "reference", reference)
}

fn trunk(alloc: Global, trunk: &TrunkId) -> Result<Value, AllocError>
    ensures { IfOk result (λ v. view v ≡ answer_data (answer.Trunk trunk.now)) }
{
    let trunk = Value::String(printed_trunk(alloc, trunk)?);
    told(alloc, "trunk", "trunk", trunk)
}

fn taken(alloc: Global, taken: Option<&Payload>) -> Result<Value, AllocError>
    ensures { IfOk result (λ v. view v ≡ answer_data (answer.Message (option_copied taken.entry))) }
{
    let taken = message(alloc, taken)?;
    told(alloc, "message", "message", taken)
}

fn process_if(alloc: Global, process: Option<&Pid>) -> Result<Value, AllocError>
    ensures { IfOk result (λ v. view v ≡ holder_data (option_copied process.entry)) }
{
    match process {
        Some(process) => Ok(Value::String(printed_pid(alloc, process)?)),
        None => Ok(Value::Null),
    }
}

fn holder(alloc: Global, holder: Option<&Pid>) -> Result<Value, AllocError>
    ensures { IfOk result (λ v. view v ≡ answer_data (answer.Holder (option_copied holder.entry))) }
{
    let holder = process_if(alloc, holder)?;
    told(alloc, "holder", "holder", holder)
}

fn held(alloc: Global, held: &Links) -> Result<Value, AllocError>
    ensures { IfOk result (λ v. view v ≡ answer_data (answer.Links held.now)) }
{
    let held = links(alloc, &held.entries)?;
    told(alloc, "links", "links", held)
}

/// Returns the object of a node's answer to an event that it accepts.
pub(crate) fn answer(alloc: Global, answer: &Answer) -> Result<Value, AllocError>
    ensures { IfOk result (λ v. view v ≡ answer_data answer.now) }
{
    match answer {
        Answer::Done => told_kind(alloc, "done"),
        Answer::Pid(of) => pid(alloc, of),
        Answer::Reference(of) => reference(alloc, of),
        Answer::Message(message) => taken(alloc, message.as_ref()),
        Answer::Links(links) => held(alloc, links),
        Answer::Alive(living) => told(alloc, "alive", "alive", Value::Bool(*living)),
        Answer::Holder(of) => holder(alloc, of.as_ref()),
        Answer::Trunk(of) => trunk(alloc, of),
        Answer::Took(kind) => told_text(alloc, "took", "item", kind_name(*kind)),
        Answer::Broken(fault) => broken(alloc, *fault),
        Answer::Swept(swept) => told_text(alloc, "swept", "record", swept_name(*swept)),
        Answer::Stopped => told_kind(alloc, "stopped"),
        Answer::Started(creation) => { told(alloc, "started", "creation", Value::from(*creation)) }
    }
}

/// Returns the object of a refusal: its kind, its name and its number.
pub(crate) fn refusal(alloc: Global, refusal: Refusal) -> Result<Value, AllocError>
    ensures { IfOk result (λ v. view v ≡ refusal_data refusal) }
{
    let (name, number) = (refusal.name(), refusal.number());
    json!(in alloc; {"kind": "refused", "name": name, "number": number})
}
