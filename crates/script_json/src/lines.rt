//! A line for each event.
ghost use Rattle.std.specs.Prelude.{◌≡◌, ◌++◌, List, ℕ, IfOk, OnOk, codes, string_bytes};
ghost use Rattle.script_json.specs.Events.{event_data};
ghost use Rattle.script_json.specs.Reports.{IsLineData, IsLineText, brought, came_data, node_data, node_text, parts_data};
ghost use Rattle.serde_json.specs.View.{view};
ghost use Rattle.node_core.specs.declared.node_event.NodeEvent.{NodeEvent};

use crate::answers::{answer, refusal};
use crate::effects::effects;
use crate::events::joined;
use dist_model::{Answer, Effect, Report};
use erl_handshake::Profile;
use erl_term::Refusal;
use node_frames::Frame;
use serde_json::{Value, json};
use std::alloc::{AllocError, Global};

fn came(alloc: Global, came: &Result<Report<Frame>, Refusal>) -> Result<Value, AllocError>
    ensures { IfOk result (λ v. view v ≡ came_data came.now) }
{
    match came {
        Ok(report) => answer(alloc, &report.answer),
        Err(why) => refusal(alloc, *why),
    }
}

fn brought(came: &Result<Report<Frame>, Refusal>) -> &[Effect<Frame>]
    ensures { result.now ≡ brought came.now }
{
    match came {
        Ok(report) => report.effects.as_slice(),
        Err(_) => &[],
    }
}

// Returns the object of a line.
fn parts(
    alloc: Global,
    node: &str,
    line: u64,
    event: Value,
    answer: Value,
    effects: Value,
) -> Result<Value, AllocError>
    ensures { IfOk result (λ v. view v ≡ parts_data node.now line (view event) (view answer) (view effects)) }
{
    json!(in alloc; {"answer": answer, "effects": effects, "event": event, "line": line, "node": node})
}

fn line_of(
    alloc: Global,
    node: &str,
    line: u64,
    event: Value,
    report: &Result<Report<Frame>, Refusal>,
) -> Result<Value, AllocError>
    ensures { IfOk result (λ v. IsLineData node.now line (view event) report.now (view v)) }
{
    let (answer, effects) = (came(alloc, report)?, effects(alloc, brought(report))?);
    parts(alloc, node, line, event, answer, effects)
}

// Returns the text of a line.
fn text(
    alloc: Global,
    node: &str,
    line: u64,
    event: Value,
    came: &Result<Report<Frame>, Refusal>,
) -> Result<String, AllocError>
    ensures { (happened : NodeEvent) → view event ≡ event_data happened → IfOk result (λ text. IsLineText node.now line happened came.now (string_bytes text)) }
{
    line_of(alloc, node, line, event, came)?.to_string(alloc)
}

// Appends the text of a line, and its line break.
fn put_text(out: &mut String, text: &str) -> Result<(), AllocError>
    ensures { OnOk result (string_bytes out.new ≡ string_bytes out.old ++ text.now ++ codes "\n") }
{
    out.push_str(text)?;
    out.push_str("\n")
}

/// Appends a line of JSON: an object with the name of the node, the number of the script's line, the event as
/// [`crate::event`] returns it, the answer or the refusal of the node, and the effects of the event.
///
/// # Errors
/// [`AllocError`] if out of memory.
pub fn put_line(
    alloc: Global,
    out: &mut String,
    node: &str,
    line: u64,
    event: Value,
    came: &Result<Report<Frame>, Refusal>,
) -> Result<(), AllocError>
    ensures { (happened : NodeEvent) → view event ≡ event_data happened →
        OnOk result ((text : List ℕ) × IsLineText node.now line happened came.now text × (string_bytes out.new ≡ string_bytes out.old ++ text ++ codes "\n")) }
{
    let text = text(alloc, node, line, event, came)?;
    put_text(out, text.as_str())
}

fn node_of(
    alloc: Global,
    node: &str,
    line: u64,
    cookie: &str,
    profile: Profile,
) -> Result<Value, AllocError>
    ensures { IfOk result (λ v. view v ≡ node_data node.now line cookie.now profile) }
{
    let event = joined(alloc, cookie, profile)?;
    let answer = answer(alloc, &Answer::Started(1))?;
    let effects = Value::Array(Vec::new(alloc));
    parts(alloc, node, line, event, answer, effects)
}

// Returns the text of the line of a node.
fn text_of_node(
    alloc: Global,
    node: &str,
    line: u64,
    cookie: &str,
    profile: Profile,
) -> Result<String, AllocError>
    ensures { IfOk result (λ text. string_bytes text ≡ node_text node.now line cookie.now profile) }
{
    node_of(alloc, node, line, cookie, profile)?.to_string(alloc)
}

/// Appends a line of JSON of a node that comes into the world of a script: as [`put_line`], with its cookie and
/// the number of its profile as the event, and its first incarnation as the answer.
///
/// # Errors
/// [`AllocError`] if out of memory.
pub fn put_node(
    alloc: Global,
    out: &mut String,
    node: &str,
    line: u64,
    cookie: &str,
    profile: Profile,
) -> Result<(), AllocError>
    ensures { OnOk result (string_bytes out.new ≡ string_bytes out.old ++ node_text node.now line cookie.now profile ++ codes "\n") }
{
    let text = text_of_node(alloc, node, line, cookie, profile)?;
    put_text(out, text.as_str())
}
