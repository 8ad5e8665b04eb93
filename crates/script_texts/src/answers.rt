//! The texts of an event's outcome.
ghost use Rattle.std.specs.Prelude.{◌≡◌, ◌++◌, OnOk, Option, string_bytes};
ghost use Rattle.std.specs.List.{flat_map};
ghost use Rattle.std.specs.Option.{option_copied};
ghost use Rattle.script_texts.specs.Texts.{alive_text, answer_text, done_text, end_text, ends_text, holder_text, link_text, merged_text, message_text, refused_text, route_text, settled_text, trunk_text};

use crate::kinds::{fault_name, kind_name, swept_name};
use dist_model::Answer;
use erl_names::TrunkId;
use erl_term::{Payload, Pid, Refusal};
use link_core::End;
use script_terms::{put_pid, put_reference, put_term};
use std::alloc::AllocError;

/// Appends the text of a command that was carried out.
///
/// # Errors
/// [`AllocError`] if out of memory, as of each call below.
pub fn put_done(out: &mut String) -> Result<(), AllocError>
    ensures { OnOk result (string_bytes out.new ≡ string_bytes out.old ++ done_text) }
{
    out.push_str("done\n")
}

/// Appends the text of a refusal: its number and its name.
pub fn put_refused(out: &mut String, refusal: Refusal) -> Result<(), AllocError>
    ensures { OnOk result (string_bytes out.new ≡ string_bytes out.old ++ refused_text refusal) }
{
    let (number, name) = (refusal.number(), refusal.name());
    writeln!(out, "refused {number} {name}")
}

/// Appends a connection: the name of the node that dialed it, and that node's count.
pub fn put_trunk(out: &mut String, trunk: &TrunkId) -> Result<(), AllocError>
    ensures { OnOk result (string_bytes out.new ≡ string_bytes out.old ++ trunk_text trunk.now) }
{
    let (dialer, count) = (trunk.dialer.text(), trunk.count);
    write!(out, "{dialer}/{count}")
}

/// Appends the end of a link.
pub fn put_end(out: &mut String, end: End) -> Result<(), AllocError>
    ensures { OnOk result (string_bytes out.new ≡ string_bytes out.old ++ end_text end) }
{
    match end {
        End::None => out.push_str("none"),
        End::Active => out.push_str("active"),
        End::Pending(id) => write!(out, "pending:{id}"),
    }
}

fn put_link(out: &mut String, partner: &Pid, end: End) -> Result<(), AllocError>
    ensures { OnOk result (string_bytes out.new ≡ string_bytes out.old ++ link_text (partner.now, end)) }
{
    out.push_str(" ")?;
    put_pid(out, partner)?;
    out.push_str("=")?;
    put_end(out, end)
}

// Appends the links of a process, without the line break.
fn put_links(out: &mut String, links: &[(Pid, End)]) -> Result<(), AllocError>
    ensures { OnOk result (string_bytes out.new ≡ string_bytes out.old ++ flat_map link_text links.now) }
{
    for (partner, end) in links {
        put_link(out, partner, *end)?;
    }
    Ok(())
}

fn put_message(out: &mut String, message: Option<&Payload>) -> Result<(), AllocError>
    ensures { OnOk result (string_bytes out.new ≡ string_bytes out.old ++ message_text (option_copied message.entry)) }
{
    match message {
        Some(message) => {
            out.push_str("message ")?;
            put_term(out, message.term())?;
            out.push_str("\n")
        }
        None => out.push_str("empty\n"),
    }
}

fn put_alive(out: &mut String, is_living: bool) -> Result<(), AllocError>
    ensures { OnOk result (string_bytes out.new ≡ string_bytes out.old ++ alive_text is_living) }
{
    out.push_str(if is_living { "alive\n" } else { "not alive\n" })
}

// Appends the process that has a name, or `none`.
fn put_holder(out: &mut String, holder: Option<&Pid>) -> Result<(), AllocError>
    ensures { OnOk result (string_bytes out.new ≡ string_bytes out.old ++ holder_text (option_copied holder.entry)) }
{
    match holder {
        Some(process) => {
            put_pid(out, process)?;
            out.push_str("\n")
        }
        None => out.push_str("none\n"),
    }
}

/// Appends the answer of the node of the name `node`.
pub fn put_answer(out: &mut String, node: &str, answer: &Answer) -> Result<(), AllocError>
    ensures { OnOk result (string_bytes out.new ≡ string_bytes out.old ++ answer_text node.now answer.now) }
{
    match answer {
        Answer::Done => return put_done(out),
        Answer::Pid(process) => put_pid(out, process)?,
        Answer::Reference(reference) => put_reference(out, reference)?,
        Answer::Message(message) => return put_message(out, message.as_ref()),
        Answer::Links(links) => {
            out.push_str("links")?;
            put_links(out, &links.entries)?;
        }
        Answer::Alive(is_living) => return put_alive(out, *is_living),
        Answer::Holder(holder) => return put_holder(out, holder.as_ref()),
        Answer::Trunk(trunk) => {
            out.push_str("trunk ")?;
            put_trunk(out, trunk)?;
        }
        Answer::Took(kind) => {
            let kind = kind_name(*kind);
            write!(out, "took {kind}")?;
        }
        Answer::Broken(fault) => {
            let (number, name) = (fault.number(), fault_name(*fault));
            write!(out, "broken {number} {name}")?;
        }
        Answer::Swept(swept) => {
            let swept = swept_name(*swept);
            write!(out, "swept {swept}")?;
        }
        Answer::Stopped => write!(out, "stopped {node}")?,
        Answer::Started(creation) => write!(out, "up {node} {creation}")?,
    }
    out.push_str("\n")
}

/// Appends both ends of the link between two processes.
pub fn put_ends(out: &mut String, first: End, second: End) -> Result<(), AllocError>
    ensures { OnOk result (string_bytes out.new ≡ string_bytes out.old ++ ends_text first second) }
{
    out.push_str("ends ")?;
    put_end(out, first)?;
    out.push_str(" ")?;
    put_end(out, second)?;
    out.push_str("\n")
}

/// Appends the connection that is up to a peer, or `none`.
pub fn put_route(out: &mut String, route: Option<&TrunkId>) -> Result<(), AllocError>
    ensures { OnOk result (string_bytes out.new ≡ string_bytes out.old ++ route_text (option_copied route.entry)) }
{
    match route {
        Some(trunk) => {
            out.push_str("up ")?;
            put_trunk(out, trunk)?;
            out.push_str("\n")
        }
        None => out.push_str("none\n"),
    }
}

/// Appends `settled` if no event is possible any more, and `busy` otherwise.
pub fn put_settled(out: &mut String, is_settled: bool) -> Result<(), AllocError>
    ensures { OnOk result (string_bytes out.new ≡ string_bytes out.old ++ settled_text is_settled) }
{
    out.push_str(if is_settled { "settled\n" } else { "busy\n" })
}

/// Appends the text for the merged books of all nodes.
pub fn put_merged(out: &mut String) -> Result<(), AllocError>
    ensures { OnOk result (string_bytes out.new ≡ string_bytes out.old ++ merged_text) }
{
    out.push_str("merged\n")
}
