//! The objects about items, in JSON.
ghost use Rattle.std.specs.Prelude.{◌≡◌, ◌<◌, ◌≤◌, ◌+◌, ◌^◌, ◌++◌, IfOk, OnOk, map, string_bytes};
ghost use Rattle.item_decoder.specs.Objects.{cut_data, fault_data, flag_names, flagged_data, found_data, json_line, names_data, one_name, plain_data, term_data, told_data, told_item};
ghost use Rattle.item_decoder.specs.Words.{flag_text};
ghost use Rattle.serde_json.specs.Data.{string};
ghost use Rattle.serde_json.specs.View.{view};
ghost use Rattle.serde_json.specs.Written.{compact_text};
ghost use Rattle.erl_term.specs.View as terms;

use crate::answers::{Answer, Found, Why};
use crate::told::Told;
use crate::words::flag_name;
use erl_handshake::{Flags, ShakeMsg};
use erl_term::Term;
use item_texts::ReadItem;
use script_json::item_fields;
use script_terms::put_term;
use serde_json::{Value, json};
use std::alloc::{AllocError, Global};

// Returns the text of the flag with this bit.
fn flag_value(alloc: Global, bit: u32) -> Result<Value, AllocError>
    ensures { IfOk result (λ v. view v ≡ string (flag_text bit)) }
{
    let name = flag_name(bit);
    if name.is_empty() {
        let text = format!(in alloc; "bit{bit}")?;
        return Ok(Value::String(text));
    }
    Value::try_from_str(alloc, name)
}

// Returns the names of the flags in these bits.
fn flag_values(alloc: Global, flags: Flags) -> Result<Value, AllocError>
    ensures { IfOk result (λ v. view v ≡ names_data (flag_names 64 flags)) }
{
    let mut names = Vec::new(alloc);
    push_flags(alloc, &mut names, 64, flags.bits())?;
    Ok(Value::Array(names))
}

// Pushes the name of the flag, if its bit is the lowest and is set.
fn push_lowest_flag(
    alloc: Global,
    names: &mut Vec<Value>,
    flag: u32,
    bits: u64,
) -> Result<(), AllocError>
    ensures { OnOk result (map view names.new.items ≡ map view names.old.items ++ map string (one_name flag bits)) }
{
    if bits % 2 == 1 {
        names.push(flag_value(alloc, flag)?)?;
    }
    Ok(())
}

// Pushes the names of the flags in these bits. So many bits of 64 are left, and the lowest is that of the next flag.
fn push_flags(alloc: Global, names: &mut Vec<Value>, left: u32, bits: u64) -> Result<(), AllocError>
    requires { left ≤ 64 }
    ensures { OnOk result (map view names.new.items ≡ map view names.old.items ++ map string (flag_names left bits)) }
{
    if left == 0 {
        return Ok(());
    }
    push_lowest_flag(alloc, names, 64 - left, bits)?;
    push_flags(alloc, names, left - 1, bits / 2)
}

// Returns the object of a term.
fn term_object(alloc: Global, term: &Term) -> Result<Value, AllocError>
    ensures { IfOk result (λ v. view v ≡ term_data (terms.view term.now)) }
{
    let mut text = String::new(alloc);
    put_term(&mut text, term)?;
    json!(in alloc; {"term": text})
}

// Returns the object of a term or an item that was read.
fn item_object(alloc: Global, found: &Found) -> Result<Value, AllocError>
    ensures { IfOk result (λ v. view v ≡ told_item found.now) }
{
    match found {
        Found::Term(term) => term_object(alloc, term),
        Found::Item(item) => item_fields(alloc, item),
    }
}

fn plain_object(alloc: Global, at: u64, found: &Found, len: usize) -> Result<Value, AllocError>
    ensures { IfOk result (λ v. view v ≡ plain_data at (told_item found.now) len) }
{
    let (item, len) = (item_object(alloc, found)?, len as u64);
    json!(in alloc; {"at": at, "item": item, "length": len})
}

fn flagged_object(
    alloc: Global,
    at: u64,
    flags: Flags,
    found: &Found,
    len: usize,
) -> Result<Value, AllocError>
    ensures { IfOk result (λ v. view v ≡ flagged_data at (flag_names 64 flags) (told_item found.now) len) }
{
    let flags = flag_values(alloc, flags)?;
    let (item, len) = (item_object(alloc, found)?, len as u64);
    json!(in alloc; {"at": at, "flags": flags, "item": item, "length": len})
}

// Returns the object about an item that was read.
fn found_object(alloc: Global, at: u64, found: &Found, len: usize) -> Result<Value, AllocError>
    ensures { IfOk result (λ v. view v ≡ found_data at found.now len) }
{
    match found {
        Found::Item(
            ReadItem::Message(ShakeMsg::SendName { flags, .. } | ShakeMsg::Challenge { flags, .. }),
        ) => flagged_object(alloc, at, *flags, found, len),
        _ => plain_object(alloc, at, found, len),
    }
}

// Returns the object about bytes that end inside an item.
fn cut_object(alloc: Global, at: u64, place: u64, words: &str) -> Result<Value, AllocError>
    ensures { IfOk result (λ v. view v ≡ cut_data at place words.now) }
{
    let cut = json!(in alloc; {"place": place, "why": words})?;
    json!(in alloc; {"at": at, "cut": cut})
}

// Returns the object about a fault.
fn fault_object(
    alloc: Global,
    at: u64,
    place: u64,
    why: Why,
    words: &str,
) -> Result<Value, AllocError>
    ensures { IfOk result (λ v. view v ≡ fault_data at place why words.now) }
{
    let (number, name) = (u64::from(why.number()), why.name());
    let fault = json!(in alloc; {"name": name, "number": number, "place": place, "why": words})?;
    json!(in alloc; {"at": at, "fault": fault})
}

// Returns the object about an item.
fn object(alloc: Global, at: u64, told: &Told) -> Result<Value, AllocError>
    requires { at + told.now.place < 2 ^ 64 }
    ensures { IfOk result (λ v. view v ≡ told_data at told.now) }
{
    let place = at + told.place as u64;
    match &told.answer {
        Answer::Found(found, len) => found_object(alloc, at, found, *len),
        Answer::Begun => cut_object(alloc, at, place, told.why.as_str()),
        Answer::Refused(why) => fault_object(alloc, at, place, *why, told.why.as_str()),
    }
}

// Returns the text of an object about an item.
fn text(alloc: Global, at: u64, told: &Told) -> Result<String, AllocError>
    requires { at + told.now.place < 2 ^ 64 }
    ensures { IfOk result (λ text. string_bytes text ≡ compact_text (told_data at told.now)) }
{
    object(alloc, at, told)?.to_string(alloc)
}

/// Appends the line of JSON about an item, whose first byte is at this place.
///
/// # Errors
/// [`AllocError`] if out of memory.
pub(crate) fn put_object(
    alloc: Global,
    out: &mut String,
    at: u64,
    told: &Told,
) -> Result<(), AllocError>
    requires { at + told.now.place < 2 ^ 64 }
    ensures { OnOk result (string_bytes out.new ≡ string_bytes out.old ++ json_line at told.now) }
{
    let text = text(alloc, at, told)?;
    let text = text.as_str();
    writeln!(out, "{text}")
}
