//! Terms as they are printed.
ghost use Rattle.std.specs.Prelude.{◌≡◌, ◌++◌, OnOk, string_bytes};
ghost use Rattle.std.specs.List.{flat_map};
ghost use Rattle.std.specs.Str.{chars};
ghost use Rattle.erl_term.specs.View.{view, items_view};
ghost use Rattle.script_terms.specs.Printing.{comma_before, escaped, atom_text, numbers_text, commas_text, binary_text, pid_text, reference_text, term_text, items_text};

use crate::words::is_bare;
use erl_term::{Pid, Reference, Term};
use std::alloc::AllocError;

/// Appends a term as it is printed.
#[cycle(put)]
pub fn put_term(out: &mut String, term: &Term) -> Result<(), AllocError>
    ensures { OnOk result (string_bytes out.new ≡ string_bytes out.old ++ term_text (view term.now)) }
{
    match term {
        Term::Int(n) => write!(out, "{n}"),
        Term::Atom(atom) => put_atom(out, atom.text()),
        Term::Tuple(items) => {
            out.push_str("{")?;
            put_items(out, items)?;
            out.push_str("}")
        }
        Term::List { items, tail } => {
            out.push_str("[")?;
            put_items(out, items)?;
            match tail {
                None => out.push_str("]"),
                Some(tail) => {
                    out.push_str("|")?;
                    put_term(out, tail)?;
                    out.push_str("]")
                }
            }
        }
        Term::Binary(bytes) => put_binary(out, bytes),
        Term::Pid(pid) => put_pid(out, pid),
        Term::Reference(reference) => put_reference(out, reference),
    }
}

/// Appends the items, with commas between them.
#[cycle(put)]
fn put_items(out: &mut String, items: &[Term]) -> Result<(), AllocError>
    ensures { OnOk result (string_bytes out.new ≡ string_bytes out.old ++ items_text (items_view items.now)) }
{
    for (i, item) in items.iter().enumerate() {
        put_comma(out, i)?;
        put_term(out, item)?;
    }
    Ok(())
}

/// Appends the comma before an item, unless it is the first.
fn put_comma(out: &mut String, index: usize) -> Result<(), AllocError>
    ensures { OnOk result (string_bytes out.new ≡ string_bytes out.old ++ comma_before index) }
{
    if index == 0 {
        return Ok(());
    }
    out.push_str(",")
}

/// Appends an atom of this text: bare where it can be written so, and else between quotes.
#[tactic(auto, unfolding(crate::specs::Printing::atom_text))]
pub fn put_atom(out: &mut String, text: &str) -> Result<(), AllocError>
    ensures { OnOk result (string_bytes out.new ≡ string_bytes out.old ++ atom_text text.now) }
{
    if is_bare(text) {
        return out.push_str(text);
    }
    out.push_str("'")?;
    put_escaped(out, text)?;
    out.push_str("'")
}

fn put_escaped(out: &mut String, text: &str) -> Result<(), AllocError>
    ensures { OnOk result (string_bytes out.new ≡ string_bytes out.old ++ flat_map escaped (chars text.now)) }
{
    for c in text.chars() {
        put_char(out, c)?;
    }
    Ok(())
}

/// Appends a character as it stands between quotes.
fn put_char(out: &mut String, c: char) -> Result<(), AllocError>
    ensures { OnOk result (string_bytes out.new ≡ string_bytes out.old ++ escaped c) }
{
    if c == '\'' || c == '\\' {
        out.push('\\')?;
        return out.push(c);
    }
    let code = u32::from(c);
    if code < 32 || code == 127 {
        return write!(out, "\\x{{{code:x}}}");
    }
    out.push(c)
}

#[tactic(auto, unfolding(crate::specs::Printing::binary_text))]
fn put_binary(out: &mut String, bytes: &[u8]) -> Result<(), AllocError>
    ensures { OnOk result (string_bytes out.new ≡ string_bytes out.old ++ binary_text bytes.now) }
{
    out.push_str("<<")?;
    put_bytes(out, bytes)?;
    out.push_str(">>")
}

fn put_bytes(out: &mut String, bytes: &[u8]) -> Result<(), AllocError>
    ensures { OnOk result (string_bytes out.new ≡ string_bytes out.old ++ commas_text bytes.now) }
{
    match bytes {
        [] => Ok(()),
        [first, rest @ ..] => {
            write!(out, "{first}")?;
            put_more_bytes(out, rest)
        }
    }
}

fn put_more_bytes(out: &mut String, bytes: &[u8]) -> Result<(), AllocError>
    ensures { OnOk result (string_bytes out.new ≡ string_bytes out.old ++ numbers_text 44 bytes.now) }
{
    for byte in bytes {
        write!(out, ",{byte}")?;
    }
    Ok(())
}

/// Appends a pid: `<NODE.ID.SERIAL.CREATION>`.
#[tactic(auto, unfolding(crate::specs::Printing::pid_text))]
pub fn put_pid(out: &mut String, pid: &Pid) -> Result<(), AllocError>
    ensures { OnOk result (string_bytes out.new ≡ string_bytes out.old ++ pid_text pid.now) }
{
    let (id, serial, creation) = (pid.id, pid.serial, pid.creation);
    out.push_str("<")?;
    out.push_str(pid.node.text())?;
    write!(out, ".{id}.{serial}.{creation}>")
}

/// Appends a reference: `#Ref<NODE.CREATION.WORD.WORD.WORD>`, with as many words as it has.
#[tactic(auto, unfolding(crate::specs::Printing::reference_text))]
pub fn put_reference(out: &mut String, reference: &Reference) -> Result<(), AllocError>
    ensures { OnOk result (string_bytes out.new ≡ string_bytes out.old ++ reference_text reference.now) }
{
    let creation = reference.creation;
    out.push_str("#Ref<")?;
    out.push_str(reference.node.text())?;
    write!(out, ".{creation}")?;
    put_words(out, reference.words.as_slice())?;
    out.push_str(">")
}

fn put_words(out: &mut String, words: &[u32]) -> Result<(), AllocError>
    ensures { OnOk result (string_bytes out.new ≡ string_bytes out.old ++ numbers_text 46 words.now) }
{
    for word in words {
        write!(out, ".{word}")?;
    }
    Ok(())
}
