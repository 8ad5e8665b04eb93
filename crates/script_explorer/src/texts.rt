//! The parts of the text of an exploration.
ghost use Rattle.std.specs.Prelude.{◌≡◌, ◌++◌, OnOk, map, string_bytes};
ghost use Rattle.std.specs.List.{flat_map};
ghost use Rattle.script_explorer.specs.Texts.{comments, count_text, heading_text, number_text, script_text, unmet_heading, unmet_number_text};

use std::alloc::{AllocError, Global};

/// An outcome that is to be printed.
#[derive(Clone, Copy, Debug)]
pub(crate) struct Heading {
    /// Its number, from 1.
    pub(crate) number: u64,
    /// The number of all outcomes.
    pub(crate) all: u64,
    /// The number of the states that lead to it.
    pub(crate) states: u64,
    /// The number of the questions, which are the last lines of its script.
    pub(crate) questions: usize,
}

/// Appends a text.
///
/// # Errors
/// [`AllocError`] if out of memory.
pub(crate) fn put(out: &mut Vec<u8>, text: &str) -> Result<(), AllocError>
    ensures { OnOk result (out.new.items ≡ out.old.items ++ text.now) }
{
    out.extend_from_slice(text.as_bytes())
}

/// Appends a number of things that have this name.
pub(crate) fn put_count(out: &mut String, count: u64, name: &str) -> Result<(), AllocError>
    ensures { OnOk result (string_bytes out.new ≡ string_bytes out.old ++ count_text count name.now) }
{
    write!(out, "{count} {name}")?;
    if count == 1 {
        Ok(())
    } else {
        out.push_str("s")
    }
}

// Appends a text, with the mark of a comment in front of each line.
fn put_comments(out: &mut Vec<u8>, text: &str) -> Result<(), AllocError>
    ensures { OnOk result (out.new.items ≡ out.old.items ++ comments text.now) }
{
    let mut starts = true;
    for byte in text.as_bytes() {
        if starts {
            put(out, "#   ")?;
        }
        out.push(*byte)?;
        starts = *byte == b'\n';
    }
    Ok(())
}

/// Appends the lines of some texts as comments.
///
/// # Errors
/// [`AllocError`] if out of memory.
pub(crate) fn put_replies(out: &mut Vec<u8>, texts: &[String]) -> Result<(), AllocError>
    ensures { OnOk result (out.new.items ≡ out.old.items ++ flat_map comments (map string_bytes texts.now)) }
{
    for text in texts {
        put_comments(out, text.as_str())?;
    }
    Ok(())
}

/// Appends the lines of a script.
///
/// # Errors
/// [`AllocError`] if out of memory.
pub(crate) fn put_script(out: &mut Vec<u8>, lines: &[Vec<u8>]) -> Result<(), AllocError>
    ensures { OnOk result (out.new.items ≡ out.old.items ++ script_text (map (λ line. line.items) lines.now)) }
{
    for line in lines {
        out.extend_from_slice(line)?;
        put(out, "\n")?;
    }
    Ok(())
}

/// Appends the number of an outcome, and that of the states that lead to it.
///
/// # Errors
/// [`AllocError`] if out of memory.
pub(crate) fn put_number(out: &mut String, heading: &Heading) -> Result<(), AllocError>
    ensures { OnOk result (string_bytes out.new ≡ string_bytes out.old ++ number_text heading.now.number heading.now.all heading.now.states) }
{
    let Heading {
        number,
        all,
        states,
        ..
    } = *heading;
    write!(out, "outcome {number} of {all}, in ")?;
    put_count(out, states, "state")
}

/// Appends the first line of an outcome.
///
/// # Errors
/// [`AllocError`] if out of memory.
pub(crate) fn put_heading(
    alloc: Global,
    out: &mut Vec<u8>,
    heading: &Heading,
) -> Result<(), AllocError>
    ensures { OnOk result (out.new.items ≡ out.old.items ++ heading_text heading.now.number heading.now.all heading.now.states) }
{
    let mut text = String::from_str(alloc, "\n# ")?;
    put_number(&mut text, heading)?;
    text.push_str(":\n")?;
    put(out, text.as_str())
}

/// Appends the words that tell of an expectation that isn't met, by the number of its line.
///
/// # Errors
/// [`AllocError`] if out of memory.
pub(crate) fn put_unmet_number(out: &mut String, number: u64) -> Result<(), AllocError>
    ensures { OnOk result (string_bytes out.new ≡ string_bytes out.old ++ unmet_number_text number) }
{
    write!(out, "line {number} is not met in this order")
}

/// Appends the heading of an expectation that isn't met, and the advice on it.
///
/// # Errors
/// [`AllocError`] if out of memory.
pub(crate) fn put_unmet_heading(
    alloc: Global,
    out: &mut Vec<u8>,
    number: u64,
    advice: &str,
) -> Result<(), AllocError>
    ensures { OnOk result (out.new.items ≡ out.old.items ++ unmet_heading number ++ comments advice.now) }
{
    let mut text = String::from_str(alloc, "\n# ")?;
    put_unmet_number(&mut text, number)?;
    text.push_str(":\n")?;
    put(out, text.as_str())?;
    put_comments(out, advice)
}
