//! The lines that stand above a drawing.
ghost use Rattle.std.specs.Prelude.{◌≡◌, ◌∷◌, ◌++◌, [], IfOk, OnOk, map, string_bytes};
ghost use Rattle.std.specs.List.{flat_map};
ghost use Rattle.std.specs.Str.Lines.{lines as lines_of};
ghost use Rattle.script_explorer.specs.Drawn.{heading_of, unmet_heading};

use crate::texts::{Heading, put_number, put_unmet_number};
use std::alloc::{AllocError, Global};

// Appends a line.
fn add_line(alloc: Global, lines: &mut Vec<String>, line: &str) -> Result<(), AllocError>
    ensures { OnOk result (map string_bytes lines.new.items ≡ map string_bytes lines.old.items ++ line.now ∷ []) }
{
    lines.push(String::from_str(alloc, line)?)?;
    Ok(())
}

// Appends the lines of a text.
fn add_lines(alloc: Global, lines: &mut Vec<String>, text: &str) -> Result<(), AllocError>
    ensures { OnOk result (map string_bytes lines.new.items ≡ map string_bytes lines.old.items ++ lines_of text.now) }
{
    for line in text.lines() {
        add_line(alloc, lines, line)?;
    }
    Ok(())
}

// Appends the lines of texts.
fn add_all_lines(alloc: Global, lines: &mut Vec<String>, texts: &[String]) -> Result<(), AllocError>
    ensures { OnOk result (map string_bytes lines.new.items ≡ map string_bytes lines.old.items ++ flat_map lines_of (map string_bytes texts.now)) }
{
    for text in texts {
        add_lines(alloc, lines, text.as_str())?;
    }
    Ok(())
}

/// Returns the heading of an outcome: its number, and the lines of the replies.
///
/// # Errors
/// [`AllocError`] if out of memory.
pub(crate) fn heading_of(
    alloc: Global,
    heading: &Heading,
    replies: &[String],
) -> Result<Vec<String>, AllocError>
    ensures { IfOk result (λ lines. map string_bytes lines.items ≡ heading_of heading.now.number heading.now.all heading.now.states (map string_bytes replies.now)) }
{
    let mut number = String::new(alloc);
    put_number(&mut number, heading)?;
    let mut lines = Vec::new(alloc);
    add_line(alloc, &mut lines, number.as_str())?;
    add_all_lines(alloc, &mut lines, replies)?;
    Ok(lines)
}

/// Returns the heading of an expectation that isn't met: the number of its line, and the lines of the advice.
///
/// # Errors
/// [`AllocError`] if out of memory.
pub(crate) fn heading_of_unmet(
    alloc: Global,
    number: u64,
    advice: &str,
) -> Result<Vec<String>, AllocError>
    ensures { IfOk result (λ lines. map string_bytes lines.items ≡ unmet_heading number advice.now) }
{
    let mut first = String::new(alloc);
    put_unmet_number(&mut first, number)?;
    let mut lines = Vec::new(alloc);
    add_line(alloc, &mut lines, first.as_str())?;
    add_lines(alloc, &mut lines, advice)?;
    Ok(lines)
}
