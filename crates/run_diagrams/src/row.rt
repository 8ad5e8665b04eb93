//! The rows of a run.
ghost use Rattle.std.specs.Prelude.{◌≡◌, ◌<◌, [], length, IsTrue, None, OnOk};
ghost use Rattle.run_diagrams.specs.Folding.{KeepsArrows};
ghost use Rattle.run_diagrams.specs.Recording.{is_still, queues_of};

use crate::names::ScriptNames;
use crate::notes::Words;
use crate::replies::{Told, of_reply};
use diagram::{Mark, Note, Row};
use dist_model::Answer;
use erl_term::Refusal;
use std::alloc::{AllocError, Global};

/// A row with these words at its left, in which nothing happens.
pub(crate) fn empty_row(alloc: Global, words: Vec<String>) -> Row
    ensures took { result.took ≡ None }
    ensures marks { result.marks.items ≡ [] }
{
    Row {
        words,
        tooltip: String::new(alloc),
        folded: Vec::new(alloc),
        took: None,
        marks: Vec::new(alloc),
        gave_up: Vec::new(alloc),
    }
}

// Returns a row of folded lines alone.
fn folded_row(alloc: Global, lines: Vec<String>) -> Row
    ensures took { result.took ≡ None }
    ensures marks { result.marks.items ≡ [] }
    ensures gave_up { result.gave_up.items ≡ [] }
{
    Row {
        words: Vec::new(alloc),
        tooltip: String::new(alloc),
        folded: lines,
        took: None,
        marks: Vec::new(alloc),
        gave_up: Vec::new(alloc),
    }
}

/// Returns true if nothing happens in a row: it shows the words of one line at most.
pub(crate) fn is_still(row: &Row) -> bool
    ensures { result ≡ is_still row.now }
{
    row.words.len() < 2 && row.marks.is_empty() && row.took.is_none() && row.gave_up.is_empty()
}

// Returns true if the last row has folded lines.
fn ends_folded(rows: &[Row]) -> bool
    ensures { IsTrue result → 0 < length rows.now }
{
    match rows.last() {
        Some(row) => !row.folded.is_empty(),
        None => false,
    }
}

// Appends to the folded lines of a row.
fn fold_into(row: &mut Row, lines: Vec<String>) -> Result<(), AllocError>
    ensures took { row.new.took ≡ row.old.took }
    ensures marks { row.new.marks.items ≡ row.old.marks.items }
    ensures gave_up { row.new.gave_up.items ≡ row.old.gave_up.items }
{
    let mut lines = lines;
    row.folded.append(&mut lines)
}

/// Appends lines at which nothing happened: to the last row, if it has such lines, or else as a new row.
///
/// # Errors
/// [`AllocError`] if out of memory.
pub(crate) fn put_folded(
    alloc: Global,
    rows: &mut Vec<Row>,
    lines: Vec<String>,
) -> Result<(), AllocError>
    ensures { OnOk result (KeepsArrows rows.old.items rows.new.items) }
{
    if ends_folded(rows) {
        let last = rows.len() - 1;
        return fold_into(&mut rows[last], lines);
    }
    rows.push(folded_row(alloc, lines))?;
    Ok(())
}

/// Words on a lane, if there are some.
///
/// # Errors
/// Where memory is wanting, as of each call below.
pub(crate) fn put_words(row: &mut Row, lane: usize, words: Option<Words>) -> Result<(), AllocError>
    ensures queues { OnOk result (queues_of row.new.marks.items ≡ queues_of row.old.marks.items) }
    ensures took { row.new.took ≡ row.old.took }
{
    match words {
        Some(
            Words {
                tone,
                words,
                tooltip,
            },
        ) => {
            row.marks.push(Mark::Note(Note {
                lane,
                tone,
                words,
                tooltip,
            }))?;
            Ok(())
        }
        None => Ok(()),
    }
}

// Appends a reply at the left, and keeps its tooltip.
fn put_told(row: &mut Row, told: Option<Told>) -> Result<(), AllocError>
    ensures marks { row.new.marks.items ≡ row.old.marks.items }
    ensures took { row.new.took ≡ row.old.took }
{
    match told {
        Some(Told { words, tooltip }) => {
            row.tooltip = tooltip;
            row.words.push(words)?;
            Ok(())
        }
        None => Ok(()),
    }
}

/// Appends the reply of a node of that name, below the words of the command, if there are some.
pub(crate) fn put_reply(
    alloc: Global,
    row: &mut Row,
    names: &ScriptNames,
    node: &str,
    answer: &Answer,
) -> Result<(), AllocError>
    ensures marks { row.new.marks.items ≡ row.old.marks.items }
    ensures took { row.new.took ≡ row.old.took }
{
    if row.words.is_empty() {
        return Ok(());
    }
    put_told(row, of_reply(alloc, names, node, answer)?)
}

/// Appends the reason why a command is refused, below its words, if there are some.
pub(crate) fn put_refusal(alloc: Global, row: &mut Row, why: Refusal) -> Result<(), AllocError>
    ensures marks { row.new.marks.items ≡ row.old.marks.items }
    ensures took { row.new.took ≡ row.old.took }
{
    if row.words.is_empty() {
        return Ok(());
    }
    let (number, name) = (why.number(), why.name());
    let text = format!(in alloc; "refused {number} {name}")?;
    row.words.push(text)?;
    Ok(())
}
