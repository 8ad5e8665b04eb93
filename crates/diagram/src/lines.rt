//! On which line each mark stands, and how high each row is.
ghost use Rattle.std.specs.Prelude.{◌≡◌, ◌+◌, IfOk, count_by};
ghost use Rattle.diagram.specs.Lines.{first_line, height_of, is_on, lane_of, lines_of, reach};

use crate::rows::{Mark, Row};
use std::alloc::{AllocError, Global};

// The lane on which a mark stands.
fn lane_of(mark: &Mark) -> usize
    ensures { result ≡ lane_of mark.now }
{
    match mark {
        Mark::Note(note) => note.lane,
        Mark::Sent(item) => item.from,
    }
}

fn count_on(lane: usize, marks: &[Mark]) -> usize
    ensures { result ≡ count_by (is_on lane) marks.now }
{
    marks.iter().filter(|mark| lane_of(mark) == lane).count()
}

// More lines than can be counted want more memory than there is.
pub(crate) fn sum(a: usize, b: usize) -> Result<usize, AllocError>
    ensures { IfOk result (λ sum. sum ≡ a + b) }
{
    a.checked_add(b).ok_or(AllocError)
}

// The first line of a row on which a mark stands.
fn first_line(row: &Row) -> usize
    ensures { result ≡ first_line row.now }
{
    if row.took.is_some() { 1 } else { 0 }
}

// The line of a mark, behind those before it.
fn line_of(first: usize, before: &[Mark], mark: &Mark) -> Result<usize, AllocError>
    ensures { IfOk result (λ line. line ≡ first + count_by (is_on (lane_of mark.now)) before.now) }
{
    sum(first, count_on(lane_of(mark), before))
}

/// The line of each mark of a row, from 0.
///
/// # Errors
/// Where memory is wanting.
pub(crate) fn lines(alloc: Global, row: &Row) -> Result<Vec<usize>, AllocError>
    ensures { IfOk result (λ lines. lines.items ≡ lines_of row.now) }
{
    let first = first_line(row);
    let marks = row.marks.as_slice();
    let mut lines = Vec::new(alloc);
    for (i, mark) in marks.iter().enumerate() {
        lines.push(line_of(first, &marks[..i], mark)?)?;
    }
    Ok(lines)
}

// How many lines these take, and no fewer than so many.
fn reach(least: usize, lines: &[usize]) -> Result<usize, AllocError>
    ensures { IfOk result (λ height. height ≡ reach least lines.now) }
{
    let mut height = least;
    for line in lines {
        height = height.max(sum(*line, 1)?);
    }
    Ok(height)
}

/// How many lines a row takes whose marks stand on these.
///
/// # Errors
/// Where memory is wanting.
pub(crate) fn height(row: &Row, lines: &[usize]) -> Result<usize, AllocError>
    requires { lines.now ≡ lines_of row.now }
    ensures { IfOk result (λ height. height ≡ height_of row.now) }
{
    reach(row.words.len().max(1), lines)
}
