//! The lanes, the words and the notes of a drawing.
ghost use Rattle.std.specs.Prelude.{◌≤◌, OnOk, length, string_bytes};
ghost use Rattle.diagram_svg.specs.Markup.{Appends};

use crate::figures::{Point, put_box, put_line, put_words};
use crate::frame::{Frame, MOST_UNDER, UNDER};
use crate::words::{put_explained, put_short, shortened};
use diagram::{Lane, Layout, Mark, Note, Row, Tone};
use std::alloc::{AllocError, Global};

// The most characters that have room at the left.
const WORDS: usize = 30;

// Returns the number of the words below the name of a lane that have room, beside the line that counts the
// others.
fn shown_of(under: &[String]) -> usize
    ensures { result ≤ length under.now }
{
    if under.len() > MOST_UNDER {
        MOST_UNDER - 1
    } else {
        under.len()
    }
}

// Returns lines as one text, each behind a line break but the first.
fn joined(alloc: Global, lines: &[String]) -> Result<String, AllocError> {
    let mut text = String::new(alloc);
    for (place, line) in lines.iter().enumerate() {
        if place > 0 {
            text.push('\n')?;
        }
        text.push_str(line.as_str())?;
    }
    Ok(text)
}

// Appends the number of the words below the name of a lane that have no room. Their tooltip is these words.
fn put_left(alloc: Global, out: &mut String, at: Point, left: &[String]) -> Result<(), AllocError>
    ensures { OnOk result (Appends (string_bytes out.old) (string_bytes out.new)) }
{
    if left.is_empty() {
        return Ok(());
    }
    let count = left.len();
    let words = format!(in alloc; "and {count} more")?;
    let tooltip = joined(alloc, left)?;
    put_words(out, "under", at, words.as_str(), tooltip.as_str())?;
    Ok(())
}

// Appends the words below the name of a lane.
fn put_under(
    alloc: Global,
    out: &mut String,
    frame: Frame,
    at: Point,
    under: &[String],
) -> Result<(), AllocError>
    ensures { OnOk result (Appends (string_bytes out.old) (string_bytes out.new)) }
{
    let (shown, left) = under.split_at(shown_of(under));
    let Point { x, mut y } = at;
    for words in shown {
        let at = Point { x, y };
        put_short(alloc, out, "under", at, words.as_str(), frame.column.under)?;
        y = y.saturating_add(UNDER);
    }
    put_left(alloc, out, Point { x, y }, left)?;
    Ok(())
}

// Appends the name of a lane, in a box.
fn put_name(
    alloc: Global,
    out: &mut String,
    frame: Frame,
    at: Point,
    lane: &Lane,
) -> Result<(), AllocError>
    ensures { OnOk result (Appends (string_bytes out.old) (string_bytes out.new)) }
{
    let width = frame.column.head;
    let corner = Point {
        x: at.x.saturating_sub(width / 2),
        y: at.y.saturating_add(16),
    };
    put_box(out, "node", corner, width, 28)?;
    let middle = Point {
        x: at.x,
        y: at.y.saturating_add(35),
    };
    let name = lane.name.as_str();
    put_short(alloc, out, "name", middle, name, frame.column.name)?;
    Ok(())
}

// Returns the lower end of the life lines below the names of the lanes, for the time of this number.
fn life_end(frame: Frame, layout: &Layout, number: usize) -> u64 {
    let next = number.saturating_add(1);
    if next < frame.all_heads() {
        frame.head(layout, next).saturating_add(10)
    } else {
        frame.bottom(layout).saturating_add(10)
    }
}

// Appends a lane with its name, down to the next time that the names stand there.
fn put_lane(
    alloc: Global,
    out: &mut String,
    frame: Frame,
    layout: &Layout,
    number: usize,
    place: usize,
    lane: &Lane,
) -> Result<(), AllocError>
    ensures { OnOk result (Appends (string_bytes out.old) (string_bytes out.new)) }
{
    let x = frame.lane(place);
    let head = frame.head(layout, number);
    let from = Point {
        x,
        y: frame.below_head(head).saturating_sub(14),
    };
    let to = Point {
        x,
        y: life_end(frame, layout, number),
    };
    let under = Point {
        x,
        y: head.saturating_add(60),
    };
    put_line(out, "life", from, to, "")?;
    put_name(alloc, out, frame, Point { x, y: head }, lane)?;
    put_under(alloc, out, frame, under, &lane.under)?;
    Ok(())
}

// Appends the lanes, down to the next time that their names stand there.
fn put_heads(
    alloc: Global,
    out: &mut String,
    frame: Frame,
    layout: &Layout,
    number: usize,
    lanes: &[Lane],
) -> Result<(), AllocError>
    ensures { OnOk result (Appends (string_bytes out.old) (string_bytes out.new)) }
{
    for (place, lane) in lanes.iter().enumerate() {
        put_lane(alloc, out, frame, layout, number, place, lane)?;
    }
    Ok(())
}

/// Appends the lanes, each with its name and the words below it. These stand again above each forty rows.
pub(crate) fn put_lanes(
    alloc: Global,
    out: &mut String,
    frame: Frame,
    layout: &Layout,
    lanes: &[Lane],
) -> Result<(), AllocError>
    ensures { OnOk result (Appends (string_bytes out.old) (string_bytes out.new)) }
{
    for number in 0..frame.all_heads() {
        put_heads(alloc, out, frame, layout, number, lanes)?;
    }
    Ok(())
}

// Appends the number of folded lines. Their tooltip is the lines.
fn put_count(alloc: Global, out: &mut String, at: Point, lines: &[String]) -> Result<(), AllocError>
    ensures { OnOk result (Appends (string_bytes out.old) (string_bytes out.new)) }
{
    let count = lines.len();
    let words = format!(in alloc; "{count} lines")?;
    let tooltip = joined(alloc, lines)?;
    put_words(out, "said", at, words.as_str(), tooltip.as_str())?;
    Ok(())
}

// Appends the folded lines of a row: nothing for none, the line for one, and else their number.
fn put_folded(
    alloc: Global,
    out: &mut String,
    at: Point,
    lines: &[String],
) -> Result<(), AllocError>
    ensures { OnOk result (Appends (string_bytes out.old) (string_bytes out.new)) }
{
    match lines {
        [] => Ok(()),
        [line] => put_short(alloc, out, "command", at, line.as_str(), WORDS),
        _ => put_count(alloc, out, at, lines),
    }
}

// Appends a line of the words of a row: the first as a command, and the last with its tooltip.
fn put_row_line(
    alloc: Global,
    out: &mut String,
    at: Point,
    row: &Row,
    line: usize,
    words: &str,
) -> Result<(), AllocError>
    ensures { OnOk result (Appends (string_bytes out.old) (string_bytes out.new)) }
{
    let class = if line == 0 { "command" } else { "said" };
    let is_last = line.saturating_add(1) == row.words.len();
    let tooltip = if is_last { row.tooltip.as_str() } else { "" };
    put_explained(alloc, out, class, at, words, tooltip, WORDS)
}

// Appends the words of a row.
fn put_row_words(
    alloc: Global,
    out: &mut String,
    frame: Frame,
    layout: &Layout,
    place: usize,
    row: &Row,
) -> Result<(), AllocError>
    ensures { OnOk result (Appends (string_bytes out.old) (string_bytes out.new)) }
{
    for (line, words) in row.words.iter().enumerate() {
        let at = Point {
            x: 20,
            y: frame.line(layout, place, line).saturating_add(4),
        };
        put_row_line(alloc, out, at, row, line, words.as_str())?;
    }
    Ok(())
}

// Appends the line above a row.
fn put_rule(out: &mut String, frame: Frame, y: u64) -> Result<(), AllocError>
    ensures { OnOk result (Appends (string_bytes out.old) (string_bytes out.new)) }
{
    let end = Point {
        x: frame.width().saturating_sub(20),
        y,
    };
    put_line(out, "rule", Point { x: 20, y }, end, "")?;
    Ok(())
}

// Appends the words of a row that is drawn, and the line above it.
fn put_row(
    alloc: Global,
    out: &mut String,
    frame: Frame,
    layout: &Layout,
    place: usize,
    row: &Row,
) -> Result<(), AllocError>
    ensures { OnOk result (Appends (string_bytes out.old) (string_bytes out.new)) }
{
    if frame.is_hidden(place) {
        return Ok(());
    }
    put_rule(out, frame, frame.row(layout, place).saturating_sub(5))?;
    let at = Point {
        x: 20,
        y: frame.line(layout, place, 0).saturating_add(4),
    };
    put_folded(alloc, out, at, &row.folded)?;
    put_row_words(alloc, out, frame, layout, place, row)?;
    Ok(())
}

// Appends words beside the items that come from the upper edge, if there are any.
fn put_edge(out: &mut String, frame: Frame) -> Result<(), AllocError>
    ensures { OnOk result (Appends (string_bytes out.old) (string_bytes out.new)) }
{
    if !frame.has_above() {
        return Ok(());
    }
    let at = Point {
        x: 20,
        y: frame.edge(0).saturating_add(4),
    };
    put_words(out, "said", at, "sent before", "")?;
    Ok(())
}

/// Appends the words of the rows that are drawn, and a line between each two.
pub(crate) fn put_rows(
    alloc: Global,
    out: &mut String,
    frame: Frame,
    layout: &Layout,
    rows: &[Row],
) -> Result<(), AllocError>
    ensures { OnOk result (Appends (string_bytes out.old) (string_bytes out.new)) }
{
    for (place, row) in rows.iter().enumerate() {
        put_row(alloc, out, frame, layout, place, row)?;
    }
    put_edge(out, frame)?;
    Ok(())
}

fn class_of(tone: Tone) -> &'static str {
    match tone {
        Tone::Plain => "plain",
        Tone::Calm => "calm",
        Tone::Pending => "pending",
        Tone::Alarm => "alarm",
    }
}

// A note in a box around it.
fn put_note(
    alloc: Global,
    out: &mut String,
    at: Point,
    note: &Note,
    most: usize,
) -> Result<(), AllocError>
    ensures { OnOk result (Appends (string_bytes out.old) (string_bytes out.new)) }
{
    let (words, tooltip) = (note.words.as_str(), note.tooltip.as_str());
    let short = shortened(alloc, words, most)?;
    let count = short.as_str().chars().count() as u64;
    let width = count.saturating_mul(7).saturating_add(20);
    let corner = Point {
        x: at.x.saturating_sub(width / 2),
        y: at.y.saturating_sub(8),
    };
    let foot = Point {
        x: at.x,
        y: at.y.saturating_add(4),
    };
    put_box(out, class_of(note.tone), corner, width, 16)?;
    put_explained(alloc, out, "words", foot, words, tooltip, most)
}

fn put_mark(
    alloc: Global,
    out: &mut String,
    frame: Frame,
    y: u64,
    mark: &Mark,
) -> Result<(), AllocError>
    ensures { OnOk result (Appends (string_bytes out.old) (string_bytes out.new)) }
{
    match mark {
        Mark::Note(note) => {
            let x = frame.lane(note.lane);
            put_note(alloc, out, Point { x, y }, note, frame.column.note)
        }
        Mark::Sent(_) => Ok(()),
    }
}

/// The line of a mark in its row.
pub(crate) fn line_of(layout: &Layout, row: usize, mark: usize) -> usize {
    let lines = layout.lines.get(row);
    lines
        .and_then(|lines| lines.get(mark))
        .copied()
        .unwrap_or(0)
}

fn put_row_notes(
    alloc: Global,
    out: &mut String,
    frame: Frame,
    layout: &Layout,
    row: usize,
    marks: &[Mark],
) -> Result<(), AllocError>
    ensures { OnOk result (Appends (string_bytes out.old) (string_bytes out.new)) }
{
    for (place, mark) in marks.iter().enumerate() {
        let y = frame.line(layout, row, line_of(layout, row, place));
        put_mark(alloc, out, frame, y, mark)?;
    }
    Ok(())
}

// Appends the notes of a row that is drawn.
fn put_notes_of(
    alloc: Global,
    out: &mut String,
    frame: Frame,
    layout: &Layout,
    place: usize,
    row: &Row,
) -> Result<(), AllocError>
    ensures { OnOk result (Appends (string_bytes out.old) (string_bytes out.new)) }
{
    if frame.is_hidden(place) {
        return Ok(());
    }
    put_row_notes(alloc, out, frame, layout, place, &row.marks)
}

/// Appends the notes of the rows that are drawn.
pub(crate) fn put_notes(
    alloc: Global,
    out: &mut String,
    frame: Frame,
    layout: &Layout,
    rows: &[Row],
) -> Result<(), AllocError>
    ensures { OnOk result (Appends (string_bytes out.old) (string_bytes out.new)) }
{
    for (place, row) in rows.iter().enumerate() {
        put_notes_of(alloc, out, frame, layout, place, row)?;
    }
    Ok(())
}
