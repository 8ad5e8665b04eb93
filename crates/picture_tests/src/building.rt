//! Diagrams that are told by texts.
//!
//! A row has its parts between `;`: its words at the left, and then `TAKE QUEUE`, `GIVE-UP QUEUE`,
//! `NOTE LANE WORDS`, `SEND FROM TO QUEUE LABEL` and `FOLD LINE`, in any order.

use diagram::{Diagram, Item, Lane, Mark, Note, Row, Tone};
use std::alloc::Global;
use std::test::Fail;

/// A diagram of these lanes and rows.
pub fn diagram(alloc: Global, title: &str, lanes: &[&str], rows: &[&str]) -> Result<Diagram, Fail> {
    let mut diagram = Diagram {
        title: String::from_str(alloc, title)?,
        lanes: Vec::new(alloc),
        rows: Vec::new(alloc),
        hidden: 0,
    };
    put_lanes(alloc, &mut diagram.lanes, lanes)?;
    put_rows(alloc, &mut diagram.rows, rows)?;
    Ok(diagram)
}

fn put_lanes(alloc: Global, lanes: &mut Vec<Lane>, names: &[&str]) -> Result<(), Fail> {
    for name in names {
        put_lane(alloc, lanes, name)?;
    }
    Ok(())
}

fn put_lane(alloc: Global, lanes: &mut Vec<Lane>, name: &str) -> Result<(), Fail> {
    let mut under = Vec::new(alloc);
    under.push(String::from_str(alloc, "process p")?)?;
    let name = String::from_str(alloc, name)?;
    lanes.push(Lane { name, under })?;
    Ok(())
}

/// Puts a row for each text behind those that are there.
pub fn put_rows(alloc: Global, rows: &mut Vec<Row>, texts: &[&str]) -> Result<(), Fail> {
    for text in texts {
        put_row(alloc, rows, text)?;
    }
    Ok(())
}

fn put_row(alloc: Global, rows: &mut Vec<Row>, text: &str) -> Result<(), Fail> {
    let mut row = Row {
        words: Vec::new(alloc),
        tooltip: String::new(alloc),
        folded: Vec::new(alloc),
        took: None,
        marks: Vec::new(alloc),
        gave_up: Vec::new(alloc),
    };
    for part in text.split(';') {
        put_part(alloc, &mut row, part)?;
    }
    rows.push(row)?;
    Ok(())
}

fn put_part(alloc: Global, row: &mut Row, part: &str) -> Result<(), Fail> {
    match part.split_once(' ') {
        Some(("TAKE", queue)) => {
            row.took = Some(queue.parse::<u32>()?);
            Ok(())
        }
        Some(("GIVE-UP", queue)) => {
            row.gave_up.push(queue.parse::<u32>()?)?;
            Ok(())
        }
        Some(("FOLD", line)) => {
            row.folded.push(String::from_str(alloc, line)?)?;
            Ok(())
        }
        Some(("NOTE", note)) => put_note(alloc, &mut row.marks, note),
        Some(("SEND", item)) => put_item(alloc, &mut row.marks, item),
        _ => {
            row.words.push(String::from_str(alloc, part)?)?;
            Ok(())
        }
    }
}

fn put_note(alloc: Global, marks: &mut Vec<Mark>, text: &str) -> Result<(), Fail> {
    let (lane, words) = text.split_once(' ').unwrap_or(("0", text));
    let tone = if words.contains("pending") {
        Tone::Pending
    } else if words.contains("active") {
        Tone::Calm
    } else if words.contains("ends") {
        Tone::Alarm
    } else {
        Tone::Plain
    };
    marks.push(Mark::Note(Note {
        lane: lane.parse::<usize>()?,
        tone,
        words: String::from_str(alloc, words)?,
        tooltip: String::new(alloc),
    }))?;
    Ok(())
}

fn put_item(alloc: Global, marks: &mut Vec<Mark>, text: &str) -> Result<(), Fail> {
    let mut parts = text.splitn(4, ' ');
    let from = parts.next().unwrap_or("0").parse::<usize>()?;
    let to = parts.next().unwrap_or("0").parse::<usize>()?;
    let queue = parts.next().unwrap_or("0").parse::<u32>()?;
    let label = parts.next().unwrap_or("");
    marks.push(Mark::Sent(Item {
        label: String::from_str(alloc, label)?,
        tooltip: String::from_str(alloc, "0000002A70")?,
        from,
        to,
        queue,
    }))?;
    Ok(())
}
