//! The arrows of a drawing.
ghost use Rattle.std.specs.Prelude.{OnOk, string_bytes};
ghost use Rattle.diagram_svg.specs.Markup.{Appends};

use crate::figures::{Point, put_box, put_line, put_words};
use crate::frame::{Column, Frame};
use crate::rows::line_of;
use crate::words::shortened;
use diagram::{Arrow, End, Item, Layout, Mark, Row};
use std::alloc::{AllocError, Global};

// An arrow from a place to another, whether it goes to the right, and whether its label stands at the right
// of its start.
#[derive(Clone, Copy)]
struct Span {
    from: Point,
    to: Point,
    is_right: bool,
    is_said_right: bool,
}

// So far from a place, to the right or to the left.
fn aside(x: u64, by: u64, is_right: bool) -> u64 {
    if is_right {
        x.saturating_add(by)
    } else {
        x.saturating_sub(by)
    }
}

// Whether the label of an arrow stands at the right of its start: outside of all lanes where it can, for
// there are no arrows, else at the side to which it goes.
fn is_said_right(frame: Frame, item: &Item, is_right: bool) -> bool {
    if is_right {
        item.from > 0
    } else {
        frame.is_last(item.from)
    }
}

// The rank of an arrow: the number of arrows of its queue before it that no row takes, and the number of all
// arrows before it that come from the upper edge.
#[derive(Clone, Copy)]
struct Rank {
    before: u64,
    above: u64,
}

impl Rank {
    // Returns the rank of the arrow behind this one in its queue.
    fn behind(self, frame: Frame, arrow: Arrow) -> Rank {
        let comes = if frame.comes_from_above(arrow) { 1 } else { 0 };
        Rank {
            before: self.before.saturating_add(waits(arrow.end)),
            above: self.above.saturating_add(comes),
        }
    }
}

// Returns the place at which an arrow begins: the line of its mark, or the upper edge.
fn start_of(frame: Frame, layout: &Layout, arrow: Arrow, rank: Rank) -> u64 {
    if frame.is_hidden(arrow.row) {
        return frame.edge(rank.above);
    }
    let line = line_of(layout, arrow.row, arrow.mark);
    frame.line(layout, arrow.row, line)
}

// Returns the way from a lane to the end of an arrow, and the place of that end. An arrow that no row takes
// ends between the lanes, the farther the fewer such arrows are before it. So none hides another.
fn end_of(frame: Frame, layout: &Layout, way: u64, end: End, before: u64) -> (u64, u64) {
    match end {
        End::Taken(row) => (way.saturating_sub(3), frame.line(layout, row, 0)),
        End::Lost(row) => (
            way.saturating_mul(5) / before.saturating_mul(2).saturating_add(10),
            frame.end(layout, row),
        ),
        End::OnItsWay => (
            way.saturating_mul(3) / before.saturating_add(4),
            frame.bottom(layout).saturating_add(4),
        ),
    }
}

// Returns the place of an arrow.
fn span_of(frame: Frame, layout: &Layout, item: &Item, arrow: Arrow, rank: Rank) -> Span {
    let is_right = item.from <= item.to;
    let start = frame.lane(item.from);
    let way = frame.lane(item.to).abs_diff(start).max(60);
    let (reach, y) = end_of(frame, layout, way, arrow.end, rank.before);
    Span {
        from: Point {
            x: start,
            y: start_of(frame, layout, arrow, rank),
        },
        to: Point {
            x: aside(start, reach, is_right),
            y,
        },
        is_right,
        is_said_right: is_said_right(frame, item, is_right),
    }
}

// The ends of the two strokes of an arrow's head: lower at the side from which the arrow comes, the
// steeper it is.
fn strokes(span: Span) -> (Point, Point) {
    let Point { x, y } = span.to;
    let wide = x.abs_diff(span.from.x);
    let high = y.abs_diff(span.from.y);
    let is_left = !span.is_right;
    if high.saturating_mul(3) < wide {
        let (up, down) = (y.saturating_sub(5), y.saturating_add(3));
        let x = aside(x, 8, is_left);
        return (Point { x, y: up }, Point { x, y: down });
    }
    if high < wide.saturating_mul(2) {
        let upper = Point {
            x: aside(x, 4, is_left),
            y: y.saturating_sub(8),
        };
        return (
            upper,
            Point {
                x: aside(x, 9, is_left),
                y,
            },
        );
    }
    let y = y.saturating_sub(8);
    (
        Point {
            x: aside(x, 2, span.is_right),
            y,
        },
        Point {
            x: aside(x, 6, is_left),
            y,
        },
    )
}

// The head of an arrow.
fn put_head(out: &mut String, span: Span) -> Result<(), AllocError>
    ensures { OnOk result (Appends (string_bytes out.old) (string_bytes out.new)) }
{
    let (one, other) = strokes(span);
    put_line(out, "head", one, span.to, "")?;
    put_line(out, "head", other, span.to, "")?;
    Ok(())
}

// A cross.
fn put_cross(out: &mut String, at: Point) -> Result<(), AllocError>
    ensures { OnOk result (Appends (string_bytes out.old) (string_bytes out.new)) }
{
    let (left, right) = (at.x.saturating_sub(6), at.x.saturating_add(6));
    let (up, down) = (at.y.saturating_sub(6), at.y.saturating_add(6));
    put_line(
        out,
        "cross",
        Point { x: left, y: up },
        Point { x: right, y: down },
        "",
    )?;
    put_line(
        out,
        "cross",
        Point { x: left, y: down },
        Point { x: right, y: up },
        "",
    )?;
    Ok(())
}

// What stands at the end of an arrow.
fn put_arrow_end(out: &mut String, span: Span, end: End) -> Result<(), AllocError>
    ensures { OnOk result (Appends (string_bytes out.old) (string_bytes out.new)) }
{
    match end {
        End::Lost(_) => put_cross(out, span.to),
        End::Taken(_) => put_head(out, span),
        End::OnItsWay => put_head(out, span),
    }
}

fn class_of(end: End) -> &'static str {
    match end {
        End::Taken(_) => "sent",
        End::Lost(_) => "lost",
        End::OnItsWay => "waiting",
    }
}

fn put_arrow(out: &mut String, span: Span, end: End, tooltip: &str) -> Result<(), AllocError>
    ensures { OnOk result (Appends (string_bytes out.old) (string_bytes out.new)) }
{
    let corner = Point {
        x: span.from.x.saturating_sub(4),
        y: span.from.y.saturating_sub(4),
    };
    put_line(out, class_of(end), span.from, span.to, tooltip)?;
    put_box(out, "start", corner, 8, 8)?;
    put_arrow_end(out, span, end)?;
    Ok(())
}

// What becomes of an item that isn't taken.
fn fate_of(end: End) -> &'static str {
    match end {
        End::Taken(_) => "",
        End::Lost(_) => " (lost)",
        End::OnItsWay => " (on its way)",
    }
}

// The words at the start of an arrow, and their tooltip.
#[derive(Drop)]
struct Label {
    words: String,
    tooltip: String,
}

// Returns the words at the start of an item's arrow. The tooltip is that of the item, behind the name of the
// item if that is cut.
fn label_of(alloc: Global, column: Column, item: &Item, end: End) -> Result<Label, AllocError> {
    let fate = fate_of(end);
    let room = column.whole_label.saturating_sub(fate.len());
    let name = item.label.as_str();
    let mut words = shortened(alloc, name, room.min(column.label))?;
    let mut tooltip = String::new(alloc);
    if words.as_str() != name {
        tooltip.push_str(name)?;
        tooltip.push_str("\n")?;
    }
    tooltip.push_str(item.tooltip.as_str())?;
    words.push_str(fate)?;
    Ok(Label { words, tooltip })
}

// Beside the start of an arrow, or above the arrow where that goes to the same side.
fn label_height(span: Span) -> u64 {
    if span.is_said_right == span.is_right {
        span.from.y.saturating_sub(3)
    } else {
        span.from.y.saturating_add(4)
    }
}

fn put_label(
    alloc: Global,
    out: &mut String,
    column: Column,
    span: Span,
    end: End,
    item: &Item,
) -> Result<(), AllocError>
    ensures { OnOk result (Appends (string_bytes out.old) (string_bytes out.new)) }
{
    let class = if span.is_said_right {
        "label"
    } else {
        "label-left"
    };
    let at = Point {
        x: aside(span.from.x, 9, span.is_said_right),
        y: label_height(span),
    };
    let Label { words, tooltip } = label_of(alloc, column, item, end)?;
    put_words(out, class, at, words.as_str(), tooltip.as_str())?;
    Ok(())
}

// The item that an arrow is of.
fn item_of(rows: &[Row], arrow: Arrow) -> Option<&Item> {
    match rows.get(arrow.row)?.marks.get(arrow.mark)? {
        Mark::Sent(item) => Some(item),
        Mark::Note(_) => None,
    }
}

// Which part of the arrows is drawn: what is said of them comes last, so that it lies above all lines.
#[derive(Clone, Copy)]
enum Part {
    Lines,
    Labels,
}

fn put_part(
    alloc: Global,
    out: &mut String,
    part: Part,
    column: Column,
    span: Span,
    end: End,
    item: &Item,
) -> Result<(), AllocError>
    ensures { OnOk result (Appends (string_bytes out.old) (string_bytes out.new)) }
{
    match part {
        Part::Lines => put_arrow(out, span, end, item.tooltip.as_str()),
        Part::Labels => put_label(alloc, out, column, span, end, item),
    }
}

// 1 for an arrow whose item no row takes.
fn waits(end: End) -> u64 {
    match end {
        End::Taken(_) => 0,
        End::Lost(_) => 1,
        End::OnItsWay => 1,
    }
}

// Appends an arrow, unless it ends above the rows that are drawn.
fn put_one(
    alloc: Global,
    out: &mut String,
    part: Part,
    frame: Frame,
    layout: &Layout,
    rows: &[Row],
    arrow: Arrow,
    rank: Rank,
) -> Result<(), AllocError>
    ensures { OnOk result (Appends (string_bytes out.old) (string_bytes out.new)) }
{
    if frame.is_over(arrow) {
        return Ok(());
    }
    match item_of(rows, arrow) {
        Some(item) => {
            let span = span_of(frame, layout, item, arrow, rank);
            put_part(alloc, out, part, frame.column, span, arrow.end, item)
        }
        None => Ok(()),
    }
}

// Appends the arrows of a queue. `above` arrows of other queues come from the upper edge before them.
fn put_queue(
    alloc: Global,
    out: &mut String,
    part: Part,
    frame: Frame,
    layout: &Layout,
    rows: &[Row],
    arrows: &[Arrow],
    above: u64,
) -> Result<(), AllocError>
    ensures { OnOk result (Appends (string_bytes out.old) (string_bytes out.new)) }
{
    let mut rank = Rank { before: 0, above };
    for arrow in arrows {
        put_one(alloc, out, part, frame, layout, rows, *arrow, rank)?;
        rank = rank.behind(frame, *arrow);
    }
    Ok(())
}

fn put_parts(
    alloc: Global,
    out: &mut String,
    part: Part,
    frame: Frame,
    layout: &Layout,
    rows: &[Row],
) -> Result<(), AllocError>
    ensures { OnOk result (Appends (string_bytes out.old) (string_bytes out.new)) }
{
    let mut above: u64 = 0;
    for arrows in &layout.arrows {
        put_queue(alloc, out, part, frame, layout, rows, arrows, above)?;
        above = above.saturating_add(frame.count_above(arrows));
    }
    Ok(())
}

/// Appends the lines of the arrows.
pub(crate) fn put_arrows(
    alloc: Global,
    out: &mut String,
    frame: Frame,
    layout: &Layout,
    rows: &[Row],
) -> Result<(), AllocError>
    ensures { OnOk result (Appends (string_bytes out.old) (string_bytes out.new)) }
{
    put_parts(alloc, out, Part::Lines, frame, layout, rows)
}

/// Appends what is said of the arrows.
pub(crate) fn put_labels(
    alloc: Global,
    out: &mut String,
    frame: Frame,
    layout: &Layout,
    rows: &[Row],
) -> Result<(), AllocError>
    ensures { OnOk result (Appends (string_bytes out.old) (string_bytes out.new)) }
{
    put_parts(alloc, out, Part::Labels, frame, layout, rows)
}
