//! Several diagrams in one drawing, side by side, each under a heading.
ghost use Rattle.std.specs.Prelude.{◌≡◌, ◌<◌, ◌++◌, OnOk, codes, map, string_bytes};
ghost use Rattle.diagram_svg.specs.Markup.{Appends};
ghost use Rattle.diagram_svg.specs.Panels.{AppendsPanels, Nests, Says, SaysAll, ShowsPanel, ShowsPanels, part_text};

use crate::document::{put_end, put_start};
use crate::drawing::put_figures;
use crate::figures::{Point, put_box};
use crate::frame::{Frame, frame_of};
use crate::markup::put_number;
use crate::style::style_of_panels;
use crate::words::put_short;
use diagram::{Diagram, Layout, lay_out};
use std::alloc::{AllocError, Global};

/// A diagram under a heading.
#[derive(Drop)]
pub struct Panel {
    /// The lines of the heading. The first is the greater one.
    pub heading: Vec<String>,
    /// The diagram.
    pub diagram: Diagram,
}

// The height of a line of a heading.
const LINE: u64 = 22;

// The room above and below the lines of a heading, and at their left.
const MARGIN: u64 = 20;

// The width of a character.
const CHARACTER: u64 = 8;

// A width and a height, in pixels.
#[derive(Clone, Copy)]
struct Size {
    width: u64,
    height: u64,
}

// Returns the number of panels side by side, of so many in all. Others stand below them.
fn columns_of(panels: usize) -> usize
    ensures { 0 < result }
{
    match panels {
        0 => 1,
        1..=3 => panels,
        4 => 2,
        _ => 3,
    }
}

// The places of panels, all of which have the same size.
#[derive(Clone, Copy)]
struct Grid {
    panels: usize,
    /// The size of a diagram.
    diagram: Size,
    /// The height of a heading.
    heading: u64,
    /// The height of the words above all panels.
    caption: u64,
}

impl Grid {
    // Returns the corner of a panel.
    fn corner(self, place: usize) -> Point {
        let columns = columns_of(self.panels);
        let column = (place % columns) as u64;
        let row = (place / columns) as u64;
        Point {
            x: column.saturating_mul(self.diagram.width),
            y: row
                .saturating_mul(self.heading.saturating_add(self.diagram.height))
                .saturating_add(self.caption),
        }
    }

    // Returns the size of the whole.
    fn size(self) -> Size {
        let columns = columns_of(self.panels);
        let rows = self.panels.div_ceil(columns) as u64;
        Size {
            width: (columns as u64).saturating_mul(self.diagram.width),
            height: rows
                .saturating_mul(self.heading.saturating_add(self.diagram.height))
                .saturating_add(self.caption),
        }
    }

    // Returns the most characters of a line.
    fn most(self) -> usize {
        (self.diagram.width.saturating_sub(MARGIN) / CHARACTER) as usize
    }
}

// Returns the size of a diagram in its frame.
fn size_in(frame: Frame, layout: &Layout) -> Size {
    Size {
        width: frame.width(),
        height: frame.height(layout),
    }
}

// Returns the size of a diagram.
fn size_of(alloc: Global, diagram: &Diagram) -> Result<Size, AllocError> {
    let layout = lay_out(alloc, &diagram.rows)?;
    Ok(size_in(frame_of(diagram, &layout), &layout))
}

// Returns the height of words with so many lines.
fn height_of(lines: usize) -> u64 {
    (lines as u64)
        .saturating_mul(LINE)
        .saturating_add(2 * MARGIN)
}

// Returns the places of panels, below words of so many lines.
fn grid_of(alloc: Global, lines: usize, panels: &[Panel]) -> Result<Grid, AllocError> {
    let (mut heading, mut width, mut height) = (0, 720, 0);
    for panel in panels {
        let size = size_of(alloc, &panel.diagram)?;
        heading = panel.heading.len().max(heading);
        width = size.width.max(width);
        height = size.height.max(height);
    }
    Ok(Grid {
        panels: panels.len(),
        diagram: Size { width, height },
        heading: height_of(heading),
        caption: height_of(lines),
    })
}

// Returns the class of a line of a heading, by its place, from 0.
fn class_of(place: usize) -> &'static str {
    if place == 0 { "heading" } else { "command" }
}

// Appends the lines of a heading, which begins at a corner.
fn put_heading(
    alloc: Global,
    out: &mut String,
    corner: Point,
    lines: &[String],
    most: usize,
) -> Result<(), AllocError>
    ensures { OnOk result (SaysAll (map string_bytes lines.now) (string_bytes out.old) (string_bytes out.new)) }
{
    let x = corner.x.saturating_add(MARGIN);
    let mut y = corner.y.saturating_add(MARGIN);
    for (place, line) in lines.iter().enumerate() {
        y = y.saturating_add(LINE);
        let at = Point { x, y };
        put_short(alloc, out, class_of(place), at, line.as_str(), most)?;
    }
    Ok(())
}

// Appends the start of a drawing in another, at a corner and of a size.
#[tactic(auto, unfolding(crate::specs::Panels::part_text))]
fn put_part_start(out: &mut String, corner: Point, size: Size) -> Result<(), AllocError>
    ensures { OnOk result (string_bytes out.new ≡ string_bytes out.old ++ codes "<svg" ++ part_text corner size.width size.height ++ codes ">") }
{
    out.push_str("<svg")?;
    put_number(out, "x", corner.x)?;
    put_number(out, "y", corner.y)?;
    put_number(out, "width", size.width)?;
    put_number(out, "height", size.height)?;
    out.push_str(">")
}

// Appends a diagram as a drawing in another, at a corner.
fn put_diagram(
    alloc: Global,
    out: &mut String,
    corner: Point,
    diagram: &Diagram,
) -> Result<(), AllocError>
    ensures { OnOk result (Nests (string_bytes out.old) (string_bytes out.new)) }
{
    let layout = lay_out(alloc, &diagram.rows)?;
    let frame = frame_of(diagram, &layout);
    put_part_start(out, corner, size_in(frame, &layout))?;
    put_figures(alloc, out, frame, diagram, &layout)?;
    put_end(out)?;
    Ok(())
}

// Appends a panel: its heading, and its diagram below.
fn put_panel(
    alloc: Global,
    out: &mut String,
    grid: Grid,
    place: usize,
    panel: &Panel,
) -> Result<(), AllocError>
    ensures { OnOk result (ShowsPanel panel.now (string_bytes out.old) (string_bytes out.new)) }
{
    let corner = grid.corner(place);
    put_heading(alloc, out, corner, &panel.heading, grid.most())?;
    let below = Point {
        x: corner.x,
        y: corner.y.saturating_add(grid.heading),
    };
    put_diagram(alloc, out, below, &panel.diagram)?;
    Ok(())
}

// Appends panels.
fn put_all(alloc: Global, out: &mut String, grid: Grid, panels: &[Panel]) -> Result<(), AllocError>
    ensures { OnOk result (ShowsPanels panels.now (string_bytes out.old) (string_bytes out.new)) }
{
    for (place, panel) in panels.iter().enumerate() {
        put_panel(alloc, out, grid, place, panel)?;
    }
    Ok(())
}

// Appends the ground of a drawing, of a size.
fn put_ground(out: &mut String, size: Size) -> Result<(), AllocError>
    ensures { OnOk result (Appends (string_bytes out.old) (string_bytes out.new)) }
{
    put_box(out, "paper", Point { x: 0, y: 0 }, size.width, size.height)?;
    Ok(())
}

/// Appends one drawing of several diagrams, a whole document of SVG: the lines of a caption, and each diagram
/// under its heading, in their order. Up to three panels stand side by side, of four two, and others below them. A
/// line that has no room is cut, with the whole line as its tooltip.
///
/// # Errors
/// [`AllocError`] if out of memory.
pub fn put_panels(
    alloc: Global,
    out: &mut String,
    title: &str,
    caption: &[String],
    panels: &[Panel],
) -> Result<(), AllocError>
    ensures { OnOk result (AppendsPanels title.now (map string_bytes caption.now) panels.now (string_bytes out.old) (string_bytes out.new)) }
{
    let grid = grid_of(alloc, caption.len(), panels)?;
    let Size { width, height } = grid.size();
    let style = style_of_panels(alloc)?;
    put_start(out, width, height, title, style.as_str())?;
    put_ground(out, grid.size())?;
    put_heading(alloc, out, Point { x: 0, y: 0 }, caption, grid.most())?;
    put_all(alloc, out, grid, panels)?;
    put_end(out)?;
    Ok(())
}
