//! A diagram as a drawing in SVG. Where a figure stands is not proved, but for what `lay_out` says.
ghost use Rattle.std.specs.Prelude.{OnOk, string_bytes};
ghost use Rattle.diagram_svg.specs.Drawing.{AppendsDocument};
ghost use Rattle.diagram_svg.specs.Markup.{Appends};

use crate::arrows::{put_arrows, put_labels};
use crate::document::{put_end, put_start};
use crate::figures::{Point, put_box};
use crate::frame::{Frame, frame_of};
use crate::rows::{put_lanes, put_notes, put_rows};
use crate::style::style;
use diagram::{Diagram, Layout, lay_out};
use std::alloc::{AllocError, Global};

/// Appends the figures of a diagram, from the back to the front.
///
/// # Errors
/// [`AllocError`] if out of memory.
pub(crate) fn put_figures(
    alloc: Global,
    out: &mut String,
    frame: Frame,
    diagram: &Diagram,
    layout: &Layout,
) -> Result<(), AllocError>
    ensures { OnOk result (Appends (string_bytes out.old) (string_bytes out.new)) }
{
    put_box(
        out,
        "paper",
        Point { x: 0, y: 0 },
        frame.width(),
        frame.height(layout),
    )?;
    put_rows(alloc, out, frame, layout, &diagram.rows)?;
    put_lanes(alloc, out, frame, layout, &diagram.lanes)?;
    put_arrows(alloc, out, frame, layout, &diagram.rows)?;
    put_notes(alloc, out, frame, layout, &diagram.rows)?;
    put_labels(alloc, out, frame, layout, &diagram.rows)?;
    Ok(())
}

/// Appends a drawing of a diagram, a whole document of SVG. Its words stand in it as they are, but for
/// characters that no XML document may have, and for the end of those that have no room.
///
/// # Errors
/// Where memory is wanting.
pub fn put_picture(alloc: Global, out: &mut String, diagram: &Diagram) -> Result<(), AllocError>
    ensures { OnOk result (AppendsDocument (string_bytes out.old) (string_bytes out.new)) }
{
    let layout = lay_out(alloc, &diagram.rows)?;
    let frame = frame_of(diagram, &layout);
    let (width, height) = (frame.width(), frame.height(&layout));
    put_start(out, width, height, diagram.title.as_str(), style())?;
    put_figures(alloc, out, frame, diagram, &layout)?;
    put_end(out)?;
    Ok(())
}
