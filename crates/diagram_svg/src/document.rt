//! A drawing as a whole document.
ghost use Rattle.std.specs.Prelude.{◌≡◌, ◌++◌, OnOk, codes, string_bytes};
ghost use Rattle.std.specs.Fmt.{decimal};
ghost use Rattle.diagram_svg.specs.Document.{area, drawing_end, drawing_start, root_text};
ghost use Rattle.diagram_svg.specs.Escaping.{escaped_text};
ghost use Rattle.diagram_svg.specs.Markup.{attribute_text};

use crate::figures::put_text_element;
use crate::markup::{put_attribute, put_number};
use std::alloc::AllocError;

fn put_numbers(out: &mut String, width: u64, height: u64) -> Result<(), AllocError>
    ensures { OnOk result (string_bytes out.new ≡ string_bytes out.old ++ area width height) }
{
    write!(out, "0 0 {width} {height}")
}

// The whole area of a drawing of this size. No character of it is written by a reference.
fn put_area(out: &mut String, width: u64, height: u64) -> Result<(), AllocError>
    ensures { OnOk result (string_bytes out.new ≡ string_bytes out.old ++ escaped_text (area width height)) }
{
    put_numbers(out, width, height)?;
    Ok(())
}

#[tactic(auto, unfolding(crate::specs::Markup::attribute_text))]
fn put_view(out: &mut String, width: u64, height: u64) -> Result<(), AllocError>
    ensures { OnOk result (string_bytes out.new ≡ string_bytes out.old ++ attribute_text (codes "viewBox", area width height)) }
{
    out.push_str(" viewBox=\"")?;
    put_area(out, width, height)?;
    out.push_str("\"")
}

// The attributes of the root.
#[tactic(auto, unfolding(crate::specs::Document::root_text))]
fn put_root(out: &mut String, width: u64, height: u64) -> Result<(), AllocError>
    ensures { OnOk result (string_bytes out.new ≡ string_bytes out.old ++ root_text width height) }
{
    put_attribute(out, "xmlns", "http://www.w3.org/2000/svg")?;
    put_number(out, "width", width)?;
    put_number(out, "height", height)?;
    put_view(out, width, height)?;
    put_attribute(out, "role", "img")
}

/// Appends the beginning of a drawing of a size in pixels, up to its figures: its title, and its style in
/// CSS.
///
/// # Errors
/// Where there is no memory for it, as of the call below.
pub fn put_start(
    out: &mut String,
    width: u64,
    height: u64,
    title: &str,
    style: &str,
) -> Result<(), AllocError>
    ensures { OnOk result (string_bytes out.new ≡ string_bytes out.old ++ drawing_start width height title.now style.now) }
{
    out.push_str("<svg")?;
    put_root(out, width, height)?;
    out.push_str(">\n")?;
    put_text_element(out, "title", title)?;
    out.push_str("\n")?;
    put_text_element(out, "style", style)?;
    out.push_str("\n")
}

/// Appends the end of a drawing, behind its figures.
pub fn put_end(out: &mut String) -> Result<(), AllocError>
    ensures { OnOk result (string_bytes out.new ≡ string_bytes out.old ++ drawing_end) }
{
    out.push_str("</svg>\n")
}
