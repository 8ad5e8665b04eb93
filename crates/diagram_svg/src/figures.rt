//! The figures of a drawing, a line each.
ghost use Rattle.std.specs.Prelude.{◌≡◌, ◌++◌, OnOk, string_bytes};
ghost use Rattle.diagram_svg.specs.Markup.{Appends};
ghost use Rattle.diagram_svg.specs.Figures.{a_box, a_line, class_text, place_text, size_text, some_words, text_element, titled};

use crate::escaping::put_text;
use crate::markup::{put_attribute, put_end_tag, put_number};
use std::alloc::AllocError;

/// A place in a drawing, in pixels from its left and from its top.
#[derive(Clone, Copy, Debug, PartialEq, Eq)]
pub struct Point {
    pub x: u64,
    pub y: u64,
}

/// Appends an element with no attribute, and a text within.
#[tactic(auto, unfolding(crate::specs::Figures::text_element))]
pub(crate) fn put_text_element(out: &mut String, name: &str, text: &str) -> Result<(), AllocError>
    ensures { OnOk result (string_bytes out.new ≡ string_bytes out.old ++ text_element name.now text.now) }
{
    out.push_str("<")?;
    out.push_str(name)?;
    out.push_str(">")?;
    put_text(out, text)?;
    put_end_tag(out, name)
}

// What is shown of a figure where a pointer rests on it, if anything is.
#[tactic(auto, unfolding(crate::specs::Figures::titled))]
fn put_title(out: &mut String, tooltip: &str) -> Result<(), AllocError>
    ensures { OnOk result (string_bytes out.new ≡ string_bytes out.old ++ titled tooltip.now) }
{
    if tooltip.is_empty() {
        return Ok(());
    }
    put_text_element(out, "title", tooltip)
}

/// Appends the class of a figure, by which the style names it.
#[tactic(auto, unfolding(crate::specs::Figures::class_text))]
pub(crate) fn put_class(out: &mut String, class: &str) -> Result<(), AllocError>
    ensures { OnOk result (string_bytes out.new ≡ string_bytes out.old ++ class_text class.now) }
{
    put_attribute(out, "class", class)
}

#[tactic(auto, unfolding(crate::specs::Figures::place_text))]
fn put_place(out: &mut String, x: &str, y: &str, at: Point) -> Result<(), AllocError>
    ensures { OnOk result (string_bytes out.new ≡ string_bytes out.old ++ place_text x.now y.now at) }
{
    put_number(out, x, at.x)?;
    put_number(out, y, at.y)
}

/// Appends a line. Its look is that of its class, and its tooltip is shown where a pointer rests on it.
///
/// # Errors
/// Where there is no memory for it, as of each call below.
pub fn put_line(
    out: &mut String,
    class: &str,
    from: Point,
    to: Point,
    tooltip: &str,
) -> Result<(), AllocError>
    ensures text { OnOk result (string_bytes out.new ≡ string_bytes out.old ++ a_line class.now from to tooltip.now) }
    ensures content { OnOk result (Appends (string_bytes out.old) (string_bytes out.new)) }
{
    out.push_str("<line")?;
    put_class(out, class)?;
    put_place(out, "x1", "y1", from)?;
    put_place(out, "x2", "y2", to)?;
    out.push_str(">")?;
    put_title(out, tooltip)?;
    out.push_str("</line>\n")?;
    Ok(())
}

/// Appends words at a place.
pub fn put_words(
    out: &mut String,
    class: &str,
    at: Point,
    words: &str,
    tooltip: &str,
) -> Result<(), AllocError>
    ensures text { OnOk result (string_bytes out.new ≡ string_bytes out.old ++ some_words class.now at words.now tooltip.now) }
    ensures content { OnOk result (Appends (string_bytes out.old) (string_bytes out.new)) }
{
    out.push_str("<text")?;
    put_class(out, class)?;
    put_place(out, "x", "y", at)?;
    out.push_str(">")?;
    put_text(out, words)?;
    put_title(out, tooltip)?;
    out.push_str("</text>\n")?;
    Ok(())
}

// The size of a box, and the radius of its corners.
#[tactic(auto, unfolding(crate::specs::Figures::size_text))]
fn put_size(out: &mut String, width: u64, height: u64) -> Result<(), AllocError>
    ensures { OnOk result (string_bytes out.new ≡ string_bytes out.old ++ size_text width height) }
{
    put_number(out, "width", width)?;
    put_number(out, "height", height)?;
    put_attribute(out, "rx", "6")
}

/// Appends a box with round corners: a dot, where it is no larger than 12.
pub fn put_box(
    out: &mut String,
    class: &str,
    corner: Point,
    width: u64,
    height: u64,
) -> Result<(), AllocError>
    ensures text { OnOk result (string_bytes out.new ≡ string_bytes out.old ++ a_box class.now corner width height) }
    ensures content { OnOk result (Appends (string_bytes out.old) (string_bytes out.new)) }
{
    out.push_str("<rect")?;
    put_class(out, class)?;
    put_place(out, "x", "y", corner)?;
    put_size(out, width, height)?;
    out.push_str("></rect>\n")?;
    Ok(())
}
