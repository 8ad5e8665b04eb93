//! The parts of an element.
ghost use Rattle.std.specs.Prelude.{◌≡◌, ◌++◌, OnOk, string_bytes};
ghost use Rattle.std.specs.Fmt.{decimal};
ghost use Rattle.diagram_svg.specs.Escaping.{escaped_text};
ghost use Rattle.diagram_svg.specs.Markup.{attribute_text, end_tag};

use crate::escaping::put_text;
use std::alloc::AllocError;

/// Appends an attribute.
#[tactic(auto, unfolding(crate::specs::Markup::attribute_text))]
pub(crate) fn put_attribute(out: &mut String, name: &str, value: &str) -> Result<(), AllocError>
    ensures { OnOk result (string_bytes out.new ≡ string_bytes out.old ++ attribute_text (name.now, value.now)) }
{
    out.push_str(" ")?;
    out.push_str(name)?;
    out.push_str("=\"")?;
    put_text(out, value)?;
    out.push_str("\"")
}

// A number has no character that is written by a reference.
fn put_decimal(out: &mut String, value: u64) -> Result<(), AllocError>
    ensures { OnOk result (string_bytes out.new ≡ string_bytes out.old ++ escaped_text (decimal value)) }
{
    write!(out, "{value}")
}

/// Appends an attribute whose value is a number.
#[tactic(auto, unfolding(crate::specs::Markup::attribute_text))]
pub(crate) fn put_number(out: &mut String, name: &str, value: u64) -> Result<(), AllocError>
    ensures { OnOk result (string_bytes out.new ≡ string_bytes out.old ++ attribute_text (name.now, decimal value)) }
{
    out.push_str(" ")?;
    out.push_str(name)?;
    out.push_str("=\"")?;
    put_decimal(out, value)?;
    out.push_str("\"")
}

/// Appends the end of an element.
pub(crate) fn put_end_tag(out: &mut String, name: &str) -> Result<(), AllocError>
    ensures { OnOk result (string_bytes out.new ≡ string_bytes out.old ++ end_tag name.now) }
{
    out.push_str("</")?;
    out.push_str(name)?;
    out.push_str(">")
}
