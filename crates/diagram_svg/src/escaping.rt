//! How a text stands in an XML document.
ghost use Rattle.std.specs.Prelude.{◌≡◌, ◌++◌, OnOk, string_bytes};
ghost use Rattle.std.specs.Option.{option_copied};
ghost use Rattle.diagram_svg.specs.Escaping.{escaped, escaped_text, is_allowed, reference_to, seen};

use std::alloc::AllocError;

// The reference by which a character is written.
fn reference_to(c: char) -> Option<&'static str>
    ensures { option_copied result ≡ reference_to c }
{
    match c {
        '&' => Some("&amp;"),
        '<' => Some("&lt;"),
        '>' => Some("&gt;"),
        '"' => Some("&quot;"),
        '\'' => Some("&apos;"),
        '\t' => Some("&#9;"),
        '\n' => Some("&#10;"),
        '\r' => Some("&#13;"),
        _ => None,
    }
}

// Whether a document may have a character.
fn is_allowed(c: char) -> bool
    ensures { result ≡ is_allowed c }
{
    matches!(c, '\t' | '\n' | '\r' | ' '..='\u{d7ff}' | '\u{e000}'..='\u{fffd}' | '\u{10000}'..='\u{10ffff}')
}

fn seen(c: char) -> char
    ensures { result ≡ seen c }
{
    if is_allowed(c) { c } else { '\u{fffd}' }
}

fn put_char(out: &mut String, c: char) -> Result<(), AllocError>
    ensures { OnOk result (string_bytes out.new ≡ string_bytes out.old ++ escaped c) }
{
    match reference_to(c) {
        Some(reference) => out.push_str(reference),
        None => out.push(seen(c)),
    }
}

/// Appends a text as it stands in an XML document, between tags or in an attribute's quotes.
///
/// # Errors
/// Where there is no memory for it.
#[tactic(auto, unfolding(crate::specs::Escaping::escaped_text))]
pub fn put_text(out: &mut String, text: &str) -> Result<(), AllocError>
    ensures { OnOk result (string_bytes out.new ≡ string_bytes out.old ++ escaped_text text.now) }
{
    for c in text.chars() {
        put_char(out, c)?;
    }
    Ok(())
}
