//! Words that have to fit into so much room.
ghost use Rattle.std.specs.Prelude.{OnOk, string_bytes};
ghost use Rattle.diagram_svg.specs.Markup.{Appends};
ghost use Rattle.diagram_svg.specs.Panels.{Says};

use crate::figures::{Point, put_words};
use std::alloc::{AllocError, Global};

/// The first characters of a text, and three dots in place of those behind them.
pub(crate) fn shortened(alloc: Global, words: &str, most: usize) -> Result<String, AllocError> {
    let mut short = String::new(alloc);
    for (count, c) in words.chars().enumerate() {
        if count == most {
            short.push('\u{2026}')?;
            break;
        }
        short.push(c)?;
    }
    Ok(short)
}

/// Appends the first characters of a text. Where others are left out, its tooltip is the whole.
pub(crate) fn put_short(
    alloc: Global,
    out: &mut String,
    class: &str,
    at: Point,
    words: &str,
    most: usize,
) -> Result<(), AllocError>
    ensures content { OnOk result (Appends (string_bytes out.old) (string_bytes out.new)) }
    ensures says { OnOk result (Says words.now (string_bytes out.old) (string_bytes out.new)) }
{
    let short = shortened(alloc, words, most)?;
    let tooltip = if short.as_str() == words { "" } else { words };
    put_words(out, class, at, short.as_str(), tooltip)?;
    Ok(())
}

/// Appends the first characters of a text that is shortened itself. Its tooltip is the text in full, if there
/// is one, or else as of [`put_short`].
pub(crate) fn put_explained(
    alloc: Global,
    out: &mut String,
    class: &str,
    at: Point,
    words: &str,
    tooltip: &str,
    most: usize,
) -> Result<(), AllocError>
    ensures { OnOk result (Appends (string_bytes out.old) (string_bytes out.new)) }
{
    if tooltip.is_empty() {
        return put_short(alloc, out, class, at, words, most);
    }
    let short = shortened(alloc, words, most)?;
    put_words(out, class, at, short.as_str(), tooltip)?;
    Ok(())
}
