//! What is written of texts and of whole diagrams.

use crate::building::diagram;
use diagram_svg::{put_picture, put_text};
use std::alloc::Global;
use std::test::Fail;

/// Texts, and how they stand in an XML document.
const TEXTS: &[(&str, &str)] = &[
    ("", ""),
    ("p: pending 1", "p: pending 1"),
    (
        "a<b & \"c\">'d'",
        "a&lt;b &amp; &quot;c&quot;&gt;&apos;d&apos;",
    ),
    ("&lt;", "&amp;lt;"),
    ("\u{e5}\u{1f600}", "\u{e5}\u{1f600}"),
    ("\t\r\n", "&#9;&#13;&#10;"),
    // No document may have these.
    (
        "\u{0}\u{1b}\u{fffe}\u{ffff}",
        "\u{fffd}\u{fffd}\u{fffd}\u{fffd}",
    ),
    ("\u{7f}\u{fffd}\u{10ffff}", "\u{7f}\u{fffd}\u{10ffff}"),
];

fn written(alloc: Global, text: &str) -> Result<String, Fail> {
    let mut out = String::new(alloc);
    put_text(&mut out, text)?;
    Ok(out)
}

#[test]
fn texts_are_escaped(rt: HostRuntime) -> Result<(), Fail> {
    for (text, wanted) in TEXTS {
        assert_eq!(rt; written(rt.alloc(), text)?.as_str(), *wanted, "of {text:?}");
    }
    Ok(())
}

/// Rows of a diagram, and a text with how often the drawing has it.
const DRAWINGS: &[(&[&str], &str, usize)] = &[
    (&[], "</svg>\n", 1),
    (
        &["link p q;SEND 0 1 0 LINK", "deliver;TAKE 0"],
        "<line class=\"sent\"",
        1,
    ),
    (
        &["link p q;SEND 0 1 0 LINK", "deliver;TAKE 0"],
        ">LINK<title>0000002A70</title></text>",
        1,
    ),
    (&["link p q;SEND 0 1 0 LINK"], "LINK (on its way)", 1),
    (
        &["link p q;SEND 0 1 0 LINK;SEND 0 1 0 LINK", "lose;GIVE-UP 0"],
        "LINK (lost)",
        2,
    ),
    (
        &["link p q;SEND 0 1 0 LINK", "lose;GIVE-UP 0"],
        "<line class=\"cross\"",
        2,
    ),
    (
        &["send p q '<&'"],
        ">send p q &apos;&lt;&amp;&apos;</text>",
        1,
    ),
    (&["ends p q;NOTE 0 p: active"], "<rect class=\"calm\"", 1),
    // A long label leaves room for what becomes of its item.
    (
        &["exit p q;SEND 0 1 0 abcdefghijklmnopqrstuvwxyz"],
        ">abcdefghijklmnopq\u{2026} (on its way)<",
        1,
    ),
    // Folded lines stand as their number, and one line as itself.
    (
        &["FOLD spawn a@h p;FOLD show"],
        ">2 lines<title>spawn a@h p&#10;show</title></text>",
        1,
    ),
    (&["FOLD show"], ">show</text>", 1),
    // A long word is cut short, and stands in the tooltip.
    (
        &["send p q 123456789012345678901234567890"],
        ">send p q 123456789012345678901\u{2026}<title>send p q 123456789012345678901234567890</title>",
        1,
    ),
];

// Returns the drawing of two lanes and of these rows, of which the first so many are hidden.
fn drawing(alloc: Global, rows: &[&str], hidden: usize) -> Result<String, Fail> {
    let mut it = diagram(alloc, "Two nodes", &["a@h", "b@h"], rows)?;
    it.hidden = hidden;
    let mut out = String::new(alloc);
    put_picture(alloc, &mut out, &it)?;
    Ok(out)
}

#[test]
fn drawings_have_their_parts(rt: HostRuntime) -> Result<(), Fail> {
    for (rows, part, times) in DRAWINGS {
        let drawing = drawing(rt.alloc(), rows, 0)?;
        let found = drawing.as_str().matches(*part).count();
        assert_eq!(rt; found, *times, "{part:?} of {rows:?}");
    }
    Ok(())
}

/// A row that sends an item, one that takes it, and one behind them.
const SENT_AND_TAKEN: &[&str] = &["link p q;SEND 0 1 0 LINK", "deliver;TAKE 0", "show"];

/// The number of hidden rows, and a text with how often the drawing has it.
const HIDDEN: &[(usize, &str, usize)] = &[
    (0, ">link p q<", 1),
    (0, ">sent before<", 0),
    // The item comes from the upper edge.
    (1, ">link p q<", 0),
    (1, ">sent before<", 1),
    (1, "<line class=\"sent\"", 1),
    // It was taken above.
    (2, "<line class=\"sent\"", 0),
    (2, ">sent before<", 0),
    (2, ">show<", 1),
    (3, ">show<", 0),
    (3, ">a@h<", 1),
];

#[test]
fn rows_are_hidden(rt: HostRuntime) -> Result<(), Fail> {
    for (hidden, part, times) in HIDDEN {
        let drawing = drawing(rt.alloc(), SENT_AND_TAKEN, *hidden)?;
        let found = drawing.as_str().matches(*part).count();
        assert_eq!(rt; found, *times, "{part:?} behind {hidden} rows");
    }
    Ok(())
}
