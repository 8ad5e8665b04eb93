//! What a reader of XML makes of what is written.
ghost use Rattle.std.specs.Prelude.{◌≡◌, ◌++◌, ℕ, List, map};
ghost use Rattle.std.specs.Str.{chars};
ghost use Rattle.diagram_svg.specs.Document.{drawing_end, drawing_start};
ghost use Rattle.diagram_svg.specs.Escaping.{escaped_text, seen};
ghost use Rattle.diagram_svg.specs.Markup.{IsContent, IsDocument};
ghost use Rattle.diagram_svg.specs.Reading.{IsText, read_text};

/// Whatever a text has, what is written of it is character data of XML, of which a reader reads the text
/// again, with U+FFFD for each character that no document may have.
pub fn text_is_read_again()
    ensures grammar { (text : List ℕ) → IsText (chars (escaped_text text)) }
    ensures read { (text : List ℕ) → read_text (chars (escaped_text text)) ≡ map seen (chars text) }
{}

/// A drawing whose figures may stand in an element is one whole element: names are names, no attribute
/// stands twice in a tag, each tag that begins ends, and all between is text or whole elements.
pub fn drawings_are_well_formed()
    ensures { (width height : ℕ) (title style figures : List ℕ) → IsContent figures →
        IsDocument (drawing_start width height title style ++ figures ++ drawing_end) }
{}
