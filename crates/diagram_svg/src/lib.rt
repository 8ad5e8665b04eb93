//! A diagram as a well-formed document of SVG.
//!
//! [`put_picture`] lays a diagram out and appends a whole document of SVG, which is well formed whatever the
//! words of the diagram have. The look of a picture isn't proved: the figures stand where the layout of
//! diagram and the arithmetic of `frame.rt` put them.
//!
//! [`put_panels`] draws several diagrams in one document, side by side, each under a heading.
//!
//! [`put_start`], the calls for figures, and [`put_end`] append a drawing to a string. [`put_text`] writes a
//! text as it has to stand in an XML document, between tags or in the quotes of an attribute. A reader of XML
//! reads the text again, with U+FFFD for each character that no document may have. Contracts see the UTF-8
//! bytes of a text.
#![tactic(auto, using(crate::proofs::Appended::appends_more))]

mod arrows;
mod document;
mod drawing;
mod escaping;
mod figures;
mod frame;
mod laws;
mod markup;
mod panels;
mod rows;
mod style;
mod words;

pub use document::{put_end, put_start};
pub use drawing::put_picture;
pub use escaping::put_text;
pub use figures::{Point, put_box, put_line, put_words};
pub use laws::{drawings_are_well_formed, text_is_read_again};
pub use panels::{Panel, put_panels};
