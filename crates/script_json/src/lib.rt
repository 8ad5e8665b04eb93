//! Events and their reports in JSON, an object a line, for machines.
//!
//! [`event`] returns an event at a node, before it happens, and [`put_line`] appends its line, once it has
//! happened. [`put_node`] appends the line of a node. specs/Events, specs/Fields and specs/Reports define the
//! objects, as data of serde_json, which writes the text. The bytes of an item that is sent tell its fields:
//! [`one_text`] proves that a line has one text. [`item_fields`] returns the fields of an item.
#![tactic(auto)]

mod answers;
mod commands;
mod effects;
mod events;
mod fields;
mod handshakes;
mod laws;
mod lines;
mod objects;
mod signals;
mod texts;

pub use events::event;
pub use fields::item_fields;
pub use laws::{items_have_fields, one_text};
pub use lines::{put_line, put_node};
