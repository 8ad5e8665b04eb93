//! Bytes of terms and of connections, told in words.
#![tactic(auto)]

mod all;
mod answers;
mod digits;
mod frame_faults;
mod lines;
mod message_faults;
mod objects;
mod options;
mod rows;
mod running;
mod stages;
mod tags;
mod term_faults;
mod term_tree;
mod told;
mod tree;
mod words;

pub use all::{Progress, Step, Style, put_all};
pub use answers::{Answer, Found, Why, answer_of};
pub use digits::DigitFault;
pub use options::{DecodingLine, read_decoding};
pub use running::{Decoded, Decoding, run_decoding};
pub use stages::{Form, Next, Stage};
pub use told::{Told, told_of};
pub use words::put_found;
