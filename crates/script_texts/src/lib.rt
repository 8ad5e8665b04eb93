//! The texts that the program prints, a line each.
//!
//! [`put_sent`] prints the frames that an event sent, [`put_answer`] and [`put_refused`] what it came to,
//! and the other calls what there is to see of a node. Each appends its text to a string, and fails for
//! want of memory alone. Contracts see the UTF-8 bytes of a text.
#![tactic(auto)]

mod answers;
mod kinds;
mod nodes;
mod sent;

pub use answers::{
    put_answer, put_done, put_end, put_ends, put_merged, put_refused, put_route, put_settled,
    put_trunk,
};
pub use kinds::{fault_name, kind_name, swept_name};
pub use nodes::{put_ended, put_living, put_node};
pub use sent::put_sent;
