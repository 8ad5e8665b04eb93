//! Terms, frames and handshake messages for programs in C.
//!
//! Each function `erldist_..` is exported to C. It restates the clauses of the library calls behind it over
//! the numbers and the structs that C sees. A slice crosses as a pointer and a length, and the pointer is
//! never null. None of them allocates. `examples/embed_c/erldist.h` is the header, and `rt lib` builds the
//! library.
//!
//! (ERTS User's Guide, External Term Format and Distribution Protocol.)
#![tactic(auto)]

mod buffers;
mod digests;
mod elements;
mod frames;
mod messages;
mod parts;
mod reading;
mod saying;
mod terms;
mod writing;

pub use buffers::ErldistPid;
pub use digests::erldist_digest;
pub use frames::{ErldistFrame, erldist_frame_head};
pub use messages::{ErldistMessage, erldist_read_message};
pub use parts::ErldistPlace;
pub use reading::{ErldistSeenPid, erldist_read_pid};
pub use saying::erldist_put_message;
pub use terms::erldist_term_len;
pub use writing::{erldist_put_link, erldist_put_unlink_id, erldist_put_unlink_id_ack};
