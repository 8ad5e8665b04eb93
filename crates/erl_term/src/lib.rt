//! Erlang terms as bytes, in the External Term Format.
//!
//! [`decode`] reads the [`Term`] at the front of any bytes, and [`encode`] writes a term. A term has
//! many spellings: `decode` reads each of them, and `encode` writes the canonical one. The contract
//! of `decode` names the one answer that is due to any bytes. Where no term stands at the front, the
//! first fault from the left decides which [`TermError`] comes. Memory is needed for neither where a
//! term ends nor how large it is: [`term_len`] says the one, and a [`TermRef`] the other.
//!
//! The profile has integers of 128 bits, atoms, tuples, lists, binaries, pids and references, in at
//! most 64 levels and 1,048,576 bytes. No other kind of term is read, and nothing of the distribution protocol stands here: frames
//! and signals are made of these terms elsewhere. [`Refusal`] is here because each crate above names
//! it.
//!
//! A reader of what stands at the front answers with the first fault if its name ends in `_of`, and
//! with an `Option` if it ends in `_at`.
//!
//! Know first: [`Term`], [`Atom`], whose value in a contract is its UTF-8 bytes, and [`Pid`].
#![tactic(auto)]

mod atom;
mod copying;
mod decoding;
mod encoding;
mod error;
mod field;
mod laws;
mod lists;
mod magnitude;
mod part_len;
mod parts;
mod payload;
mod profile;
mod reading;
mod refusal;
mod room;
mod size;
mod skim;
mod tag;
mod term;
mod term_ref;
mod text;
mod words;
mod writing;

pub use atom::Atom;
pub use copying::copy_of;
pub use decoding::{TERM_LIMIT, decode, term_len};
pub use encoding::{encode, put_integer, put_pid, put_reference, put_term, put_tuple_head};
pub use error::TermError;
pub use laws::{
    canonical_is_spelling, one_answer, one_spelling, order_of_pids, read_again, short_parts,
};
pub use part_len::{atom_len, integer_len, pid_len, reference_len, tuple_head_len};
pub use parts::{
    AtomRef, PidRef, ReferenceRef, TupleHead, atom_at, integer_at, pid_at, reference_at,
    tuple_head_at,
};
pub use payload::Payload;
pub use refusal::Refusal;
pub use room::size_within;
pub use term::{Pid, Reference, Term};
pub use term_ref::{TermRef, term_at};
pub use words::ReferenceWords;
pub use writing::{
    write_atom, write_integer, write_pid, write_reference, write_term, write_tuple_head,
};
