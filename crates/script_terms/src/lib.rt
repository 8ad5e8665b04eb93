//! Erlang terms as a script writes them, and as the program prints them.
//!
//! [`check_term`] checks that a text is a term, and [`read_term`] reads it. Integers are decimal,
//! from -2^127 to 2^127 - 1; an atom is bare, as `ok`, or between quotes, as `'EXIT'`, with the
//! escapes `\'`, `\\` and `\x{H}`; `{..}`, `[..]`, `[..|T]` and `<<1,2>>` are tuples, lists and
//! binaries; and `$name` is the process or the reference that the script gave that name to, which
//! [`Names`] holds. No space stands outside of quotes. The first fault from the left decides the
//! [`TermFault`]. [`put_term`] prints a term in the same forms, on one line. Its text is read as the
//! same term again, where no pid and no reference stands in it: [`read_again`], [`read_values`] and
//! [`one_line`] are the laws.
//!
//! Terms are [`erl_term`]'s, in at most 64 levels. Contracts see the UTF-8 bytes of a text.
#![tactic(auto)]

mod atoms;
mod bytes;
mod checking;
mod fault;
mod filling;
mod integers;
mod laws;
mod lists;
mod names;
mod printing;
mod reading;
mod spaces;
mod unbound;
mod words;

pub use checking::check_term;
pub use fault::{ReadError, TermFault};
pub use filling::filled;
pub use laws::{one_line, read_again, read_values};
pub use names::{Named, Names};
pub use printing::{put_atom, put_pid, put_reference, put_term};
pub use reading::read_term;
pub use spaces::split_at_space;
pub use unbound::has_unbound;
pub use words::is_name;
