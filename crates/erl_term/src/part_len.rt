//! The lengths in bytes of the canonical spellings of a term's parts.
ghost use Rattle.std.specs.Prelude.{◌≡◌, ◌≤◌, ◌+◌, length, FitsSigned};
ghost use Rattle.std.specs.Int.{w128};
ghost use Rattle.erl_term.specs.Canonical.{canonical_int, canonical_atom, canonical_head, canonical_pid, canonical_reference, canonical_binary, magnitude, IsPidInRange, IsReferenceInRange};
ghost use Rattle.erl_term.specs.Text.{IsAtomText};

use crate::atom::Atom;
use crate::magnitude::digit_count;
use crate::term::{Pid, Reference};

/// Returns the number of bytes that [`write_atom`](crate::write_atom) writes: 2 to 1,023.
#[tactic(auto, unfolding(crate::specs::Canonical::canonical_atom))]
pub fn atom_len(atom: &Atom) -> usize
    ensures len { result ≡ length (canonical_atom atom.now) }
    ensures bound { result ≤ 1023 }
    ensures in_range { IsAtomText atom.now }
{
    let len = atom.text().len();
    if len < 256 { len + 2 } else { len + 3 }
}

/// Returns the number of bytes that [`put_integer`](crate::put_integer) writes: 2 to 19.
#[tactic(auto, unfolding(crate::specs::Canonical::canonical_int))]
pub fn integer_len(n: i128) -> usize
    ensures len { result ≡ length (canonical_int n) }
    ensures bound { result ≤ 19 }
    ensures in_range { FitsSigned w128 n }
{
    if u8::try_from(n).is_ok() {
        return 2;
    }
    if i32::try_from(n).is_ok() {
        return 5;
    }
    big_len(n.unsigned_abs())
}

/// Returns the number of bytes of a SMALL_BIG of this magnitude.
fn big_len(n: u128) -> usize
    ensures len { result ≡ 3 + length (magnitude n) }
    ensures bound { result ≤ 19 }
{
    digit_count(n) + 3
}

/// Returns the number of bytes that [`put_tuple_head`](crate::put_tuple_head) writes: 2 or 5.
#[tactic(auto, unfolding(crate::specs::Canonical::canonical_head))]
pub fn tuple_head_len(count: usize) -> usize
    ensures len { result ≡ length (canonical_head count) }
    ensures bound { result ≤ 5 }
{
    if count < 256 { 2 } else { 5 }
}

/// Returns the number of bytes that [`put_pid`](crate::put_pid) writes: 15 to 1,036.
#[tactic(auto, unfolding(crate::specs::Canonical::canonical_pid))]
pub fn pid_len(pid: &Pid) -> usize
    ensures len { result ≡ length (canonical_pid pid.now) }
    ensures bound { result ≤ 1036 }
    ensures in_range { IsPidInRange pid.now }
{
    atom_len(&pid.node) + 13
}

/// Returns the number of bytes that [`put_reference`](crate::put_reference) writes: 16 to 1,050.
#[tactic(auto, unfolding(crate::specs::Canonical::canonical_reference))]
pub fn reference_len(reference: &Reference) -> usize
    ensures len { result ≡ length (canonical_reference reference.now) }
    ensures bound { result ≤ 1050 }
    ensures in_range { IsReferenceInRange reference.now }
{
    atom_len(&reference.node) + 4 * reference.words.as_slice().len() + 7
}

/// Returns the number of bytes of a binary's canonical spelling.
#[tactic(auto, unfolding(crate::specs::Canonical::canonical_binary))]
pub(crate) fn binary_len(bytes: &[u8]) -> usize
    ensures { result ≡ length (canonical_binary bytes.now) }
{
    bytes.len() + 5
}
