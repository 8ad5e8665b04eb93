//! The length of a term's canonical spelling, in one pass over the term.
ghost use Rattle.std.specs.Prelude.{◌≡◌, ◌<◌, ◌+◌, length, MatchOption};
ghost use Rattle.erl_term.specs.Canonical.{canonical as spelling, IsWithin};
ghost use Rattle.erl_term.specs.Data.{tuple, list};
ghost use Rattle.erl_term.specs.Room.{Leaves, LeavesOfItems};
ghost use Rattle.erl_term.specs.View.{view, items_view};

use crate::lists::is_string;
use crate::part_len::{atom_len, binary_len, integer_len, pid_len, reference_len, tuple_head_len};
use crate::profile::{can_end, has_count, is_binary};
use crate::term::Term;

/// Returns the number of bytes of the canonical spelling, its version byte included. Returns `None`
/// where the term is no value of the profile, or where the spelling has more levels or bytes than
/// these. Never allocates.
///
/// (ERTS User's Guide, External Term Format.)
pub fn size_within(term: &Term, levels: u32, most: usize) -> Option<usize>
    ensures { MatchOption result (¬ IsWithin levels most (view term.now)) (λ n. (n ≡ length (spelling (view term.now))) × IsWithin levels most (view term.now)) }
{
    let room = most.checked_sub(1)?;
    let left = room_after(term, levels as usize, room)?;
    Some(most - left)
}

/// Returns the bytes left of `room` behind the canonical spelling of the term, without a version byte.
/// Returns `None` where the term is no value of the profile, or where the spelling has more levels or
/// bytes than these.
#[cycle(room)]
pub(crate) fn room_after(term: &Term, levels: usize, room: usize) -> Option<usize>
    ensures { Leaves levels room (view term.now) result }
{
    if levels == 0 {
        return None;
    }
    match term {
        Term::Int(n) => room.checked_sub(integer_len(*n)),
        _ => room_after_other(term, levels, room),
    }
}

/// The same of any term. It isn't inlined: integers don't pay for the rest.
#[cycle(room)]
#[inline(never)]
fn room_after_other(term: &Term, levels: usize, room: usize) -> Option<usize>
    requires { 0 < levels }
    ensures { Leaves levels room (view term.now) result }
{
    match term {
        Term::Int(n) => room.checked_sub(integer_len(*n)),
        Term::Atom(atom) => room.checked_sub(atom_len(atom)),
        Term::Tuple(items) => room_after_tuple(items, levels - 1, room),
        Term::List { items, tail } => match tail {
            None => room_after_list(items, levels - 1, room),
            Some(tail) => {
                if !can_end(items, tail) {
                    return None;
                }
                let left = room.checked_sub(5)?;
                let left = room_after_items(items, levels - 1, left)?;
                room_after(tail, levels - 1, left)
            }
        },
        Term::Binary(bytes) => {
            if !is_binary(bytes) {
                return None;
            }
            room.checked_sub(binary_len(bytes))
        }
        Term::Pid(pid) => room.checked_sub(pid_len(pid)),
        Term::Reference(reference) => room.checked_sub(reference_len(reference)),
    }
}

// The same of tuples and lists, whose items have at most so many levels. They have functions of their
// own, which aren't inlined: what holds no term doesn't pay for them.

#[cycle(room)]
#[inline(never)]
fn room_after_tuple(items: &[Term], below: usize, room: usize) -> Option<usize>
    ensures { Leaves (below + 1) room (tuple (items_view items.now)) result }
{
    let left = room.checked_sub(tuple_head_len(items.len()))?;
    room_after_items(items, below, left)
}

#[cycle(room)]
#[inline(never)]
fn room_after_list(items: &[Term], below: usize, room: usize) -> Option<usize>
    ensures { Leaves (below + 1) room (list (items_view items.now)) result }
{
    if items.is_empty() {
        return room.checked_sub(1);
    }
    if is_string(items) {
        return room.checked_sub(items.len() + 3);
    }
    let left = room.checked_sub(6)?;
    room_after_items(items, below, left)
}

/// The same of the items of a tuple or a list.
#[cycle(room)]
fn room_after_items(items: &[Term], levels: usize, room: usize) -> Option<usize>
    ensures { LeavesOfItems levels room (items_view items.now) result }
{
    if !has_count(items) {
        return None;
    }
    let mut left = room;
    for item in items {
        left = room_after(item, levels, left)?;
    }
    Some(left)
}
