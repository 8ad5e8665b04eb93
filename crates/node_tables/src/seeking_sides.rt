//! The first side that is sought.
ghost use Rattle.std.specs.Prelude.{◌≡◌};
ghost use Rattle.std.specs.List.{find};
ghost use Rattle.std.specs.Option.{option_copied};
ghost use Rattle.node_tables.specs.Passing.{passes};
ghost use Rattle.node_tables.specs.Sought.{is_sought};
ghost use Rattle.node_tables.specs.Standings.{lost_place};

use crate::which::{Which, is_losing};
use conn_core::Side;
use erl_term::Atom;

/// Returns the first side towards a peer that is sought.
pub(crate) fn first_towards<'a>(held: &'a [Side], peer: &Atom, which: Which) -> Option<&'a Side>
    ensures { option_copied result ≡ find (is_sought (passes which) peer.now) held.now }
{
    held.iter().find(|side| is_sought(side, peer, which))
}

// Returns true if the side is towards the peer and is sought.
fn is_sought(side: &Side, peer: &Atom, which: Which) -> bool
    ensures { result ≡ is_sought (passes which) peer.now side.now }
{
    side.peer.atom().cmp(peer).is_eq() && which.passes(side.standing)
}

/// Returns the place of the first side that is lost and isn't cleared away yet.
pub(crate) fn first_lost(held: &[Side]) -> Option<usize>
    ensures { result ≡ lost_place held.now }
{
    held.iter().position(|side| is_losing(side.standing))
}
