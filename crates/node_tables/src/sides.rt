//! The sides of a node's connections.
ghost use Rattle.std.specs.Prelude.{◌≡◌, ◌≤◌, ◌+◌, true};
ghost use Rattle.std.specs.FinMap.{is_sorted};
ghost use Rattle.std.specs.Vec.{vec_capacity, vec_len};
ghost use Rattle.erl_names.specs.Order.{trunk_cmp};
ghost use Rattle.node_tables.specs.Apart.{AreApart};
ghost use Rattle.node_tables.specs.Runs.{is_rising};
ghost use Rattle.node_tables.specs.Standings.{all_open, entries_of, lost_place, AreRouted};

use crate::run::Run;
use conn_core::Side;
use erl_names::TrunkId;
use erl_term::Atom;
use sorted_map::SortedMap;

/// The sides of a node's connections, by connection, and the connection that is up to each peer. Each
/// side is answered, and its handshake goes on, or the side is up, lost or gone. (ERTS User's Guide,
/// Distribution Protocol, Distribution Handshake.)
#[derive(Drop)]
pub struct Sides {
    /// Those that aren't gone, in the order of their connections.
    pub(crate) held: Vec<Side>,
    /// The connections that are gone, in their order.
    pub(crate) gone: Vec<Run>,
    /// The connection that is up, by its peer.
    pub(crate) routes: SortedMap<Atom, TrunkId>,
    /// The place of the first side that is lost and isn't cleared away yet.
    pub(crate) lost: Option<usize>,
    ghost sorted: { is_sorted trunk_cmp (entries_of held.items) ≡ true },
    ghost none_gone: { all_open held.items ≡ true },
    ghost routed: { AreRouted routes.entries held.items },
    ghost rising: { is_rising gone.items ≡ true },
    ghost apart: { AreApart held.items gone.items },
    ghost gone_room: { vec_len held + vec_len gone ≤ vec_capacity gone },
    ghost first_lost: { lost ≡ lost_place held.items },
}
