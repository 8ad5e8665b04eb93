//! New sides, lookups of sides, and room for more of them.
ghost use Rattle.std.specs.Prelude.{◌≡◌, ◌+◌, ℕ, true, false, IfSome, IsOk, OnOk};
ghost use Rattle.std.specs.FinMap as fm;
ghost use Rattle.std.specs.Option.{option_copied, option_map};
ghost use Rattle.dist_model.specs.Losses.{any_side};
ghost use Rattle.dist_model.specs.Node.{route_in, side_where};
ghost use Rattle.dist_model.specs.Sides.{is_gone, is_losing};
ghost use Rattle.node_tables.specs.Passing.{passes};
ghost use Rattle.node_tables.specs.Sides.{HasRouteRoom, HasSideRoom, sides};
ghost use Rattle.node_tables.specs.Standings.{entry_of, is_settled, side_of, state_of};

use crate::place_of_side::place_in;
use crate::runs::run_of;
use crate::seeking_sides::first_towards;
use crate::sides::Sides;
use crate::which::Which;
use conn_core::Side;
use erl_names::TrunkId;
use erl_term::Atom;
use sorted_map::SortedMap;
use std::alloc::{AllocError, Global};

impl Sides {
    /// No sides. Takes no memory.
    pub fn new(alloc: Global) -> Sides
        ensures { sides result ≡ fm.empty }
    {
        Sides {
            held: Vec::new(alloc),
            gone: Vec::new(alloc),
            routes: SortedMap::new(alloc),
            lost: None,
        }
    }

    /// Returns the side of a connection. One that is gone stands for all of its run, so its own connection
    /// may be another.
    pub fn get(&self, trunk: &TrunkId) -> Option<&Side>
        ensures side { option_map side_of (option_copied result) ≡ fm.get (sides self.now) trunk.now }
        ensures trunk { IfSome (option_copied result) (λ side. is_gone (state_of side.standing) ≡ false → side.trunk ≡ trunk.now) }
        ensures settled { IfSome (option_copied result) (λ side. is_settled side.standing ≡ true) }
    {
        match place_in(&self.held, trunk) {
            Ok(at) => Some(&self.held[at]),
            Err(_) => match run_of(&self.gone, trunk) {
                Some(run) => Some(&run.last),
                None => None,
            },
        }
    }

    /// The connection that is up to a peer. (Reference Manual, Distributed Erlang.)
    pub fn route(&self, peer: &Atom) -> Option<&TrunkId>
        ensures { option_copied result ≡ route_in (fm.entries (sides self.now)) peer.now }
    {
        self.routes.get(peer)
    }

    /// The first side towards a peer that is sought. (ERTS User's Guide, Distribution Protocol,
    /// Distribution Handshake.)
    pub fn first_towards(&self, peer: &Atom, which: Which) -> Option<&Side>
        ensures { option_map entry_of (option_copied result) ≡ side_where (passes which) peer.now (fm.entries (sides self.now)) }
    {
        first_towards(&self.held, peer, which)
    }

    /// The first side that is lost and isn't cleared away yet. Its place is kept, so nothing is searched.
    /// (Reference Manual, Distributed Erlang.)
    pub fn first_losing(&self) -> Option<&Side>
        ensures { option_map entry_of (option_copied result) ≡ any_side is_losing (fm.entries (sides self.now)) }
    {
        let held = self.held.as_slice();
        match self.lost {
            Some(at) => held.get(at),
            None => None,
        }
    }

    /// Makes room for so many more sides, and for as many more that are up.
    ///
    /// # Errors
    /// [`AllocError`] if out of memory. Then no side has changed.
    pub fn reserve(&mut self, additional: usize) -> Result<(), AllocError>
        ensures sides { sides self.new ≡ sides self.old }
        ensures side_room { OnOk result (HasSideRoom additional self.new) }
        ensures route_room { OnOk result (HasRouteRoom additional self.new) }
        ensures kept_sides { (more : ℕ) → HasSideRoom more self.old → HasSideRoom more self.new }
        ensures kept_routes { (more : ℕ) → HasRouteRoom more self.old → HasRouteRoom more self.new }
        ensures succeeds { HasSideRoom additional self.old → HasRouteRoom additional self.old → IsOk result }
    {
        self.held.reserve(additional)?;
        self.gone.reserve(self.held.len() + additional)?;
        self.routes.reserve(additional)
    }
}
