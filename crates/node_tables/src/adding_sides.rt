//! A side comes, or stands otherwise.
ghost use Rattle.std.specs.Prelude.{◌≡◌, ◌≤◌, ◌<◌, ◌+◌, ℕ, suc, true, false, None};
ghost use Rattle.std.specs.FinMap.{find, is_sorted, put};
ghost use Rattle.std.specs.Vec.{vec_capacity, vec_len};
ghost use Rattle.std.specs.FinMap as fm;
ghost use Rattle.conn_core.specs.declared.standing.Standing.TheVariants as standing;
ghost use Rattle.dist_model.specs.Sides.{is_up as is_up_state};
ghost use Rattle.erl_names.specs.Order.{name_cmp, trunk_cmp};
ghost use Rattle.sorted_map.specs.Entries.{without};
ghost use Rattle.node_tables.specs.Changes.{is_gone_in, stood, IsDown, IsTowards, NoOtherUp, StaysGone};
ghost use Rattle.node_tables.specs.Sides.{sides, HasRouteRoom, HasSideRoom};
ghost use Rattle.node_tables.specs.Standings.{all_open, entries_of, is_open, side_of, state_of};

use crate::place_of_side::place_in;
use crate::runs::bury;
use crate::seeking_sides::first_lost;
use crate::sides::Sides;
use crate::which::{is_open, is_up};
use conn_core::{Side, Standing};
use erl_handshake::Introduction;
use erl_names::TrunkId;
use erl_term::Atom;
use sorted_map::SortedMap;

impl Sides {
    /// Adds the side of a new connection, which isn't up. Takes no memory. (ERTS User's Guide,
    /// Distribution Protocol, Distribution Handshake.)
    pub fn add(&mut self, side: Side)
        requires none { fm.get (sides self.old) side.trunk ≡ None }
        requires down { IsDown side.standing }
        requires room { HasSideRoom 1 self.old }
        ensures sides { sides self.new ≡ fm.insert (sides self.old) side.trunk (side_of side) }
        ensures side_room { (more : ℕ) → HasSideRoom (suc more) self.old → HasSideRoom more self.new }
        ensures route_room { (more : ℕ) → HasRouteRoom more self.old → HasRouteRoom more self.new }
    {
        if is_open(side.standing) {
            hold(&mut self.held, side);
            self.lost = first_lost(&self.held);
        } else {
            bury(&mut self.gone, side);
        }
    }

    /// Sets the standing of the side of a connection, if there is one. The new standing isn't up, and a
    /// side that is gone stays gone. Allocates nothing. (ERTS User's Guide, Distribution Protocol,
    /// Distribution Handshake.)
    pub fn stand(&mut self, trunk: &TrunkId, standing: Standing)
        requires down { IsDown standing }
        requires stays { StaysGone standing (fm.get (sides self.old) trunk.now) }
        ensures sides { sides self.new ≡ stood (sides self.old) trunk.now standing }
        ensures side_room { (more : ℕ) → HasSideRoom more self.old → HasSideRoom more self.new }
        ensures route_room { (more : ℕ) → HasRouteRoom more self.old → HasRouteRoom more self.new }
    {
        if let Ok(at) = place_in(&self.held, trunk) {
            close_route(&mut self.routes, &self.held[at]);
            if is_open(standing) {
                self.held[at].standing = standing;
                self.lost = first_lost(&self.held);
            } else {
                let Side { trunk, peer, .. } = self.held.remove(at);
                let ended = Side {
                    trunk,
                    peer,
                    standing,
                };
                bury(&mut self.gone, ended);
                self.lost = first_lost(&self.held);
            }
        }
    }

    /// Sets the side of a connection up. It isn't gone, and no other towards its peer is up. Takes no
    /// memory. (ERTS User's Guide, Distribution Protocol, Distribution Handshake.)
    pub fn come_up(&mut self, trunk: TrunkId, peer: Atom, introduction: Introduction)
        requires towards { IsTowards peer (fm.get (sides self.old) trunk) }
        requires alone { NoOtherUp (sides self.old) trunk peer }
        requires there { is_gone_in (fm.get (sides self.old) trunk) ≡ false }
        requires room { HasRouteRoom 1 self.old }
        ensures sides { sides self.new ≡ stood (sides self.old) trunk (standing.Up introduction) }
        ensures side_room { (more : ℕ) → HasSideRoom more self.old → HasSideRoom more self.new }
        ensures route_room { (more : ℕ) → HasRouteRoom (suc more) self.old → HasRouteRoom more self.new }
    {
        match place_in(&self.held, &trunk) {
            Ok(at) => {
                self.held[at].standing = Standing::Up { introduction };
            }
            Err(_) => unreachable!(),
        }
        self.lost = first_lost(&self.held);
        match self.routes.insert(peer, trunk) {
            Ok(_) => {}
            Err(_) => unreachable!(),
        }
    }
}

// The route of a side that is up goes.
fn close_route(routes: &mut SortedMap<Atom, TrunkId>, side: &Side)
    ensures up { is_up_state (state_of side.now.standing) ≡ true → routes.new.entries ≡ without name_cmp side.now.peer routes.old.entries }
    ensures down { is_up_state (state_of side.now.standing) ≡ false → routes.new.entries ≡ routes.old.entries }
    ensures room { routes.old.room ≤ routes.new.room }
{
    if is_up(side.standing) {
        let _ = routes.remove(side.peer.atom());
    }
}

// Inserts a side in the order of the connections. Takes no memory.
fn hold(held: &mut Vec<Side>, side: Side)
    requires sorted { is_sorted trunk_cmp (entries_of held.old.items) ≡ true }
    requires none { find trunk_cmp side.trunk (entries_of held.old.items) ≡ None }
    requires room { vec_len held.old < vec_capacity held.old }
    ensures entries { entries_of held.new.items ≡ put trunk_cmp side.trunk (side_of side) (entries_of held.old.items) }
    ensures none_gone { all_open held.old.items ≡ true → is_open side ≡ true → all_open held.new.items ≡ true }
    ensures len { vec_len held.new ≡ vec_len held.old + 1 }
    ensures capacity { vec_capacity held.new ≡ vec_capacity held.old }
{
    match place_in(held, &side.trunk) {
        Ok(_) => unreachable!(),
        Err(at) => match held.insert(at, side) {
            Ok(()) => {}
            Err(_) => unreachable!(),
        },
    }
}
