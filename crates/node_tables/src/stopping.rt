//! A node stops.
ghost use Rattle.std.specs.Prelude.{◌≡◌, ◌≤◌, ◌+◌, ◌++◌, ℕ, [], true};
ghost use Rattle.std.specs.FinMap as fm;
ghost use Rattle.std.specs.FinMap.{is_sorted};
ghost use Rattle.std.specs.Vec.{vec_capacity, vec_len};
ghost use Rattle.dist_model.specs.Incarnations.{all_gone};
ghost use Rattle.erl_names.specs.Order.{trunk_cmp};
ghost use Rattle.node_tables.specs.Apart.{AreApart, AreBuried};
ghost use Rattle.node_tables.specs.Runs.{is_rising};
ghost use Rattle.node_tables.specs.Sides.{sides, HasRouteRoom, HasSideRoom};
ghost use Rattle.node_tables.specs.Standings.{entries_of};

use crate::run::Run;
use crate::runs::bury;
use crate::sides::Sides;
use conn_core::{Side, Standing};

impl Sides {
    /// Lets every connection be gone. The sides stay. Takes no memory. (ERTS User's Guide, Distribution
    /// Protocol, Distribution Handshake, on creations.)
    pub fn all_gone(&mut self)
        ensures sides { sides self.new ≡ fm.from_entries (all_gone (fm.entries (sides self.old))) }
        ensures side_room { (more : ℕ) → HasSideRoom more self.old → HasSideRoom more self.new }
        ensures route_room { (more : ℕ) → HasRouteRoom more self.old → HasRouteRoom more self.new }
    {
        self.routes.retain(|_| false);
        bury_all(&mut self.held, &mut self.gone);
        self.lost = None;
    }
}

// Moves each side to the runs. Takes no memory.
fn bury_all(held: &mut Vec<Side>, gone: &mut Vec<Run>)
    requires sorted { is_sorted trunk_cmp (entries_of held.old.items) ≡ true }
    requires rising { is_rising gone.old.items ≡ true }
    requires apart { AreApart held.old.items gone.old.items }
    requires room { vec_len held.old + vec_len gone.old ≤ vec_capacity gone.old }
    ensures none { held.new.items ≡ [] }
    ensures rising { is_rising gone.new.items ≡ true }
    ensures buried { AreBuried held.old.items gone.old.items [] gone.new.items }
    ensures len { vec_len gone.new ≤ vec_len held.old + vec_len gone.old }
    ensures held_capacity { vec_capacity held.new ≡ vec_capacity held.old }
    ensures gone_capacity { vec_capacity gone.new ≡ vec_capacity gone.old }
{
    for _ in 0..held.len() {
        match held.pop() {
            Some(Side { trunk, peer, .. }) => {
                let standing = Standing::Gone;
                let side = Side {
                    trunk,
                    peer,
                    standing,
                };
                bury(gone, side);
            }
            None => unreachable!(),
        }
    }
}
