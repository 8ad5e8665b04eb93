//! A change of the sides is made.
ghost use Rattle.std.specs.Prelude.{◌≡◌, ◌+◌, ℕ};
ghost use Rattle.node_tables.specs.Changes.{routes_added, side_changed, sides_added, SideFits};
ghost use Rattle.node_tables.specs.Sides.{sides, HasRouteRoom, HasSideRoom};

use crate::change::SideChange;
use crate::sides::Sides;

impl Sides {
    /// Makes a change that fits. Takes no memory. (ERTS User's Guide, Distribution Protocol,
    /// Distribution Handshake.)
    pub fn make(&mut self, change: SideChange)
        requires { SideFits change self.old }
        ensures sides { sides self.new ≡ side_changed change (sides self.old) }
        ensures side_room { (more : ℕ) → HasSideRoom (sides_added change + more) self.old → HasSideRoom more self.new }
        ensures route_room { (more : ℕ) → HasRouteRoom (routes_added change + more) self.old → HasRouteRoom more self.new }
    {
        match change {
            SideChange::Adds { side } => self.add(side),
            SideChange::Stands { trunk, standing } => self.stand(&trunk, standing),
            SideChange::ComesUp {
                trunk,
                peer,
                introduction,
            } => self.come_up(trunk, peer, introduction),
        }
    }
}
