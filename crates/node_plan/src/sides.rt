//! What becomes of the sides of connections.
ghost use Rattle.std.specs.Prelude.{◌≡◌, length};
ghost use Rattle.node_plan.specs.Changed as after;
ghost use Rattle.node_plan.specs.Suits.{LetsAll};
ghost use Rattle.node_tables.specs.Sides.{HasRouteRoom, HasSideRoom, sides as sides_in};

use node_tables::{SideChange, Sides};

/// The sides change, one after the other, in the room that was made. Takes no memory. (ERTS User's
/// Guide, Distribution Protocol, Distribution Handshake.)
pub fn change_sides(sides: &mut Sides, changes: Vec<SideChange>)
    requires lets { LetsAll changes.items (sides_in sides.old) }
    requires side_room { HasSideRoom (length changes.items) sides.old }
    requires route_room { HasRouteRoom (length changes.items) sides.old }
    ensures { sides_in sides.new ≡ after.sides_after changes.items (sides_in sides.old) }
{
    for change in changes {
        sides.make(change);
    }
}
