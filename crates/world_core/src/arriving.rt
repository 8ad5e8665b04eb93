//! The connections on which something comes to a node from its peers.
ghost use Rattle.std.specs.Prelude.{◌≡◌, ◌&&◌};
ghost use Rattle.std.specs.FinMap as fm;
ghost use Rattle.std.specs.List.{find};
ghost use Rattle.std.specs.Option.{option_copied, option_map};
ghost use Rattle.dist_model.specs.Seen.{side_of_trunk};
ghost use Rattle.dist_model.specs.World.{World as TheWorld};
ghost use Rattle.node_core.specs.Model.{model_of};
ghost use Rattle.node_tables.specs.Standings.{side_of};
ghost use Rattle.world_core.specs.Coming.{is_from, is_taken, next_arrival, peer_on, side_in, takes, takes_from};
ghost use Rattle.world_core.specs.Stands.{StandsFor};

use crate::queue::Queue;
use crate::world::World;
use conn_core::Side;
use erl_names::TrunkId;
use erl_term::Atom;
use node_core::Node;
use node_frames::same_name;
use node_tables::Which;

/// Returns true if a side takes frames, or if the first frame is to make it.
pub(crate) fn takes(side: Option<&Side>) -> bool
    ensures { result ≡ takes (option_map side_of (option_copied side.entry)) }
{
    match side {
        Some(side) => Which::Open.passes(side.standing) && !Which::Losing.passes(side.standing),
        None => true,
    }
}

/// Returns the node at the other end of a connection of which a node has this side. The dialer's node is at the other
/// end of a connection of which the node has none. (ERTS User's Guide, Distribution Protocol.)
pub fn peer_on<'a>(trunk: &'a TrunkId, side: Option<&'a Side>) -> &'a Atom
    ensures { result.now ≡ peer_on trunk.now (option_map side_of (option_copied side.entry)) }
{
    match side {
        Some(side) => side.peer.atom(),
        None => trunk.dialer.atom(),
    }
}

// Returns true if a peer is the one that is asked for, if one is.
fn is_from(from: Option<&Atom>, peer: &Atom) -> bool
    ensures { result ≡ is_from (option_copied from.entry) peer.now }
{
    match from {
        Some(name) => same_name(peer, name),
        None => true,
    }
}

// Returns true if a node takes the frames that come on a connection, from a certain peer or from any.
fn takes_from(node: &Node, trunk: &TrunkId, from: Option<&Atom>) -> bool
    ensures { result ≡ takes_from (option_copied from.entry) trunk.now (fm.get (model_of node.now).sides trunk.now) }
{
    let side = node.side(trunk);
    takes(side) && is_from(from, peer_on(trunk, side))
}

// Returns true if the side of a node takes frames on a connection. A side that isn't there takes them.
fn is_taken(own: Option<&Node>, trunk: &TrunkId) -> bool
    ensures { result ≡ takes (side_in (option_map model_of (option_copied own.entry)) trunk.now) }
{
    match own {
        Some(node) => takes(node.side(trunk)),
        None => true,
    }
}

// Returns the first entry of a line from which the node takes, and the world's node of its name too.
fn first_in<'a>(
    line: &'a [(TrunkId, Queue)],
    own: Option<&Node>,
    node: &Node,
    from: Option<&Atom>,
) -> Option<&'a (TrunkId, Queue)>
    ensures { option_copied result ≡ find (λ entry. takes (side_in (option_map model_of (option_copied own.entry)) entry.0) && takes_from (option_copied from.entry) entry.0 (fm.get (model_of node.now).sides entry.0)) line.now }
{
    line.iter().find(|(trunk, _)| is_taken(own, trunk) && takes_from(node, trunk, from))
}

impl World {
    /// Returns true if a node takes the frames that come on a connection: from a certain peer, or from any.
    /// (ERTS User's Guide, Distribution Protocol; Reference Manual, Processes, Delivery of Signals.)
    pub fn takes(&self, node: &Node, trunk: &TrunkId, from: Option<&Atom>) -> bool
        ensures { (m : TheWorld) → StandsFor self.now m → result ≡ (is_taken m trunk.now (model_of node.now).mint.name
            && takes_from (option_copied from.entry) trunk.now (fm.get (model_of node.now).sides trunk.now)) }
    {
        let own = self.node(node.name().atom());
        is_taken(own, trunk) && takes_from(node, trunk, from)
    }

    /// Returns the node at the other end of a connection of the node of a name. The dialer's node is at the
    /// other end of a connection of which the node has no side. (ERTS User's Guide, Distribution Protocol.)
    pub fn peer_on<'a>(&'a self, node: &Atom, trunk: &'a TrunkId) -> &'a Atom
        ensures { (m : TheWorld) → StandsFor self.now m → result.now ≡ peer_on trunk.now (side_of_trunk m node.now trunk.now) }
    {
        match self.node(node) {
            Some(own) => peer_on(trunk, own.side(trunk)),
            None => trunk.dialer.atom(),
        }
    }

    /// The least connection on which something comes to a node that the node takes: from a certain peer,
    /// or from any. (ERTS User's Guide, Distribution Protocol; Reference Manual, Processes, Delivery of
    /// Signals.)
    pub fn next_arrival(&self, node: &Node, from: Option<&Atom>) -> Option<&TrunkId>
        ensures { (m : TheWorld) → StandsFor self.now m → option_copied result ≡ next_arrival m (model_of node.now) (option_copied from.entry) }
    {
        let line = self.lists.line(node.name());
        if line.is_empty() {
            return None;
        }
        let own = self.node(node.name().atom());
        match first_in(line, own, node, from) {
            Some((trunk, _)) => Some(trunk),
            None => None,
        }
    }
}
