//! Laws of a world.
ghost use Rattle.std.specs.Prelude.{◌≡◌, Option, Some};
ghost use Rattle.std.specs.FinMap as fm;
ghost use Rattle.dist_model.specs.Names.{Name};
ghost use Rattle.dist_model.specs.Node.{Node as TheNode};
ghost use Rattle.dist_model.specs.World.{World as TheWorld, node_of};
ghost use Rattle.world_core.specs.Coming.{least_to, next_arrival, takes_from};

/// Proves that the own sides of a node of a world decide its next arrival. That is the least connection
/// on which something travels to the node and whose side takes it. (own)
pub fn nodes_take_by_their_own_sides()
    ensures { (m : TheWorld) (node : TheNode) (from : Option Name) → node_of m.nodes node.mint.name ≡ Some node →
        next_arrival m node from ≡ least_to m node.mint.name (λ trunk. takes_from from trunk (fm.get node.sides trunk)) }
{}
