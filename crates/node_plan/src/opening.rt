//! A new node.
ghost use Rattle.std.specs.Prelude.{◌≡◌, IfOk};
ghost use Rattle.dist_model.specs.Runs.{new_node};
ghost use Rattle.node_plan.specs.Seen.{seen};

use crate::node::Node;
use erl_handshake::{Identity, Setup};
use erl_names::{Creation, NodeName};
use monitor_core::{Watchers, Watches};
use node_tables::{Incarnation, Names, Sides};
use std::alloc::{AllocError, Global};
use std::collections::VecDeque;

impl Node {
    /// Returns a running node of `name` and `setup`, in its first incarnation. (Reference Manual,
    /// Distributed Erlang, Nodes.)
    ///
    /// # Errors
    /// [`AllocError`] if out of memory.
    pub fn new(alloc: Global, name: NodeName, setup: Setup) -> Result<Node, AllocError>
        ensures { IfOk result (λ node. seen node ≡ new_node name setup) }
    {
        let own = Identity {
            name: name.clone()?,
            creation: Creation::first(),
            flags: setup.profile.flags(),
            cookie: setup.cookie,
        };
        Ok(Node {
            incarnation: Incarnation::new(alloc, name, Creation::first()),
            names: Names::new(alloc),
            own,
            dialed: 0,
            watches: Watches::new(alloc),
            watchers: Watchers::new(alloc),
            sides: Sides::new(alloc),
            local: VecDeque::new(alloc),
        })
    }
}
