//! The pair of a script: two nodes and a process on each.
ghost use Rattle.std.specs.Prelude.{◌≡◌, IfOk, OnOk};
ghost use Rattle.dist_model.specs.Runs.{opening};
ghost use Rattle.dist_model.specs.World.{Arrive, Call, Dial};
ghost use Rattle.dist_model.specs.declared.command.Command.{Command as TheCommand};
ghost use Rattle.script_session.specs.Pairs.{first_process, pair_node, pair_nodes, pair_stage, setup_of, trunk};
ghost use Rattle.script_session.specs.Stage.{Stage as TheStage, after};
ghost use Rattle.script_session.specs.Stands.{IsStage};
ghost use Rattle.world_core.specs.Stands.{StandsFor};

use crate::stage::Stage;
use dist_model::Command;
use erl_handshake::{Cookie, Profile, Setup};
use erl_names::{NodeName, TrunkId};
use erl_term::Pid;
use std::alloc::{AllocError, Global};
use world_core::{NodeEvent, World};

/// The name of the first node of a pair.
pub(crate) const FIRST: &str = "a@h";

/// The name of the second node of a pair.
pub(crate) const SECOND: &str = "b@h";

// The cookie of both nodes.
const COOKIE: &str = "c";

/// Returns the name of a node, from a word that has the form of one.
///
/// # Errors
/// [`AllocError`] if out of memory.
pub fn node_name(alloc: Global, word: &str) -> Result<NodeName, AllocError>
    ensures { IfOk result (λ name. name ≡ word.now) }
{
    NodeName::read(alloc, word).map_err(|_| AllocError)
}

/// Returns the setup of a node of this profile with a cookie of these characters.
///
/// # Errors
/// [`AllocError`] if out of memory.
pub fn setup(alloc: Global, cookie: &str, profile: Profile) -> Result<Setup, AllocError>
    ensures { IfOk result (λ setup. setup ≡ setup_of cookie.now profile) }
{
    Ok(Setup {
        cookie: Cookie::new(String::from_str(alloc, cookie)?.into_bytes()),
        profile,
    })
}

/// Returns the first process of the first incarnation of a node.
///
/// # Errors
/// [`AllocError`] if out of memory.
pub(crate) fn first_process(alloc: Global, node: &str) -> Result<Pid, AllocError>
    ensures { IfOk result (λ process. process ≡ first_process node.now) }
{
    let node = node_name(alloc, node)?;
    Ok(Pid {
        node: node.atom().clone()?,
        creation: 1,
        id: 1,
        serial: 0,
    })
}

// Returns the name and the setup of a node of a pair.
fn pair_node(alloc: Global, name: &str) -> Result<(NodeName, Setup), AllocError>
    ensures { IfOk result (λ node. node ≡ pair_node name.now) }
{
    let setup = setup(alloc, COOKIE, Profile::Three)?;
    Ok((node_name(alloc, name)?, setup))
}

// Returns the two nodes of a pair before any event.
fn pair_world(alloc: Global) -> Result<World, AllocError>
    ensures { IfOk result (λ world. StandsFor world (opening pair_nodes)) }
{
    let mut nodes = Vec::new(alloc);
    nodes.push(pair_node(alloc, FIRST)?)?;
    nodes.push(pair_node(alloc, SECOND)?)?;
    World::new(alloc, nodes)
}

// Returns the id of the connection of a pair.
fn trunk(alloc: Global) -> Result<TrunkId, AllocError>
    ensures { IfOk result (λ it. it ≡ trunk) }
{
    Ok(TrunkId {
        dialer: node_name(alloc, FIRST)?,
        count: 1,
    })
}

impl Stage {
    // Delivers the next item on the connection of a pair to one of its nodes.
    fn shake(&mut self, alloc: Global, node: &NodeName) -> Result<(), AllocError>
        ensures { (it : TheStage) → IsStage self.old it → OnOk result (IsStage self.new (after it (Arrive trunk node.now it.word))) }
    {
        let trunk = trunk(alloc)?;
        let word = self.word;
        self.pass(alloc, node.atom(), NodeEvent::Arrive { trunk, word })
    }

    // Spawns a process.
    fn spawn(&mut self, alloc: Global, node: &NodeName) -> Result<(), AllocError>
        ensures { (it : TheStage) → IsStage self.old it → OnOk result (IsStage self.new (after it (Call node.now TheCommand.Spawn))) }
    {
        self.pass(alloc, node.atom(), NodeEvent::Call(Command::Spawn))
    }

    // Lets one node dial the other.
    fn dial(&mut self, alloc: Global, node: &NodeName, peer: NodeName) -> Result<(), AllocError>
        ensures { (it : TheStage) → IsStage self.old it → OnOk result (IsStage self.new (after it (Dial node.now peer it.word))) }
    {
        let word = self.word;
        self.pass(alloc, node.atom(), NodeEvent::Dial { peer, word })
    }

    /// Two nodes with a process each, and a connection between them that is up, come in the place of the
    /// world.
    ///
    /// # Errors
    /// Where memory is wanting.
    pub(crate) fn pair(&mut self, alloc: Global) -> Result<(), AllocError>
        ensures { (it : TheStage) → IsStage self.old it → OnOk result (IsStage self.new (pair_stage it)) }
    {
        let first = node_name(alloc, FIRST)?;
        let second = node_name(alloc, SECOND)?;
        let peer = node_name(alloc, SECOND)?;
        self.world = pair_world(alloc)?;
        self.trace = self.trace.louder();
        self.telling.join(alloc, FIRST, COOKIE, Profile::Three)?;
        self.telling.join(alloc, SECOND, COOKIE, Profile::Three)?;
        self.spawn(alloc, &first)?;
        self.spawn(alloc, &second)?;
        self.dial(alloc, &first, peer)?;
        self.shake(alloc, &second)?;
        self.shake(alloc, &first)?;
        self.shake(alloc, &first)?;
        self.shake(alloc, &second)?;
        self.shake(alloc, &first)?;
        Ok(())
    }
}
