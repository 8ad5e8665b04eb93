//! Commands about the connections of two nodes.
ghost use Rattle.std.specs.Prelude.{◌≡◌, ◌++◌, IfOk, OnOk, string_bytes};
ghost use Rattle.std.specs.FinMap as fm;
ghost use Rattle.std.specs.Option.{option_map};
ghost use Rattle.dist_model.specs.Node.{side_where};
ghost use Rattle.node_core.specs.Model.{model_of};
ghost use Rattle.node_tables.specs.Passing.{passes};
ghost use Rattle.script_session.specs.Connections.{coming_to, cuts, delivers, delivers_by, delivers_on, explains, in_order, is_any, leading, leads_to, live_sides, lose, lose_all, lose_on, loses, loses_by, loses_on, routes, travels};
ghost use Rattle.script_lines.specs.Said.{trunk_of};
ghost use Rattle.script_session.specs.Stage.{Stage as TheStage, says};
ghost use Rattle.script_session.specs.Stands.{IsStage, Plays};
ghost use Rattle.script_session.specs.declared.made.Made.{Made as TheMade};
ghost use Rattle.script_texts.specs.Texts.{done_text, refused_text};

use crate::made::Made;
use crate::pairs::node_name;
use crate::stage::Stage;
use erl_names::{NodeName, TrunkId};
use erl_term::{Atom, Refusal};
use node_frames::same_name;
use node_tables::Which;
use run_traces::put_why;
use script_lines::Connection;
use script_texts::{put_done, put_refused, put_route};
use std::alloc::{AllocError, Global};
use std::cmp::Ordering;
use world_core::{Node, NodeEvent};
use world_texts::put_travels;

/// The connection of a node to a peer, and its attempts at one: at most three, in the order of their
/// names. None stands behind those that there are.
#[derive(Debug, Drop)]
pub struct Live {
    /// The least of them.
    pub first: Option<TrunkId>,
    /// The next one.
    pub second: Option<TrunkId>,
    /// The last one.
    pub third: Option<TrunkId>,
}

// Puts two connections in order.
fn in_order(one: Option<TrunkId>, other: Option<TrunkId>) -> (Option<TrunkId>, Option<TrunkId>)
    ensures { result ≡ in_order one other }
{
    erl_names::orders();
    match (one, other) {
        (Some(one), Some(other)) => match other.cmp(&one) {
            Ordering::Less => (Some(other), Some(one)),
            Ordering::Equal | Ordering::Greater => (Some(one), Some(other)),
        },
        (None, other) => (other, None),
        (one, None) => (one, None),
    }
}

// A copy of the first connection to a peer that stands so.
fn side_on(node: &Node, peer: &Atom, which: Which) -> Result<Option<TrunkId>, AllocError>
    ensures { IfOk result (λ trunk. trunk ≡ option_map (λ entry. entry.0) (side_where (passes which) peer.now (fm.entries (model_of node.now).sides))) }
{
    match node.first_towards(peer, which) {
        Some(trunk) => Ok(Some(trunk.clone()?)),
        None => Ok(None),
    }
}

impl Live {
    /// Returns those of a node, towards a peer.
    ///
    /// # Errors
    /// Out of memory.
    pub fn of(node: &Node, peer: &Atom) -> Result<Live, AllocError>
        ensures { IfOk result (λ live. live ≡ live_sides (model_of node.now) peer.now) }
    {
        let dialing = side_on(node, peer, Which::Dialing)?;
        let waiting = side_on(node, peer, Which::Waiting)?;
        let up = side_on(node, peer, Which::Up)?;
        let (least, greater) = in_order(dialing, waiting);
        let (middle, third) = in_order(greater, up);
        let (first, second) = in_order(least, middle);
        Ok(Live {
            first,
            second,
            third,
        })
    }

    /// Returns true if there is one.
    pub fn is_any(&self) -> bool
        ensures { result ≡ is_any self.now }
    {
        self.first.is_some()
    }
}

/// Returns the connection that a line names, with memory of its own.
///
/// # Errors
/// [`AllocError`] if out of memory.
pub fn trunk_of(alloc: Global, connection: Connection) -> Result<TrunkId, AllocError>
    ensures { IfOk result (λ trunk. trunk ≡ trunk_of connection.entry) }
{
    Ok(TrunkId {
        dialer: node_name(alloc, connection.dialer)?,
        count: connection.count,
    })
}

impl Stage {
    // Refuses the request of a line before anything happens.
    fn refuse(&mut self, alloc: Global, out: &mut String, why: Refusal) -> Result<(), AllocError>
        ensures stage { (it : TheStage) → IsStage self.old it → IsStage self.new it }
        ensures text { OnOk result (string_bytes out.new ≡ string_bytes out.old ++ refused_text why) }
    {
        self.telling.picture.refused(alloc, why)?;
        put_refused(out, why)
    }

    // Returns the connection on which something comes to a node from a peer, or the refusal.
    fn coming(
        &self,
        node: &NodeName,
        peer: &NodeName,
    ) -> Result<Result<TrunkId, Refusal>, AllocError>
        ensures { (it : TheStage) → IsStage self.now it → IfOk result (λ coming. coming ≡ coming_to it.world node.now peer.now) }
    {
        let Some(here) = self.world.node(node.atom()) else {
            return Ok(Err(Refusal::NothingThere));
        };
        if !here.is_up() {
            return Ok(Err(Refusal::NodeDown));
        }
        match self.world.next_arrival(here, Some(peer.atom())) {
            Some(trunk) => Ok(Ok(trunk.clone()?)),
            None => Ok(Err(Refusal::NothingThere)),
        }
    }

    /// Delivers the next item from a peer to a node.
    ///
    /// # Errors
    /// Where memory is wanting.
    pub(crate) fn deliver(
        &mut self,
        alloc: Global,
        node: &str,
        peer: &str,
        out: &mut String,
    ) -> Result<Made, AllocError>
        ensures { (it : TheStage) → IsStage self.old it →
            IfOk result (Plays (delivers node.now peer.now it) self.new (string_bytes out.old) (string_bytes out.new)) }
    {
        let (node, peer) = (node_name(alloc, node)?, node_name(alloc, peer)?);
        match self.coming(&node, &peer)? {
            Ok(trunk) => {
                let word = self.word;
                self.act(alloc, node.atom(), NodeEvent::Arrive { trunk, word }, out)
            }
            Err(why) => {
                self.refuse(alloc, out, why)?;
                Ok(Made::Nothing)
            }
        }
    }

    // Returns true if a connection of a node leads to a peer.
    fn leads_to(&self, node: &NodeName, peer: &NodeName, trunk: &TrunkId) -> bool
        ensures { (it : TheStage) → IsStage self.now it → result ≡ leads_to it.world node.now peer.now trunk.now }
    {
        same_name(self.world.peer_on(node.atom(), trunk), peer.atom())
    }

    /// Returns a connection of a node that leads to a peer, or the refusal. `otherwise` is the refusal of one that
    /// leads elsewhere.
    pub(crate) fn leading(
        &self,
        node: &NodeName,
        peer: &NodeName,
        trunk: TrunkId,
        otherwise: Refusal,
    ) -> Result<TrunkId, Refusal>
        ensures { (it : TheStage) → IsStage self.now it → result ≡ leading it.world node.now peer.now trunk otherwise }
    {
        match self.world.node(node.atom()) {
            None => Err(Refusal::NothingThere),
            Some(here) if !here.is_up() => Err(Refusal::NodeDown),
            Some(_) if self.leads_to(node, peer, &trunk) => Ok(trunk),
            Some(_) => Err(otherwise),
        }
    }

    // Delivers the next item of a connection to a node.
    fn deliver_on(
        &mut self,
        alloc: Global,
        node: &str,
        peer: &str,
        connection: Connection,
        out: &mut String,
    ) -> Result<Made, AllocError>
        ensures { (it : TheStage) → IsStage self.old it →
            IfOk result (Plays (delivers_on (trunk_of connection.entry) node.now peer.now it) self.new (string_bytes out.old) (string_bytes out.new)) }
    {
        let (node, peer) = (node_name(alloc, node)?, node_name(alloc, peer)?);
        let trunk = trunk_of(alloc, connection)?;
        match self.leading(&node, &peer, trunk, Refusal::NothingThere) {
            Ok(trunk) => {
                let word = self.word;
                self.act(alloc, node.atom(), NodeEvent::Arrive { trunk, word }, out)
            }
            Err(why) => {
                self.refuse(alloc, out, why)?;
                Ok(Made::Nothing)
            }
        }
    }

    /// Delivers the next item from a peer to a node, on a connection if the line names one.
    ///
    /// # Errors
    /// [`AllocError`] if out of memory.
    pub(crate) fn deliver_line(
        &mut self,
        alloc: Global,
        node: &str,
        peer: &str,
        connection: Option<Connection>,
        out: &mut String,
    ) -> Result<Made, AllocError>
        ensures { (it : TheStage) → IsStage self.old it →
            IfOk result (Plays (delivers_by (option_map trunk_of connection.entry) node.now peer.now it) self.new (string_bytes out.old) (string_bytes out.new)) }
    {
        match connection {
            Some(connection) => self.deliver_on(alloc, node, peer, connection, out),
            None => self.deliver(alloc, node, peer, out),
        }
    }

    /// Sets the next challenge, and prints `done`.
    ///
    /// # Errors
    /// [`AllocError`] if out of memory.
    pub(crate) fn challenge(&mut self, number: u32, out: &mut String) -> Result<(), AllocError>
        ensures { (it : TheStage) → IsStage self.old it →
            OnOk result (Plays (says done_text (record it { word = number })) self.new (string_bytes out.old) (string_bytes out.new) TheMade.Nothing) }
    {
        self.word = number;
        put_done(out)
    }

    /// The connection of a node to a peer that is up.
    ///
    /// # Errors
    /// Where memory is wanting.
    pub(crate) fn route(
        &self,
        alloc: Global,
        node: &str,
        peer: &str,
        out: &mut String,
    ) -> Result<(), AllocError>
        ensures { (it : TheStage) → IsStage self.now it →
            OnOk result (Plays (routes node.now peer.now it) self.now (string_bytes out.old) (string_bytes out.new) TheMade.Nothing) }
    {
        let (node, peer) = (node_name(alloc, node)?, node_name(alloc, peer)?);
        match self.world.node(node.atom()) {
            None => put_refused(out, Refusal::NothingThere),
            Some(here) if !here.is_up() => put_refused(out, Refusal::NodeDown),
            Some(here) => put_route(out, here.route(peer.atom())),
        }
    }

    /// Prints the items in flight to a node from a peer, the next to come first.
    ///
    /// # Errors
    /// [`AllocError`] if out of memory.
    pub(crate) fn travels(
        &self,
        alloc: Global,
        node: &str,
        peer: &str,
        out: &mut String,
    ) -> Result<(), AllocError>
        ensures { (it : TheStage) → IsStage self.now it →
            OnOk result (Plays (travels node.now peer.now it) self.now (string_bytes out.old) (string_bytes out.new) TheMade.Nothing) }
    {
        let (node, peer) = (node_name(alloc, node)?, node_name(alloc, peer)?);
        match self.world.node(node.atom()) {
            None => put_refused(out, Refusal::NothingThere),
            Some(here) if !here.is_up() => put_refused(out, Refusal::NodeDown),
            Some(here) => put_travels(alloc, out, &self.world, here, peer.atom()),
        }
    }

    /// Prints the fault by which the last connection of a node to a peer broke, or `none`.
    ///
    /// # Errors
    /// [`AllocError`] if out of memory.
    pub(crate) fn explain(
        &self,
        alloc: Global,
        node: &str,
        peer: &str,
        out: &mut String,
    ) -> Result<(), AllocError>
        ensures { (it : TheStage) → IsStage self.now it →
            OnOk result (Plays (explains node.now peer.now it) self.now (string_bytes out.old) (string_bytes out.new) TheMade.Nothing) }
    {
        let (node, peer) = (node_name(alloc, node)?, node_name(alloc, peer)?);
        match self.world.node(node.atom()) {
            None => put_refused(out, Refusal::NothingThere),
            Some(_) => put_why(out, self.breaks.last(node.atom(), peer.atom())),
        }
    }

    // A node loses one of its connections, if there is one.
    fn lose_on(
        &mut self,
        alloc: Global,
        node: &Atom,
        trunk: Option<TrunkId>,
    ) -> Result<(), AllocError>
        ensures { (it : TheStage) → IsStage self.old it → OnOk result (IsStage self.new (lose_on node.now trunk it)) }
    {
        match trunk {
            Some(trunk) => self.pass(alloc, node, NodeEvent::Lose(trunk)),
            None => Ok(()),
        }
    }

    // A node loses them all.
    fn lose_all(&mut self, alloc: Global, node: &Atom, live: Live) -> Result<(), AllocError>
        ensures { (it : TheStage) → IsStage self.old it → OnOk result (IsStage self.new (lose_all node.now live it)) }
    {
        let Live {
            first,
            second,
            third,
        } = live;
        self.lose_on(alloc, node, first)?;
        self.lose_on(alloc, node, second)?;
        self.lose_on(alloc, node, third)
    }

    // A node loses its connection to a peer, and gives up its attempts at one, or the refusal.
    fn lose_at(
        &mut self,
        alloc: Global,
        node: &NodeName,
        peer: &NodeName,
    ) -> Result<Option<Refusal>, AllocError>
        ensures stage { (it : TheStage) → IsStage self.old it → OnOk result (IsStage self.new (lose node.now peer.now it).stage) }
        ensures refusal { (it : TheStage) → IsStage self.old it → IfOk result (λ refusal. refusal ≡ (lose node.now peer.now it).refusal) }
    {
        let live = match self.world.node(node.atom()) {
            None => return Ok(Some(Refusal::NothingThere)),
            Some(here) if !here.is_up() => return Ok(Some(Refusal::NodeDown)),
            Some(here) => Live::of(here, peer.atom())?,
        };
        if !live.is_any() {
            return Ok(Some(Refusal::NotLive));
        }
        self.lose_all(alloc, node.atom(), live)?;
        Ok(None)
    }

    /// A node loses its connection to a peer.
    ///
    /// # Errors
    /// Where memory is wanting.
    pub(crate) fn lose(
        &mut self,
        alloc: Global,
        node: &str,
        peer: &str,
        out: &mut String,
    ) -> Result<(), AllocError>
        ensures { (it : TheStage) → IsStage self.old it →
            OnOk result (Plays (loses node.now peer.now it) self.new (string_bytes out.old) (string_bytes out.new) TheMade.Nothing) }
    {
        let (node, peer) = (node_name(alloc, node)?, node_name(alloc, peer)?);
        match self.lose_at(alloc, &node, &peer)? {
            Some(why) => self.refuse(alloc, out, why),
            None => put_done(out),
        }
    }

    // A node loses one connection to a peer, or gives up one attempt.
    fn lose_one(
        &mut self,
        alloc: Global,
        node: &str,
        peer: &str,
        connection: Connection,
        out: &mut String,
    ) -> Result<Made, AllocError>
        ensures { (it : TheStage) → IsStage self.old it →
            IfOk result (Plays (loses_on (trunk_of connection.entry) node.now peer.now it) self.new (string_bytes out.old) (string_bytes out.new)) }
    {
        let (node, peer) = (node_name(alloc, node)?, node_name(alloc, peer)?);
        let trunk = trunk_of(alloc, connection)?;
        match self.leading(&node, &peer, trunk, Refusal::NotLive) {
            Ok(trunk) => self.act(alloc, node.atom(), NodeEvent::Lose(trunk), out),
            Err(why) => {
                self.refuse(alloc, out, why)?;
                Ok(Made::Nothing)
            }
        }
    }

    /// Loses the connection of a node to a peer, and gives up its attempts at one. Loses one of these alone if
    /// the line names it.
    ///
    /// # Errors
    /// [`AllocError`] if out of memory.
    pub(crate) fn lose_line(
        &mut self,
        alloc: Global,
        node: &str,
        peer: &str,
        connection: Option<Connection>,
        out: &mut String,
    ) -> Result<Made, AllocError>
        ensures { (it : TheStage) → IsStage self.old it →
            IfOk result (Plays (loses_by (option_map trunk_of connection.entry) node.now peer.now it) self.new (string_bytes out.old) (string_bytes out.new)) }
    {
        match connection {
            Some(connection) => self.lose_one(alloc, node, peer, connection, out),
            None => self.lose(alloc, node, peer, out).map(|()| Made::Nothing),
        }
    }

    /// Two nodes lose their connection, the one after the other.
    ///
    /// # Errors
    /// Where memory is wanting.
    pub(crate) fn cut(
        &mut self,
        alloc: Global,
        node: &str,
        peer: &str,
        out: &mut String,
    ) -> Result<(), AllocError>
        ensures { (it : TheStage) → IsStage self.old it →
            OnOk result (Plays (cuts node.now peer.now it) self.new (string_bytes out.old) (string_bytes out.new) TheMade.Nothing) }
    {
        let (node, peer) = (node_name(alloc, node)?, node_name(alloc, peer)?);
        let here = self.lose_at(alloc, &node, &peer)?;
        let there = self.lose_at(alloc, &peer, &node)?;
        match (here, there) {
            (Some(why), Some(_)) => self.refuse(alloc, out, why),
            _ => put_done(out),
        }
    }
}
