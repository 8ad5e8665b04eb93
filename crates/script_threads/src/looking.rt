//! Looks at nodes in threads.
ghost use Rattle.std.specs.Prelude.{◌≡◌, ◌++◌, IfOk, OnOk, string_bytes, true};
ghost use Rattle.std.specs.List.{flat_map};
ghost use Rattle.dist_model.specs.Node.{route};
ghost use Rattle.node_core.specs.Model.{model_of};
ghost use Rattle.script_session.specs.Connections.{is_any, live_sides};
ghost use Rattle.node_texts.specs.Monitors.{monitors_text};
ghost use Rattle.node_texts.specs.Shown.{shown_node};
ghost use Rattle.node_texts.specs.Trunks.{trunks_text};
ghost use Rattle.script_threads.specs.Looking.{leads_at, whole_with};

use crate::nodes::place_of;
use crate::running::Running;
use erl_handshake::Setup;
use erl_names::{NodeName, TrunkId};
use erl_term::{Atom, Pid, Refusal};
use link_core::End;
use node_core::Node;
use node_frames::same_name;
use node_texts::{put_monitors, put_shown, put_trunks, put_whole};
use script_session::Live;
use std::alloc::{AllocError, Global};
use std::sync::Wait;
use world_core::peer_on;

// Returns the connection of a node to a peer that is up.
fn route_at(node: &Node, peer: &Atom) -> Result<Option<TrunkId>, Refusal>
    ensures { IfOk result (λ trunk. trunk ≡ route (model_of node.now) peer.now) }
{
    if !node.is_up() {
        return Err(Refusal::NodeDown);
    }
    match node.route(peer) {
        Some(trunk) => Ok(Some(trunk.clone()?)),
        None => Ok(None),
    }
}

// Returns the connection of a node to a peer, and its attempts at one.
fn live_at(node: &Node, peer: &Atom) -> Result<Live, Refusal>
    ensures live { IfOk result (λ live. live ≡ live_sides (model_of node.now) peer.now) }
    ensures any { IfOk result (λ live. is_any live ≡ true) }
{
    if !node.is_up() {
        return Err(Refusal::NodeDown);
    }
    let live = Live::of(node, peer)?;
    if live.is_any() {
        Ok(live)
    } else {
        drop(live);
        Err(Refusal::NotLive)
    }
}

// Returns true if a connection of a node leads to a peer.
fn leads_at(node: &Node, peer: &Atom, trunk: &TrunkId) -> Result<bool, Refusal>
    ensures { result ≡ leads_at (model_of node.now) peer.now trunk.now }
{
    if !node.is_up() {
        return Err(Refusal::NodeDown);
    }
    Ok(same_name(peer_on(trunk, node.side(trunk)), peer))
}

// Returns the lines that show a node.
fn shown(alloc: Global, node: &Node) -> Result<String, Refusal>
    ensures { IfOk result (λ text. string_bytes text ≡ shown_node (model_of node.now)) }
{
    let mut text = String::new(alloc);
    put_shown(&mut text, node)?;
    Ok(text)
}

// Appends the connections of a node to the nodes of these names.
fn put_all_trunks(
    out: &mut String,
    node: &Node,
    nodes: &[(NodeName, Setup)],
) -> Result<(), AllocError>
    ensures { OnOk result (string_bytes out.new ≡ string_bytes out.old ++ flat_map (λ peer. trunks_text (model_of node.now) peer.0) nodes.now) }
{
    for peer in nodes {
        put_trunks(out, node, peer.0.atom())?;
    }
    Ok(())
}

// Returns the lines that show all of a node that has these nodes beside it.
fn whole(alloc: Global, node: &Node, nodes: &[(NodeName, Setup)]) -> Result<String, Refusal>
    ensures { IfOk result (λ text. string_bytes text ≡ whole_with (model_of node.now) nodes.now) }
{
    let mut text = String::new(alloc);
    put_whole(&mut text, node)?;
    if node.is_up() {
        put_all_trunks(&mut text, node, nodes)?;
    }
    Ok(text)
}

// Returns the line that shows the monitors of a process, or the refusal.
fn monitors_at(alloc: Global, node: &Node, process: &Pid) -> Result<String, Refusal>
    ensures { IfOk result (λ text. string_bytes text ≡ monitors_text (model_of node.now) process.now) }
{
    if !node.is_up() {
        return Err(Refusal::NodeDown);
    }
    if !node.is_living(process) {
        return Err(Refusal::NoSuchProcess);
    }
    let mut text = String::new(alloc);
    put_monitors(&mut text, node, process)?;
    Ok(text)
}

impl Running {
    /// Returns the connection of the node of a name to a peer that is up.
    ///
    /// # Errors
    /// [`Refusal::NothingThere`] if no node has the name, [`Refusal::NodeDown`],
    /// [`Refusal::OutOfMemory`].
    pub(crate) fn route<R: Wait>(
        &self,
        rt: &R,
        node: &str,
        peer: &Atom,
    ) -> Result<Option<TrunkId>, Refusal> {
        let Some(place) = place_of(&self.nodes, node) else {
            return Err(Refusal::NothingThere);
        };
        self.cluster.look(rt, place, |node| route_at(node, peer))?
    }

    /// Returns the connection of the node of a name to a peer, and its attempts at one. There is one of these.
    ///
    /// # Errors
    /// As those of [`Running::route`]; and [`Refusal::NotLive`].
    pub(crate) fn live<R: Wait>(&self, rt: &R, node: &str, peer: &Atom) -> Result<Live, Refusal> {
        let Some(place) = place_of(&self.nodes, node) else {
            return Err(Refusal::NothingThere);
        };
        self.cluster.look(rt, place, |node| live_at(node, peer))?
    }

    /// Returns true if a connection of the node of a name leads to a peer.
    ///
    /// # Errors
    /// As those of [`Running::route`].
    pub(crate) fn leads_to<R: Wait>(
        &self,
        rt: &R,
        node: &str,
        peer: &Atom,
        trunk: &TrunkId,
    ) -> Result<bool, Refusal> {
        let Some(place) = place_of(&self.nodes, node) else {
            return Err(Refusal::NothingThere);
        };
        self.cluster
            .look(rt, place, |node| leads_at(node, peer, trunk))?
    }

    /// Returns the end of a process's link to another.
    pub(crate) fn end<R: Wait>(&self, rt: &R, process: &Pid, partner: &Pid) -> End {
        let Some(place) = place_of(&self.nodes, process.node.text()) else {
            return End::None;
        };
        self.cluster
            .look(rt, place, |node| node.end(process, partner))
            .unwrap_or(End::None)
    }

    /// Returns the line that shows the monitors of a process.
    ///
    /// # Errors
    /// As those of [`Running::route`]; and [`Refusal::NoSuchProcess`].
    pub(crate) fn monitors<R: Wait>(
        &self,
        rt: &R,
        alloc: Global,
        process: &Pid,
    ) -> Result<String, Refusal> {
        let Some(place) = place_of(&self.nodes, process.node.text()) else {
            return Err(Refusal::NothingThere);
        };
        self.cluster
            .look(rt, place, |node| monitors_at(alloc, node, process))?
    }

    // Returns the lines that show the node at a place. With `all`, they show its links, monitors and
    // connections too.
    fn shown_at<R: Wait>(
        &self,
        rt: &R,
        alloc: Global,
        place: usize,
        all: bool,
    ) -> Result<String, Refusal> {
        if all {
            return self
                .cluster
                .look(rt, place, |node| whole(alloc, node, &self.nodes))?;
        }
        self.cluster.look(rt, place, |node| shown(alloc, node))?
    }

    /// Appends the lines that show each node as it then is, the one after the other. With `all`, they show its
    /// links, monitors and connections too.
    ///
    /// # Errors
    /// [`AllocError`] if out of memory.
    pub(crate) fn show<R: Wait>(
        &self,
        rt: &R,
        alloc: Global,
        all: bool,
        out: &mut String,
    ) -> Result<(), AllocError> {
        for place in 0..self.nodes.len() {
            match self.shown_at(rt, alloc, place, all) {
                Ok(text) => out.push_str(text.as_str())?,
                Err(Refusal::OutOfMemory) => return Err(AllocError),
                Err(_) => {}
            }
        }
        Ok(())
    }
}
