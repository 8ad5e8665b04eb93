//! Commands about the connections of two nodes.
ghost use Rattle.std.specs.Prelude.{◌≡◌};
ghost use Rattle.script_threads.specs.Standing.{is_idle, nodes_of};

use crate::running::Running;
use crate::threads::{Cast, NodeThreads};
use erl_names::TrunkId;
use erl_term::{Atom, Refusal};
use node_lock::Act;
use script_lines::Connection;
use script_session::{Live, Made, node_name, trunk_of};
use script_texts::{put_done, put_refused, put_route};
use std::alloc::{AllocError, Global};
use std::sync::Wait;

// Prints a refusal, at which nothing is made.
fn refused(out: &mut String, why: Refusal) -> Result<Made, AllocError> {
    put_refused(out, why)?;
    Ok(Made::Nothing)
}

impl Running {
    // A node loses one of its connections, if there is one. It may have lost it by now.
    fn lose_on<R: Wait>(
        &mut self,
        rt: &R,
        node: &str,
        trunk: Option<TrunkId>,
    ) -> Result<(), AllocError>
        ensures { self.new.nodes.items ≡ self.old.nodes.items }
    {
        match trunk {
            Some(trunk) => self.pass(rt, node, Act::Lose(trunk)),
            None => Ok(()),
        }
    }

    // A node loses them all.
    fn lose_all<R: Wait>(&mut self, rt: &R, node: &str, live: Live) -> Result<(), AllocError>
        ensures { self.new.nodes.items ≡ self.old.nodes.items }
    {
        let Live {
            first,
            second,
            third,
        } = live;
        self.lose_on(rt, node, first)?;
        self.lose_on(rt, node, second)?;
        self.lose_on(rt, node, third)
    }

    // A node loses its connection to a peer, and gives up its attempts at one.
    fn lose<R: Wait>(&mut self, rt: &R, node: &str, peer: &Atom) -> Result<(), Refusal>
        ensures { self.new.nodes.items ≡ self.old.nodes.items }
    {
        let live = self.live(rt, node, peer)?;
        self.lose_all(rt, node, live)?;
        Ok(())
    }
}

impl NodeThreads {
    // The connection of the node of a name to a peer that is up.
    fn route_of<R: Wait>(
        &self,
        rt: &R,
        node: &str,
        peer: &Atom,
    ) -> Result<Option<TrunkId>, Refusal> {
        match &self.cast {
            Cast::Running(running) => running.route(rt, node, peer),
            Cast::Named(_) => Err(Refusal::NothingThere),
        }
    }

    /// The connection of a node to a peer that is up.
    ///
    /// # Errors
    /// Where memory is wanting.
    pub(crate) fn route<R: Wait>(
        &self,
        rt: &R,
        alloc: Global,
        node: &str,
        peer: &str,
        out: &mut String,
    ) -> Result<(), AllocError> {
        let peer = node_name(alloc, peer)?;
        match self.route_of(rt, node, peer.atom()) {
            Ok(route) => put_route(out, route.as_ref()),
            Err(Refusal::OutOfMemory) => Err(AllocError),
            Err(why) => put_refused(out, why),
        }
    }

    // A node loses its connection to a peer, and gives up its attempts at one, or the refusal.
    fn lose_at<R: Wait>(
        &mut self,
        rt: &R,
        alloc: Global,
        node: &str,
        peer: &str,
    ) -> Result<Option<Refusal>, AllocError>
        ensures nodes { nodes_of self.new.cast ≡ nodes_of self.old.cast }
        ensures idle { is_idle self.new.cast ≡ is_idle self.old.cast }
    {
        let peer = node_name(alloc, peer)?;
        let lost = match &mut self.cast {
            Cast::Running(running) => running.lose(rt, node, peer.atom()),
            Cast::Named(_) => Err(Refusal::NothingThere),
        };
        match lost {
            Ok(()) => Ok(None),
            Err(Refusal::OutOfMemory) => Err(AllocError),
            Err(why) => Ok(Some(why)),
        }
    }

    /// A node loses its connection to a peer.
    ///
    /// # Errors
    /// Where memory is wanting.
    pub(crate) fn lose<R: Wait>(
        &mut self,
        rt: &R,
        alloc: Global,
        node: &str,
        peer: &str,
        out: &mut String,
    ) -> Result<(), AllocError>
        ensures nodes { nodes_of self.new.cast ≡ nodes_of self.old.cast }
        ensures idle { is_idle self.new.cast ≡ is_idle self.old.cast }
    {
        match self.lose_at(rt, alloc, node, peer)? {
            Some(why) => put_refused(out, why),
            None => put_done(out),
        }
    }

    // Loses one connection of a node to a peer, or gives up one attempt.
    fn lose_one<R: Wait>(
        &mut self,
        rt: &R,
        alloc: Global,
        node: &str,
        peer: &str,
        connection: Connection,
        out: &mut String,
    ) -> Result<Made, AllocError>
        ensures nodes { nodes_of self.new.cast ≡ nodes_of self.old.cast }
        ensures idle { is_idle self.new.cast ≡ is_idle self.old.cast }
    {
        let (peer, trunk) = (node_name(alloc, peer)?, trunk_of(alloc, connection)?);
        let leads = match &self.cast {
            Cast::Running(running) => running.leads_to(rt, node, peer.atom(), &trunk),
            Cast::Named(_) => Err(Refusal::NothingThere),
        };
        match leads {
            Ok(true) => self.act(rt, node, Act::Lose(trunk), out),
            Ok(false) => refused(out, Refusal::NotLive),
            Err(Refusal::OutOfMemory) => Err(AllocError),
            Err(why) => refused(out, why),
        }
    }

    /// Loses the connection of a node to a peer, and gives up its attempts at one. Loses one of these alone if the
    /// line names it.
    ///
    /// # Errors
    /// [`AllocError`] if out of memory.
    pub(crate) fn lose_line<R: Wait>(
        &mut self,
        rt: &R,
        alloc: Global,
        node: &str,
        peer: &str,
        connection: Option<Connection>,
        out: &mut String,
    ) -> Result<Made, AllocError>
        ensures nodes { nodes_of self.new.cast ≡ nodes_of self.old.cast }
        ensures idle { is_idle self.new.cast ≡ is_idle self.old.cast }
    {
        match connection {
            Some(connection) => self.lose_one(rt, alloc, node, peer, connection, out),
            None => self
                .lose(rt, alloc, node, peer, out)
                .map(|()| Made::Nothing),
        }
    }

    /// Two nodes lose their connection, the one after the other.
    ///
    /// # Errors
    /// Where memory is wanting.
    pub(crate) fn cut<R: Wait>(
        &mut self,
        rt: &R,
        alloc: Global,
        node: &str,
        peer: &str,
        out: &mut String,
    ) -> Result<(), AllocError>
        ensures nodes { nodes_of self.new.cast ≡ nodes_of self.old.cast }
        ensures idle { is_idle self.new.cast ≡ is_idle self.old.cast }
    {
        let here = self.lose_at(rt, alloc, node, peer)?;
        let there = self.lose_at(rt, alloc, peer, node)?;
        match (here, there) {
            (Some(why), Some(_)) => put_refused(out, why),
            _ => put_done(out),
        }
    }
}
