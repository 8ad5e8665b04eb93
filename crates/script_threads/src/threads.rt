//! The nodes of a script, and their threads.
ghost use Rattle.std.specs.Prelude.{◌≡◌, ◌++◌, ◌∷◌, [], OnOk, false, true};
ghost use Rattle.script_session.specs.Pairs.{setup_of};
ghost use Rattle.script_threads.specs.Standing.{has_started, is_idle, nodes_of};

use crate::running::{Machine, Running};
use cluster_run::Settled;
use dist_model::Answer;
use erl_handshake::{Profile, Setup};
use erl_names::NodeName;
use erl_term::{Pid, Refusal};
use link_core::End;
use node_lock::Act;
use script_session::{Made, node_name, setup};
use script_texts::{put_answer, put_ends, put_refused, put_settled};
use std::alloc::{AllocError, Global};
use std::sync::Wait;

/// The most looks of one `settle`.
const MOST_LOOKS: u64 = 1_000_000;

/// The nodes that a script has named.
#[derive(Drop)]
pub(crate) enum Cast {
    /// The nodes have no threads yet.
    Named(Vec<(NodeName, Setup)>),
    /// The nodes have threads.
    Running(Running),
}

/// The nodes that a script has named, and the challenges of their dials.
#[derive(Drop)]
pub(crate) struct NodeThreads {
    pub(crate) cast: Cast,
    /// The first challenge.
    seed: u32,
    /// The challenge of the next dial.
    word: u32,
}

impl NodeThreads {
    /// Creates the nodes of a script that has named none.
    pub(crate) fn new(alloc: Global, seed: u32) -> NodeThreads
        ensures none { nodes_of result.cast ≡ [] }
        ensures idle { is_idle result.cast ≡ true }
    {
        NodeThreads {
            cast: Cast::Named(Vec::new(alloc)),
            seed,
            word: seed,
        }
    }

    /// Returns the names and the setups of the nodes.
    pub(crate) fn nodes(&self) -> &[(NodeName, Setup)]
        ensures { result.now ≡ nodes_of self.now.cast }
    {
        match &self.cast {
            Cast::Named(nodes) => nodes,
            Cast::Running(running) => &running.nodes,
        }
    }

    /// Returns the number of the acts for which the script has asked.
    pub(crate) fn acts(&self) -> usize {
        match &self.cast {
            Cast::Running(running) => running.acts(),
            Cast::Named(_) => 0,
        }
    }

    /// Starts a thread for each node, unless that is done, or there is no node.
    ///
    /// # Errors
    /// If out of memory, or if a thread can't be started.
    pub(crate) fn start<R: Machine>(&mut self, rt: &R, alloc: Global) -> Result<(), AllocError>
        ensures nodes { nodes_of self.new.cast ≡ nodes_of self.old.cast }
        ensures started { OnOk result (has_started self.new.cast ≡ true) }
        ensures same { is_idle self.old.cast ≡ false → self.new.cast ≡ self.old.cast }
    {
        let running = match &self.cast {
            Cast::Named(nodes) if !nodes.is_empty() => {
                Running::start(rt, alloc, nodes, self.seed)?
            }
            _ => return Ok(()),
        };
        self.cast = Cast::Running(running);
        Ok(())
    }

    /// Adds a node, before the threads are started.
    ///
    /// # Errors
    /// [`AllocError`] if out of memory.
    pub(crate) fn join(
        &mut self,
        alloc: Global,
        name: &str,
        secret: &str,
        profile: Profile,
        out: &mut String,
    ) -> Result<(), AllocError>
        ensures nodes { is_idle self.old.cast ≡ true → OnOk result (nodes_of self.new.cast ≡ nodes_of self.old.cast ++ (name.now, setup_of secret.now profile) ∷ []) }
        ensures idle { is_idle self.new.cast ≡ is_idle self.old.cast }
    {
        if let Cast::Named(nodes) = &mut self.cast {
            nodes.push((node_name(alloc, name)?, setup(alloc, secret, profile)?))?;
        }
        put_answer(out, name, &Answer::Started(1))
    }

    /// Makes a call by the seat at the node of a name, and prints its answer.
    ///
    /// # Errors
    /// [`AllocError`] if out of memory.
    pub(crate) fn act<R: Wait>(
        &mut self,
        rt: &R,
        node: &str,
        asked: Act,
        out: &mut String,
    ) -> Result<Made, AllocError>
        ensures nodes { nodes_of self.new.cast ≡ nodes_of self.old.cast }
        ensures idle { is_idle self.new.cast ≡ is_idle self.old.cast }
    {
        match &mut self.cast {
            Cast::Running(running) => running.act(rt, node, asked, out),
            Cast::Named(_) => {
                drop(asked);
                put_refused(out, Refusal::NothingThere)?;
                Ok(Made::Nothing)
            }
        }
    }

    /// Lets one node dial another, under the next challenge.
    ///
    /// # Errors
    /// [`AllocError`] if out of memory.
    pub(crate) fn dial<R: Wait>(
        &mut self,
        rt: &R,
        alloc: Global,
        node: &str,
        peer: &str,
        out: &mut String,
    ) -> Result<Made, AllocError>
        ensures nodes { nodes_of self.new.cast ≡ nodes_of self.old.cast }
        ensures idle { is_idle self.new.cast ≡ is_idle self.old.cast }
    {
        let peer = node_name(alloc, peer)?;
        let word = self.word;
        self.word = word.wrapping_add(1);
        self.act(rt, node, Act::Dial { peer, word }, out)
    }

    // Returns the end of a process's link to another.
    fn end<R: Wait>(&self, rt: &R, process: &Pid, partner: &Pid) -> End {
        match &self.cast {
            Cast::Running(running) => running.end(rt, process, partner),
            Cast::Named(_) => End::None,
        }
    }

    /// Prints the two ends of the link between two processes.
    ///
    /// # Errors
    /// [`AllocError`] if out of memory.
    pub(crate) fn ends<R: Wait>(
        &self,
        rt: &R,
        first: &Pid,
        second: &Pid,
        out: &mut String,
    ) -> Result<(), AllocError> {
        let held = self.end(rt, first, second);
        put_ends(out, held, self.end(rt, second, first))
    }

    /// Waits until nothing more happens by itself, and prints `settled`, or `busy` if it goes on after the last look.
    ///
    /// # Errors
    /// [`AllocError`] if out of memory.
    pub(crate) fn settle<R: Wait>(&self, rt: &R, out: &mut String) -> Result<(), AllocError> {
        let settled = match &self.cast {
            Cast::Running(running) => running.cluster.settle(rt, MOST_LOOKS),
            Cast::Named(_) => Settled::Settled,
        };
        put_settled(out, settled == Settled::Settled)
    }

    /// Prints each node as it then is, the one after the other, and its processes. With `all`, prints its links,
    /// monitors and connections too.
    ///
    /// # Errors
    /// [`AllocError`] if out of memory.
    pub(crate) fn show<R: Wait>(
        &self,
        rt: &R,
        alloc: Global,
        all: bool,
        out: &mut String,
    ) -> Result<(), AllocError> {
        match &self.cast {
            Cast::Running(running) => running.show(rt, alloc, all, out),
            Cast::Named(_) => Ok(()),
        }
    }

    // Returns the line that shows the monitors of a process, or the refusal.
    fn monitors_of<R: Wait>(
        &self,
        rt: &R,
        alloc: Global,
        process: &Pid,
    ) -> Result<String, Refusal> {
        match &self.cast {
            Cast::Running(running) => running.monitors(rt, alloc, process),
            Cast::Named(_) => Err(Refusal::NothingThere),
        }
    }

    /// Prints the monitors of a process.
    ///
    /// # Errors
    /// [`AllocError`] if out of memory.
    pub(crate) fn monitors<R: Wait>(
        &self,
        rt: &R,
        alloc: Global,
        process: &Pid,
        out: &mut String,
    ) -> Result<(), AllocError> {
        match self.monitors_of(rt, alloc, process) {
            Ok(text) => out.push_str(text.as_str()),
            Err(Refusal::OutOfMemory) => Err(AllocError),
            Err(why) => put_refused(out, why),
        }
    }
}
