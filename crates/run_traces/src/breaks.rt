//! The faults by which connections broke.
ghost use Rattle.std.specs.Prelude.{◌≡◌, ◌++◌, IfOk, OnOk, position, string_bytes};
ghost use Rattle.std.specs.Option.{option_copied};
ghost use Rattle.dist_model.specs.World.{Report as TheReport};
ghost use Rattle.node_core.specs.Told.{Tells};
ghost use Rattle.run_traces.specs.Breaks.{breaks_by, breaks_with, broken_by, is_of, none_broken, why_text, with_break};

use crate::events::fault_in;
use conn_core::Fault;
use dist_model::Answer;
use erl_term::Atom;
use node_frames::same_name;
use script_texts::put_answer;
use std::alloc::{AllocError, Global};
use world_core::Answered;

/// The fault by which the last connection of a node to a peer broke.
#[derive(Debug, Drop)]
struct Break {
    node: Atom,
    peer: Atom,
    fault: Fault,
}

/// The fault by which the last connection of each node to each peer broke, of those that broke. (ERTS User's
/// Guide, Distribution Protocol; Reference Manual, Distributed Erlang.)
#[derive(Debug, Drop)]
pub struct Breaks {
    list: Vec<Break>,
}

impl Clone for Break {
    ghost is_clone = { λ it copy. copy ≡ it };

    fn clone(&self) -> Result<Break, AllocError> {
        Ok(Break {
            node: self.node.clone()?,
            peer: self.peer.clone()?,
            fault: self.fault,
        })
    }
}

impl Break {
    fn is_of(&self, node: &Atom, peer: &Atom) -> bool
        ensures { result ≡ is_of node.now peer.now self.now }
    {
        same_name(&self.node, node) && same_name(&self.peer, peer)
    }
}

// Returns the index of the break of a node and a peer.
fn place_of(list: &[Break], node: &Atom, peer: &Atom) -> Option<usize>
    ensures { result ≡ position (is_of node.now peer.now) list.now }
{
    list.iter().position(|it| it.is_of(node, peer))
}

impl Breaks {
    /// Returns the breaks of a run in which no connection has broken. Allocates nothing.
    pub fn new(alloc: Global) -> Breaks
        ensures { broken_by result ≡ none_broken }
    {
        Breaks {
            list: Vec::new(alloc),
        }
    }

    /// Returns a copy with the same breaks. It has memory of its own.
    ///
    /// # Errors
    /// [`AllocError`] if out of memory.
    pub fn copy(&self, alloc: Global) -> Result<Breaks, AllocError>
        ensures { IfOk result (λ copy. broken_by copy ≡ broken_by self.now) }
    {
        Ok(Breaks {
            list: Vec::from_clones(alloc, &self.list)?,
        })
    }

    /// Returns the fault by which the last connection of a node to a peer broke. [`None`] if none has broken.
    pub fn last(&self, node: &Atom, peer: &Atom) -> Option<Fault>
        ensures { result ≡ broken_by self.now node.now peer.now }
    {
        self.list
            .iter()
            .find(|it| it.is_of(node, peer))
            .map(|it| it.fault)
    }

    // Notes the fault of the last connection of a node to a peer.
    fn note(&mut self, node: &Atom, peer: &Atom, fault: Fault) -> Result<(), AllocError>
        ensures { OnOk result (broken_by self.new ≡ with_break node.now peer.now fault (broken_by self.old)) }
    {
        match place_of(&self.list, node, peer) {
            Some(place) => {
                self.list[place].fault = fault;
                Ok(())
            }
            None => {
                let (node, peer) = (node.clone()?, peer.clone()?);
                Ok(self.list.push(Break { node, peer, fault })?)
            }
        }
    }

    // Notes the fault if there is one, and a peer.
    fn note_if(
        &mut self,
        node: &Atom,
        peer: Option<&Atom>,
        fault: Option<Fault>,
    ) -> Result<(), AllocError>
        ensures { OnOk result (broken_by self.new ≡ breaks_by node.now (option_copied peer.entry) fault (broken_by self.old)) }
    {
        let Some(peer) = peer else {
            return Ok(());
        };
        match fault {
            Some(fault) => self.note(node, peer, fault),
            None => Ok(()),
        }
    }

    /// Notes the connection that an event at the node of a name breaks, if it does. `peer` is the node from
    /// which an item came in it, and `came` its outcome.
    ///
    /// # Errors
    /// [`AllocError`] if out of memory.
    pub fn follow(
        &mut self,
        node: &Atom,
        peer: Option<&Atom>,
        came: &Answered,
    ) -> Result<(), AllocError>
        ensures { (report : TheReport) → Tells came.now report →
            OnOk result (broken_by self.new ≡ breaks_with node.now (option_copied peer.entry) report (broken_by self.old)) }
    {
        self.note_if(node, peer, fault_in(came))
    }
}

/// Appends the fault by which the last connection broke, by number and name, or `none`.
///
/// # Errors
/// [`AllocError`] if out of memory.
pub fn put_why(out: &mut String, fault: Option<Fault>) -> Result<(), AllocError>
    ensures { OnOk result (string_bytes out.new ≡ string_bytes out.old ++ why_text fault) }
{
    match fault {
        Some(fault) => put_answer(out, "", &Answer::Broken(fault)),
        None => out.push_str("none\n"),
    }
}
