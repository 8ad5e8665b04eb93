//! A node with its history.
ghost use Rattle.std.specs.Prelude.{◌≡◌, ◌+◌, ◌<◌, IfOk, IfErr, OnOk, max, vec_len, vec_capacity, []};
ghost use Rattle.node_core.specs.Model.{model_of};
ghost use Rattle.node_history.specs.Entering.{IsWanting, Writes, is_unwritten};

use crate::entry::{Answered, Entry};
use erl_term::Refusal;
use node_core::{Node, NodeEvent};
use std::alloc::Global;

/// A node, and the history of what has happened at it. Contracts see the node, the stamp of its last
/// event (0 before the first), and the entries, the first event first.
#[derive(Drop)]
pub struct History {
    pub(crate) node: Node,
    pub(crate) last: u64,
    pub(crate) entries: Vec<Entry>,
}

// Whether an event isn't written down: memory was wanting.
fn is_unwritten(answer: &Answered) -> bool
    ensures { result ≡ is_unwritten answer.now }
{
    matches!(answer, Err(Refusal::OutOfMemory))
}

impl History {
    /// Nothing has happened at this node yet. Takes no memory.
    pub fn new(alloc: Global, node: Node) -> History
        ensures node { result.node ≡ node }
        ensures last { result.last ≡ 0 }
        ensures entries { result.entries.items ≡ [] }
    {
        History {
            node,
            last: 0,
            entries: Vec::new(alloc),
        }
    }

    /// The node.
    pub fn node(&self) -> &Node
        ensures { model_of result.now ≡ model_of self.now.node }
    {
        &self.node
    }

    /// The stamp of its last event, or 0.
    pub fn last(&self) -> u64
        ensures { result ≡ self.now.last }
    {
        self.last
    }

    /// Returns the greater of two stamps: that of the last event, or 0, and `above`.
    pub fn last_or(&self, above: u64) -> u64
        ensures { result ≡ max self.now.last above }
    {
        if self.last < above { above } else { self.last }
    }

    /// The entries of what has happened, the first event first.
    pub fn entries(&self) -> &[Entry]
        ensures { result.now ≡ self.now.entries.items }
    {
        self.entries.as_slice()
    }

    /// Makes room for one entry more, and tells its stamp: one more than the greater of the last one and
    /// of this one.
    ///
    /// # Errors
    /// [`Refusal::IdsUsedUp`] where there is no higher stamp, and then [`Refusal::OutOfMemory`].
    pub fn next_stamp(&mut self, above: u64) -> Result<u64, Refusal>
        ensures node { self.new.node ≡ self.old.node }
        ensures last { self.new.last ≡ self.old.last }
        ensures entries { self.new.entries.items ≡ self.old.entries.items }
        ensures ok { IfOk result (λ stamp. stamp ≡ max self.old.last above + 1) }
        ensures room { OnOk result (vec_len self.new.entries < vec_capacity self.new.entries) }
        ensures err { IfErr result (IsWanting self.old.last above) }
    {
        let Some(stamp) = self.last_or(above).checked_add(1) else {
            return Err(Refusal::IdsUsedUp);
        };
        match self.entries.reserve(1) {
            Ok(()) => Ok(stamp),
            Err(_) => Err(Refusal::OutOfMemory),
        }
    }

    // What the node has answered is written down, for which there is room, and the place of the entry
    // is told. Where memory was wanting nothing is.
    pub(crate) fn write(
        &mut self,
        stamp: u64,
        event: NodeEvent,
        answer: Answered,
    ) -> Result<usize, Refusal>
        requires { vec_len self.old.entries < vec_capacity self.old.entries }
        ensures { Writes stamp event answer self.old self.new result }
    {
        if is_unwritten(&answer) {
            drop(event);
            drop(answer);
            return Err(Refusal::OutOfMemory);
        }
        let place = self.entries.len();
        self.last = stamp;
        self.entries.push_reserved(Entry {
            stamp,
            event,
            answer,
        });
        Ok(place)
    }
}
