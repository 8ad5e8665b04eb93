//! The end of nodes in threads.
ghost use Rattle.std.specs.Prelude.{◌≡◌, IfErr, IfOk};
ghost use Rattle.erl_term.specs.declared.refusal.Refusal.TheVariants.{OutOfMemory};
ghost use Rattle.joined_books.specs.Joined.{AreARun};
ghost use Rattle.world_core.specs.Stands.{StandsFor};

use erl_handshake::Setup;
use erl_names::NodeName;
use erl_term::Refusal;
use joined_books::{FinishError, Trace, replay};
use node_lock::{Book, Seat};
use std::alloc::Global;
use world_core::World;

/// The outcome of nodes in threads, once all threads have ended.
#[derive(Drop)]
pub struct Finished {
    /// The names and setups of the nodes.
    pub nodes: Vec<(NodeName, Setup)>,
    /// The book of each node, at its place.
    pub books: Vec<Book>,
    /// All entries of all books, by stamp and then by node.
    pub trace: Trace,
}

/// Nodes in threads whose histories weren't merged, with the fault. Nothing is lost but the parts for which
/// there was no memory.
#[derive(Drop)]
pub struct Unmerged {
    /// The fault.
    pub fault: FinishError,
    /// The names and setups of the nodes.
    pub nodes: Vec<(NodeName, Setup)>,
    /// The book of each node, at its place. Where memory is wanting, these may be the first alone.
    pub books: Vec<Book>,
    /// The seats of all callers.
    pub seats: Vec<Seat>,
}

impl Finished {
    /// Returns the world to which the trace leads: that at the end of the one run of all entries. It is
    /// made anew, by the events of the trace.
    ///
    /// # Errors
    /// Those of [`replay`]. If nothing here was changed since
    /// [`Cluster::finish`](crate::Cluster::finish), [`Refusal::OutOfMemory`] alone.
    pub fn world(&self, alloc: Global) -> Result<World, Refusal>
        ensures ok { (run : AreARun self.now.nodes.items self.now.books.items self.now.trace.entries.items) →
            IfOk result (λ world. StandsFor world run.run.world) }
        ensures err { AreARun self.now.nodes.items self.now.books.items self.now.trace.entries.items → IfErr result (λ e. e ≡ OutOfMemory) }
    {
        replay(alloc, &self.nodes, &self.books, &self.trace)
    }
}
