//! The world to which a trace leads.
ghost use Rattle.std.specs.Prelude.{◌≡◌, IfErr, IfOk, OnOk, slice_get};
ghost use Rattle.std.specs.Option.{option_copied};
ghost use Rattle.dist_model.specs.Runs.{opening};
ghost use Rattle.dist_model.specs.World.{World as TheWorld};
ghost use Rattle.erl_term.specs.declared.refusal.Refusal.TheVariants.{OutOfMemory};
ghost use Rattle.joined_books.specs.Joined.{AreARun};
ghost use Rattle.joined_books.specs.Parts.{entries_at};
ghost use Rattle.joined_books.specs.Replayed.{HappensAgain, IsUnopened};
ghost use Rattle.world_core.specs.Stands.{StandsFor};

use crate::trace::{Placed, Trace};
use erl_handshake::Setup;
use erl_names::NodeName;
use erl_term::Refusal;
use node_history::{Entry, copied_event};
use node_lock::Book;
use std::alloc::{AllocError, Global};
use world_core::{Event, World};

// Copies of names and setups.
fn copied(alloc: Global, nodes: &[(NodeName, Setup)]) -> Result<Vec<(NodeName, Setup)>, AllocError>
    ensures { IfOk result (λ copies. copies.items ≡ nodes.now) }
{
    let mut copies = Vec::with_capacity(alloc, nodes.len())?;
    for (name, setup) in nodes {
        copies.push((name.clone()?, setup.clone()?))?;
    }
    Ok(copies)
}

// The world of these nodes before anything has happened.
fn opened(alloc: Global, nodes: &[(NodeName, Setup)]) -> Result<World, Refusal>
    ensures ok { IfOk result (λ world. StandsFor world (opening nodes.now)) }
    ensures err { IfErr result (IsUnopened nodes.now) }
{
    if !World::can_open(nodes) {
        return Err(Refusal::BadName);
    }
    let copies = copied(alloc, nodes)?;
    Ok(World::new(alloc, copies)?)
}

fn entry_of(entries: &[Entry], position: usize) -> Option<&Entry>
    ensures { option_copied result ≡ slice_get entries.now position }
{
    entries.get(position)
}

// The entry that stands at a place.
fn entry_at<'a>(books: &'a [Book], placed: &Placed) -> Option<&'a Entry>
    ensures { option_copied result ≡ slice_get (entries_at books.now placed.now.node) placed.now.position }
{
    if placed.node >= books.len() {
        return None;
    }
    entry_of(books[placed.node].entries(), placed.position)
}

// Lets the event of an entry happen in a world, at the node of a place.
fn happens(alloc: Global, world: &mut World, node: usize, entry: &Entry) -> Result<(), Refusal>
    ensures ok { (m : TheWorld) → StandsFor world.old m → OnOk result (HappensAgain m node entry.now world.new) }
    ensures err { IfErr result (λ e. e ≡ OutOfMemory) }
{
    if matches!(&entry.answer, Err(Refusal::OutOfMemory)) {
        return Ok(());
    }
    let event = copied_event(alloc, &entry.event)?;
    match world.apply(alloc, Event { node, event }) {
        Err(Refusal::OutOfMemory) => Err(Refusal::OutOfMemory),
        _ => Ok(()),
    }
}

/// The world to which the entries of a trace lead, one after the other, from the opening world of these
/// nodes: that at the end of the run that [`merge_books`](crate::merge_books) has found them to be.
///
/// # Errors
/// [`Refusal::OutOfMemory`]. Where the nodes, the books and the trace are not as `merge_books` has merged
/// them, [`Refusal::BadName`] where two nodes have one name, and [`Refusal::NothingThere`] where an entry
/// isn't in the books.
pub fn replay(
    alloc: Global,
    nodes: &[(NodeName, Setup)],
    books: &[Book],
    trace: &Trace,
) -> Result<World, Refusal>
    ensures ok { (run : AreARun nodes.now books.now trace.now.entries.items) → IfOk result (λ world. StandsFor world run.run.world) }
    ensures err { AreARun nodes.now books.now trace.now.entries.items → IfErr result (λ e. e ≡ OutOfMemory) }
{
    let mut world = opened(alloc, nodes)?;
    let entries = trace.entries.as_slice();
    for at in 0..entries.len() {
        let placed = &entries[at];
        match entry_at(books, placed) {
            Some(entry) => happens(alloc, &mut world, placed.node, entry)?,
            None => return Err(Refusal::NothingThere),
        }
    }
    Ok(world)
}
