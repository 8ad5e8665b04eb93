//! The entries of all books in one order.
ghost use Rattle.std.specs.Prelude.{◌≡◌, ◌++◌, IfOk, IsPermutation, map};
ghost use Rattle.joined_books.specs.Parts.{stamps_in, stamps_of};
ghost use Rattle.joined_books.specs.Places.{IsByStampAndNode, all_places, places_from};

use crate::trace::Placed;
use node_history::Entry;
use node_lock::Book;
use std::alloc::{AllocError, Global};

// The places of a node's entries come behind the others.
fn push_places(placed: &mut Vec<Placed>, node: usize, entries: &[Entry]) -> Result<(), AllocError>
    ensures { IfOk result (λ _. placed.new.items ≡ placed.old.items ++ places_from node 0 (stamps_in entries.now)) }
{
    for position in 0..entries.len() {
        placed.push(Placed {
            stamp: entries[position].stamp,
            node,
            position,
        })?;
    }
    Ok(())
}

// The places of all entries, book by book.
fn all_places(alloc: Global, books: &[Book]) -> Result<Vec<Placed>, AllocError>
    ensures { IfOk result (λ placed. placed.items ≡ all_places 0 (map stamps_of books.now)) }
{
    let mut placed = Vec::new(alloc);
    for node in 0..books.len() {
        push_places(&mut placed, node, books[node].entries())?;
    }
    Ok(placed)
}

/// The places of all entries, by stamp and then by node.
///
/// # Errors
/// Where there is no memory for them.
pub(crate) fn sorted(alloc: Global, books: &[Book]) -> Result<Vec<Placed>, AllocError>
    ensures all { IfOk result (λ placed. IsPermutation (all_places 0 (map stamps_of books.now)) placed.items) }
    ensures order { IfOk result (λ placed. IsByStampAndNode placed.items) }
{
    let mut placed = all_places(alloc, books)?;
    placed.sort_unstable_by_key(|place| (place.stamp, place.node));
    Ok(placed)
}
