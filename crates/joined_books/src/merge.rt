//! Books compared and merged.
ghost use Rattle.std.specs.Prelude.{IfErr, IfOk, List};
ghost use Rattle.joined_books.specs.Faults.{IsFault};
ghost use Rattle.joined_books.specs.Joined.{AreARun, AllReplay, IsTrace};
ghost use Rattle.joined_books.specs.Names.{AreInPlace};
ghost use Rattle.joined_books.specs.Receipts.{AreReceipts};
ghost use Rattle.node_lock.specs.declared.seat.Seat.{Seat as TheSeat};

use crate::error::FinishError;
use crate::laws;
use crate::names::strange_book;
use crate::order::sorted;
use crate::receipts::check_receipts;
use crate::trace::Trace;
use crate::wires::check_wires;
use erl_handshake::Setup;
use erl_names::NodeName;
use node_lock::{Book, Seat};
use std::alloc::Global;

// Checks that each book is of the node of its place, and that each node has one.
fn check_names(nodes: &[(NodeName, Setup)], books: &[Book]) -> Result<(), FinishError>
    ensures ok { IfOk result (λ _. AreInPlace nodes.now books.now) }
    ensures err { IfErr result (λ e. (seats : List TheSeat) → IsFault nodes.now books.now seats e) }
{
    match strange_book(nodes, books) {
        Some(node) => Err(FinishError::StrangeBook { node }),
        None => Ok(()),
    }
}

// Does nothing. A log replays each book.
fn all_replay(books: &[Book])
    ensures { AllReplay books.now }
{
    for book in books {
        book.replays();
    }
}

/// Compares the books of all nodes, of these names and setups, with one another and with the seats of
/// all callers, and merges them. Then the trace has all entries of all books, each once, by stamp and then
/// by node (`trace`). They are one run of the model's world of these nodes, from its opening to the world
/// of the books, with what was sent and not yet taken on its ways, and the run is safe at each of its
/// moments (`run`). And the receipts are the acts that the books have entered: each stands at its place,
/// and each act has one (`receipts`).
///
/// # Errors
/// The fault is at the place that the error names, and the tests before it have passed (`fault`):
/// [`FinishError::StrangeBook`] where a book isn't of the node at its place, or that node has none;
/// [`FinishError::Torn`] where what a node took of a connection doesn't begin what the other has put on
/// it; [`FinishError::StrangeReceipt`] where a receipt doesn't stand at its place in the book of its
/// seat's node, or another stands there too; [`FinishError::SeatsMissing`] where the seats of a node
/// haven't as many receipts as it has acts. [`FinishError::OutOfMemory`] where there is no memory for
/// one of these tests, or for the trace.
pub fn merge_books(
    alloc: Global,
    nodes: &[(NodeName, Setup)],
    books: &[Book],
    seats: &[Seat],
) -> Result<Trace, FinishError>
    ensures trace { IfOk result (λ trace. IsTrace books.now trace.entries.items) }
    ensures run { IfOk result (λ trace. AreARun nodes.now books.now trace.entries.items) }
    ensures receipts { IfOk result (λ _. AreReceipts books.now seats.now) }
    ensures fault { IfErr result (IsFault nodes.now books.now seats.now) }
{
    dist_books::books_are_a_run();
    laws::bytes_tell_items();
    all_replay(books);
    check_names(nodes, books)?;
    check_wires(books)?;
    check_receipts(alloc, books, seats)?;
    Ok(Trace {
        entries: sorted(alloc, books)?,
    })
}
