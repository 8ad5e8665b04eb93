//! The acts of callers.
ghost use Rattle.std.specs.Prelude.{◌≡◌, ◌↔◌, IfErr, IfOk, IsTrue};
ghost use Rattle.node_lock.specs.Calling.{Calls, IsAtHome, IsUncalled, stamp_at};

use crate::act::Act;
use crate::book::Book;
use crate::seat::{Asked, Receipt, Seat, last_stands};
use erl_term::Refusal;
use node_history::copied_event;
use std::alloc::Global;

// Returns the stamp of the entry at a place.
fn stamp_at(book: &Book, place: usize) -> u64
    ensures { result ≡ stamp_at book.now.history.entries.items place }
{
    match book.entries().get(place) {
        Some(entry) => entry.stamp,
        None => 0,
    }
}

// Returns true if the book is of the seat's node, and has the seat's last receipt.
fn is_at_home(book: &Book, seat: &Seat) -> bool
    ensures { IsTrue result ↔ IsAtHome book.now seat.now }
{
    seat.node == book.place() && last_stands(seat.receipts.as_slice(), book.entries())
}

/// Runs `act` at the node of `book`, records it there, and appends the act with its receipt to
/// `seat`. Returns the index of the receipt in the seat. The receipt has the place, the stamp and
/// the answer of the entry.
///
/// # Errors
/// [`Refusal::StrangeSeat`] if the book is not of the seat's node, or does not have the seat's
/// last receipt at its place; else those of [`Book::act`]. On error nothing changes.
pub fn call(alloc: Global, book: &mut Book, seat: &mut Seat, act: Act) -> Result<usize, Refusal>
    ensures ok { IfOk result (Calls act book.old book.new seat.old seat.new) }
    ensures err { IfErr result (IsUncalled act book.old book.new seat.old seat.new) }
{
    if !is_at_home(book, seat) {
        drop(act);
        return Err(Refusal::StrangeSeat);
    }
    book.replays();
    if book.last_or(seat.above) == u64::MAX {
        drop(act);
        return Err(Refusal::IdsUsedUp);
    }
    if seat.receipts.reserve().is_err() {
        drop(act);
        return Err(Refusal::OutOfMemory);
    }
    let event = act.into_event();
    let kept = match copied_event(alloc, &event) {
        Ok(kept) => kept,
        Err(_) => {
            drop(event);
            return Err(Refusal::OutOfMemory);
        }
    };
    let told = match book.act(alloc, event, seat.above) {
        Ok(told) => told,
        Err(e) => {
            drop(kept);
            return Err(e);
        }
    };
    let receipt = Receipt {
        node: book.place(),
        position: told.place,
        stamp: stamp_at(book, told.place),
        answer: told.answer,
    };
    let place = seat.receipts.as_slice().len();
    seat.receipts.push(Asked {
        event: kept,
        receipt,
    });
    Ok(place)
}
