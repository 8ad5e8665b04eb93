//! A book under its lock.
ghost use Rattle.std.specs.Prelude.{◌≡◌, IfErr, IfOk, []};
ghost use Rattle.node_lock.specs.Calling.{Asks, IsCallRefusal, IsSameSeat};

use crate::act::Act;
use crate::book::Book;
use crate::calling::call;
use crate::seat::Seat;
use erl_term::Refusal;
use std::alloc::Global;
use std::sync::{Mutex, MutexGuard, Wait};

/// The book of a node under the node's own lock, until it is taken out. No lock is over two nodes. What
/// the book keeps holds whenever the lock is taken, and nothing else is known of it then.
#[derive(Drop)]
pub struct NodeLock {
    place: usize,
    book: Mutex<Option<Book>>,
}

// Runs `act` in the book, if it is there.
fn call_in(
    alloc: Global,
    book: &mut Option<Book>,
    seat: &mut Seat,
    act: Act,
) -> Result<usize, Refusal>
    ensures ok { IfOk result (Asks act seat.old seat.new) }
    ensures err { IfErr result (λ _. IsSameSeat seat.old seat.new) }
    ensures why { IfErr result IsCallRefusal }
{
    match book {
        Some(book) => call(alloc, book, seat, act),
        None => {
            drop(act);
            Err(Refusal::StrangeSeat)
        }
    }
}

impl NodeLock {
    /// Returns a lock over the book. Never allocates.
    pub fn new(book: Book) -> NodeLock
        ensures { result.place ≡ book.place }
    {
        NodeLock {
            place: book.place(),
            book: Mutex::new(Some(book)),
        }
    }

    /// Returns a new seat at the node. Never allocates.
    pub fn seat(&self, alloc: Global) -> Seat
        ensures node { result.node ≡ self.now.place }
        ensures receipts { result.receipts.items ≡ [] }
        ensures above { result.above ≡ 0 }
    {
        Seat::new(alloc, self.place)
    }

    /// Runs `act` at the node as it then is, and records it in the book. Returns the index of the receipt in
    /// `seat`.
    ///
    /// # Errors
    /// Those of [`call`]: [`Refusal::StrangeSeat`], [`Refusal::IdsUsedUp`] or [`Refusal::OutOfMemory`]. The first
    /// of them too if the book was taken out. On error the seat does not change. If the node refuses the act,
    /// the receipt says so.
    pub fn call<R: Wait>(
        &self,
        rt: &R,
        alloc: Global,
        seat: &mut Seat,
        act: Act,
    ) -> Result<usize, Refusal>
        ensures ok { IfOk result (Asks act seat.old seat.new) }
        ensures err { IfErr result (λ _. IsSameSeat seat.old seat.new) }
        ensures why { IfErr result IsCallRefusal }
    {
        call_in(alloc, &mut self.book.lock(rt), seat, act)
    }

    /// Lends the book to a thread, unless it was taken out.
    pub fn lock<R: Wait>(&self, rt: &R) -> MutexGuard<'_, Option<Book>> {
        self.book.lock(rt)
    }

    /// Takes the book out, for good. Never allocates.
    pub fn take<R: Wait>(&self, rt: &R) -> Option<Book> {
        self.book.lock(rt).take()
    }
}
