//! Some books, each with a seat at its node, and queries of them.
use crate::acts::{act, book, nodes, pid, trunk};
use crate::rows::{Ask, Kept, Named, Process, Range, Row, Told};
use erl_handshake::Setup;
use erl_names::{NodeName, TrunkId};
use erl_term::Refusal;
use joined_books::{FinishError, Placed, Trace, merge_books};
use link_core::End;
use node_core::NodeEvent;
use node_lock::{Asked, Book, Left, Seat, call};
use std::alloc::Global;
use std::sync::Wait;
use wire_core::{LONGEST, Offer, Parcel, Spelling};

/// More than all that can wait.
const ENOUGH: u32 = 2000;

/// The challenge of each message that comes.
const WORD: u32 = 5;

/// Books, each with a seat at its node, and their one connection.
#[derive(Drop)]
pub struct Stage {
    trunk: TrunkId,
    books: Vec<Book>,
    seats: Vec<Seat>,
}

// The place that rows call this one.
fn at(of: &[usize], place: usize) -> usize {
    match of.get(place) {
        Some(other) => *other,
        None => place,
    }
}

/// New books, and new seats.
pub fn open(alloc: Global, kept: &[Kept]) -> Result<Stage, Refusal> {
    let mut stage = Stage {
        trunk: trunk(alloc)?,
        books: Vec::new(alloc),
        seats: Vec::new(alloc),
    };
    match stage.fill(alloc, kept) {
        Ok(()) => Ok(stage),
        Err(e) => {
            drop(stage);
            Err(e)
        }
    }
}

// Returns the outcome of an act that a seat has asked for.
fn told(seat: &Seat, place: usize) -> Result<Told, Refusal> {
    let Some(Asked { receipt, .. }) = seat.receipts().get(place) else {
        return Err(Refusal::NothingThere);
    };
    Ok(if receipt.answer.is_ok() {
        Told::Done(receipt.node, receipt.position, receipt.stamp)
    } else {
        Told::Refused(receipt.node, receipt.position, receipt.stamp)
    })
}

// Asks a book for an act of a seat. Returns its outcome.
fn asked(alloc: Global, book: &mut Book, seat: &mut Seat, ask: Ask) -> Result<Told, Refusal> {
    let act = act(alloc, ask)?;
    match call(alloc, book, seat, act) {
        Ok(place) => told(seat, place),
        Err(Refusal::OutOfMemory) => Err(Refusal::OutOfMemory),
        Err(e) => Ok(Told::NotCalled(e)),
    }
}

fn ask_in(
    alloc: Global,
    book: &mut Book,
    seat: Option<&mut Seat>,
    ask: Ask,
) -> Result<Told, Refusal> {
    match seat {
        Some(seat) => asked(alloc, book, seat, ask),
        None => Err(Refusal::NothingThere),
    }
}

// Takes the item that has come to a book's node. Returns false if none has come.
fn take(alloc: Global, book: &mut Book, trunk: &TrunkId) -> Result<bool, Refusal> {
    if !book.ready(trunk) {
        return Ok(false);
    }
    let trunk = trunk.clone()?;
    book.apply(alloc, NodeEvent::Arrive { trunk, word: WORD })?;
    Ok(true)
}

// Returns true if a book takes up its half of a connection. If out of memory, that is tried again.
fn installs(alloc: Global, book: &mut Book, offer: Offer) -> bool {
    match book.install(alloc, offer) {
        Ok(()) => true,
        Err(back) => book.install(alloc, back).is_ok(),
    }
}

// Returns the parcels that a book has put on its wire, or (`taken`) has taken.
fn put(book: &Book) -> &[Parcel] {
    match book.outlets().first() {
        Some(outlet) => outlet.port().put(),
        None => &[],
    }
}

fn taken(book: &Book) -> &[Parcel] {
    match book.outlets().first() {
        Some(outlet) => outlet.port().taken(),
        None => &[],
    }
}

// Returns true if the books have merged into this.
fn is_told(
    alloc: Global,
    merged: &Result<Trace, FinishError>,
    want: &str,
) -> Result<bool, Refusal> {
    let mut text = String::new(alloc);
    match merged {
        Ok(trace) => {
            for Placed { stamp, node, .. } in &trace.entries {
                write!(text, "{node}:{stamp} ")?;
            }
        }
        Err(FinishError::OutOfMemory) => return Err(Refusal::OutOfMemory),
        Err(e) => write!(text, "{e}")?,
    }
    Ok(text.as_str() == want)
}

fn merge_as(
    alloc: Global,
    nodes: &[(NodeName, Setup)],
    books: &[Book],
    seats: &[Seat],
    want: &str,
) -> Result<bool, Refusal> {
    let merged = merge_books(alloc, nodes, books, seats);
    let is_right = is_told(alloc, &merged, want);
    drop(merged);
    is_right
}

impl Stage {
    fn fill(&mut self, alloc: Global, kept: &[Kept]) -> Result<(), Refusal> {
        for kept in kept {
            self.books.push(book(alloc, *kept)?)?;
            self.seats.push(Seat::new(alloc, kept.place))?;
        }
        Ok(())
    }

    fn book(&self, place: usize) -> Result<&Book, Refusal> {
        match self.books.get(place) {
            Some(book) => Ok(book),
            None => Err(Refusal::NothingThere),
        }
    }

    fn asks(&mut self, alloc: Global, seat: usize, book: usize, ask: Ask) -> Result<Told, Refusal> {
        match self.books.get_mut(book) {
            Some(book) => ask_in(alloc, book, self.seats.get_mut(seat), ask),
            None => Err(Refusal::NothingThere),
        }
    }

    // Returns true if a seat can ask its book for this so often.
    fn repeats(
        &mut self,
        alloc: Global,
        place: usize,
        ask: Ask,
        times: u32,
    ) -> Result<bool, Refusal> {
        for _ in 0..times {
            if !matches!(self.asks(alloc, place, place, ask)?, Told::Done(..)) {
                return Ok(false);
            }
        }
        Ok(true)
    }

    fn offer(&mut self, place: usize) -> Option<Left> {
        match self.books.get_mut(place) {
            Some(book) => book.take_offer(),
            None => None,
        }
    }

    // Returns true if a book takes up the offer that is left for it in another one.
    fn hands(&mut self, alloc: Global, from: usize, to: usize) -> bool {
        match self.offer(from) {
            Some(Left { offer, .. }) => self.takes_up(alloc, to, offer),
            None => false,
        }
    }

    fn takes_up(&mut self, alloc: Global, to: usize, offer: Offer) -> bool {
        match self.books.get_mut(to) {
            Some(book) => installs(alloc, book, offer),
            None => {
                drop(offer);
                false
            }
        }
    }

    fn flushes<R: Wait>(&mut self, rt: &R, alloc: Global, place: usize) -> Result<u64, Refusal> {
        match self.books.get_mut(place) {
            Some(book) => book.flush(rt, alloc, &self.trunk, 0),
            None => Err(Refusal::NothingThere),
        }
    }

    fn fetches<R: Wait>(&mut self, rt: &R, place: usize) -> Result<bool, Refusal> {
        match self.books.get_mut(place) {
            Some(book) => book.fetch(rt, &self.trunk, 0),
            None => Err(Refusal::NothingThere),
        }
    }

    fn takes(&mut self, alloc: Global, place: usize) -> Result<bool, Refusal> {
        match self.books.get_mut(place) {
            Some(book) => take(alloc, book, &self.trunk),
            None => Err(Refusal::NothingThere),
        }
    }

    // A book puts pieces of so many bytes at most from now on, where a piece may have so many.
    fn sets_piece(&mut self, place: usize, greatest: usize) -> bool {
        match self.books.get_mut(place) {
            Some(book) => {
                if greatest == 0 || greatest > LONGEST {
                    return false;
                }
                book.set_piece(greatest);
                true
            }
            None => false,
        }
    }

    fn is_ready(&self, place: usize) -> Result<bool, Refusal> {
        Ok(self.book(place)?.ready(&self.trunk))
    }

    // Returns true if a book takes so many pieces, and nothing is ready after any of them.
    fn gathers<R: Wait>(&mut self, rt: &R, place: usize, times: u32) -> Result<bool, Refusal> {
        for _ in 0..times {
            if !self.fetches(rt, place)? || self.is_ready(place)? {
                return Ok(false);
            }
        }
        Ok(true)
    }

    // Puts the frames that wait, takes a piece of them, and applies an item that is whole. Returns true if
    // anything moves.
    fn passes<R: Wait>(
        &mut self,
        rt: &R,
        alloc: Global,
        from: usize,
        to: usize,
    ) -> Result<bool, Refusal> {
        let has_put = self.flushes(rt, alloc, from)? > 0;
        let has_taken = self.fetches(rt, to)?;
        let has_come = self.takes(alloc, to)?;
        Ok(has_put || has_taken || has_come)
    }

    // Returns true if all that waits passes, in both directions.
    fn settles<R: Wait>(
        &mut self,
        rt: &R,
        alloc: Global,
        a: usize,
        b: usize,
    ) -> Result<bool, Refusal> {
        for _ in 0..ENOUGH {
            if !self.passes(rt, alloc, a, b)? && !self.passes(rt, alloc, b, a)? {
                return Ok(true);
            }
        }
        Ok(false)
    }

    /// Returns a copy of the bytes that a book has put on its wire last.
    pub fn last_put(&self, place: usize) -> Result<Spelling, Refusal> {
        match put(self.book(place)?).last() {
            Some(parcel) => Ok(parcel.bytes.clone()?),
            None => Err(Refusal::NothingThere),
        }
    }

    fn put(&self, place: usize) -> Result<usize, Refusal> {
        Ok(put(self.book(place)?).len())
    }

    fn taken(&self, place: usize) -> Result<usize, Refusal> {
        Ok(taken(self.book(place)?).len())
    }

    fn receipts(&self, place: usize) -> Result<usize, Refusal> {
        match self.seats.get(place) {
            Some(seat) => Ok(seat.receipts().len()),
            None => Err(Refusal::NothingThere),
        }
    }

    fn is_connected(&self, place: usize, peer: usize) -> Result<bool, Refusal> {
        let peer = self.book(peer)?.node().name();
        Ok(self.book(place)?.node().route(peer.atom()) == Some(&self.trunk))
    }

    fn end(&self, alloc: Global, place: usize, p: Process, q: Process) -> Result<End, Refusal> {
        let p = pid(alloc, p)?;
        let q = pid(alloc, q)?;
        Ok(self.book(place)?.node().end(&p, &q))
    }

    fn merges(
        &self,
        alloc: Global,
        named: &[Named],
        books: Range,
        seats: Range,
        want: &str,
    ) -> Result<bool, Refusal> {
        let nodes = nodes(alloc, named)?;
        match (
            self.books.get(books.0..books.1),
            self.seats.get(seats.0..seats.1),
        ) {
            (Some(books), Some(seats)) => merge_as(alloc, &nodes, books, seats, want),
            _ => Err(Refusal::NothingThere),
        }
    }

    // Returns true if the books are as a row says.
    fn shows(&self, alloc: Global, of: &[usize], row: Row) -> Result<bool, Refusal> {
        Ok(match row {
            Row::HasPut(book, count) => self.put(at(of, book))? == count,
            Row::HasTaken(book, count) => self.taken(at(of, book))? == count,
            Row::HasEntries(book, count) => self.book(at(of, book))?.entries().len() == count,
            Row::HasReceipts(seat, count) => self.receipts(at(of, seat))? == count,
            Row::IsReady(book, does) => self.is_ready(at(of, book))? == does,
            Row::IsUp(book, does) => self.book(at(of, book))?.node().is_up() == does,
            Row::IsConnected(book, peer, does) => self.is_connected(at(of, book), at(of, peer))?
                == does,
            Row::Has(book, p, q, end) => self.end(alloc, at(of, book), p, q)? == end,
            Row::Merges(nodes, books, seats, want) => self.merges(
                alloc, nodes, books, seats, want,
            )?,
            _ => false,
        })
    }

    // Returns true if a row holds.
    fn tries<R: Wait>(
        &mut self,
        rt: &R,
        alloc: Global,
        of: &[usize],
        row: Row,
    ) -> Result<bool, Refusal> {
        Ok(match row {
            Row::Asks(seat, book, ask, want) => self.asks(alloc, at(of, seat), at(of, book), ask)?
                == want,
            Row::Repeats(book, ask, times) => self.repeats(alloc, at(of, book), ask, times)?,
            Row::Hands(from, to, does) => self.hands(alloc, at(of, from), at(of, to)) == does,
            Row::Settles(a, b) => self.settles(rt, alloc, at(of, a), at(of, b))?,
            Row::SetsPiece(book, greatest) => self.sets_piece(at(of, book), greatest),
            Row::Gathers(book, times) => self.gathers(rt, at(of, book), times)?,
            Row::Flushes(book, count) => self.flushes(rt, alloc, at(of, book))? == count,
            Row::Fetches(book, does) => self.fetches(rt, at(of, book))? == does,
            _ => self.shows(alloc, of, row)?,
        })
    }

    /// Returns true if a row holds. If out of memory, it is tried again, as nothing has changed then.
    pub fn holds<R: Wait>(
        &mut self,
        rt: &R,
        alloc: Global,
        of: &[usize],
        row: Row,
    ) -> Result<bool, Refusal> {
        match self.tries(rt, alloc, of, row) {
            Err(Refusal::OutOfMemory) => self.tries(rt, alloc, of, row),
            tried => tried,
        }
    }
}
