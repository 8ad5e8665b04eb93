//! Whether receipts are the acts of books.
ghost use Rattle.std.specs.Prelude.{◌≡◌, ◌⊎◌, ◌↔◌, ◌++◌, ◌<◌, ◌≤◌, ◌^◌, ℕ, All, Bool, List, [], IfErr, IfOk, IsTrue, MatchOption, false, length, count_by, slice_index_or, slice_set, true};
ghost use Rattle.dist_books.specs.Acting.{Nodes};
ghost use Rattle.joined_books.specs.Faults.{IsFault};
ghost use Rattle.joined_books.specs.Marks.{AreMarked, IsStrange};
ghost use Rattle.joined_books.specs.Names.{AreInPlace};
ghost use Rattle.joined_books.specs.Parts.{entries_at};
ghost use Rattle.joined_books.specs.Receipts.{AllEntered, AreEnteredApart, AreReceipts, IsEnteredIn, IsShort, own_receipts, position_of, receipts_of};
ghost use Rattle.joined_books.specs.Wires.{AreWhole};
ghost use Rattle.node_history.specs.Acts.{is_act};
ghost use Rattle.node_lock.specs.declared.seat.Asked.{Asked as TheAsked};

use crate::error::FinishError;
use node_history::{Entry, is_act};
use node_lock::{Asked, Book, Seat, stands_as};
use std::alloc::{AllocError, Global};

// Marks the position of a receipt. Refuses one that doesn't stand there, or whose position is marked.
fn mark(marks: &mut Vec<bool>, entries: &[Entry], asked: &Asked) -> bool
    requires { length marks.old.items ≡ length entries.now }
    ensures len { length marks.new.items ≡ length marks.old.items }
    ensures stands { IsTrue result → IsEnteredIn entries.now asked.now }
    ensures within { IsTrue result → position_of asked.now < length marks.old.items }
    ensures free { IsTrue result → slice_index_or marks.old.items (position_of asked.now) false ≡ false }
    ensures marked { IsTrue result → marks.new.items ≡ slice_set marks.old.items (position_of asked.now) true }
    ensures refused { result ≡ false →
        (IsEnteredIn entries.now asked.now → ⊥) ⊎ (slice_index_or marks.old.items (position_of asked.now) false ≡ true) }
{
    let at = asked.receipt.position;
    if at >= entries.len() || !stands_as(asked, entries.get(at)) || marks[at] {
        return false;
    }
    marks[at] = true;
    true
}

// The same of several. Answers the position of the first that is refused.
fn mark_all(marks: &mut Vec<bool>, entries: &[Entry], receipts: &[Asked]) -> Option<usize>
    requires { length marks.old.items ≡ length entries.now }
    ensures marked { (before : List TheAsked) → AreMarked position_of (IsEnteredIn entries.now) (length entries.now) marks.old.items before →
        MatchOption result (AreMarked position_of (IsEnteredIn entries.now) (length entries.now) marks.new.items (before ++ receipts.now))
        (IsStrange position_of (IsEnteredIn entries.now) (before ++ receipts.now)) }
    ensures len { length marks.new.items ≡ length marks.old.items }
{
    for asked in receipts {
        if !mark(marks, entries, asked) {
            return Some(asked.receipt.position);
        }
    }
    None
}

// The receipts of a seat, where it is of that node.
fn own_receipts(node: usize, seat: &Seat) -> &[Asked]
    ensures { result.now ≡ own_receipts node seat.now }
{
    if seat.node() == node {
        seat.receipts()
    } else {
        &[]
    }
}

// The position of a receipt of a node's seats that doesn't stand there, or where another stands.
fn strange_one(
    alloc: Global,
    node: usize,
    entries: &[Entry],
    seats: &[Seat],
) -> Result<Option<usize>, AllocError>
    ensures { IfOk result (λ strange. MatchOption strange
        ((marks : List Bool) × AreMarked position_of (IsEnteredIn entries.now) (length entries.now) marks (receipts_of node seats.now))
        (IsStrange position_of (IsEnteredIn entries.now) (receipts_of node seats.now))) }
{
    let mut marks = Vec::from_elem(alloc, false, entries.len())?;
    for seat in seats {
        if let Some(position) = mark_all(&mut marks, entries, own_receipts(node, seat)) {
            return Ok(Some(position));
        }
    }
    Ok(None)
}

// Whether the receipts of all seats stand, each at another position.
fn check_nodes(alloc: Global, books: &[Book], seats: &[Seat]) -> Result<(), FinishError>
    ensures ok { IfOk result (λ _. (node : ℕ) → node < length books.now → AreEnteredApart books.now seats.now node) }
    ensures err { IfErr result (λ e. (opening : Nodes) → AreInPlace opening books.now → AreWhole books.now → IsFault opening books.now seats.now e) }
{
    for node in 0..books.len() {
        match strange_one(alloc, node, books[node].entries(), seats)? {
            Some(position) => return Err(FinishError::StrangeReceipt { node, position }),
            None => {}
        }
    }
    Ok(())
}

// Whether no seat of a node that there isn't has a receipt.
fn check_seats(books: &[Book], seats: &[Seat]) -> Result<(), FinishError>
    ensures ok { IfOk result (λ _. All (λ seat. length books.now ≤ seat.node → seat.receipts.items ≡ []) seats.now) }
    ensures err { IfErr result (λ e. (opening : Nodes) → AreInPlace opening books.now → AreWhole books.now → IsFault opening books.now seats.now e) }
{
    for seat in seats {
        if seat.node() >= books.len() {
            if let Some(asked) = seat.receipts().first() {
                return Err(FinishError::StrangeReceipt {
                    node: seat.node(),
                    position: asked.receipt.position,
                });
            }
        }
    }
    Ok(())
}

// How many acts a history has.
fn acts(entries: &[Entry]) -> usize
    ensures { result ≡ count_by (λ entry. is_act entry.event) entries.now }
{
    let mut found = 0;
    for entry in entries {
        if is_act(&entry.event) {
            found += 1;
        }
    }
    found
}

// How many receipts the seats of a node have; none is told where no history could have so many.
fn held(node: usize, seats: &[Seat]) -> Option<usize>
    ensures { MatchOption result (2 ^ 64 ≤ length (receipts_of node seats.now)) (λ count. count ≡ length (receipts_of node seats.now)) }
{
    let mut found = 0usize;
    for seat in seats {
        match found.checked_add(own_receipts(node, seat).len()) {
            Some(more) => found = more,
            None => return None,
        }
    }
    Some(found)
}

// Whether the seats of a node have not as many receipts as it has acts.
fn is_short(node: usize, entries: &[Entry], seats: &[Seat]) -> bool
    ensures { IsTrue result ↔ IsShort entries.now (receipts_of node seats.now) }
{
    match held(node, seats) {
        Some(count) => count != acts(entries),
        None => true,
    }
}

// Whether the seats of each node have as many receipts as it has acts.
fn check_counts(books: &[Book], seats: &[Seat]) -> Result<(), FinishError>
    ensures ok { IfOk result (λ _. (node : ℕ) → node < length books.now →
        IsShort (entries_at books.now node) (receipts_of node seats.now) → ⊥) }
    ensures err { IfErr result (λ e. (opening : Nodes) → AreInPlace opening books.now → AreWhole books.now → AllEntered books.now seats.now →
        IsFault opening books.now seats.now e) }
{
    for node in 0..books.len() {
        if is_short(node, books[node].entries(), seats) {
            return Err(FinishError::SeatsMissing { node });
        }
    }
    Ok(())
}

/// Compares the receipts of seats with the acts of books.
///
/// # Errors
/// [`FinishError::StrangeReceipt`] where a receipt doesn't stand at its place in the book of its seat's
/// node, or another stands there too, and then [`FinishError::SeatsMissing`] where the seats of a node
/// have fewer receipts than it has acts. [`FinishError::OutOfMemory`] where there is no memory for a mark
/// for each entry of a node.
pub(crate) fn check_receipts(
    alloc: Global,
    books: &[Book],
    seats: &[Seat],
) -> Result<(), FinishError>
    ensures ok { IfOk result (λ _. AreReceipts books.now seats.now) }
    ensures err { IfErr result (λ e. (opening : Nodes) → AreInPlace opening books.now → AreWhole books.now → IsFault opening books.now seats.now e) }
{
    check_nodes(alloc, books, seats)?;
    check_seats(books, seats)?;
    check_counts(books, seats)
}
