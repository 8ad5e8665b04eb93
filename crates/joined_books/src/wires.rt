//! Whether wires agree.
ghost use Rattle.std.specs.Prelude.{◌≡◌, ◌↔◌, IfErr, IfOk, IsTrue, List, MatchOption, Some};
ghost use Rattle.std.specs.Option.{option_copied, option_map};
ghost use Rattle.dist_books.specs.Acting.{Nodes};
ghost use Rattle.joined_books.specs.Faults.{IsFault};
ghost use Rattle.joined_books.specs.Names.{AreInPlace};
ghost use Rattle.joined_books.specs.Parcels.{Begins, IsTornAt, said};
ghost use Rattle.joined_books.specs.Wires.{AreWhole, IsTornIn, IsWholeAt, put_to, put_towards};
ghost use Rattle.node_lock.specs.declared.seat.Seat.{Seat as TheSeat};

use crate::error::FinishError;
use crate::finding::{outlet_of, outlets_named, own};
use erl_names::{NodeName, TrunkId};
use node_frames::same_name;
use node_lock::{Book, Outlet};
use wire_core::{Parcel, Port};

// Whether a parcel was put as it was taken.
fn is_same(put: Option<&Parcel>, taken: &Parcel) -> bool
    ensures { IsTrue result ↔ (option_map said (option_copied put.entry) ≡ Some (said taken.now)) }
{
    match put {
        Some(put) => put.stamp == taken.stamp && put.bytes.as_slice() == taken.bytes.as_slice(),
        None => false,
    }
}

// The place of the first parcel that was taken and not put so.
fn first_torn(taken: &[Parcel], put: &[Parcel]) -> Option<usize>
    ensures { MatchOption result (Begins taken.now put.now) (IsTornAt taken.now put.now) }
{
    for place in 0..taken.len() {
        if !is_same(put.get(place), &taken[place]) {
            return Some(place);
        }
    }
    None
}

// What an end of a connection, if there is one, has put to the node of a name.
fn put_to<'a>(name: &NodeName, outlet: Option<&'a Outlet>) -> &'a [Parcel]
    ensures { result.now ≡ put_to name.now (option_copied outlet.entry) }
{
    match outlet {
        Some(outlet) => {
            if same_name(outlet.port().peer().atom(), name.atom()) {
                outlet.port().put()
            } else {
                &[]
            }
        }
        None => &[],
    }
}

// What the peer of a port has put on its connection to the node of a name.
fn put_towards<'a>(books: &'a [Book], name: &NodeName, port: &Port) -> &'a [Parcel]
    ensures { result.now ≡ put_towards books.now name.now port.now }
{
    put_to(
        name,
        outlet_of(outlets_named(books, port.peer()), port.trunk()),
    )
}

// A connection, and the number, from 1, of the first parcel that one node took of it and the other hasn't
// put so.
struct Tear<'a> {
    trunk: &'a TrunkId,
    seq: usize,
}

// The first tear at the ends of one book.
fn tear_at<'a>(books: &[Book], book: &'a Book) -> Option<Tear<'a>>
    ensures { MatchOption result (IsWholeAt books.now book.now) (λ tear. IsTornIn books.now book.now tear.trunk.now tear.seq) }
{
    let name = own(book);
    for outlet in book.outlets() {
        let port = outlet.port();
        if let Some(place) = first_torn(port.taken(), put_towards(books, name, port)) {
            return Some(Tear {
                trunk: port.trunk(),
                seq: place + 1,
            });
        }
    }
    None
}

/// Compares what each node took of each connection with what the other has put on it.
///
/// # Errors
/// [`FinishError::Torn`] where the one doesn't begin the other, and [`FinishError::OutOfMemory`] where
/// there is no memory to tell of which connection.
pub(crate) fn check_wires(books: &[Book]) -> Result<(), FinishError>
    ensures ok { IfOk result (λ _. AreWhole books.now) }
    ensures err { IfErr result (λ e. (opening : Nodes) (seats : List TheSeat) → AreInPlace opening books.now → IsFault opening books.now seats e) }
{
    for book in books {
        if let Some(Tear { trunk, seq }) = tear_at(books, book) {
            return Err(FinishError::Torn {
                trunk: trunk.clone()?,
                seq,
            });
        }
    }
    Ok(())
}
