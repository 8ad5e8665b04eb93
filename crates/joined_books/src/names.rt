//! A test that books are of the nodes of one world.
ghost use Rattle.std.specs.Prelude.{◌≡◌, ◌≢◌, ◌↔◌, ℕ, ◌<◌, [], IsTrue, MatchOption, length, slice_index_or};
ghost use Rattle.dist_books.specs.Acting.{name_at, names_of, nowhere};
ghost use Rattle.joined_books.specs.Names.{AreInPlace, IsInPlace, IsStrangeBook};

use erl_handshake::Setup;
use erl_names::NodeName;
use node_frames::same_name;
use node_lock::Book;

// Returns true if these are the names of the nodes.
fn are_names(names: &[NodeName], nodes: &[(NodeName, Setup)]) -> bool
    ensures { IsTrue result ↔ (names.now ≡ names_of nodes.now) }
{
    if names.len() != nodes.len() {
        return false;
    }
    for place in 0..names.len() {
        if !same_name(names[place].atom(), nodes[place].0.atom()) {
            return false;
        }
    }
    true
}

// Returns true if no node before a place has the name of the one there.
fn is_new(nodes: &[(NodeName, Setup)], place: usize) -> bool
    requires { place < length nodes.now }
    ensures { IsTrue result ↔ ((j : ℕ) → j < place → name_at nodes.now j ≢ name_at nodes.now place) }
{
    for other in 0..place {
        if same_name(nodes[other].0.atom(), nodes[place].0.atom()) {
            return false;
        }
    }
    true
}

// Returns true if the node at a place has this cookie and this profile.
fn has_setup(nodes: &[(NodeName, Setup)], place: usize, setup: &Setup) -> bool
    requires { place < length nodes.now }
    ensures { IsTrue result ↔ (setup.now ≡ (slice_index_or nodes.now place nowhere).1) }
{
    let (_, own) = &nodes[place];
    setup.is_same(own)
}

// Returns true if a book is of the node at this place.
fn is_in_place(nodes: &[(NodeName, Setup)], place: usize, book: &Book) -> bool
    ensures { IsTrue result ↔ IsInPlace nodes.now place book.now }
{
    if place >= nodes.len() {
        return false;
    }
    book.place() == place
        && are_names(book.names(), nodes)
        && has_setup(nodes, place, book.setup())
        && is_new(nodes, place)
}

/// Returns the place of the first book that isn't of the node there, or else of the first node without a
/// book.
pub(crate) fn strange_book(nodes: &[(NodeName, Setup)], books: &[Book]) -> Option<usize>
    ensures { MatchOption result (AreInPlace nodes.now books.now) (IsStrangeBook nodes.now books.now) }
{
    for place in 0..books.len() {
        if !is_in_place(nodes, place, &books[place]) {
            return Some(place);
        }
    }
    if books.len() < nodes.len() {
        return Some(books.len());
    }
    None
}
