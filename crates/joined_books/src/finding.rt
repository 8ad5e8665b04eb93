//! What stands in books.
ghost use Rattle.std.specs.Prelude.{◌≡◌};
ghost use Rattle.std.specs.Option.{option_copied};
ghost use Rattle.node_lock.specs.Standing.{outlet_of};
ghost use Rattle.joined_books.specs.Wires.{outlets_named, own};

use erl_names::{NodeName, TrunkId};
use node_frames::same_name;
use node_lock::{Book, Outlet};

/// The name of a book's node.
pub(crate) fn own(book: &Book) -> &NodeName
    ensures { result.now ≡ own book.now }
{
    book.replays();
    &book.names()[book.place()]
}

/// The ends of connections of the node of a name; none, where there is no such node.
pub(crate) fn outlets_named<'a>(books: &'a [Book], name: &NodeName) -> &'a [Outlet]
    ensures { result.now ≡ outlets_named books.now name.now }
{
    for book in books {
        if same_name(own(book).atom(), name.atom()) {
            return book.outlets();
        }
    }
    &[]
}

/// The end of a connection.
pub(crate) fn outlet_of<'a>(outlets: &'a [Outlet], trunk: &TrunkId) -> Option<&'a Outlet>
    ensures { option_copied result ≡ outlet_of trunk.now outlets.now }
{
    for outlet in outlets {
        if trunk.cmp(outlet.port().trunk()).is_eq() {
            return Some(outlet);
        }
    }
    None
}
