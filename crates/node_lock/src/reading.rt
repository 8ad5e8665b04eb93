//! Readers of a book, for its comparison with others.
ghost use Rattle.std.specs.Prelude.{◌≡◌, max};
ghost use Rattle.node_lock.specs.Standing.{IsBook};

use crate::book::Book;
use crate::outlet::Outlet;
use erl_handshake::Setup;
use erl_names::NodeName;
use wire_core::Port;

impl Book {
    /// Returns the names of all nodes, by their places.
    pub fn names(&self) -> &[NodeName]
        ensures { result.now ≡ self.now.names }
    {
        self.names.as_slice()
    }

    /// Returns the setup of the book's node. (ERTS User's Guide, Distribution Protocol,
    /// Distribution Handshake.)
    pub fn setup(&self) -> &Setup
        ensures { result.now ≡ self.now.setup }
    {
        &self.setup
    }

    /// Returns the node's ends of connections, the oldest first.
    pub fn outlets(&self) -> &[Outlet]
        ensures { result.now ≡ self.now.outlets }
    {
        self.outlets.as_slice()
    }

    /// Returns the stamp of the last entry, or 0 of an empty history.
    pub fn last(&self) -> u64
        ensures { result ≡ self.now.history.last }
    {
        self.history.last()
    }

    /// Returns the greater of two stamps: that of the last entry, or 0, and `above`.
    pub(crate) fn last_or(&self, above: u64) -> u64
        ensures { result ≡ max self.now.history.last above }
    {
        self.history.last_or(above)
    }

    /// Has no effect. Its contract is the invariant of the type: a log replays the book.
    pub fn replays(&self)
        ensures { IsBook self.now.names self.now.place self.now.setup self.now.history self.now.outlets }
    {
        let _ = &self.place;
    }
}

impl Outlet {
    /// Returns the end of the connection.
    pub fn port(&self) -> &Port
        ensures { result.now ≡ self.now.port }
    {
        &self.port
    }
}
