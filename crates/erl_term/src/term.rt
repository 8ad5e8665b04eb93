//! Terms, and pids and references among them.
ghost use Rattle.std.specs.Prelude.{IsTrue, ◌↔◌, ◌≡◌};

use crate::atom::Atom;
use crate::words::ReferenceWords;

/// A process identifier.
///
/// Pids are ordered by the name of the node, then by creation, id and serial, which is the order
/// of the fields here. (ERTS User's Guide, External Term Format, NEW_PID_EXT.)
#[derive(Clone, Debug, Drop, PartialEq, Eq, PartialOrd, Ord)]
pub struct Pid {
    /// The name of the node on which the process was spawned.
    pub node: Atom,
    /// The incarnation of that node. A node that restarts takes another creation.
    pub creation: u32,
    /// The number of the process within the incarnation.
    pub id: u32,
    /// A further number that tells processes of one id apart.
    pub serial: u32,
}

/// A reference, which is unique among those that its node makes in one incarnation.
///
/// References are ordered by the name of the node, then by creation and words. (ERTS User's Guide,
/// External Term Format, NEWER_REFERENCE_EXT.)
#[derive(Clone, Debug, Drop, PartialEq, Eq, PartialOrd, Ord)]
pub struct Reference {
    /// The name of the node that made the reference.
    pub node: Atom,
    /// The incarnation of that node.
    pub creation: u32,
    /// The numbers that tell the references of the incarnation apart.
    pub words: ReferenceWords,
}

/// An Erlang term. (ERTS User's Guide, External Term Format.)
///
/// Integers go from -2^127 to 2^127 - 1, and tuples and lists have fewer than 2^32 elements.
#[derive(Debug, Drop)]
pub enum Term {
    /// An integer.
    Int(i128),
    /// An atom.
    Atom(Atom),
    /// A tuple, with its elements in order.
    Tuple(Vec<Term>),
    /// A list. The empty list has no items and no tail.
    ///
    /// An improper list has at least one item, and a tail that is no list: what else has a tail is
    /// no value of the profile.
    List {
        /// The items, in order.
        items: Vec<Term>,
        /// What stands behind them in place of the empty list.
        tail: Option<Box<Term>>,
    },
    /// A binary, with its bytes in order.
    Binary(Vec<u8>),
    /// A process identifier.
    Pid(Pid),
    /// A reference.
    Reference(Reference),
}

impl Pid {
    /// Returns true if the two name one process.
    pub fn is_same(&self, other: &Pid) -> bool
        ensures { IsTrue result ↔ (self.now ≡ other.now) }
    {
        self == other
    }
}
