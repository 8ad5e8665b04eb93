//! The book of a node.

use crate::dialing::Left;
use crate::outlet::{Outlet, PieceLength};
use erl_handshake::Setup;
use erl_names::NodeName;
use node_history::History;
use std::marker::Model;

/// The book of a node: the names of all nodes and the place of its own among them, its setup, the node
/// with its history, its ends of its connections, how long the pieces may be that are put there, and what is
/// left for other nodes of those that it has dialed. Only who holds its lock may touch it. Contracts see all
/// but what is left.
#[derive(Drop)]
pub struct Book {
    pub(crate) names: Vec<NodeName>,
    pub(crate) place: usize,
    pub(crate) setup: Setup,
    pub(crate) history: History,
    pub(crate) outlets: Vec<Outlet>,
    pub(crate) offers: Vec<Left>,
    pub(crate) greatest: PieceLength,
}

impl Model for Book {
    ghost use Rattle.node_lock.specs.Seen.{BookSeen, book_code};
    ghost use Rattle.node_lock.specs.contracts.outlet.Outlet as an_outlet;
    ghost use Rattle.node_history.specs.contracts.history.History as a_history;
    ghost use Rattle.erl_handshake.specs.contracts.setup.Setup as a_setup;

    ghost Value = { BookSeen };

    ghost coded = { book_code a_setup.the_row.coded a_history.the_row.coded an_outlet.the_row.coded };

    ghost view = { λ b. record { names = b.names.items; place = b.place; setup = b.setup; history = b.history; outlets = b.outlets.items; greatest = b.greatest.bytes } };

    ghost use Rattle.node_lock.specs.Standing.{IsBook};

    ghost invariant = { λ b. IsBook b.names.items b.place b.setup b.history b.outlets.items };
}
