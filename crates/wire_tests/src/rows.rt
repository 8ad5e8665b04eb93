//! What is asked of nodes, and what there is to see then, as plain data.
use erl_term::Refusal;
use link_core::End;

/// A process of a node's first incarnation, by the node's place among all nodes and its id.
#[derive(Clone, Copy)]
pub struct Process {
    pub place: usize,
    pub id: u32,
}

/// What a caller asks of a node.
#[derive(Clone, Copy)]
pub enum Ask {
    Spawn,
    /// A process sends another the number 7.
    Send(Process, Process),
    /// A process sends another a binary of so many bytes.
    SendBinary(Process, Process, usize),
    Link(Process, Process),
    /// The node dials the one at this place.
    Dial(usize),
    Stop,
    Start,
}

/// What comes of it.
#[derive(Clone, Copy, PartialEq, Eq)]
pub enum Told {
    /// It is done. The receipt has this node, position and stamp.
    Done(usize, usize, u64),
    /// The node refuses, and the receipt has this node, position and stamp.
    Refused(usize, usize, u64),
    /// The call is refused, and there is no receipt.
    NotCalled(Refusal),
}

/// The name of a node, and its cookie.
pub type Named = (&'static str, &'static str);

/// Some that follow one another: from the first of these places on, before the second.
pub type Range = (usize, usize);

/// A row of a story. Books, and the seats beside them, are told by their places in the story.
#[derive(Clone, Copy)]
pub enum Row {
    /// What a seat asks of a book comes to this.
    Asks(usize, usize, Ask, Told),
    /// A seat asks its own book so often, which does it each time.
    Repeats(usize, Ask, u32),
    /// The half of the connection that the first book has dialed is taken up by the second, or isn't.
    Hands(usize, usize, bool),
    /// All that waits passes between two books, in turns.
    Settles(usize, usize),
    /// A book puts pieces of so many bytes at most from now on.
    SetsPiece(usize, usize),
    /// A book puts so many pieces on its wire.
    Flushes(usize, u64),
    /// Whether a book takes a piece off its wire.
    Fetches(usize, bool),
    /// A book takes so many pieces off its wire, and nothing is ready after any of them.
    Gathers(usize, u32),
    /// Whether something has come to a book that its node may take.
    IsReady(usize, bool),
    /// So many parcels a book has put on its wire.
    HasPut(usize, usize),
    /// So many parcels a book has taken of its wire.
    HasTaken(usize, usize),
    /// So many entries a book has.
    HasEntries(usize, usize),
    /// So many receipts a seat has.
    HasReceipts(usize, usize),
    /// Whether the node of a book is up.
    IsUp(usize, bool),
    /// Whether the connection is up at the first book towards the node of the second.
    IsConnected(usize, usize, bool),
    /// What the first process has of its link with the second, at a book.
    Has(usize, Process, Process, End),
    /// The books of these nodes, and of these places, with the seats of these places, merge into entries
    /// of these nodes and stamps, or give this error.
    Merges(&'static [Named], Range, Range, &'static str),
}

/// A book of which a story is told: the names of all nodes, the place of its own among them, and the
/// cookie.
#[derive(Clone, Copy)]
pub struct Kept {
    pub names: &'static [&'static str],
    pub place: usize,
    pub cookie: &'static str,
}

/// Rows of a story, with the places of the books that they tell of. None stand for the first, the second
/// and so on.
#[derive(Clone, Copy)]
pub struct Part {
    pub of: &'static [usize],
    pub rows: &'static [Row],
}

/// A story of some books.
#[derive(Clone, Copy)]
pub struct Story {
    pub name: &'static str,
    pub books: &'static [Kept],
    pub parts: &'static [Part],
}
