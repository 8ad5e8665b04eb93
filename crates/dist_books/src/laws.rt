//! The laws. Each function does nothing: its contract is the law.
ghost use Rattle.dist_books.specs.Acting.{EventsAreLines};
ghost use Rattle.dist_books.specs.Books.{NewBooksAreKept};
ghost use Rattle.dist_books.specs.Growing.{BooksGrow, BooksRest, NewBooksFollow, NextIsNew, SentToPeers};
ghost use Rattle.dist_books.specs.Merged.{BooksAreARun, BooksAreSafe, SortsMerge};

/// Whatever comes of an event at a node is a line of its log: what it answers, what it becomes and what
/// it sends, with the item that came. An arrival is to have an item: where none is there the node can't
/// know whether one is on its way, and it isn't written down.
pub fn events_are_lines()
    ensures { EventsAreLines }
{
    dist_model::arrival_is_taken();
}

/// The book of a node to which nothing has happened yet replays, with an empty log.
pub fn new_books_are_kept()
    ensures { NewBooksAreKept }
{}

/// The books of all nodes, each of which replays, and where what each wire end took begins what the
/// other put. Their entries, by stamp and then by node, are one run of the world from its opening
/// (`run`): at its end the nodes are those of the books, and on each way is what was sent and not yet
/// taken. Whatever is promised of runs holds of it, at each of its moments (`safe`). A sort of all
/// entries by stamp and node gives that list (`sort`).
pub fn books_are_a_run()
    ensures run { BooksAreARun }
    ensures safe { BooksAreSafe }
    ensures sort { SortsMerge }
{
    dist_model::event_is_local();
    dist_model::node_keeps_its_bearings();
    dist_model::every_run_is_safe();
}

/// A book of which all holds that its thread keeps (`Follows`: a log replays it, and its ports are those
/// of its node's sides) is such a book again with the entry of any event (`grow`), where what waits is
/// put, what was put comes into a slot, or the port comes of a trunk that another node has dialed
/// (`rest`); and so is the book of a new node (`new`). The trunk that a node dials next has no port yet
/// (`next`), and what an event sends goes to the peer of a port (`sent`).
pub fn books_grow()
    ensures grow { BooksGrow }
    ensures rest { BooksRest }
    ensures new { NewBooksFollow }
    ensures next { NextIsNew }
    ensures sent { SentToPeers }
{
    events_are_lines();
    dist_model::node_keeps_its_bearings();
}
