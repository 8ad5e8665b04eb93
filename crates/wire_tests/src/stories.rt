//! What is asked of books, row by row.
use crate::rows::Ask::{Dial, Link, Send, SendBinary, Spawn, Start, Stop};
use crate::rows::Row::{
    Asks, Fetches, Flushes, Gathers, Hands, Has, HasEntries, HasPut, HasReceipts, HasTaken,
    IsConnected, IsReady, IsUp, Merges, Repeats, SetsPiece, Settles,
};
use crate::rows::Told::{Done, NotCalled, Refused};
use crate::rows::{Kept, Named, Part, Process, Row, Story};
use erl_term::Refusal::StrangeSeat;
use link_core::End::{Active, None as No};

pub const P: Process = Process { place: 0, id: 1 };

pub const Q: Process = Process { place: 1, id: 1 };

const NAMES: &[&str] = &["a@h", "b@h"];

pub const A: Kept = Kept {
    names: NAMES,
    place: 0,
    cookie: "c",
};

pub const B: Kept = Kept {
    names: NAMES,
    place: 1,
    cookie: "c",
};

/// The same with another cookie.
const OTHER_COOKIE: Kept = Kept {
    names: NAMES,
    place: 1,
    cookie: "d",
};

/// The same with other names beside its own.
const OTHER_NAMES: Kept = Kept {
    names: &["c@h", "b@h"],
    place: 1,
    cookie: "c",
};

const MORE_NAMES: Kept = Kept {
    names: &["a@h", "b@h", "c@h"],
    place: 1,
    cookie: "c",
};

const SAME_NAMES: &[&str] = &["a@h", "a@h"];

const ONE_NAME: &[Kept] = &[
    Kept {
        names: SAME_NAMES,
        place: 0,
        cookie: "c",
    },
    Kept {
        names: SAME_NAMES,
        place: 1,
        cookie: "c",
    },
];

/// The two nodes.
const TWO: &[Named] = &[("a@h", "c"), ("b@h", "c")];

/// A process at each of two nodes, which are connected.
pub const CONNECTED: &[Row] = &[
    Asks(0, 0, Spawn, Done(0, 0, 1)),
    Asks(1, 1, Spawn, Done(1, 0, 1)),
    Asks(0, 0, Dial(1), Done(0, 1, 2)),
    IsConnected(0, 1, false),
    Hands(0, 1, true),
    Settles(0, 1),
    IsConnected(0, 1, true),
    IsConnected(1, 0, true),
    HasPut(0, 2),
    HasPut(1, 3),
];

/// And a message from the one to the other.
const SENT: &[Row] = &[
    Asks(0, 0, Send(P, Q), Done(0, 5, 8)),
    Settles(0, 1),
    HasEntries(0, 6),
    HasEntries(1, 4),
];

const CONNECT: Part = Part {
    of: &[],
    rows: CONNECTED,
};

const SEND: Part = Part {
    of: &[],
    rows: SENT,
};

/// The same of the two books behind these.
const CONNECT_BEHIND: Part = Part {
    of: &[2, 3],
    rows: CONNECTED,
};

const SEND_BEHIND: Part = Part {
    of: &[2, 3],
    rows: SENT,
};

/// Where the dialer's is the last of them.
const CONNECT_CROSSED_BEHIND: Part = Part {
    of: &[3, 2],
    rows: CONNECTED,
};

const SEND_CROSSED_BEHIND: Part = Part {
    of: &[3, 2],
    rows: SENT,
};

/// Of the first two, where the dialer's is the second.
const CONNECT_CROSSED: Part = Part {
    of: &[1, 0],
    rows: CONNECTED,
};

const SEND_CROSSED: Part = Part {
    of: &[1, 0],
    rows: SENT,
};

/// Of three books, where the dialer's is the last, and the first is unused.
const CONNECT_LAST: Part = Part {
    of: &[2, 1],
    rows: CONNECTED,
};

const SEND_LAST: Part = Part {
    of: &[2, 1],
    rows: SENT,
};

/// Stories that take long.
pub const LONG: &[Story] = &[
    Story {
        name: "a wire takes 64, and the rest waits",
        books: &[A, B],
        parts: &[
            CONNECT,
            Part {
                of: &[],
                rows: &[
                    Repeats(0, Send(P, Q), 100),
                    HasEntries(0, 105),
                    HasPut(0, 2),
                    HasTaken(1, 2),
                    Flushes(0, 64),
                    HasPut(0, 66),
                    Flushes(0, 0),
                    Fetches(1, true),
                    Fetches(1, false),
                    Flushes(0, 1),
                    Flushes(0, 0),
                    HasPut(0, 67),
                    HasTaken(1, 3),
                    HasEntries(1, 3),
                    Settles(0, 1),
                    HasPut(0, 102),
                    HasTaken(1, 102),
                    HasEntries(1, 103),
                    Flushes(0, 0),
                ],
            },
        ],
    },
    Story {
        name: "a link in pieces of one byte",
        books: &[A, B],
        parts: &[
            CONNECT,
            Part {
                of: &[],
                rows: &[
                    SetsPiece(0, 1),
                    Asks(0, 0, Link(P, Q), Done(0, 5, 8)),
                    Flushes(0, 46),
                    Flushes(0, 0),
                    HasPut(0, 3),
                    Gathers(1, 45),
                    HasTaken(1, 2),
                    Fetches(1, true),
                    IsReady(1, true),
                    HasTaken(1, 3),
                    Fetches(1, false),
                    Settles(0, 1),
                    Has(1, Q, P, Active),
                ],
            },
        ],
    },
    Story {
        name: "a message in three pieces",
        books: &[A, B],
        parts: &[
            CONNECT,
            Part {
                of: &[],
                rows: &[
                    Asks(0, 0, SendBinary(P, Q, 1000), Done(0, 5, 8)),
                    Flushes(0, 3),
                    HasPut(0, 3),
                    Gathers(1, 2),
                    Fetches(1, true),
                    IsReady(1, true),
                    Settles(0, 1),
                    HasEntries(1, 4),
                    Merges(
                        TWO,
                        (0, 2),
                        (0, 2),
                        "0:1 1:1 0:2 1:3 0:4 0:5 1:6 0:7 0:8 1:9 ",
                    ),
                ],
            },
        ],
    },
    // The first two bytes of these frames make 3, 4, 5, 6 and 12, which are lengths of statuses, and 15. Each
    // frame is cut behind another of its first six bytes.
    Story {
        name: "long frames behind statuses",
        books: &[A, B],
        parts: &[
            Part {
                of: &[],
                rows: &[SetsPiece(0, 1), SetsPiece(1, 1)],
            },
            CONNECT,
            Part {
                of: &[],
                rows: &[
                    SetsPiece(0, 1),
                    Repeats(0, SendBinary(P, Q, 196_576), 1),
                    Flushes(0, 64),
                    Gathers(1, 63),
                    HasTaken(1, 2),
                    SetsPiece(0, 512),
                    Settles(0, 1),
                    HasTaken(1, 3),
                    SetsPiece(0, 2),
                    Repeats(0, SendBinary(P, Q, 262_112), 1),
                    Flushes(0, 64),
                    Gathers(1, 63),
                    HasTaken(1, 3),
                    SetsPiece(0, 512),
                    Settles(0, 1),
                    HasTaken(1, 4),
                    SetsPiece(0, 3),
                    Repeats(0, SendBinary(P, Q, 327_648), 1),
                    Flushes(0, 64),
                    Gathers(1, 63),
                    HasTaken(1, 4),
                    SetsPiece(0, 512),
                    Settles(0, 1),
                    HasTaken(1, 5),
                    SetsPiece(0, 4),
                    Repeats(0, SendBinary(P, Q, 393_184), 1),
                    Flushes(0, 64),
                    Gathers(1, 63),
                    HasTaken(1, 5),
                    SetsPiece(0, 512),
                    Settles(0, 1),
                    HasTaken(1, 6),
                    SetsPiece(0, 5),
                    Repeats(0, SendBinary(P, Q, 786_400), 1),
                    Flushes(0, 64),
                    Gathers(1, 63),
                    HasTaken(1, 6),
                    SetsPiece(0, 512),
                    Settles(0, 1),
                    HasTaken(1, 7),
                    SetsPiece(0, 6),
                    Repeats(0, SendBinary(P, Q, 983_008), 1),
                    Flushes(0, 64),
                    Gathers(1, 63),
                    HasTaken(1, 7),
                    SetsPiece(0, 512),
                    Settles(0, 1),
                    HasTaken(1, 8),
                ],
            },
        ],
    },
];

/// Stories that don't.
pub const SHORT: &[Story] = &[
    Story {
        name: "a link in short pieces",
        books: &[A, B],
        parts: &[
            Part {
                of: &[],
                rows: &[SetsPiece(0, 7), SetsPiece(1, 5)],
            },
            CONNECT,
            Part {
                of: &[],
                rows: &[
                    Asks(0, 0, Link(P, Q), Done(0, 5, 8)),
                    Settles(0, 1),
                    Has(1, Q, P, Active),
                    HasPut(0, 3),
                    HasTaken(1, 3),
                ],
            },
        ],
    },
    Story {
        name: "a link, and the books merge",
        books: &[A, B],
        parts: &[
            CONNECT,
            Part {
                of: &[],
                rows: &[
                    Asks(0, 0, Link(P, Q), Done(0, 5, 8)),
                    Has(0, P, Q, Active),
                    Has(1, Q, P, No),
                    Settles(0, 1),
                    Has(1, Q, P, Active),
                    Merges(
                        TWO,
                        (0, 2),
                        (0, 2),
                        "0:1 1:1 0:2 1:3 0:4 0:5 1:6 0:7 0:8 1:9 ",
                    ),
                ],
            },
        ],
    },
    Story {
        name: "a seat is of one book",
        books: &[A, B, A],
        parts: &[Part {
            of: &[],
            rows: &[
                Asks(0, 0, Spawn, Done(0, 0, 1)),
                Asks(0, 1, Stop, NotCalled(StrangeSeat)),
                IsUp(1, true),
                HasEntries(1, 0),
                HasReceipts(0, 1),
                Asks(0, 2, Stop, NotCalled(StrangeSeat)),
                IsUp(2, true),
                HasEntries(2, 0),
                HasReceipts(0, 1),
                Asks(0, 0, Start, Refused(0, 1, 2)),
                HasEntries(0, 2),
                HasReceipts(0, 2),
                Asks(1, 0, Stop, NotCalled(StrangeSeat)),
                IsUp(0, true),
                HasEntries(0, 2),
                HasReceipts(1, 0),
                Asks(0, 0, Stop, Done(0, 2, 3)),
                IsUp(0, false),
            ],
        }],
    },
    Story {
        name: "books of one exchange merge",
        books: &[A, B],
        parts: &[
            CONNECT,
            SEND,
            Part {
                of: &[],
                rows: &[Merges(
                    TWO,
                    (0, 2),
                    (0, 2),
                    "0:1 1:1 0:2 1:3 0:4 0:5 1:6 0:7 0:8 1:9 ",
                )],
            },
        ],
    },
    Story {
        name: "books in each other's places",
        books: &[B, A],
        parts: &[
            CONNECT_CROSSED,
            SEND_CROSSED,
            Part {
                of: &[],
                rows: &[Merges(TWO, (0, 2), (0, 0), "23 StrangeBook 0")],
            },
        ],
    },
    Story {
        name: "receipts of other books",
        books: &[A, B, A, B],
        parts: &[
            CONNECT_BEHIND,
            SEND_BEHIND,
            Part {
                of: &[],
                rows: &[
                    HasReceipts(3, 1),
                    Merges(TWO, (0, 2), (3, 4), "22 StrangeReceipt 1 0"),
                ],
            },
        ],
    },
    Story {
        name: "an unused book of the dialer",
        books: &[A, B, A],
        parts: &[
            CONNECT_LAST,
            SEND_LAST,
            Part {
                of: &[],
                rows: &[
                    HasEntries(0, 0),
                    Merges(TWO, (0, 2), (0, 0), "21 Torn a@h/1 1"),
                ],
            },
        ],
    },
    Story {
        name: "a seat is left out",
        books: &[A, B],
        parts: &[
            CONNECT,
            SEND,
            Part {
                of: &[],
                rows: &[
                    Merges(TWO, (0, 2), (0, 1), "24 SeatsMissing 1"),
                    Merges(TWO, (0, 2), (1, 2), "24 SeatsMissing 0"),
                ],
            },
        ],
    },
    Story {
        name: "a receipt twice",
        books: &[A, B, B, A],
        parts: &[
            CONNECT,
            SEND,
            CONNECT_CROSSED_BEHIND,
            SEND_CROSSED_BEHIND,
            Part {
                of: &[],
                rows: &[Merges(TWO, (0, 2), (0, 3), "22 StrangeReceipt 1 0")],
            },
        ],
    },
    Story {
        name: "a seat of no node",
        books: &[A],
        parts: &[Part {
            of: &[],
            rows: &[
                Asks(0, 0, Spawn, Done(0, 0, 1)),
                Merges(&[], (0, 0), (0, 1), "22 StrangeReceipt 0 0"),
            ],
        }],
    },
    Story {
        name: "unused books",
        books: &[A, B],
        parts: &[Part {
            of: &[],
            rows: &[Merges(TWO, (0, 2), (0, 2), "")],
        }],
    },
    Story {
        name: "no books",
        books: &[],
        parts: &[Part {
            of: &[],
            rows: &[
                Merges(&[], (0, 0), (0, 0), ""),
                Merges(TWO, (0, 0), (0, 0), "23 StrangeBook 0"),
            ],
        }],
    },
    Story {
        name: "a book too few",
        books: &[A, B],
        parts: &[
            CONNECT,
            SEND,
            Part {
                of: &[],
                rows: &[Merges(TWO, (0, 1), (0, 2), "23 StrangeBook 1")],
            },
        ],
    },
    Story {
        name: "a book too many",
        books: &[A, B, A],
        parts: &[
            CONNECT,
            SEND,
            Part {
                of: &[],
                rows: &[Merges(TWO, (0, 3), (0, 2), "23 StrangeBook 2")],
            },
        ],
    },
    Story {
        name: "a book of another cookie",
        books: &[A, OTHER_COOKIE],
        parts: &[Part {
            of: &[],
            rows: &[Merges(TWO, (0, 2), (0, 2), "23 StrangeBook 1")],
        }],
    },
    Story {
        name: "a book of other names",
        books: &[A, OTHER_NAMES],
        parts: &[Part {
            of: &[],
            rows: &[Merges(TWO, (0, 2), (0, 2), "23 StrangeBook 1")],
        }],
    },
    Story {
        name: "a book of more names",
        books: &[A, MORE_NAMES],
        parts: &[Part {
            of: &[],
            rows: &[Merges(TWO, (0, 2), (0, 2), "23 StrangeBook 1")],
        }],
    },
    Story {
        name: "two nodes of one name",
        books: ONE_NAME,
        parts: &[Part {
            of: &[],
            rows: &[Merges(
                &[("a@h", "c"), ("a@h", "c")],
                (0, 2),
                (0, 2),
                "23 StrangeBook 1",
            )],
        }],
    },
];
