//! What happens in worlds, row by row.
use crate::stage::Story;
use crate::told::Message::{Down, Exit as ExitOf, Hi};
use crate::told::Row::{Does, Ends, HasEnded, Lives, MonitorsOften, Routes, Settles, Travels};
use crate::told::Step::{
    Come, Demonitor, Dial, Exit, ExitTo, HasLinks, Link, Local, Lose, Monitor, Receive, Send,
    Spawn, Start, Stop, Sweep, Trap, Unlink,
};
use crate::told::Told::{
    Broken, Dialed, Done, Empty, Links, Monitors, Received, Refused, Spawned, Started, Stopped,
    Swept as Sweeps, Took,
};
use crate::told::{Process, Reason, Row, Trunk};
use dist_model::{Kind, Swept};
use erl_term::Refusal;
use link_core::End::{Active, None as No, Pending};

/// The first process of a@h.
pub const P: Process = Process {
    place: 0,
    creation: 1,
    id: 1,
};

const P2: Process = Process {
    place: 0,
    creation: 1,
    id: 2,
};

const P3: Process = Process {
    place: 0,
    creation: 1,
    id: 3,
};

const P9: Process = Process {
    place: 0,
    creation: 1,
    id: 9,
};

/// The first one of b@h.
pub const Q: Process = Process {
    place: 1,
    creation: 1,
    id: 1,
};

const NEW_Q: Process = Process {
    place: 1,
    creation: 2,
    id: 1,
};

const R: Process = Process {
    place: 2,
    creation: 1,
    id: 1,
};

/// The first connection that each node dials.
pub const A1: Trunk = Trunk {
    dialer: 0,
    count: 1,
};

const B1: Trunk = Trunk {
    dialer: 1,
    count: 1,
};

/// The second one of a@h.
const A2: Trunk = Trunk {
    dialer: 0,
    count: 2,
};

const ONE: &[&str] = &["c"];

const TWO: &[&str] = &["c", "c"];

const THREE: &[&str] = &["c", "c", "c"];

/// The processes P and Q of two nodes, which are connected.
const PAIR: &[Row] = &[
    Does(Spawn(0), Spawned(1)),
    Does(Spawn(1), Spawned(1)),
    Does(Dial(0, 1), Dialed(1)),
    Does(Come(1, A1), Took(Kind::SendName)),
    Does(Come(0, A1), Took(Kind::Status)),
    Does(Come(0, A1), Took(Kind::Challenge)),
    Does(Come(1, A1), Took(Kind::ChallengeReply)),
    Routes(0, 1, None),
    Routes(1, 0, Some(A1)),
    Travels(P, Q, true),
    Does(Come(0, A1), Took(Kind::ChallengeAck)),
    Routes(0, 1, Some(A1)),
    Travels(P, Q, false),
];

/// The same, linked.
const LINKED: &[Row] = &[
    Does(Link(P, Q), Done),
    Ends(P, Q, Active, No),
    Travels(P, Q, true),
    Does(Come(1, A1), Took(Kind::Link)),
    Ends(P, Q, Active, Active),
    Travels(P, Q, false),
];

/// The processes P, P2 and P3 of one node.
const THREE_AT_ONE: &[Row] = &[
    Does(Spawn(0), Spawned(1)),
    Does(Spawn(0), Spawned(2)),
    Does(Spawn(0), Spawned(3)),
];

pub const ALL: &[Story] = &[
    Story {
        name: "nothing happens by itself",
        cookies: TWO,
        parts: &[&[
            Does(Come(0, A1), Refused(Refusal::NotLive)),
            Does(Local(0), Refused(Refusal::NothingThere)),
            Does(Sweep(0), Refused(Refusal::NothingThere)),
            Does(Lose(0, A1), Refused(Refusal::NotLive)),
            Does(Link(P, Q), Refused(Refusal::NoSuchProcess)),
            Does(Start(0), Refused(Refusal::NodeUp)),
            Does(Dial(0, 0), Refused(Refusal::SelfDial)),
            Does(Dial(0, 2), Refused(Refusal::NothingThere)),
            Does(Stop(2), Refused(Refusal::NothingThere)),
            Does(Stop(1), Stopped),
            Does(Stop(1), Refused(Refusal::NodeDown)),
            Does(Start(1), Started(2)),
        ]],
    },
    Story {
        name: "a link is made and taken back",
        cookies: TWO,
        parts: &[
            PAIR,
            LINKED,
            &[
                Does(Unlink(P, Q), Done),
                Ends(P, Q, Pending(1), Active),
                Does(Come(1, A1), Took(Kind::Unlink)),
                Ends(P, Q, Pending(1), No),
                Travels(P, Q, true),
                Does(Come(0, A1), Took(Kind::UnlinkAck)),
                Ends(P, Q, No, No),
                Travels(P, Q, false),
                Does(Come(0, A1), Refused(Refusal::NothingThere)),
            ],
        ],
    },
    Story {
        name: "both link at once",
        cookies: TWO,
        parts: &[
            PAIR,
            &[
                Does(Link(P, Q), Done),
                Does(Link(Q, P), Done),
                Ends(P, Q, Active, Active),
                Travels(P, Q, true),
                Does(Come(0, A1), Took(Kind::Link)),
                Ends(P, Q, Active, Active),
                Travels(P, Q, true),
                Does(Come(1, A1), Took(Kind::Link)),
                Ends(P, Q, Active, Active),
                Travels(P, Q, false),
            ],
        ],
    },
    Story {
        name: "crossed unlinks",
        cookies: TWO,
        parts: &[
            PAIR,
            LINKED,
            &[
                Does(Unlink(P, Q), Done),
                Does(Unlink(Q, P), Done),
                Does(Link(P, Q), Done),
                Ends(P, Q, Active, Pending(1)),
                Does(Come(1, A1), Took(Kind::Unlink)),
                Ends(P, Q, Active, Pending(1)),
                Does(Come(1, A1), Took(Kind::Link)),
                Ends(P, Q, Active, Pending(1)),
                Does(Come(0, A1), Took(Kind::Unlink)),
                Ends(P, Q, No, Pending(1)),
                Does(Come(0, A1), Took(Kind::UnlinkAck)),
                Ends(P, Q, No, Pending(1)),
                Does(Come(1, A1), Took(Kind::UnlinkAck)),
                Ends(P, Q, No, No),
                Travels(P, Q, false),
            ],
        ],
    },
    Story {
        name: "an old acknowledgement",
        cookies: TWO,
        parts: &[
            PAIR,
            LINKED,
            &[
                Does(Unlink(P, Q), Done),
                Does(Link(P, Q), Done),
                Ends(P, Q, Active, Active),
                Does(Unlink(P, Q), Done),
                Ends(P, Q, Pending(2), Active),
                Does(Come(1, A1), Took(Kind::Unlink)),
                Does(Link(Q, P), Done),
                Ends(P, Q, Pending(2), Active),
                Does(Come(1, A1), Took(Kind::Link)),
                Does(Come(1, A1), Took(Kind::Unlink)),
                Does(Come(0, A1), Took(Kind::UnlinkAck)),
                Ends(P, Q, Pending(2), No),
                Does(Come(0, A1), Took(Kind::Link)),
                Ends(P, Q, Pending(2), No),
                Travels(P, Q, true),
                Does(Come(0, A1), Took(Kind::UnlinkAck)),
                Ends(P, Q, No, No),
                Travels(P, Q, false),
            ],
        ],
    },
    Story {
        name: "a linked process ends",
        cookies: TWO,
        parts: &[
            PAIR,
            LINKED,
            &[
                Does(Exit(Q, Reason::Boom), Done),
                Ends(P, Q, Active, No),
                Travels(P, Q, true),
                Does(Come(0, A1), Took(Kind::Exit)),
                Ends(P, Q, No, No),
                HasEnded(Q, Reason::Boom),
                HasEnded(P, Reason::Boom),
                Travels(P, Q, false),
                Does(Link(P, Q), Refused(Refusal::NoSuchProcess)),
            ],
        ],
    },
    Story {
        name: "a connection is lost and swept at each node",
        cookies: TWO,
        parts: &[
            PAIR,
            LINKED,
            &[
                Does(Lose(0, A1), Done),
                Ends(P, Q, Active, Active),
                Travels(P, Q, true),
                Does(Sweep(0), Sweeps(Swept::Link)),
                HasEnded(P, Reason::NoConnection),
                Ends(P, Q, No, Active),
                Travels(P, Q, true),
                Does(Lose(1, A1), Done),
                Travels(P, Q, true),
                Does(Sweep(1), Sweeps(Swept::Link)),
                Ends(P, Q, No, No),
                Travels(P, Q, false),
                Does(Sweep(0), Refused(Refusal::NothingThere)),
                Does(Sweep(1), Refused(Refusal::NothingThere)),
            ],
        ],
    },
    Story {
        name: "a connection is lost that has no records",
        cookies: TWO,
        parts: &[
            PAIR,
            &[
                Does(Lose(1, A1), Done),
                Does(Lose(1, A1), Refused(Refusal::NotLive)),
                Travels(P, Q, true),
                Does(Sweep(1), Sweeps(Swept::Side)),
                Travels(P, Q, true),
                Does(Lose(0, A1), Done),
                Does(Sweep(0), Sweeps(Swept::Side)),
                Travels(P, Q, false),
                Does(Come(0, A1), Refused(Refusal::NotLive)),
            ],
        ],
    },
    Story {
        name: "a link to a process that has ended",
        cookies: ONE,
        parts: &[
            THREE_AT_ONE,
            &[
                Does(Exit(P2, Reason::Normal), Done),
                Does(Trap(P), Done),
                Does(Link(P, P2), Done),
                Does(Link(P3, P2), Done),
                Settles,
                Lives(P, true),
                HasEnded(P2, Reason::Normal),
                HasEnded(P3, Reason::NoProc),
                Does(Receive(P), Received(ExitOf(P2, Reason::NoProc))),
                Does(Receive(P), Empty),
            ],
        ],
    },
    Story {
        name: "a loss is noticed at one node",
        cookies: TWO,
        parts: &[&[
            Does(Spawn(0), Spawned(1)),
            Does(Spawn(1), Spawned(1)),
            Does(Trap(P), Done),
            Does(Trap(Q), Done),
            Does(Dial(0, 1), Dialed(1)),
            Settles,
            Does(Link(P, Q), Done),
            Settles,
            Does(Send(Q, P), Done),
            Does(Lose(0, A1), Done),
            Does(Dial(0, 1), Refused(Refusal::Busy)),
            Settles,
            Does(Dial(0, 1), Dialed(2)),
            Settles,
            Routes(1, 0, Some(A2)),
            Routes(0, 1, Some(A2)),
            Does(Receive(P), Received(ExitOf(Q, Reason::NoConnection))),
            Does(Receive(P), Empty),
            Does(Receive(Q), Received(ExitOf(P, Reason::NoConnection))),
            Does(Receive(Q), Empty),
        ]],
    },
    Story {
        name: "both nodes dial",
        cookies: TWO,
        parts: &[&[
            Does(Dial(0, 1), Dialed(1)),
            Does(Dial(1, 0), Dialed(1)),
            Settles,
            Routes(0, 1, Some(B1)),
            Routes(1, 0, Some(B1)),
        ]],
    },
    Story {
        name: "a wrong cookie",
        cookies: &["c", "d"],
        parts: &[&[
            Does(Dial(0, 1), Dialed(1)),
            Does(Come(1, A1), Took(Kind::SendName)),
            Does(Come(0, A1), Took(Kind::Status)),
            Does(Come(0, A1), Took(Kind::Challenge)),
            Does(Come(1, A1), Broken(13)),
            Does(Dial(0, 1), Refused(Refusal::Busy)),
            Routes(0, 1, None),
            Routes(1, 0, None),
        ]],
    },
    Story {
        name: "a restart, and a process of the old incarnation",
        cookies: TWO,
        parts: &[&[
            Does(Spawn(0), Spawned(1)),
            Does(Spawn(1), Spawned(1)),
            Does(Dial(0, 1), Dialed(1)),
            Settles,
            Does(Monitor(P, Q), Monitors(1)),
            Settles,
            Does(Stop(1), Stopped),
            Does(Start(1), Started(2)),
            Does(Spawn(1), Spawned(1)),
            Does(Dial(1, 0), Dialed(1)),
            Settles,
            Does(Monitor(P, Q), Monitors(2)),
            Settles,
            Lives(P, true),
            Lives(Q, false),
            Lives(NEW_Q, true),
            Does(Receive(P), Received(Down(1, Q, Reason::NoConnection))),
            Does(Receive(P), Received(Down(2, Q, Reason::NoProc))),
            Does(Receive(P), Empty),
            Does(Receive(NEW_Q), Empty),
        ]],
    },
    Story {
        name: "kill, and the exit of a link for the reason kill",
        cookies: ONE,
        parts: &[
            THREE_AT_ONE,
            &[
                Does(Trap(P), Done),
                Does(Trap(P2), Done),
                Does(Link(P, P2), Done),
                Does(Link(P2, P3), Done),
                Settles,
                Does(ExitTo(P3, P, Reason::Kill), Done),
                Settles,
                HasEnded(P, Reason::Killed),
                Does(Exit(P3, Reason::Kill), Done),
                Settles,
                HasEnded(P3, Reason::Kill),
                Lives(P2, true),
                Does(Receive(P2), Received(ExitOf(P, Reason::Killed))),
                Does(Receive(P2), Received(ExitOf(P3, Reason::Kill))),
                Does(Receive(P2), Empty),
            ],
        ],
    },
    Story {
        name: "a monitor is taken back while its DOWN travels",
        cookies: ONE,
        parts: &[
            THREE_AT_ONE,
            &[
                Does(Monitor(P, P2), Monitors(1)),
                Settles,
                Does(Exit(P2, Reason::Boom), Done),
                Does(Demonitor(P, 1), Done),
                Settles,
                Does(Receive(P), Empty),
                Does(Demonitor(P, 1), Refused(Refusal::NotTheOwner)),
            ],
        ],
    },
    Story {
        name: "a process and itself",
        cookies: ONE,
        parts: &[&[
            Does(Spawn(0), Spawned(1)),
            Does(Link(P, P), Done),
            Does(HasLinks(P), Links(0)),
            Does(ExitTo(P, P, Reason::Normal), Done),
            Settles,
            HasEnded(P, Reason::Normal),
        ]],
    },
    Story {
        name: "no connection",
        cookies: TWO,
        parts: &[&[
            Does(Spawn(0), Spawned(1)),
            Does(Spawn(1), Spawned(1)),
            Does(Spawn(0), Spawned(2)),
            Does(Link(P, Q), Done),
            HasEnded(P, Reason::NoConnection),
            Does(Monitor(P2, Q), Monitors(1)),
            Does(Send(P2, Q), Done),
            Settles,
            Lives(Q, true),
            Does(Receive(Q), Empty),
            Does(Receive(P2), Received(Down(1, Q, Reason::NoConnection))),
            Does(Receive(P2), Empty),
        ]],
    },
    Story {
        name: "a pid that was never spawned",
        cookies: ONE,
        parts: &[&[
            Does(Spawn(0), Spawned(1)),
            Does(Send(P, P9), Refused(Refusal::Forged)),
            Does(Link(P, P9), Refused(Refusal::Forged)),
            Does(Monitor(P, P9), Refused(Refusal::Forged)),
        ]],
    },
    Story {
        name: "monitors of a process at another node",
        cookies: TWO,
        parts: &[
            PAIR,
            &[
                Does(Monitor(P, Q), Monitors(1)),
                Does(Come(1, A1), Took(Kind::Monitor)),
                Does(Monitor(P, Q), Monitors(2)),
                Does(Monitor(P, Q), Monitors(3)),
                Does(Come(1, A1), Took(Kind::Monitor)),
                Does(Demonitor(P, 2), Done),
                Does(Exit(Q, Reason::Boom), Done),
                // The third monitor comes behind the end, and so does what takes the second back.
                Does(Come(1, A1), Took(Kind::Monitor)),
                Does(Come(1, A1), Took(Kind::Demonitor)),
                Does(Come(0, A1), Took(Kind::MonitorExit)),
                Does(Come(0, A1), Took(Kind::MonitorExit)),
                Does(Come(0, A1), Took(Kind::MonitorExit)),
                Does(Come(0, A1), Refused(Refusal::NothingThere)),
                Does(Receive(P), Received(Down(1, Q, Reason::Boom))),
                Does(Receive(P), Received(Down(3, Q, Reason::NoProc))),
                Does(Receive(P), Empty),
            ],
        ],
    },
    Story {
        name: "three nodes, one of which stops",
        cookies: THREE,
        parts: &[
            PAIR,
            LINKED,
            &[
                Does(Spawn(2), Spawned(1)),
                Does(Dial(2, 0), Dialed(1)),
                Does(Dial(2, 1), Dialed(2)),
                Settles,
                Does(Link(R, P), Done),
                Does(Link(Q, R), Done),
                Does(Monitor(P, R), Monitors(1)),
                Does(Trap(P), Done),
                Does(Send(R, P), Done),
                Settles,
                Ends(P, R, Active, Active),
                Ends(R, Q, Active, Active),
                Does(Stop(2), Stopped),
                Lives(R, false),
                Settles,
                Ends(P, Q, Active, Active),
                // Neither of the others has noticed.
                Ends(P, R, Active, No),
                Travels(P, R, true),
                Does(
                    Lose(
                        1,
                        Trunk {
                            dialer: 2,
                            count: 2,
                        },
                    ),
                    Done,
                ),
                Settles,
                HasEnded(Q, Reason::NoConnection),
                Does(Receive(P), Received(Hi)),
                Does(Receive(P), Received(ExitOf(Q, Reason::NoConnection))),
                Does(Receive(P), Empty),
                Does(
                    Lose(
                        0,
                        Trunk {
                            dialer: 2,
                            count: 1,
                        },
                    ),
                    Done,
                ),
                Settles,
                Travels(P, R, false),
                Ends(P, R, No, No),
                Does(Receive(P), Received(ExitOf(R, Reason::NoConnection))),
                Does(Receive(P), Received(Down(1, R, Reason::NoConnection))),
                Does(Receive(P), Empty),
            ],
        ],
    },
];

/// An incarnation has so many references, and no more.
pub const LONG: &[Story] = &[Story {
    name: "all references of an incarnation",
    cookies: ONE,
    parts: &[
        THREE_AT_ONE,
        &[
            MonitorsOften(P, P2, 262_143),
            Does(Monitor(P, P2), Refused(Refusal::IdsUsedUp)),
            Does(Monitor(P, P2), Refused(Refusal::IdsUsedUp)),
        ],
    ],
}];
