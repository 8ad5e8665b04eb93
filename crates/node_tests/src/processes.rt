//! The processes of one node: their signals, links, monitors and exits.
use crate::comparing::{wrong_among, wrong_of_all};
use crate::rows::Answered::*;
use crate::rows::Event::*;
use crate::rows::Step::*;
use crate::rows::{Brought, Process, Said, Step, Text};
use crate::wire::Wire;
use dist_model::Kind;
use erl_term::Refusal;
use std::test::*;

const P: Process = ("a@h", 1, 1);

const Q: Process = ("a@h", 1, 2);

const R: Process = ("a@h", 1, 3);

/// A process that the node never spawned.
const STRANGER: Process = ("a@h", 1, 9);

/// A process at another node, with no connection to it.
const AWAY: Process = ("b@h", 1, 1);

const NORMAL: Said = Said::Atom("normal");

const KILL: Said = Said::Atom("kill");

const BOOM: Said = Said::Atom("boom");

/// A term of more levels than a message may have.
const DEEP: Said = Said::Nested(64);

const SCENARIOS: &[&[Step]] = &[
    // A link to a process that has ended: it answers noproc, to a process that traps exits and to one
    // that doesn't.
    &[
        Does(Spawn, Pid(1), &[]),
        Does(Spawn, Pid(2), &[]),
        Does(Spawn, Pid(3), &[]),
        Does(ExitSelf(Q, NORMAL), Done, &[Brought::Ended(Q, "normal")]),
        Does(Trap(P, true), Done, &[]),
        Does(Link(P, Q), Done, &[Brought::SentHome(Wire::LinkHome)]),
        Goes(Link(R, Q), Done),
        Settles,
        Lives(P, true),
        HasEnded(Q, "normal"),
        HasEnded(R, "noproc"),
        Does(Receive(P), Message(Text::Exit(Q, "noproc")), &[]),
        Does(Receive(P), Empty, &[]),
    ],
    // A process can't trap kill by another process, and its link tells killed. Its own exit for kill tells
    // kill, as for any reason.
    &[
        Goes(Spawn, Pid(1)),
        Goes(Spawn, Pid(2)),
        Goes(Spawn, Pid(3)),
        Goes(Trap(P, true), Done),
        Goes(Trap(Q, true), Done),
        Goes(Link(P, Q), Done),
        Goes(Link(Q, R), Done),
        Settles,
        Goes(ExitTo(R, P, KILL), Done),
        Settles,
        Goes(ExitSelf(R, KILL), Done),
        Settles,
        HasEnded(P, "killed"),
        HasEnded(R, "kill"),
        Lives(Q, true),
        Goes(Receive(Q), Message(Text::Exit(P, "killed"))),
        Goes(Receive(Q), Message(Text::Exit(R, "kill"))),
        Goes(Receive(Q), Empty),
    ],
    // A monitor that its owner ends in time gives no DOWN, and is no more.
    &[
        Goes(Spawn, Pid(1)),
        Goes(Spawn, Pid(2)),
        Goes(Monitor(P, Q), Reference(1)),
        Settles,
        Goes(ExitSelf(Q, BOOM), Done),
        Goes(Demonitor(P, 1), Done),
        Settles,
        Goes(Receive(P), Empty),
        Refuses(Demonitor(P, 1), Refusal::NotTheOwner),
    ],
    // A monitor gives one DOWN: for the reason of the process, noproc where it has ended, and
    // noconnection where its node can't be reached. Each takes a reference of its own.
    &[
        Goes(Spawn, Pid(1)),
        Goes(Spawn, Pid(2)),
        Goes(Monitor(P, Q), Reference(1)),
        Settles,
        Goes(ExitSelf(Q, BOOM), Done),
        Settles,
        Goes(Monitor(P, Q), Reference(2)),
        Settles,
        Does(
            Monitor(P, AWAY),
            Reference(3),
            &[Brought::Put(P, Text::Down(3, AWAY, "noconnection"))],
        ),
        Goes(Receive(P), Message(Text::Down(1, Q, "boom"))),
        Goes(Receive(P), Message(Text::Down(2, Q, "noproc"))),
        Goes(Receive(P), Message(Text::Down(3, AWAY, "noconnection"))),
        Goes(Receive(P), Empty),
        Refuses(Demonitor(P, 1), Refusal::NotTheOwner),
    ],
    // A process that links itself to itself is not linked. It ends if it asks itself to.
    &[
        Goes(Spawn, Pid(1)),
        Does(Link(P, P), Done, &[]),
        Does(LinksOf(P), Links(&[]), &[]),
        Goes(ExitTo(P, P, NORMAL), Done),
        Settles,
        HasEnded(P, "normal"),
    ],
    // A link to a process at a node that isn't connected.
    &[
        Goes(Spawn, Pid(1)),
        Does(
            Link(P, AWAY),
            Done,
            &[
                Brought::LinkExit(P, AWAY, "noconnection"),
                Brought::Ended(P, "noconnection"),
            ],
        ),
        HasEnded(P, "noconnection"),
    ],
    // A process links itself to another, and unlinks itself under an id that its partner acknowledges.
    &[
        Goes(Spawn, Pid(1)),
        Goes(Spawn, Pid(2)),
        Does(Link(P, Q), Done, &[Brought::SentHome(Wire::LinkHome)]),
        Does(LinksOf(P), Links(&[(Q, 0)]), &[]),
        Travels(P, Q, true),
        Travels(Q, P, true),
        Travels(P, R, false),
        Does(Local, Took(Kind::Link), &[]),
        Travels(P, Q, false),
        Does(LinksOf(Q), Links(&[(P, 0)]), &[]),
        Does(Unlink(P, Q), Done, &[Brought::SentHome(Wire::UnlinkHome)]),
        Does(LinksOf(P), Links(&[(Q, 1)]), &[]),
        Does(
            Local,
            Took(Kind::Unlink),
            &[Brought::SentHome(Wire::UnlinkAckHome)],
        ),
        Does(Local, Took(Kind::UnlinkAck), &[]),
        Does(LinksOf(P), Links(&[]), &[]),
        Does(LinksOf(Q), Links(&[]), &[]),
        Refuses(Local, Refusal::NothingThere),
        // An unlink of no link does nothing.
        Does(Unlink(P, Q), Done, &[]),
    ],
    // A process with a pending end tells its partner nothing when it ends.
    &[
        Goes(Spawn, Pid(1)),
        Goes(Spawn, Pid(2)),
        Goes(Link(P, Q), Done),
        Settles,
        Goes(Unlink(P, Q), Done),
        Does(ExitSelf(P, BOOM), Done, &[Brought::Ended(P, "boom")]),
        Settles,
        Lives(Q, false),
        Does(LinksOf(Q), Links(&[]), &[]),
    ],
    // Messages come in the order in which they were sent, and to nobody who has ended.
    &[
        Goes(Spawn, Pid(1)),
        Goes(Spawn, Pid(2)),
        Goes(Send(P, Q, KILL), Done),
        Goes(Send(P, Q, BOOM), Done),
        Does(
            Local,
            Took(Kind::Send),
            &[Brought::Put(Q, Text::Atom("kill"))],
        ),
        Does(
            Local,
            Took(Kind::Send),
            &[Brought::Put(Q, Text::Atom("boom"))],
        ),
        Goes(Receive(Q), Message(Text::Atom("kill"))),
        Goes(Receive(Q), Message(Text::Atom("boom"))),
        Goes(Receive(Q), Empty),
        Goes(Send(P, Q, BOOM), Done),
        Goes(ExitSelf(Q, NORMAL), Done),
        Does(Local, Took(Kind::Send), &[]),
        Does(IsAlive(Q), Alive(false), &[]),
        Does(IsAlive(P), Alive(true), &[]),
        // Nor to a process that can't be reached.
        Does(Send(P, AWAY, BOOM), Done, &[]),
    ],
    // Refusals of the process that acts, of the one that it acts on, and of the term: the first that fits.
    &[
        Goes(Spawn, Pid(1)),
        IsUnknown(STRANGER),
        Refuses(Send(STRANGER, STRANGER, DEEP), Refusal::NoSuchProcess),
        Refuses(Send(P, STRANGER, DEEP), Refusal::Forged),
        Refuses(Send(P, P, DEEP), Refusal::TooLong),
        Refuses(ExitTo(AWAY, STRANGER, DEEP), Refusal::NoSuchProcess),
        Refuses(ExitTo(P, STRANGER, DEEP), Refusal::Forged),
        Refuses(ExitTo(P, AWAY, DEEP), Refusal::TooLong),
        Refuses(ExitSelf(STRANGER, DEEP), Refusal::NoSuchProcess),
        Refuses(ExitSelf(P, DEEP), Refusal::TooLong),
        Refuses(Link(AWAY, STRANGER), Refusal::NoSuchProcess),
        Refuses(Link(P, STRANGER), Refusal::Forged),
        Refuses(Unlink(STRANGER, STRANGER), Refusal::NoSuchProcess),
        Refuses(Unlink(P, STRANGER), Refusal::Forged),
        Refuses(Monitor(STRANGER, STRANGER), Refusal::NoSuchProcess),
        Refuses(Monitor(P, STRANGER), Refusal::Forged),
        Refuses(Demonitor(STRANGER, 1), Refusal::NoSuchProcess),
        Refuses(Demonitor(P, 1), Refusal::NotTheOwner),
        Refuses(Trap(STRANGER, true), Refusal::NoSuchProcess),
        Refuses(Receive(STRANGER), Refusal::NoSuchProcess),
        Refuses(LinksOf(STRANGER), Refusal::NoSuchProcess),
        Does(IsAlive(STRANGER), Alive(false), &[]),
        Refuses(Local, Refusal::NothingThere),
        // The refused calls have drawn no reference.
        Goes(Monitor(P, P), Reference(1)),
    ],
    // A node that stops: its processes are gone. It starts again in the next creation, in which ids
    // begin anew.
    &[
        Goes(Spawn, Pid(1)),
        Goes(Spawn, Pid(2)),
        Goes(Send(P, Q, BOOM), Done),
        HasSpawned(1, 2),
        Refuses(Start, Refusal::NodeUp),
        Does(Stop, Stopped, &[]),
        Refuses(Stop, Refusal::NodeDown),
        Refuses(Spawn, Refusal::NodeDown),
        Does(Start, Started(2), &[]),
        HasSpawned(2, 0),
        Does(IsAlive(P), Alive(false), &[]),
        Goes(Spawn, Pid(1)),
        Lives(("a@h", 2, 1), false),
        Refuses(Receive(P), Refusal::NoSuchProcess),
        Refuses(Local, Refusal::NothingThere),
    ],
];

/// Returns the scenarios. The proof of a function that names the table writes it out, so only this one
/// names it.
fn all() -> &'static [&'static [Step]] {
    SCENARIOS
}

#[test]
fn scenarios(rt: HostRuntime) -> Result<(), Fail> {
    assert_eq!(rt; wrong_of_all(rt.alloc(), all())?, None);
    Ok(())
}

/// Checks links, monitors and exits, for `fail-allocations`.
#[test]
fn processes_without_allocation(rt: HostRuntime) -> Result<(), Fail> {
    assert_eq!(rt; wrong_among(rt.alloc(), all(), &[0, 1, 3, 7])?, None);
    Ok(())
}
