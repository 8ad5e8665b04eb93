//! The registered names of one node, messages to them, and monitors of them.
use crate::comparing::{wrong_among, wrong_of_all};
use crate::rows::Answered::*;
use crate::rows::Event::*;
use crate::rows::Step::*;
use crate::rows::{Brought, Process, Said, Step, Text};
use crate::wire::Wire;
use dist_model::Kind;
use erl_term::Refusal;
use std::test::*;

const P: Process = ("a@h", 1, 1);

const Q: Process = ("a@h", 1, 2);

const R: Process = ("a@h", 1, 3);

/// A process that the node never spawned.
const STRANGER: Process = ("a@h", 1, 9);

/// A process at another node, with no connection to it.
const AWAY: Process = ("b@h", 1, 1);

const NORMAL: Said = Said::Atom("normal");

const KILL: Said = Said::Atom("kill");

const BOOM: Said = Said::Atom("boom");

/// A term of more levels than a message may have.
const DEEP: Said = Said::Nested(64);

const SCENARIOS: &[&[Step]] = &[
    // A name has one process, and a process one name. Refusals in their order. A process that ends loses
    // its name in the same event.
    &[
        Goes(Spawn, Pid(1)),
        Goes(Spawn, Pid(2)),
        Does(WhereIs("srv"), Nobody, &[]),
        Does(Register(P, "srv"), Done, &[]),
        Does(WhereIs("srv"), Holder(P), &[]),
        Refuses(Register(STRANGER, "undefined"), Refusal::NoSuchProcess),
        Refuses(Register(AWAY, "srv"), Refusal::NoSuchProcess),
        Refuses(Register(P, "undefined"), Refusal::BadName),
        Refuses(Register(Q, "srv"), Refusal::NameTaken),
        Refuses(Register(P, "srv"), Refusal::NameTaken),
        Refuses(Register(P, "x"), Refusal::HasName),
        Does(WhereIs("x"), Nobody, &[]),
        Refuses(Unregister(STRANGER), Refusal::NoSuchProcess),
        Refuses(Unregister(Q), Refusal::NoName),
        Does(Register(Q, "x"), Done, &[]),
        Does(ExitSelf(P, BOOM), Done, &[Brought::Ended(P, "boom")]),
        Does(WhereIs("srv"), Nobody, &[]),
        Does(WhereIs("x"), Holder(Q), &[]),
        Refuses(Register(P, "srv"), Refusal::NoSuchProcess),
        Refuses(Register(Q, "srv"), Refusal::HasName),
        Does(Unregister(Q), Done, &[]),
        Does(WhereIs("x"), Nobody, &[]),
        Does(Register(Q, "srv"), Done, &[]),
        Does(WhereIs("srv"), Holder(Q), &[]),
    ],
    // A stop drops all names.
    &[
        Goes(Spawn, Pid(1)),
        Does(Register(P, ""), Done, &[]),
        Does(WhereIs(""), Holder(P), &[]),
        Does(Stop, Stopped, &[]),
        Refuses(Register(P, "srv"), Refusal::NodeDown),
        Refuses(Unregister(P), Refusal::NodeDown),
        Refuses(WhereIs("srv"), Refusal::NodeDown),
        Does(Start, Started(2), &[]),
        Does(WhereIs(""), Nobody, &[]),
        Refuses(Unregister(P), Refusal::NoSuchProcess),
    ],
    // A message to a name comes to the process that has the name when the signal comes, and else to nobody.
    &[
        Goes(Spawn, Pid(1)),
        Goes(Spawn, Pid(2)),
        Goes(Spawn, Pid(3)),
        Goes(Register(Q, "srv"), Done),
        Does(
            SendName(P, "a@h", "srv", BOOM),
            Done,
            &[Brought::SentHome(Wire::BoomToName)],
        ),
        Goes(SendName(P, "a@h", "srv", KILL), Done),
        Goes(SendName(P, "a@h", "srv", BOOM), Done),
        Does(
            Local,
            Took(Kind::RegSend),
            &[Brought::Put(Q, Text::Atom("boom"))],
        ),
        Goes(Unregister(Q), Done),
        Goes(Register(R, "srv"), Done),
        Does(
            Local,
            Took(Kind::RegSend),
            &[Brought::Put(R, Text::Atom("kill"))],
        ),
        Goes(ExitSelf(R, NORMAL), Done),
        Does(Local, Took(Kind::RegSend), &[]),
        // Nor to a node that isn't connected.
        Does(SendName(P, "b@h", "srv", BOOM), Done, &[]),
        Refuses(Local, Refusal::NothingThere),
    ],
    // Refusals of a message to a name and of a monitor of a name: the first that fits.
    &[
        Goes(Spawn, Pid(1)),
        Refuses(
            SendName(STRANGER, "a@h", "srv", DEEP),
            Refusal::NoSuchProcess,
        ),
        Refuses(SendName(P, "a@h", "srv", DEEP), Refusal::TooLong),
        Refuses(SendName(P, "b@h", "srv", DEEP), Refusal::TooLong),
        Refuses(MonitorName(STRANGER, "a@h", "srv"), Refusal::NoSuchProcess),
        Refuses(MonitorName(AWAY, "b@h", "srv"), Refusal::NoSuchProcess),
        // The refused calls have drawn no reference.
        Goes(MonitorName(P, "a@h", "srv"), Reference(1)),
        Does(Stop, Stopped, &[]),
        Refuses(SendName(P, "a@h", "srv", DEEP), Refusal::NodeDown),
        Refuses(MonitorName(P, "a@h", "srv"), Refusal::NodeDown),
    ],
    // A monitor of a name is one of the process that has the name when the signal comes. Its DOWN tells the
    // name and the node. The end of a later holder gives none.
    &[
        Goes(Spawn, Pid(1)),
        Goes(Spawn, Pid(2)),
        Goes(Spawn, Pid(3)),
        Goes(Register(Q, "srv"), Done),
        Does(
            MonitorName(P, "a@h", "srv"),
            Reference(1),
            &[Brought::SentHome(Wire::MonitorName)],
        ),
        Does(Local, Took(Kind::Monitor), &[]),
        Goes(Unregister(Q), Done),
        Goes(Register(R, "srv"), Done),
        Does(ExitSelf(R, BOOM), Done, &[Brought::Ended(R, "boom")]),
        Goes(ExitSelf(Q, BOOM), Done),
        Does(
            Local,
            Took(Kind::MonitorExit),
            &[Brought::Put(P, Text::DownOfName(1, "srv", "a@h", "boom"))],
        ),
        // Of a name that nobody has.
        Goes(MonitorName(P, "a@h", "srv"), Reference(2)),
        Goes(Local, Took(Kind::Monitor)),
        Does(
            Local,
            Took(Kind::MonitorExit),
            &[Brought::Put(P, Text::DownOfName(2, "srv", "a@h", "noproc"))],
        ),
        // Of a name at a node that isn't connected.
        Does(
            MonitorName(P, "b@h", "srv"),
            Reference(3),
            &[Brought::Put(P, Text::DownOfName(3, "srv", "b@h", "noconnection"))],
        ),
        Refuses(Demonitor(P, 3), Refusal::NotTheOwner),
    ],
    // A monitor of a name that its owner takes back gives no DOWN.
    &[
        Goes(Spawn, Pid(1)),
        Goes(Spawn, Pid(2)),
        Goes(Register(Q, "srv"), Done),
        Goes(MonitorName(P, "a@h", "srv"), Reference(1)),
        Settles,
        Refuses(Demonitor(Q, 1), Refusal::NotTheOwner),
        Does(
            Demonitor(P, 1),
            Done,
            &[Brought::SentHome(Wire::DemonitorName)],
        ),
        Does(Local, Took(Kind::Demonitor), &[]),
        Does(ExitSelf(Q, BOOM), Done, &[Brought::Ended(Q, "boom")]),
        Refuses(Local, Refusal::NothingThere),
    ],
];

/// Returns the scenarios. The proof of a function that names the table writes it out, so only this one
/// names it.
fn all() -> &'static [&'static [Step]] {
    SCENARIOS
}

#[test]
fn scenarios(rt: HostRuntime) -> Result<(), Fail> {
    assert_eq!(rt; wrong_of_all(rt.alloc(), all())?, None);
    Ok(())
}

/// Checks names, messages to them and monitors of them, for `fail-allocations`.
#[test]
fn names_without_allocation(rt: HostRuntime) -> Result<(), Fail> {
    assert_eq!(rt; wrong_among(rt.alloc(), all(), &[0, 2, 4])?, None);
    Ok(())
}
