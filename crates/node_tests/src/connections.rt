//! The connections of a node: dialed, answered, lost and swept.
use crate::comparing::wrong_step;
use crate::rows::Answered::*;
use crate::rows::Event::*;
use crate::rows::Step::*;
use crate::rows::{Brought, Process, Said, Step, Text, Trunk};
use crate::wire::Wire;
use dist_model::{Kind, Swept as Record};
use erl_term::Refusal;
use std::alloc::Global;
use std::test::*;

const P: Process = ("a@h", 1, 1);

const B: Process = ("b@h", 1, 1);

/// The first connection that a@h has dialed, and its second; and those of b@h.
const OURS: Trunk = ("a@h", 1);

const SECOND: Trunk = ("a@h", 2);

const THEIRS: Trunk = ("b@h", 1);

const LATER_OF_THEIRS: Trunk = ("b@h", 2);

const BOOM: Said = Said::Atom("boom");

/// a@h dials b@h, and they are connected.
const DIALED: &[Step] = &[
    Does(
        Dial("b@h", true),
        Connection(OURS),
        &[Brought::Sent(OURS, Wire::NameOfA)],
    ),
    Does(Arrive(OURS, Wire::Ok), Took(Kind::Status), &[]),
    Does(
        Arrive(OURS, Wire::ChallengeOfB),
        Took(Kind::Challenge),
        &[Brought::Sent(OURS, Wire::Reply)],
    ),
    Routes("b@h", None),
    Does(
        Arrive(OURS, Wire::Acknowledgement),
        Took(Kind::ChallengeAck),
        &[],
    ),
    Routes("b@h", Some(OURS)),
];

/// b@h dials a@h, and they are connected.
const ANSWERED: &[Step] = &[
    Does(
        Arrive(THEIRS, Wire::NameOfB),
        Took(Kind::SendName),
        &[
            Brought::Sent(THEIRS, Wire::Ok),
            Brought::Sent(THEIRS, Wire::ChallengeOfA),
        ],
    ),
    Does(
        Arrive(THEIRS, Wire::Reply),
        Took(Kind::ChallengeReply),
        &[Brought::Sent(THEIRS, Wire::Acknowledgement)],
    ),
    Routes("b@h", Some(THEIRS)),
];

/// P, which traps exits, and B have a link that P took, one monitor each, and are connected.
const RECORDED: &[Step] = &[
    Goes(Spawn, Pid(1)),
    Goes(Trap(P, true), Done),
    Does(Link(P, B), Done, &[Brought::Sent(OURS, Wire::Link)]),
    Does(
        Monitor(P, B),
        Reference(1),
        &[Brought::Sent(OURS, Wire::Monitor)],
    ),
    Does(Arrive(OURS, Wire::Monitored), Took(Kind::Monitor), &[]),
];

/// What stands before the steps of a scenario.
#[derive(Clone, Copy)]
enum Start {
    /// A new node.
    New,
    Dialed,
    Answered,
    /// a@h has dialed b@h, and there are records.
    Recorded,
}

impl Start {
    fn parts(self) -> [&'static [Step]; 2] {
        match self {
            Start::New => [&[], &[]],
            Start::Dialed => [DIALED, &[]],
            Start::Answered => [ANSWERED, &[]],
            Start::Recorded => [DIALED, RECORDED],
        }
    }
}

/// What is done from a start.
const SCENARIOS: &[(Start, &[Step])] = &[
    // What comes on a connection that is up.
    (
        Start::Dialed,
        &[
            Goes(Spawn, Pid(1)),
            Does(Arrive(OURS, Wire::Tick), Took(Kind::Tick), &[]),
            Does(Arrive(OURS, Wire::Linked), Took(Kind::Link), &[]),
            Does(LinksOf(P), Links(&[(B, 0)]), &[]),
            Does(
                Arrive(OURS, Wire::Hi),
                Took(Kind::Send),
                &[Brought::Put(P, Text::Atom("hi"))],
            ),
            Goes(Arrive(OURS, Wire::Monitored), Took(Kind::Monitor)),
            Does(
                ExitSelf(P, BOOM),
                Done,
                &[
                    Brought::Sent(OURS, Wire::Exit),
                    Brought::Sent(OURS, Wire::MonitorExit),
                    Brought::Ended(P, "boom"),
                ],
            ),
        ],
    ),
    // A message to a process that was never spawned is forged, and breaks the connection, which has
    // no record to sweep.
    (
        Start::Dialed,
        &[
            Goes(Spawn, Pid(1)),
            Does(Arrive(OURS, Wire::Forged), Broken(20), &[]),
            Routes("b@h", None),
            Refuses(Arrive(OURS, Wire::Tick), Refusal::NotLive),
            Refuses(Dial("b@h", true), Refusal::Busy),
            Does(Sweep, Swept(Record::Side), &[]),
            Refuses(Sweep, Refusal::NothingThere),
            Goes(Dial("b@h", true), Connection(SECOND)),
        ],
    ),
    // So does what comes from a process of another node, or of a later creation, and what is no frame.
    (
        Start::Dialed,
        &[
            Goes(Spawn, Pid(1)),
            Does(Arrive(OURS, Wire::OtherNode), Broken(20), &[]),
        ],
    ),
    (
        Start::Dialed,
        &[
            Goes(Spawn, Pid(1)),
            Does(Arrive(OURS, Wire::Later), Broken(20), &[]),
        ],
    ),
    // So does a signal to a process of another node, or of a creation of this node that is still to come.
    (
        Start::Dialed,
        &[
            Goes(Spawn, Pid(1)),
            Does(Arrive(OURS, Wire::ToOtherNode), Broken(20), &[]),
        ],
    ),
    (
        Start::Dialed,
        &[
            Goes(Spawn, Pid(1)),
            Does(Arrive(OURS, Wire::ToLater), Broken(20), &[]),
        ],
    ),
    (
        Start::Dialed,
        &[Does(Arrive(OURS, Wire::NoFrame), Broken(6), &[])],
    ),
    // A lost connection: its link goes, then the monitor that P has, then that of P, one at a time.
    (
        Start::Recorded,
        &[
            Does(Lose(OURS), Done, &[]),
            Routes("b@h", None),
            Does(LinksOf(P), Links(&[(B, 0)]), &[]),
            Does(
                Sweep,
                Swept(Record::Link),
                &[
                    Brought::LinkExit(P, B, "noconnection"),
                    Brought::Put(P, Text::Exit(B, "noconnection")),
                ],
            ),
            Does(LinksOf(P), Links(&[]), &[]),
            Does(
                Sweep,
                Swept(Record::Watch),
                &[Brought::Put(P, Text::Down(1, B, "noconnection"))],
            ),
            Refuses(Demonitor(P, 1), Refusal::NotTheOwner),
            Refuses(Dial("b@h", true), Refusal::Busy),
            Does(Sweep, Swept(Record::Registration), &[]),
            Refuses(Sweep, Refusal::NothingThere),
            Goes(Dial("b@h", true), Connection(SECOND)),
        ],
    ),
    // A link that is being taken back is swept in silence.
    (
        Start::Recorded,
        &[
            Does(Unlink(P, B), Done, &[Brought::Sent(OURS, Wire::Unlink)]),
            Goes(Lose(OURS), Done),
            Does(Sweep, Swept(Record::Link), &[]),
            Does(LinksOf(P), Links(&[]), &[]),
            Goes(Sweep, Swept(Record::Watch)),
            Goes(Sweep, Swept(Record::Registration)),
            Goes(Receive(P), Message(Text::Down(1, B, "noconnection"))),
            Goes(Receive(P), Empty),
        ],
    ),
    // A process that doesn't trap exits ends at the sweep of its link.
    (
        Start::Recorded,
        &[
            Goes(Trap(P, false), Done),
            Goes(Lose(OURS), Done),
            Goes(Sweep, Swept(Record::Link)),
            HasEnded(P, "noconnection"),
            Refuses(Sweep, Refusal::NothingThere),
        ],
    ),
    // b@h dials.
    (
        Start::Answered,
        &[
            Goes(Spawn, Pid(1)),
            Goes(Arrive(THEIRS, Wire::Hi), Took(Kind::Send)),
            Refuses(Dial("b@h", true), Refusal::Busy),
        ],
    ),
    // It dials again, while the first connection is up: it has to wait until that is swept.
    (
        Start::Answered,
        &[
            Does(
                Arrive(LATER_OF_THEIRS, Wire::NameOfB),
                Took(Kind::SendName),
                &[Brought::Sent(LATER_OF_THEIRS, Wire::Alive)],
            ),
            Does(Arrive(LATER_OF_THEIRS, Wire::True), Took(Kind::Status), &[]),
            Routes("b@h", None),
            Does(
                Sweep,
                Swept(Record::Side),
                &[Brought::Sent(LATER_OF_THEIRS, Wire::ChallengeOfA)],
            ),
            Goes(
                Arrive(LATER_OF_THEIRS, Wire::Reply),
                Took(Kind::ChallengeReply),
            ),
            Routes("b@h", Some(LATER_OF_THEIRS)),
        ],
    ),
    // Both dial: b@h has the greater name, so its attempt goes on, and the other is given up.
    (
        Start::New,
        &[
            Goes(Dial("b@h", true), Connection(OURS)),
            Does(
                Arrive(THEIRS, Wire::NameOfB),
                Took(Kind::SendName),
                &[
                    Brought::Sent(THEIRS, Wire::OkSimultaneous),
                    Brought::Sent(THEIRS, Wire::ChallengeOfA),
                ],
            ),
            Refuses(Arrive(OURS, Wire::Nok), Refusal::NotLive),
            Goes(Arrive(THEIRS, Wire::Reply), Took(Kind::ChallengeReply)),
            Routes("b@h", Some(THEIRS)),
        ],
    ),
    // A wrong digest, a name that isn't the dialer's, and an attempt that is turned down.
    (
        Start::New,
        &[
            Goes(Arrive(THEIRS, Wire::NameOfB), Took(Kind::SendName)),
            Does(Arrive(THEIRS, Wire::OtherReply), Broken(13), &[]),
            Refuses(Arrive(THEIRS, Wire::Tick), Refusal::NotLive),
            Refuses(Lose(THEIRS), Refusal::NotLive),
        ],
    ),
    (
        Start::New,
        &[Does(Arrive(THEIRS, Wire::NameOfA), Broken(20), &[])],
    ),
    (
        Start::New,
        &[
            Goes(Dial("b@h", true), Connection(OURS)),
            Does(Arrive(OURS, Wire::Nok), Broken(14), &[]),
            Goes(Dial("b@h", true), Connection(SECOND)),
        ],
    ),
    // Refusals: the first that fits.
    (
        Start::New,
        &[
            Refuses(Dial("a@h", false), Refusal::SelfDial),
            Refuses(Dial("c@h", false), Refusal::NothingThere),
            Refuses(Lose(OURS), Refusal::NotLive),
            Refuses(Sweep, Refusal::NothingThere),
            Refuses(Arrive(OURS, Wire::Ok), Refusal::NotLive),
            Refuses(Arrive(THEIRS, Wire::StartOfName), Refusal::NotLive),
            Goes(Dial("b@h", true), Connection(OURS)),
            Refuses(Dial("b@h", false), Refusal::NothingThere),
            Refuses(Dial("b@h", true), Refusal::Busy),
            Refuses(Arrive(OURS, Wire::Nothing), Refusal::NothingThere),
            Refuses(Arrive(OURS, Wire::StartOfOk), Refusal::NothingThere),
            Does(Lose(OURS), Done, &[]),
            Refuses(Lose(OURS), Refusal::NotLive),
            Goes(Stop, Stopped),
            Refuses(Dial("a@h", false), Refusal::NodeDown),
            Refuses(Lose(OURS), Refusal::NodeDown),
            Refuses(Sweep, Refusal::NodeDown),
            Refuses(Arrive(THEIRS, Wire::NameOfB), Refusal::NodeDown),
            Refuses(Local, Refusal::NodeDown),
            Goes(Start, Started(2)),
            // Connections are counted over all creations.
            Goes(Dial("b@h", true), Connection(SECOND)),
        ],
    ),
    // A message to a name and a monitor of a name come from a peer. The end of the process that has the name
    // tells the name. DEMONITOR_P of another name, of another owner or of the pid takes nothing back.
    (
        Start::Dialed,
        &[
            Goes(Spawn, Pid(1)),
            Does(Arrive(OURS, Wire::HiToName), Took(Kind::RegSend), &[]),
            Does(
                Arrive(OURS, Wire::NameMonitored),
                Took(Kind::Monitor),
                &[Brought::Sent(OURS, Wire::NameExitOfNobody)],
            ),
            Goes(Register(P, "srv"), Done),
            Does(
                Arrive(OURS, Wire::HiToName),
                Took(Kind::RegSend),
                &[Brought::Put(P, Text::Atom("hi"))],
            ),
            Does(Arrive(OURS, Wire::NameMonitored), Took(Kind::Monitor), &[]),
            Does(
                Arrive(OURS, Wire::OtherNameDemonitored),
                Took(Kind::Demonitor),
                &[],
            ),
            Does(
                Arrive(OURS, Wire::NameDemonitoredByOther),
                Took(Kind::Demonitor),
                &[],
            ),
            Does(
                Arrive(OURS, Wire::PidDemonitored),
                Took(Kind::Demonitor),
                &[],
            ),
            Goes(Unregister(P), Done),
            Does(
                ExitSelf(P, BOOM),
                Done,
                &[
                    Brought::Sent(OURS, Wire::NameExit),
                    Brought::Ended(P, "boom"),
                ],
            ),
        ],
    ),
    // DEMONITOR_P of the name, from the owner, takes the monitor back.
    (
        Start::Dialed,
        &[
            Goes(Spawn, Pid(1)),
            Goes(Register(P, "srv"), Done),
            Goes(Arrive(OURS, Wire::NameMonitored), Took(Kind::Monitor)),
            Does(
                Arrive(OURS, Wire::NameDemonitored),
                Took(Kind::Demonitor),
                &[],
            ),
            Does(ExitSelf(P, BOOM), Done, &[Brought::Ended(P, "boom")]),
        ],
    ),
    // A name of a peer that doesn't offer this can't be monitored. A name of the own node can, and no peer
    // tells its end.
    (
        Start::Dialed,
        &[
            Goes(Spawn, Pid(1)),
            Refuses(MonitorName(B, "b@h", "srv"), Refusal::NoSuchProcess),
            Refuses(MonitorName(P, "b@h", "srv"), Refusal::NotOffered),
            Does(
                SendName(P, "b@h", "srv", BOOM),
                Done,
                &[Brought::Sent(OURS, Wire::BoomToName)],
            ),
            Goes(MonitorName(P, "a@h", "srv"), Reference(1)),
            Does(Arrive(OURS, Wire::NameExited), Took(Kind::MonitorExit), &[]),
            Does(
                Local,
                Took(Kind::Monitor),
                &[Brought::SentHome(Wire::NameExitHome)],
            ),
        ],
    ),
];

/// The scenarios, named once: what names the table has it written out in its proof.
fn all() -> &'static [(Start, &'static [Step])] {
    SCENARIOS
}

/// The first scenario, of those at these places, that comes out otherwise, and its step that does; or a
/// place at which there is none.
fn first_wrong(
    alloc: Global,
    scenarios: &[(Start, &[Step])],
    places: &[usize],
) -> Result<Option<(usize, usize)>, Refusal> {
    for place in places {
        let Some((start, steps)) = scenarios.get(*place) else {
            return Ok(Some((*place, 0)));
        };
        if let Some(step) = wrong_step(alloc, start.parts(), steps)? {
            return Ok(Some((*place, step)));
        }
    }
    Ok(None)
}

/// The same of all.
fn first_wrong_of_all(
    alloc: Global,
    scenarios: &[(Start, &[Step])],
) -> Result<Option<(usize, usize)>, Refusal> {
    for (place, (start, steps)) in scenarios.iter().enumerate() {
        if let Some(step) = wrong_step(alloc, start.parts(), steps)? {
            return Ok(Some((place, step)));
        }
    }
    Ok(None)
}

#[test]
fn scenarios(rt: HostRuntime) -> Result<(), Fail> {
    assert_eq!(rt; first_wrong_of_all(rt.alloc(), all())?, None);
    Ok(())
}

/// A lost connection with each kind of record, and both dialing, for `fail-allocations`.
#[test]
fn connections_without_allocation(rt: HostRuntime) -> Result<(), Fail> {
    assert_eq!(rt; first_wrong(rt.alloc(), all(), &[5, 9, 10])?, None);
    Ok(())
}
