//! The states in which a@h has a side of a connection with b@h, and the ways there.
use crate::items::{ACK, CHALLENGE, MONITOR, NAME, OK, REPLY, Reader, TRUE};
use conn_core::{SideState, Standing};
use erl_handshake::{AcceptorState, DialerState, Introduction};

/// The word that each event draws, and so the challenge of each side.
pub const WORD: u32 = 1234567890;

/// The creation of b@h that its send_challenge tells.
const LATER: u32 = 3;

/// The item that a side awaits.
#[derive(Clone, Copy, Debug, PartialEq, Eq)]
pub enum Awaits {
    /// send_status.
    Status,
    /// send_challenge.
    Challenge,
    /// send_challenge_ack.
    Ack,
    /// send_name.
    Name,
    /// The answer to the status alive.
    Answer,
    /// The end of the older connection. No message is due.
    Turn,
    /// send_challenge_reply.
    Reply,
    /// A frame.
    Frame,
    /// Nothing.
    Nothing,
}

impl Awaits {
    /// Returns the part of the node that reads, or None where the side reads nothing.
    pub fn reader(self) -> Option<Reader> {
        match self {
            Awaits::Status | Awaits::Challenge | Awaits::Ack => Some(Reader::Dialer),
            Awaits::Name | Awaits::Answer | Awaits::Turn | Awaits::Reply => Some(Reader::Acceptor),
            Awaits::Frame => Some(Reader::Connected),
            Awaits::Nothing => None,
        }
    }
}

/// The node that dialed a connection.
#[derive(Clone, Copy, Debug, PartialEq, Eq)]
pub enum Dialed {
    /// a@h.
    Here,
    /// b@h.
    There,
}

/// An event at a@h.
#[derive(Clone, Copy)]
pub enum Step {
    /// a@h spawns P.
    Spawns,
    /// a@h dials b@h.
    Dials,
    /// These bytes arrive on a connection.
    Hears(Dialed, &'static [u8]),
    /// a@h loses a connection.
    Loses(Dialed),
    /// P links to B.
    Links,
    /// P unlinks from B.
    Unlinks,
    /// P monitors B.
    Monitors,
}

/// A state of a side, at a@h.
#[derive(Clone, Copy)]
pub struct State {
    /// The name of the state.
    pub name: &'static str,
    /// The node that dialed the connection.
    pub dialed: Dialed,
    /// The item that the side awaits.
    pub awaits: Awaits,
    /// The side's standing.
    pub standing: Standing,
    /// The greatest creation of b@h that the side knows.
    pub creation: u32,
    /// The state of the side at the node once the node has admitted send_name.
    pub admitted: SideState,
    /// The events that lead there from a new node, in parts.
    pub steps: &'static [&'static [Step]],
}

const DIALS: &[Step] = &[Step::Spawns, Step::Dials];

const CONNECTS: &[Step] = &[
    Step::Hears(Dialed::Here, OK),
    Step::Hears(Dialed::Here, CHALLENGE),
    Step::Hears(Dialed::Here, ACK),
];

const OF_FIRST: Introduction = Introduction {
    creation: 1,
    flags: 0x4_0305_010C,
};

const OF_LATER: Introduction = Introduction {
    creation: LATER,
    flags: 0x4_0305_010C,
};

const UP_TO_LATER: Standing = Standing::Up {
    introduction: OF_LATER,
};

const DIALING: State = State {
    name: "a dialer that awaits the status",
    dialed: Dialed::Here,
    awaits: Awaits::Status,
    standing: Standing::Dialing(DialerState::AwaitsStatus { challenge: WORD }),
    creation: 0,
    admitted: SideState::Dialing,
    steps: &[DIALS],
};

const FRESH: State = State {
    name: "an acceptor that awaits the name",
    dialed: Dialed::There,
    awaits: Awaits::Name,
    standing: Standing::Accepting(AcceptorState::AwaitsName),
    creation: 0,
    admitted: SideState::Accepting,
    steps: &[&[Step::Spawns]],
};

const UP: State = State {
    name: "connected, as the dialer",
    dialed: Dialed::Here,
    awaits: Awaits::Frame,
    standing: UP_TO_LATER,
    creation: LATER,
    admitted: SideState::Up,
    steps: &[DIALS, CONNECTS],
};

/// Each state.
pub const ALL: &[State] = &[
    DIALING,
    State {
        name: "a dialer that awaits the challenge",
        awaits: Awaits::Challenge,
        standing: Standing::Dialing(DialerState::AwaitsChallenge { challenge: WORD }),
        steps: &[DIALS, &[Step::Hears(Dialed::Here, OK)]],
        ..DIALING
    },
    State {
        name: "a dialer that awaits the acknowledgement",
        awaits: Awaits::Ack,
        standing: Standing::Dialing(DialerState::AwaitsAck {
            challenge: WORD,
            introduction: OF_LATER,
        }),
        steps: &[
            DIALS,
            &[
                Step::Hears(Dialed::Here, OK),
                Step::Hears(Dialed::Here, CHALLENGE),
            ],
        ],
        ..DIALING
    },
    FRESH,
    State {
        name: "an acceptor that awaits the name, and dials too",
        steps: &[DIALS],
        ..FRESH
    },
    State {
        name: "an acceptor that awaits the name, and is connected",
        admitted: SideState::Asked,
        steps: &[DIALS, CONNECTS],
        ..FRESH
    },
    State {
        name: "an acceptor that has asked whether the dialer goes on",
        awaits: Awaits::Answer,
        standing: Standing::Accepting(AcceptorState::AwaitsAnswer {
            challenge: WORD,
            introduction: OF_FIRST,
        }),
        steps: &[DIALS, CONNECTS, &[Step::Hears(Dialed::There, NAME)]],
        ..FRESH
    },
    State {
        name: "an acceptor that waits for the end of the older connection",
        awaits: Awaits::Turn,
        standing: Standing::Accepting(AcceptorState::AwaitsTurn {
            challenge: WORD,
            introduction: OF_FIRST,
        }),
        steps: &[
            DIALS,
            CONNECTS,
            &[
                Step::Hears(Dialed::There, NAME),
                Step::Hears(Dialed::There, TRUE),
            ],
        ],
        ..FRESH
    },
    State {
        name: "an acceptor that awaits the reply",
        awaits: Awaits::Reply,
        standing: Standing::Accepting(AcceptorState::AwaitsReply {
            challenge: WORD,
            introduction: OF_FIRST,
        }),
        steps: &[&[Step::Spawns, Step::Hears(Dialed::There, NAME)]],
        ..FRESH
    },
    UP,
    State {
        name: "connected, as the acceptor",
        dialed: Dialed::There,
        standing: Standing::Up {
            introduction: OF_FIRST,
        },
        creation: 1,
        steps: &[&[
            Step::Spawns,
            Step::Hears(Dialed::There, NAME),
            Step::Hears(Dialed::There, REPLY),
        ]],
        ..UP
    },
    State {
        name: "connected, with a link and monitors both ways",
        steps: &[
            DIALS,
            CONNECTS,
            &[
                Step::Links,
                Step::Monitors,
                Step::Hears(Dialed::Here, MONITOR),
            ],
        ],
        ..UP
    },
    State {
        name: "connected, with a link that is taken back",
        steps: &[DIALS, CONNECTS, &[Step::Links, Step::Unlinks]],
        ..UP
    },
    State {
        name: "a connection that is lost",
        awaits: Awaits::Nothing,
        standing: Standing::Losing {
            introduction: OF_LATER,
        },
        steps: &[DIALS, CONNECTS, &[Step::Links, Step::Loses(Dialed::Here)]],
        ..UP
    },
    State {
        name: "an attempt that is given up",
        awaits: Awaits::Nothing,
        standing: Standing::Gone,
        steps: &[DIALS, &[Step::Loses(Dialed::Here)]],
        ..DIALING
    },
];
