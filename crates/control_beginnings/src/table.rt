//! The table of control messages: the tag of each operation, its number of elements, and its parts.
//! (ERTS User's Guide, Distribution Protocol, Protocol between Connected Nodes and New Link Protocol.)

use crate::parts::{Kind, Part};

/// An operation with its control term.
#[derive(Clone, Copy)]
pub struct Row<'a> {
    /// The first element.
    pub tag: u8,
    /// The number of elements, the tag included.
    pub arity: u8,
    /// The parts behind the tag: elements, and a message behind the control term.
    pub parts: &'a [Part],
}

const LINK: u8 = 1;

const SEND: u8 = 2;

const EXIT: u8 = 3;

const REG_SEND: u8 = 6;

const EXIT2: u8 = 8;

const MONITOR_P: u8 = 19;

const DEMONITOR_P: u8 = 20;

const MONITOR_P_EXIT: u8 = 21;

const PAYLOAD_EXIT: u8 = 24;

const PAYLOAD_EXIT2: u8 = 26;

const PAYLOAD_MONITOR_P_EXIT: u8 = 28;

const UNLINK_ID: u8 = 35;

const UNLINK_ID_ACK: u8 = 36;

const PID: Part = Part::Of(Kind::Pid);

const TARGET: Part = Part::Of(Kind::Target);

const REFERENCE: Part = Part::Of(Kind::Reference);

/// The rows of the table, a payload's operation as a row of its own.
pub const ROWS: [Row<'static>; 13] = [
    Row {
        tag: LINK,
        arity: 3,
        parts: &[PID, PID],
    },
    Row {
        tag: SEND,
        arity: 3,
        parts: &[Part::Term, PID, Part::Message],
    },
    Row {
        tag: EXIT,
        arity: 4,
        parts: &[PID, PID, Part::Term],
    },
    Row {
        tag: REG_SEND,
        arity: 4,
        parts: &[PID, Part::Term, Part::Of(Kind::Name), Part::Message],
    },
    Row {
        tag: EXIT2,
        arity: 4,
        parts: &[PID, PID, Part::Term],
    },
    Row {
        tag: MONITOR_P,
        arity: 4,
        parts: &[PID, TARGET, REFERENCE],
    },
    Row {
        tag: DEMONITOR_P,
        arity: 4,
        parts: &[PID, TARGET, REFERENCE],
    },
    Row {
        tag: MONITOR_P_EXIT,
        arity: 5,
        parts: &[TARGET, PID, REFERENCE, Part::Term],
    },
    Row {
        tag: PAYLOAD_EXIT,
        arity: 3,
        parts: &[PID, PID, Part::Message],
    },
    Row {
        tag: PAYLOAD_EXIT2,
        arity: 3,
        parts: &[PID, PID, Part::Message],
    },
    Row {
        tag: PAYLOAD_MONITOR_P_EXIT,
        arity: 4,
        parts: &[TARGET, PID, REFERENCE, Part::Message],
    },
    Row {
        tag: UNLINK_ID,
        arity: 4,
        parts: &[Part::Id, PID, PID],
    },
    Row {
        tag: UNLINK_ID_ACK,
        arity: 4,
        parts: &[Part::Id, PID, PID],
    },
];
