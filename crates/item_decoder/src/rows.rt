//! The rows of the table of control messages, with the names of their elements. (ERTS User's Guide, Distribution
//! Protocol, Protocol between Connected Nodes and New Link Protocol.)

/// The kind of an element of a control message.
#[derive(Clone, Copy, Debug, PartialEq, Eq)]
pub enum Kind {
    /// A process.
    Pid,
    /// A process, or the registered name of one.
    PidOrName,
    /// A registered name.
    Name,
    /// The reference of a monitor.
    Reference,
    /// The id of an unlink, 1 to 18,446,744,073,709,551,615.
    Id,
    /// Any term.
    Term,
}

impl Kind {
    /// Returns the noun for the kind.
    pub fn noun(self) -> &'static str {
        match self {
            Kind::Pid => "a pid",
            Kind::PidOrName => "a pid or an atom",
            Kind::Name => "an atom",
            Kind::Reference => "a reference",
            Kind::Id => "an id",
            Kind::Term => "a term",
        }
    }
}

/// An element of a control message: its name, and its kind.
#[derive(Clone, Copy, Debug)]
pub struct Field {
    /// Its name in the standard.
    pub name: &'static str,
    pub kind: Kind,
}

/// A row of the table.
#[derive(Clone, Copy, Debug)]
pub struct Row {
    /// The name of the operation.
    pub name: &'static str,
    /// The elements behind the operation.
    pub fields: &'static [Field],
    /// The name of the term behind the control message, if there is one.
    pub behind: Option<&'static str>,
}

const FROM: Field = Field {
    name: "FromPid",
    kind: Kind::Pid,
};

const TO: Field = Field {
    name: "ToPid",
    kind: Kind::Pid,
};

const FROM_PROCESS: Field = Field {
    name: "FromProc",
    kind: Kind::PidOrName,
};

const TO_PROCESS: Field = Field {
    name: "ToProc",
    kind: Kind::PidOrName,
};

const TO_NAME: Field = Field {
    name: "ToName",
    kind: Kind::Name,
};

const UNUSED: Field = Field {
    name: "Unused",
    kind: Kind::Term,
};

const REASON: Field = Field {
    name: "Reason",
    kind: Kind::Term,
};

const REFERENCE: Field = Field {
    name: "Ref",
    kind: Kind::Reference,
};

const ID: Field = Field {
    name: "Id",
    kind: Kind::Id,
};

const PIDS: &[Field] = &[FROM, TO];

const PIDS_AND_REASON: &[Field] = &[FROM, TO, REASON];

const SEND: &[Field] = &[UNUSED, TO];

const REG_SEND: &[Field] = &[FROM, UNUSED, TO_NAME];

const MONITOR: &[Field] = &[FROM, TO_PROCESS, REFERENCE];

const MONITOR_EXIT: &[Field] = &[FROM_PROCESS, TO, REFERENCE, REASON];

const PAYLOAD_MONITOR_EXIT: &[Field] = &[FROM_PROCESS, TO, REFERENCE];

const UNLINK: &[Field] = &[ID, FROM, TO];

fn row_alone(name: &'static str, fields: &'static [Field]) -> Option<Row> {
    Some(Row {
        name,
        fields,
        behind: None,
    })
}

fn row_before(name: &'static str, fields: &'static [Field], behind: &'static str) -> Option<Row> {
    Some(Row {
        name,
        fields,
        behind: Some(behind),
    })
}

/// Returns the row of an operation. Returns None if it is none of the profile.
pub fn row_of(operation: i128) -> Option<Row> {
    match operation {
        1 => row_alone("LINK", PIDS),
        2 => row_before("SEND", SEND, "Message"),
        3 => row_alone("EXIT", PIDS_AND_REASON),
        6 => row_before("REG_SEND", REG_SEND, "Message"),
        8 => row_alone("EXIT2", PIDS_AND_REASON),
        19 => row_alone("MONITOR_P", MONITOR),
        20 => row_alone("DEMONITOR_P", MONITOR),
        21 => row_alone("MONITOR_P_EXIT", MONITOR_EXIT),
        24 => row_before("PAYLOAD_EXIT", PIDS, "Reason"),
        26 => row_before("PAYLOAD_EXIT2", PIDS, "Reason"),
        28 => row_before("PAYLOAD_MONITOR_P_EXIT", PAYLOAD_MONITOR_EXIT, "Reason"),
        35 => row_alone("UNLINK_ID", UNLINK),
        36 => row_alone("UNLINK_ID_ACK", UNLINK),
        _ => None,
    }
}

/// Returns the name of an operation of the standard that the profile lacks.
pub fn foreign_operation(operation: i128) -> Option<&'static str> {
    match operation {
        4 => Some("UNLINK"),
        5 => Some("NODE_LINK"),
        7 => Some("GROUP_LEADER"),
        12 => Some("SEND_TT"),
        13 => Some("EXIT_TT"),
        16 => Some("REG_SEND_TT"),
        18 => Some("EXIT2_TT"),
        22 => Some("SEND_SENDER"),
        23 => Some("SEND_SENDER_TT"),
        25 => Some("PAYLOAD_EXIT_TT"),
        27 => Some("PAYLOAD_EXIT2_TT"),
        29 => Some("SPAWN_REQUEST"),
        30 => Some("SPAWN_REQUEST_TT"),
        31 => Some("SPAWN_REPLY"),
        32 => Some("SPAWN_REPLY_TT"),
        33 => Some("ALIAS_SEND"),
        34 => Some("ALIAS_SEND_TT"),
        _ => None,
    }
}
