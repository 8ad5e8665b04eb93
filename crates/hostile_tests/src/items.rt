//! The items that travel in the tests. The node under test is a@h. Its peer is b@h, whose first process
//! is B; P is the first process of a@h.

/// The part of a node that reads an item.
#[derive(Clone, Copy, Debug, PartialEq, Eq)]
pub enum Reader {
    /// The side of a node that dials.
    Dialer,
    /// The side of a node that is dialed.
    Acceptor,
    /// The side of a node that is connected.
    Connected,
}

/// An item, as b@h sends it.
#[derive(Clone, Copy)]
pub struct Sample {
    /// The name of the item.
    pub name: &'static str,
    /// The part of a@h that reads it.
    pub reader: Reader,
    /// All of its bytes.
    pub bytes: &'static [u8],
}

/// The digest of the cookie over the word that each event draws.
pub const DIGEST: &[u8] = b"\x57\xED\xF4\xA2\x2B\xE3\xC9\x55\xAC\x49\xDA\x2E\x21\x07\xB6\x7A";

pub const NAME: &[u8] = b"\0\x12N\0\0\0\x04\x03\x05\x01\x0C\0\0\0\x01\0\x03b@h";

pub const OK: &[u8] = b"\0\x03sok";

pub const ALIVE: &[u8] = b"\0\x06salive";

pub const TRUE: &[u8] = b"\0\x05strue";

/// send_challenge of b@h in its third creation.
pub const CHALLENGE: &[u8] =
    b"\0\x16N\0\0\0\x04\x03\x05\x01\x0C\x49\x96\x02\xD2\0\0\0\x03\0\x03b@h";

pub const REPLY: &[u8] =
    b"\0\x15r\x49\x96\x02\xD2\x57\xED\xF4\xA2\x2B\xE3\xC9\x55\xAC\x49\xDA\x2E\x21\x07\xB6\x7A";

pub const ACK: &[u8] = b"\0\x11a\x57\xED\xF4\xA2\x2B\xE3\xC9\x55\xAC\x49\xDA\x2E\x21\x07\xB6\x7A";

/// MONITOR_P from B to P, by the first reference of b@h.
pub const MONITOR: &[u8] =
    b"\0\0\0Bp\x83h\x04a\x13Xw\x03b@h\0\0\0\x01\0\0\0\0\0\0\0\x01Xw\x03a@h\0\0\0\x01\0\0\0\0\0\0\0\x01Z\0\x03w\x03b@h\0\0\0\x01\0\0\0\x01\0\0\0\0\0\0\0\0";

/// Each message of the handshake and each frame, one of a kind.
pub const ALL: &[Sample] = &[
    Sample {
        name: "the status ok",
        reader: Reader::Dialer,
        bytes: OK,
    },
    Sample {
        name: "the status ok_simultaneous",
        reader: Reader::Dialer,
        bytes: b"\0\x10sok_simultaneous",
    },
    Sample {
        name: "the status nok",
        reader: Reader::Dialer,
        bytes: b"\0\x04snok",
    },
    Sample {
        name: "the status not_allowed",
        reader: Reader::Dialer,
        bytes: b"\0\x0Csnot_allowed",
    },
    Sample {
        name: "the status alive",
        reader: Reader::Dialer,
        bytes: ALIVE,
    },
    Sample {
        name: "send_challenge",
        reader: Reader::Dialer,
        bytes: CHALLENGE,
    },
    Sample {
        name: "send_challenge_ack",
        reader: Reader::Dialer,
        bytes: ACK,
    },
    Sample {
        name: "send_name",
        reader: Reader::Acceptor,
        bytes: NAME,
    },
    Sample {
        name: "the answer true",
        reader: Reader::Acceptor,
        bytes: TRUE,
    },
    Sample {
        name: "the answer false",
        reader: Reader::Acceptor,
        bytes: b"\0\x06sfalse",
    },
    Sample {
        name: "send_challenge_reply",
        reader: Reader::Acceptor,
        bytes: REPLY,
    },
    Sample {
        name: "a tick",
        reader: Reader::Connected,
        bytes: &[0, 0, 0, 0],
    },
    Sample {
        name: "LINK",
        reader: Reader::Connected,
        bytes: b"\0\0\0*p\x83h\x03a\x01Xw\x03b@h\0\0\0\x01\0\0\0\0\0\0\0\x01Xw\x03a@h\0\0\0\x01\0\0\0\0\0\0\0\x01",
    },
    Sample {
        name: "SEND",
        reader: Reader::Connected,
        bytes: b"\0\0\0\x1Fp\x83h\x03a\x02w\0Xw\x03a@h\0\0\0\x01\0\0\0\0\0\0\0\x01\x83w\x02hi",
    },
    Sample {
        name: "REG_SEND",
        reader: Reader::Connected,
        bytes: b"\0\0\0$p\x83h\x04a\x06Xw\x03b@h\0\0\0\x01\0\0\0\0\0\0\0\x01w\0w\x03srv\x83w\x02hi",
    },
    Sample {
        name: "EXIT",
        reader: Reader::Connected,
        bytes: b"\0\0\0\x30p\x83h\x04a\x03Xw\x03b@h\0\0\0\x01\0\0\0\0\0\0\0\x01Xw\x03a@h\0\0\0\x01\0\0\0\0\0\0\0\x01w\x04boom",
    },
    Sample {
        name: "EXIT2",
        reader: Reader::Connected,
        bytes: b"\0\0\0\x30p\x83h\x04a\x08Xw\x03b@h\0\0\0\x01\0\0\0\0\0\0\0\x01Xw\x03a@h\0\0\0\x01\0\0\0\0\0\0\0\x01w\x04boom",
    },
    Sample {
        name: "MONITOR_P",
        reader: Reader::Connected,
        bytes: MONITOR,
    },
    Sample {
        name: "DEMONITOR_P",
        reader: Reader::Connected,
        bytes: b"\0\0\0Bp\x83h\x04a\x14Xw\x03b@h\0\0\0\x01\0\0\0\0\0\0\0\x01Xw\x03a@h\0\0\0\x01\0\0\0\0\0\0\0\x01Z\0\x03w\x03b@h\0\0\0\x01\0\0\0\x01\0\0\0\0\0\0\0\0",
    },
    Sample {
        name: "MONITOR_P_EXIT",
        reader: Reader::Connected,
        bytes: b"\0\0\0Hp\x83h\x05a\x15Xw\x03b@h\0\0\0\x01\0\0\0\0\0\0\0\x01Xw\x03a@h\0\0\0\x01\0\0\0\0\0\0\0\x01Z\0\x03w\x03a@h\0\0\0\x01\0\0\0\x01\0\0\0\0\0\0\0\0w\x04boom",
    },
    Sample {
        name: "MONITOR_P to a name",
        reader: Reader::Connected,
        bytes: b"\0\0\05p\x83h\x04a\x13Xw\x03b@h\0\0\0\x01\0\0\0\0\0\0\0\x01w\x03srvZ\0\x03w\x03b@h\0\0\0\x01\0\0\0\x01\0\0\0\0\0\0\0\0",
    },
    Sample {
        name: "DEMONITOR_P to a name",
        reader: Reader::Connected,
        bytes: b"\0\0\05p\x83h\x04a\x14Xw\x03b@h\0\0\0\x01\0\0\0\0\0\0\0\x01w\x03srvZ\0\x03w\x03b@h\0\0\0\x01\0\0\0\x01\0\0\0\0\0\0\0\0",
    },
    Sample {
        name: "MONITOR_P_EXIT from a name",
        reader: Reader::Connected,
        bytes: b"\0\0\0;p\x83h\x05a\x15w\x03srvXw\x03a@h\0\0\0\x01\0\0\0\0\0\0\0\x01Z\0\x03w\x03a@h\0\0\0\x01\0\0\0\x01\0\0\0\0\0\0\0\0w\x04boom",
    },
    Sample {
        name: "UNLINK_ID",
        reader: Reader::Connected,
        bytes: b"\0\0\0\x2Cp\x83h\x04a\x23a\x01Xw\x03b@h\0\0\0\x01\0\0\0\0\0\0\0\x01Xw\x03a@h\0\0\0\x01\0\0\0\0\0\0\0\x01",
    },
    Sample {
        name: "UNLINK_ID_ACK",
        reader: Reader::Connected,
        bytes: b"\0\0\0\x2Cp\x83h\x04a\x24a\x01Xw\x03b@h\0\0\0\x01\0\0\0\0\0\0\0\x01Xw\x03a@h\0\0\0\x01\0\0\0\0\0\0\0\x01",
    },
    Sample {
        name: "PAYLOAD_EXIT",
        reader: Reader::Connected,
        bytes: b"\0\0\0\x31p\x83h\x03a\x18Xw\x03b@h\0\0\0\x01\0\0\0\0\0\0\0\x01Xw\x03a@h\0\0\0\x01\0\0\0\0\0\0\0\x01\x83w\x04boom",
    },
    Sample {
        name: "PAYLOAD_EXIT2",
        reader: Reader::Connected,
        bytes: b"\0\0\0\x31p\x83h\x03a\x1AXw\x03b@h\0\0\0\x01\0\0\0\0\0\0\0\x01Xw\x03a@h\0\0\0\x01\0\0\0\0\0\0\0\x01\x83w\x04boom",
    },
    Sample {
        name: "PAYLOAD_MONITOR_P_EXIT",
        reader: Reader::Connected,
        bytes: b"\0\0\0Ip\x83h\x04a\x1CXw\x03b@h\0\0\0\x01\0\0\0\0\0\0\0\x01Xw\x03a@h\0\0\0\x01\0\0\0\0\0\0\0\x01Z\0\x03w\x03a@h\0\0\0\x01\0\0\0\x01\0\0\0\0\0\0\0\0\x83w\x04boom",
    },
];
