//! What travels in the rows, by name. The nodes are a@h and b@h, in their first creations, of one cookie.

/// A message of the handshake or a frame, or bytes that are none.
#[derive(Clone, Copy)]
pub enum Wire {
    /// No bytes.
    Nothing,
    /// A tick.
    Tick,
    /// send_name of a@h.
    NameOfA,
    /// The same of b@h.
    NameOfB,
    /// The first bytes of it.
    StartOfName,
    /// The statuses, and the answer to `alive`.
    Ok,
    OkSimultaneous,
    Nok,
    Alive,
    True,
    /// The first bytes of `ok`.
    StartOfOk,
    /// send_challenge of a@h, under the word 1234567890.
    ChallengeOfA,
    /// The same of b@h.
    ChallengeOfB,
    /// send_challenge_reply under the same word, with the digest of that word.
    Reply,
    /// With another last byte of the digest.
    OtherReply,
    /// send_challenge_ack.
    Acknowledgement,
    /// LINK from P, the first process of a@h, to B, the first of b@h.
    Link,
    /// UNLINK_ID 1 from P to B.
    Unlink,
    /// MONITOR_P from P to B.
    Monitor,
    /// EXIT boom from P to B.
    Exit,
    /// MONITOR_P_EXIT boom from P to B, by the reference of b@h.
    MonitorExit,
    /// LINK from B to P.
    Linked,
    /// MONITOR_P from B to P.
    Monitored,
    /// SEND hi to P.
    Hi,
    /// SEND to a process of a@h that was never spawned.
    Forged,
    /// LINK to P from a process of c@h.
    OtherNode,
    /// LINK to P from a process of b@h in its second creation.
    Later,
    /// LINK from B to a process of c@h.
    ToOtherNode,
    /// LINK from B to a process of a@h in its second creation.
    ToLater,
    /// A frame that is none.
    NoFrame,
    /// LINK from P to Q, the second process of a@h.
    LinkHome,
    /// UNLINK_ID 1 from P to Q.
    UnlinkHome,
    /// UNLINK_ID_ACK 1 from Q to P.
    UnlinkAckHome,
    /// MONITOR_P from P to the name srv.
    MonitorName,
    /// DEMONITOR_P from P to the name srv.
    DemonitorName,
    /// REG_SEND boom from P to the name srv.
    BoomToName,
    /// REG_SEND hi from B to the name srv.
    HiToName,
    /// MONITOR_P from B to the name srv.
    NameMonitored,
    /// DEMONITOR_P from B to the name srv.
    NameDemonitored,
    /// The same to the name x.
    OtherNameDemonitored,
    /// The same to the name srv, from another process of b@h.
    NameDemonitoredByOther,
    /// The same from B to P.
    PidDemonitored,
    /// MONITOR_P_EXIT boom from the name srv to B, by the reference of b@h.
    NameExit,
    /// The same for noproc.
    NameExitOfNobody,
    /// MONITOR_P_EXIT boom from the name srv to P, by the reference of a@h.
    NameExited,
    /// The same for noproc.
    NameExitHome,
}

impl Wire {
    pub fn bytes(self) -> &'static [u8] {
        match self {
            Wire::Nothing => &[],
            Wire::Tick => &[0, 0, 0, 0],
            Wire::NameOfA => b"\0\x12N\0\0\0\x04\x03\x05\x01\x0C\0\0\0\x01\0\x03a@h",
            Wire::NameOfB => b"\0\x12N\0\0\0\x04\x03\x05\x01\x0C\0\0\0\x01\0\x03b@h",
            Wire::StartOfName => &[0, 18, 78],
            Wire::Ok => b"\0\x03sok",
            Wire::OkSimultaneous => b"\0\x10sok_simultaneous",
            Wire::Nok => b"\0\x04snok",
            Wire::Alive => b"\0\x06salive",
            Wire::True => b"\0\x05strue",
            Wire::StartOfOk => &[0, 3, 115, 111],
            Wire::ChallengeOfA =>
                b"\0\x16N\0\0\0\x04\x03\x05\x01\x0C\x49\x96\x02\xD2\0\0\0\x01\0\x03a@h",
            Wire::ChallengeOfB =>
                b"\0\x16N\0\0\0\x04\x03\x05\x01\x0C\x49\x96\x02\xD2\0\0\0\x01\0\x03b@h",
            Wire::Reply =>
                b"\0\x15r\x49\x96\x02\xD2\x57\xED\xF4\xA2\x2B\xE3\xC9\x55\xAC\x49\xDA\x2E\x21\x07\xB6\x7A",
            Wire::OtherReply =>
                b"\0\x15r\x49\x96\x02\xD2\x57\xED\xF4\xA2\x2B\xE3\xC9\x55\xAC\x49\xDA\x2E\x21\x07\xB6\0",
            Wire::Acknowledgement =>
                b"\0\x11a\x57\xED\xF4\xA2\x2B\xE3\xC9\x55\xAC\x49\xDA\x2E\x21\x07\xB6\x7A",
            Wire::Link =>
                b"\0\0\0*p\x83h\x03a\x01Xw\x03a@h\0\0\0\x01\0\0\0\0\0\0\0\x01Xw\x03b@h\0\0\0\x01\0\0\0\0\0\0\0\x01",
            Wire::Unlink =>
                b"\0\0\0,p\x83h\x04a#a\x01Xw\x03a@h\0\0\0\x01\0\0\0\0\0\0\0\x01Xw\x03b@h\0\0\0\x01\0\0\0\0\0\0\0\x01",
            Wire::Monitor =>
                b"\0\0\0Bp\x83h\x04a\x13Xw\x03a@h\0\0\0\x01\0\0\0\0\0\0\0\x01Xw\x03b@h\0\0\0\x01\0\0\0\0\0\0\0\x01Z\0\x03w\x03a@h\0\0\0\x01\0\0\0\x01\0\0\0\0\0\0\0\0",
            Wire::Exit =>
                b"\0\0\x000p\x83h\x04a\x03Xw\x03a@h\0\0\0\x01\0\0\0\0\0\0\0\x01Xw\x03b@h\0\0\0\x01\0\0\0\0\0\0\0\x01w\x04boom",
            Wire::MonitorExit =>
                b"\0\0\0Hp\x83h\x05a\x15Xw\x03a@h\0\0\0\x01\0\0\0\0\0\0\0\x01Xw\x03b@h\0\0\0\x01\0\0\0\0\0\0\0\x01Z\0\x03w\x03b@h\0\0\0\x01\0\0\0\x01\0\0\0\0\0\0\0\0w\x04boom",
            Wire::Linked =>
                b"\0\0\0*p\x83h\x03a\x01Xw\x03b@h\0\0\0\x01\0\0\0\0\0\0\0\x01Xw\x03a@h\0\0\0\x01\0\0\0\0\0\0\0\x01",
            Wire::Monitored =>
                b"\0\0\0Bp\x83h\x04a\x13Xw\x03b@h\0\0\0\x01\0\0\0\0\0\0\0\x01Xw\x03a@h\0\0\0\x01\0\0\0\0\0\0\0\x01Z\0\x03w\x03b@h\0\0\0\x01\0\0\0\x01\0\0\0\0\0\0\0\0",
            Wire::Hi =>
                b"\0\0\0\x1Fp\x83h\x03a\x02w\0Xw\x03a@h\0\0\0\x01\0\0\0\0\0\0\0\x01\x83w\x02hi",
            Wire::Forged =>
                b"\0\0\0\x1Fp\x83h\x03a\x02w\0Xw\x03a@h\0\0\0\x09\0\0\0\0\0\0\0\x01\x83w\x02hi",
            Wire::OtherNode =>
                b"\0\0\0*p\x83h\x03a\x01Xw\x03c@h\0\0\0\x01\0\0\0\0\0\0\0\x01Xw\x03a@h\0\0\0\x01\0\0\0\0\0\0\0\x01",
            Wire::Later =>
                b"\0\0\0*p\x83h\x03a\x01Xw\x03b@h\0\0\0\x01\0\0\0\0\0\0\0\x02Xw\x03a@h\0\0\0\x01\0\0\0\0\0\0\0\x01",
            Wire::ToOtherNode =>
                b"\0\0\0*p\x83h\x03a\x01Xw\x03b@h\0\0\0\x01\0\0\0\0\0\0\0\x01Xw\x03c@h\0\0\0\x01\0\0\0\0\0\0\0\x01",
            Wire::ToLater =>
                b"\0\0\0*p\x83h\x03a\x01Xw\x03b@h\0\0\0\x01\0\0\0\0\0\0\0\x01Xw\x03a@h\0\0\0\x01\0\0\0\0\0\0\0\x02",
            Wire::NoFrame => &[0, 0, 0, 1, 111],
            Wire::LinkHome =>
                b"\0\0\0\x2Ap\x83h\x03a\x01Xw\x03a@h\0\0\0\x01\0\0\0\0\0\0\0\x01Xw\x03a@h\0\0\0\x02\0\0\0\0\0\0\0\x01",
            Wire::UnlinkHome =>
                b"\0\0\0\x2Cp\x83h\x04a\x23a\x01Xw\x03a@h\0\0\0\x01\0\0\0\0\0\0\0\x01Xw\x03a@h\0\0\0\x02\0\0\0\0\0\0\0\x01",
            Wire::UnlinkAckHome =>
                b"\0\0\0\x2Cp\x83h\x04a\x24a\x01Xw\x03a@h\0\0\0\x02\0\0\0\0\0\0\0\x01Xw\x03a@h\0\0\0\x01\0\0\0\0\0\0\0\x01",
            Wire::MonitorName =>
                b"\0\0\0\x35p\x83h\x04a\x13Xw\x03a@h\0\0\0\x01\0\0\0\0\0\0\0\x01w\x03srvZ\0\x03w\x03a@h\0\0\0\x01\0\0\0\x01\0\0\0\0\0\0\0\0",
            Wire::DemonitorName =>
                b"\0\0\0\x35p\x83h\x04a\x14Xw\x03a@h\0\0\0\x01\0\0\0\0\0\0\0\x01w\x03srvZ\0\x03w\x03a@h\0\0\0\x01\0\0\0\x01\0\0\0\0\0\0\0\0",
            Wire::BoomToName =>
                b"\0\0\0\x26p\x83h\x04a\x06Xw\x03a@h\0\0\0\x01\0\0\0\0\0\0\0\x01w\0w\x03srv\x83w\x04boom",
            Wire::HiToName =>
                b"\0\0\0\x24p\x83h\x04a\x06Xw\x03b@h\0\0\0\x01\0\0\0\0\0\0\0\x01w\0w\x03srv\x83w\x02hi",
            Wire::NameMonitored =>
                b"\0\0\0\x35p\x83h\x04a\x13Xw\x03b@h\0\0\0\x01\0\0\0\0\0\0\0\x01w\x03srvZ\0\x03w\x03b@h\0\0\0\x01\0\0\0\x01\0\0\0\0\0\0\0\0",
            Wire::NameDemonitored =>
                b"\0\0\0\x35p\x83h\x04a\x14Xw\x03b@h\0\0\0\x01\0\0\0\0\0\0\0\x01w\x03srvZ\0\x03w\x03b@h\0\0\0\x01\0\0\0\x01\0\0\0\0\0\0\0\0",
            Wire::OtherNameDemonitored =>
                b"\0\0\0\x33p\x83h\x04a\x14Xw\x03b@h\0\0\0\x01\0\0\0\0\0\0\0\x01w\x01xZ\0\x03w\x03b@h\0\0\0\x01\0\0\0\x01\0\0\0\0\0\0\0\0",
            Wire::NameDemonitoredByOther =>
                b"\0\0\0\x35p\x83h\x04a\x14Xw\x03b@h\0\0\0\x02\0\0\0\0\0\0\0\x01w\x03srvZ\0\x03w\x03b@h\0\0\0\x01\0\0\0\x01\0\0\0\0\0\0\0\0",
            Wire::PidDemonitored =>
                b"\0\0\0\x42p\x83h\x04a\x14Xw\x03b@h\0\0\0\x01\0\0\0\0\0\0\0\x01Xw\x03a@h\0\0\0\x01\0\0\0\0\0\0\0\x01Z\0\x03w\x03b@h\0\0\0\x01\0\0\0\x01\0\0\0\0\0\0\0\0",
            Wire::NameExit =>
                b"\0\0\0\x3Bp\x83h\x05a\x15w\x03srvXw\x03b@h\0\0\0\x01\0\0\0\0\0\0\0\x01Z\0\x03w\x03b@h\0\0\0\x01\0\0\0\x01\0\0\0\0\0\0\0\0w\x04boom",
            Wire::NameExitOfNobody =>
                b"\0\0\0\x3Dp\x83h\x05a\x15w\x03srvXw\x03b@h\0\0\0\x01\0\0\0\0\0\0\0\x01Z\0\x03w\x03b@h\0\0\0\x01\0\0\0\x01\0\0\0\0\0\0\0\0w\x06noproc",
            Wire::NameExited =>
                b"\0\0\0\x3Bp\x83h\x05a\x15w\x03srvXw\x03a@h\0\0\0\x01\0\0\0\0\0\0\0\x01Z\0\x03w\x03a@h\0\0\0\x01\0\0\0\x01\0\0\0\0\0\0\0\0w\x04boom",
            Wire::NameExitHome =>
                b"\0\0\0\x3Dp\x83h\x05a\x15w\x03srvXw\x03a@h\0\0\0\x01\0\0\0\0\0\0\0\x01Z\0\x03w\x03a@h\0\0\0\x01\0\0\0\x01\0\0\0\0\0\0\0\0w\x06noproc",
        }
    }
}
