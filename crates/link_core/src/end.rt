//! One end of a link, and the signals between two ends.

/// A process's end of its link to another process. It is linked only where the end is active. (ERTS
/// User's Guide, Distribution Protocol, New Link Protocol.)
#[derive(Clone, Copy, Debug, PartialEq, Eq)]
pub enum End {
    /// There is no link.
    None,
    /// The process is linked.
    Active,
    /// The process took its link back under this unlink id, which is from 1 to 2^64 - 1, and waits
    /// for the acknowledgement.
    Pending(u64),
}

/// A signal about a link. (ERTS User's Guide, Distribution Protocol, New Link Protocol.)
#[derive(Clone, Copy, Debug, PartialEq, Eq)]
pub enum LinkSignal {
    /// LINK: the sender has linked itself to the receiver.
    Link,
    /// UNLINK_ID: the sender has taken its link back, under this id.
    Unlink(u64),
    /// UNLINK_ID_ACK: the sender has seen the UNLINK_ID of this id.
    Ack(u64),
}
