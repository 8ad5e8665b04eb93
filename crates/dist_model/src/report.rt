//! The answer of a node to an event, and the effects of the event.

use crate::links::Links;
use conn_core::Fault;
use erl_names::{NodeName, TrunkId};
use erl_term::{Payload, Pid, Reference};

/// The kind of an item in flight between two nodes. (ERTS User's Guide, Distribution Protocol.)
#[derive(Clone, Copy, Debug, PartialEq, Eq)]
pub enum Kind {
    /// send_name, of the handshake.
    SendName,
    /// send_status, or the answer to `alive`.
    Status,
    /// send_challenge.
    Challenge,
    /// send_challenge_reply.
    ChallengeReply,
    /// send_challenge_ack.
    ChallengeAck,
    /// A tick, which tells that the peer is there.
    Tick,
    /// LINK.
    Link,
    /// SEND.
    Send,
    /// REG_SEND.
    RegSend,
    /// EXIT.
    Exit,
    /// EXIT2.
    Exit2,
    /// MONITOR_P.
    Monitor,
    /// DEMONITOR_P.
    Demonitor,
    /// MONITOR_P_EXIT.
    MonitorExit,
    /// UNLINK_ID.
    Unlink,
    /// UNLINK_ID_ACK.
    UnlinkAck,
}

/// A record that a sweep removes.
#[derive(Clone, Copy, Debug, PartialEq, Eq)]
pub enum Swept {
    /// A link to a process beyond the lost connection.
    Link,
    /// A monitor that a process has of one beyond it.
    Watch,
    /// A monitor that a process beyond it has of one here.
    Registration,
    /// The side of the connection, which had no record left.
    Side,
}

/// The answer of a node to an event that it accepts.
#[derive(Debug, Drop)]
pub enum Answer {
    /// Success, with no other value.
    Done,
    /// The new process.
    Pid(Pid),
    /// The reference of the monitor.
    Reference(Reference),
    /// The message out of the mailbox, if there was one.
    Message(Option<Payload>),
    /// The links of the process.
    Links(Links),
    /// The state of the process: true if it is living.
    Alive(bool),
    /// The process that has the name, if there is one.
    Holder(Option<Pid>),
    /// The new connection that the node has dialed.
    Trunk(TrunkId),
    /// The kind of the item that the node has taken.
    Took(Kind),
    /// The fault that broke the side of the connection.
    Broken(Fault),
    /// The record that the node has swept.
    Swept(Swept),
    /// The node has stopped.
    Stopped,
    /// The node has started again, in the incarnation of this creation.
    Started(u32),
}

/// An effect of an event. `Item` is the type of an item in flight: the item of the model, or its bytes.
#[derive(Debug, Drop)]
pub enum Effect<Item> {
    /// A message that came into the mailbox of a process.
    Put {
        /// The process.
        to: Pid,
        /// The message.
        message: Payload,
    },
    /// A process ended.
    Ended {
        /// The process.
        process: Pid,
        /// The exit reason.
        reason: Payload,
    },
    /// A process reacted to the exit of its link.
    LinkExit {
        /// The process.
        process: Pid,
        /// Its partner.
        partner: Pid,
        /// The reason of the exit.
        reason: Payload,
    },
    /// An item that the node has sent.
    Sent {
        /// The connection. [`None`] for an item from the node to itself.
        trunk: Option<TrunkId>,
        /// The receiving node.
        peer: NodeName,
        /// The item.
        item: Item,
    },
}

/// The outcome of an event that a node accepted: its answer, and its effects, in order.
#[derive(Debug, Drop)]
pub struct Report<Item> {
    /// The answer.
    pub answer: Answer,
    /// The effects, in the order in which they happened.
    pub effects: Vec<Effect<Item>>,
}
