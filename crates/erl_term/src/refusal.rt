//! Why a call was refused.

ghost use Rattle.std.specs.Prelude.{◌≡◌};
ghost use Rattle.erl_term.specs.declared.refusal.Refusal.TheVariants.{OutOfMemory};
ghost use Rattle.erl_term.specs.ErrorNumbers.{refusal_number, refusal_name};

use std::alloc::{AllocError, AllocFailed};
use thiserror::Error;

/// Why a call was refused. A refused call changes nothing.
///
/// The text of a refusal is what a script prints after the word `refused`: its number and its name.
#[derive(Clone, Copy, Debug, PartialEq, Eq, Error)]
#[error("{number} {name}", number = self.number(), name = self.name())]
pub enum Refusal {
    /// The text is no name of a node.
    BadName,
    /// The node is down.
    NodeDown,
    /// The process that acts isn't living on this node.
    NoSuchProcess,
    /// A counter has come to its end.
    IdsUsedUp,
    /// The process holds no monitor of that reference.
    NotTheOwner,
    /// A message or reason has too many levels or bytes.
    TooLong,
    /// A handshake message can't be read, or isn't due.
    BadMessage,
    /// The peer lacks a mandatory flag.
    FlagsMissing,
    /// Memory is wanting.
    OutOfMemory,
    /// The digest isn't that of the cookie and the challenge.
    BadDigest,
    /// The peer refused the connection.
    Nok,
    /// Another attempt at a connection took the place of this one.
    Superseded,
    /// There is a connection to the peer, or an attempt at one.
    Busy,
    /// A node can't dial itself.
    SelfDial,
    /// The connection isn't live.
    NotLive,
    /// There is nothing of that name, or nothing waits there.
    NothingThere,
    /// A name or a process that can't be true.
    Forged,
    /// The node is up already.
    NodeUp,
    /// Another process of the node has the name.
    NameTaken,
    /// The process has a name already.
    HasName,
    /// The process has no name.
    NoName,
    /// The two nodes of the connection haven't both offered the flag that the call needs.
    NotOffered,
    /// The seat belongs to another node or another history.
    StrangeSeat,
    /// A thread couldn't be started.
    NoThread,
}

impl Refusal {
    /// The number of the refusal, with which its text begins.
    pub fn number(self) -> u8
        ensures { result ≡ refusal_number self }
    {
        match self {
            Refusal::BadName => 1,
            Refusal::NodeDown => 2,
            Refusal::NoSuchProcess => 3,
            Refusal::IdsUsedUp => 4,
            Refusal::NotTheOwner => 5,
            Refusal::TooLong => 8,
            Refusal::BadMessage => 10,
            Refusal::FlagsMissing => 11,
            Refusal::OutOfMemory => 12,
            Refusal::BadDigest => 13,
            Refusal::Nok => 14,
            Refusal::Superseded => 15,
            Refusal::Busy => 16,
            Refusal::SelfDial => 17,
            Refusal::NotLive => 18,
            Refusal::NothingThere => 19,
            Refusal::Forged => 20,
            Refusal::NodeUp => 23,
            Refusal::NameTaken => 25,
            Refusal::HasName => 26,
            Refusal::NoName => 27,
            Refusal::NotOffered => 28,
            Refusal::StrangeSeat => 29,
            Refusal::NoThread => 30,
        }
    }

    /// The name of the refusal, with which its text ends.
    pub fn name(self) -> &'static str
        ensures { result.now ≡ refusal_name self }
    {
        match self {
            Refusal::BadName => "BadName",
            Refusal::NodeDown => "NodeDown",
            Refusal::NoSuchProcess => "NoSuchProcess",
            Refusal::IdsUsedUp => "IdsUsedUp",
            Refusal::NotTheOwner => "NotTheOwner",
            Refusal::TooLong => "TooLong",
            Refusal::BadMessage => "BadMessage",
            Refusal::FlagsMissing => "FlagsMissing",
            Refusal::OutOfMemory => "OutOfMemory",
            Refusal::BadDigest => "BadDigest",
            Refusal::Nok => "Nok",
            Refusal::Superseded => "Superseded",
            Refusal::Busy => "Busy",
            Refusal::SelfDial => "SelfDial",
            Refusal::NotLive => "NotLive",
            Refusal::NothingThere => "NothingThere",
            Refusal::Forged => "Forged",
            Refusal::NodeUp => "NodeUp",
            Refusal::NameTaken => "NameTaken",
            Refusal::HasName => "HasName",
            Refusal::NoName => "NoName",
            Refusal::NotOffered => "NotOffered",
            Refusal::StrangeSeat => "StrangeSeat",
            Refusal::NoThread => "NoThread",
        }
    }
}

impl From<AllocError> for Refusal {
    ghost from_gives = { λ _ e. e ≡ OutOfMemory };

    fn from(_e: AllocError) -> Refusal {
        Refusal::OutOfMemory
    }
}

impl<T: Drop> From<AllocFailed<T>> for Refusal {
    ghost from_gives = { λ _ e. e ≡ OutOfMemory };

    fn from(_e: AllocFailed<T>) -> Refusal {
        Refusal::OutOfMemory
    }
}
