//! Which of several attempts at a connection goes on.
ghost use Rattle.std.specs.Prelude.{◌≡◌, not};
ghost use Rattle.erl_handshake.specs.Admission as rule;

use crate::fault::ShakeFault;
use crate::status::Status;
use crate::turn::Progress;
use erl_names::{NodeName, TrunkId};
use std::cmp::Ordering;

/// The other connections, and attempts at one, that an acceptor's node has with the dialer. (ERTS
/// User's Guide, Distribution Protocol, Distribution Handshake.)
#[derive(Clone, Copy, Debug, PartialEq, Eq)]
pub struct OtherConnections {
    /// The count of an older attempt of the same dialer that goes on here, if there is one.
    pub waiting: Option<u64>,
    /// Whether a connection is up, or is lost and not yet cleared away.
    pub connected: bool,
    /// Whether the acceptor's node itself dials the dialer.
    pub dialing: bool,
}

/// The decision on an attempt, and the other attempts that it ends. Of those nothing more is reported.
#[derive(Clone, Copy, Debug, PartialEq, Eq)]
pub struct Admission {
    /// What is said to the dialer.
    pub status: Status,
    /// Whether the attempt goes on.
    pub progress: Progress,
    /// Whether the older attempt of the same dialer ends.
    pub ends_waiting: bool,
    /// Whether the attempt of the acceptor's own node ends.
    pub ends_dialing: bool,
}

/// The status that is sent to the dialer of an attempt: the first line that fits.
pub(crate) fn status_due(trunk: &TrunkId, own: &NodeName, others: OtherConnections) -> Status
    ensures { result ≡ rule.status_due trunk.now.dialer own.now trunk.now.count others }
{
    if is_superseded(trunk.count, others) {
        Status::Nok
    } else if others.connected {
        Status::Alive
    } else if !others.dialing {
        Status::Ok
    } else if trunk.dialer.cmp(own) == Ordering::Greater {
        Status::OkSimultaneous
    } else {
        Status::Nok
    }
}

/// What becomes of the attempt of this count, to which this status is said.
pub(crate) fn admission_of(count: u64, said: Status, others: OtherConnections) -> Admission
    ensures { result ≡ rule.admission_with said count others }
{
    let is_late = is_superseded(count, others);
    let progress = if is_late {
        Progress::Ended(ShakeFault::Superseded)
    } else if matches!(said, Status::Nok | Status::NotAllowed) {
        Progress::Ended(ShakeFault::Nok)
    } else {
        Progress::Go
    };
    Admission {
        status: said,
        progress,
        ends_waiting: others.waiting.is_some() && !is_late,
        ends_dialing: said == Status::OkSimultaneous,
    }
}

// Whether a later attempt of the same dialer goes on.
fn is_superseded(count: u64, others: OtherConnections) -> bool
    ensures { result ≡ rule.is_superseded count others.waiting }
{
    others.waiting.is_some_and(|other| other >= count)
}
