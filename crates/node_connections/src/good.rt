//! The signals that a connection may bring.
ghost use Rattle.std.specs.Prelude.{◌≡◌, false};
ghost use Rattle.dist_model.specs.Arrivals as arrivals;
ghost use Rattle.dist_model.specs.Items.{Signalled};
ghost use Rattle.erl_control.specs.Ends.{receiver_of, sender_of};
ghost use Rattle.node_plan.specs.Seen.{seen};
ghost use Rattle.node_tables.specs.Standings.{side_of};

use conn_core::Side;
use erl_control::Signal;
use erl_term::Pid;
use node_frames::{receiver, same_name, sender};
use node_plan::Node;

// Returns the creation that the peer has told, and 0 before it has told one.
fn told_creation(side: &Side) -> u32
    ensures { result ≡ (side_of side.now).introduction.creation }
{
    match side.standing.introduction() {
        Some(introduction) => introduction.creation,
        None => 0,
    }
}

// Returns true if the process is of the peer's, of the incarnation that it named or an earlier one.
fn is_from(side: &Side, process: &Pid) -> bool
    ensures { result ≡ arrivals.is_from (side_of side.now) process.now }
{
    same_name(&process.node, side.peer.atom()) && process.creation <= told_creation(side)
}

// Returns true if the signal is of the peer's. A message names no sender.
fn is_of_peer(side: &Side, signal: &Signal) -> bool
    ensures { result ≡ arrivals.from_peer (side_of side.now) (sender_of signal.now) }
{
    match sender(signal) {
        Some(process) => is_from(side, process),
        None => true,
    }
}

// Returns true if this node has spawned the process.
fn is_known(node: &Node, process: &Pid) -> bool
    ensures { result ≡ arrivals.is_to (seen node.now) process.now }
{
    same_name(&process.node, node.name().atom()) && !node.is_stranger(process)
}

// Returns true if this node has spawned the receiver, where the signal names one.
fn is_to_own(node: &Node, signal: &Signal) -> bool
    ensures { result ≡ arrivals.to_own (seen node.now) (receiver_of signal.now) }
{
    let Some(process) = receiver(signal) else {
        return true;
    };
    is_known(node, process)
}

/// Returns true if the sender that the signal names is a process of the peer's, and the receiver that it names is one
/// that this node has spawned. (Reference Manual, Processes, Delivery of Signals.)
pub(crate) fn is_good(node: &Node, side: &Side, signal: &Signal) -> bool
    ensures { result ≡ arrivals.is_good (seen node.now) (side_of side.now) (Signalled signal.now false) }
{
    is_of_peer(side, signal) && is_to_own(node, signal)
}
