//! What is kept of an event.

use dist_model::Report;
use erl_term::Refusal;
use node_core::NodeEvent;
use node_frames::Frame;

/// The answer of a node to an event: its report, or its refusal.
pub type Answered = Result<Report<Frame>, Refusal>;

/// The entry of an event at a node.
#[derive(Debug, Drop)]
pub struct Entry {
    /// When it was, from 1 up: later events of a node have higher stamps, and an item that comes was
    /// sent under a lower one.
    pub stamp: u64,
    /// What happened.
    pub event: NodeEvent,
    /// What the node answered.
    pub answer: Answered,
}

/// The reply to a caller.
#[derive(Debug, Drop)]
pub struct Told {
    /// The place of the entry in the history, from 0.
    pub place: usize,
    /// What the node answered, as the entry has it.
    pub answer: Answered,
}
