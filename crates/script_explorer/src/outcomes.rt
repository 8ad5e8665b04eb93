//! The outcomes of an exploration.
use crate::moves::Move;
use indexmap::IndexMap;
use std::alloc::{AllocError, Global};

/// The states that lead to an outcome.
#[derive(Clone, Copy, Debug)]
pub(crate) struct Leading {
    /// The place of the first, which has the fewest steps.
    pub(crate) place: usize,
    /// The number of all of them.
    pub(crate) states: u64,
}

/// An expectation that isn't met.
#[derive(Clone, Copy, Debug)]
pub(crate) struct Broken {
    /// The number of its line, from 1.
    pub(crate) number: u64,
    /// The place of the state before.
    pub(crate) place: usize,
    /// The step in which it stands. [`None`] if it stands among the questions.
    pub(crate) by: Option<Move>,
}

/// The outcomes that were found, in the order in which they were, by the replies to the questions; and the first
/// expectation that isn't met.
#[derive(Drop)]
pub(crate) struct Outcomes {
    pub(crate) found: IndexMap<String, Leading>,
    pub(crate) broken: Option<Broken>,
}

impl Outcomes {
    /// Creates the outcomes of nothing.
    pub(crate) fn new(alloc: Global) -> Outcomes {
        Outcomes {
            found: IndexMap::new(alloc),
            broken: None,
        }
    }

    /// Notes that a state leads to these replies.
    ///
    /// # Errors
    /// [`AllocError`] if out of memory.
    pub(crate) fn note(&mut self, replies: String, place: usize) -> Result<(), AllocError> {
        if let Some(leading) = self.found.get_mut(&replies) {
            leading.states = leading.states.saturating_add(1);
            return Ok(());
        }
        self.found.insert(replies, Leading { place, states: 1 })?;
        Ok(())
    }

    /// Notes an expectation that isn't met, if it is the first.
    pub(crate) fn break_at(&mut self, broken: Broken) {
        if self.broken.is_none() {
            self.broken = Some(broken);
        }
    }
}
