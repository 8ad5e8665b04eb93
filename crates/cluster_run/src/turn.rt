//! The outcome of a turn that a thread takes for a node.

/// The outcome of one thing that was tried in a turn.
#[derive(Clone, Copy, Debug, Drop, PartialEq, Eq)]
pub(crate) enum Step {
    /// It is done.
    Done,
    /// There is nothing to do.
    Nothing,
    /// There was no memory for it.
    Wanting,
}

/// The outcome of all that was tried in a turn.
#[derive(Clone, Copy, Debug, Drop)]
pub(crate) struct Turn {
    /// Something is done.
    pub(crate) is_done: bool,
    /// The number of times that there was no memory.
    pub(crate) shortages: u64,
}

impl Turn {
    /// Returns the outcome of a turn in which nothing was tried yet.
    pub(crate) fn new() -> Turn {
        Turn {
            is_done: false,
            shortages: 0,
        }
    }

    /// Adds the outcome of one thing.
    pub(crate) fn note(&mut self, step: Step) {
        match step {
            Step::Done => self.is_done = true,
            Step::Nothing => {}
            Step::Wanting => self.shortages = self.shortages.saturating_add(1),
        }
    }

    /// Adds the outcome of another part of the turn.
    pub(crate) fn add(&mut self, other: Turn) {
        self.is_done = self.is_done || other.is_done;
        self.shortages = self.shortages.saturating_add(other.shortages);
    }

    /// Takes the outcome of a later turn, and adds the shortages of both.
    pub(crate) fn follow(&mut self, later: Turn) {
        self.is_done = later.is_done;
        self.shortages = self.shortages.saturating_add(later.shortages);
    }

    /// Returns true if nothing is left to do for now.
    pub(crate) fn is_idle(&self) -> bool {
        !self.is_done && self.shortages == 0
    }
}
