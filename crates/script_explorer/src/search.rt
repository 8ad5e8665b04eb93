//! The search through the states that a plan leads to, those of fewer steps first.
use crate::moves::{Move, moves_of};
use crate::outcomes::{Broken, Outcomes};
use crate::plan::{Numbered, Plan};
use crate::state::{Halt, State, run_lines};
use indexmap::IndexMap;
use script_lines::Reason;
use script_session::Session;
use std::alloc::{AllocError, Global};
use std::collections::VecDeque;
use world_core::World;

/// A way to a state: the state before, by its place, the step that led to it, and the number of all steps.
#[derive(Clone, Copy, Debug)]
pub(crate) struct Visited {
    pub(crate) from: usize,
    pub(crate) by: Option<Move>,
    pub(crate) steps: u64,
}

/// A state whose next steps were not taken yet, and its place among those visited.
#[derive(Drop)]
struct Waiting {
    state: State,
    place: usize,
    steps: u64,
}

/// The states of a plan that were visited, and the outcomes that were found.
#[derive(Drop)]
pub(crate) struct Exploration<'p, 'a> {
    plan: &'p Plan<'a>,
    names: Vec<&'a str>,
    most: u64,
    beginning: State,
    pub(crate) visited: IndexMap<(String, String), Visited>,
    waiting: VecDeque<Waiting>,
    pub(crate) outcomes: Outcomes,
    pub(crate) is_bounded: bool,
}

impl<'p, 'a> Exploration<'p, 'a> {
    /// Visits each state that at most `most` steps behind the plan's beginning lead to. The session has run the
    /// beginning.
    ///
    /// # Errors
    /// [`Halt::Bad`] with a line that is a bad one, for another reason than an expectation that isn't met in a
    /// block or among the questions; [`Halt::OutOfMemory`].
    pub(crate) fn of(
        alloc: Global,
        plan: &'p Plan<'a>,
        session: Session,
        most: u64,
    ) -> Result<Exploration<'p, 'a>, Halt> {
        let state = State::first(alloc, plan, session)?;
        let mut found = Exploration {
            plan,
            names: plan.names(alloc)?,
            most,
            beginning: state.copy(alloc)?,
            visited: IndexMap::new(alloc),
            waiting: VecDeque::new(alloc),
            outcomes: Outcomes::new(alloc),
            is_bounded: false,
        };
        let first = Visited {
            from: 0,
            by: None,
            steps: 0,
        };
        found.visit(alloc, state, first)?;
        for _ in 0..u64::MAX {
            let Some(waiting) = found.waiting.pop_front() else {
                break;
            };
            found.go_on(alloc, waiting)?;
        }
        Ok(found)
    }

    /// Returns the plan.
    pub(crate) fn plan(&self) -> &Plan<'a> {
        self.plan
    }

    /// Returns the most steps behind the plan's beginning.
    pub(crate) fn most(&self) -> u64 {
        self.most
    }

    /// Returns the world behind the plan's beginning.
    pub(crate) fn world(&self) -> &World {
        self.beginning.session.world()
    }

    /// Returns the number of the states that were visited.
    pub(crate) fn states(&self) -> usize {
        self.visited.len()
    }

    // Adds a state, unless one like it was visited before.
    fn visit(&mut self, alloc: Global, state: State, way: Visited) -> Result<(), AllocError> {
        let key = state.key(alloc, &self.names)?;
        if self.visited.contains_key(&key) {
            return Ok(());
        }
        let place = self.visited.len();
        self.visited.insert(key, way)?;
        self.waiting.push_back(Waiting {
            state,
            place,
            steps: way.steps,
        })?;
        Ok(())
    }

    // Takes each step that may come next.
    fn go_on(&mut self, alloc: Global, waiting: Waiting) -> Result<(), Halt> {
        let Waiting {
            state,
            place,
            steps,
        } = waiting;
        let moves = moves_of(alloc, self.plan, state.session.world(), &state.at)?;
        if moves.is_empty() {
            return self.ask(alloc, state, place);
        }
        if steps >= self.most {
            self.is_bounded = true;
            return Ok(());
        }
        for next in &moves {
            self.take(alloc, &state, place, steps, *next)?;
        }
        Ok(())
    }

    // Takes a step from a state.
    fn take(
        &mut self,
        alloc: Global,
        from: &State,
        place: usize,
        steps: u64,
        next: Move,
    ) -> Result<(), Halt> {
        let mut state = from.copy(alloc)?;
        match state.take(alloc, self.plan, next) {
            Ok(()) => {}
            Err(Halt::Bad(number, Reason::Unmet)) => {
                self.outcomes.break_at(Broken {
                    number,
                    place,
                    by: Some(next),
                });
                return Ok(());
            }
            Err(halt) => return Err(halt),
        }
        let way = Visited {
            from: place,
            by: Some(next),
            steps: steps.saturating_add(1),
        };
        Ok(self.visit(alloc, state, way)?)
    }

    // Asks the questions behind the blocks.
    fn ask(&mut self, alloc: Global, state: State, place: usize) -> Result<(), Halt> {
        let State { mut session, at: _ } = state;
        let mut replies = String::new(alloc);
        let questions: &[Numbered<'_>] = &self.plan.questions;
        match run_lines(alloc, &mut session, questions, &mut replies) {
            Ok(()) => Ok(self.outcomes.note(replies, place)?),
            Err(Halt::Bad(number, Reason::Unmet)) => {
                self.outcomes.break_at(Broken {
                    number,
                    place,
                    by: None,
                });
                Ok(())
            }
            Err(halt) => Err(halt),
        }
    }
}
