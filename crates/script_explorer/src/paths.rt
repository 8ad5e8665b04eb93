//! The plain script that leads to a state.
use crate::moves::{Move, put_line};
use crate::outcomes::Broken;
use crate::plan::{Numbered, Plan};
use crate::search::Exploration;
use std::alloc::{AllocError, Global};
use world_core::World;

/// The lines of a plain script.
#[derive(Debug, Drop)]
pub(crate) struct Path {
    pub(crate) lines: Vec<Vec<u8>>,
}

/// The shortest script that leads to an outcome.
#[derive(Debug, Drop)]
pub(crate) struct OutcomeScript {
    /// The number of the states that lead to the outcome.
    pub(crate) states: u64,
    /// Its lines, of which the last are the questions.
    pub(crate) lines: Vec<Vec<u8>>,
}

/// The shortest script that leads to an expectation that isn't met.
#[derive(Debug, Drop)]
pub(crate) struct UnmetScript {
    /// The number of its line in the script with blocks, from 1.
    pub(crate) number: u64,
    /// Its lines, of which the last is the expectation.
    pub(crate) lines: Vec<Vec<u8>>,
}

/// The shortest scripts that an exploration has found.
#[derive(Debug, Drop)]
pub(crate) struct Scripts {
    /// Those of its outcomes, in the order in which these were found.
    pub(crate) outcomes: Vec<OutcomeScript>,
    /// That of the first expectation that isn't met, if there is one.
    pub(crate) unmet: Option<UnmetScript>,
}

// Returns a copy of some bytes.
fn copied(alloc: Global, bytes: &[u8]) -> Result<Vec<u8>, AllocError> {
    let mut copy = Vec::new(alloc);
    copy.extend_from_slice(bytes)?;
    Ok(copy)
}

impl Path {
    // Adds lines of a plan, up to the one of a number, if it is among them.
    fn add(&mut self, alloc: Global, lines: &[Numbered<'_>], last: u64) -> Result<(), AllocError> {
        for line in lines {
            self.lines.push(copied(alloc, line.text)?)?;
            if line.number == last {
                return Ok(());
            }
        }
        Ok(())
    }

    // Adds the lines of a step. `at` has the number of steps of each block that were taken.
    fn add_move(
        &mut self,
        alloc: Global,
        plan: &Plan<'_>,
        world: &World,
        at: &mut [usize],
        taken: Move,
        last: u64,
    ) -> Result<(), AllocError> {
        let Move::Block(block) = taken else {
            let mut text = String::new(alloc);
            put_line(&mut text, world, taken)?;
            self.lines.push(copied(alloc, text.as_bytes())?)?;
            return Ok(());
        };
        let Some(place) = at.get_mut(block) else {
            return Ok(());
        };
        if let Some(step) = plan.step(block, *place) {
            self.add(alloc, &step.lines, last)?;
        }
        *place = place.saturating_add(1);
        Ok(())
    }
}

impl Exploration<'_, '_> {
    // Returns the steps that lead to the state at a place, from the first on.
    fn moves_to(&self, alloc: Global, place: usize) -> Result<Vec<Move>, AllocError> {
        let (mut moves, mut place) = (Vec::new(alloc), place);
        for _ in 0..self.states() {
            let Some((_, way)) = self.visited.get_index(place) else {
                break;
            };
            let Some(by) = way.by else {
                break;
            };
            moves.push(by)?;
            place = way.from;
        }
        moves.reverse();
        Ok(moves)
    }

    // Returns the lines that take some steps behind the beginning of the plan, up to the line of a number.
    fn path_of(&self, alloc: Global, moves: &[Move], last: u64) -> Result<Path, AllocError> {
        let (plan, world) = (self.plan(), self.world());
        let mut path = Path {
            lines: Vec::new(alloc),
        };
        path.add(alloc, &plan.beginning, 0)?;
        let mut at = plan.starts(alloc)?;
        for taken in moves {
            path.add_move(alloc, plan, world, &mut at, *taken, last)?;
        }
        Ok(path)
    }

    // Returns the lines that lead to the state at a place, and ask the questions.
    fn path_to(&self, alloc: Global, place: usize) -> Result<Path, AllocError> {
        let moves = self.moves_to(alloc, place)?;
        let mut path = self.path_of(alloc, &moves, 0)?;
        path.add(alloc, &self.plan().questions, 0)?;
        Ok(path)
    }

    // Returns the lines that lead to an expectation that isn't met.
    fn path_to_broken(&self, alloc: Global, broken: &Broken) -> Result<Path, AllocError> {
        let mut moves = self.moves_to(alloc, broken.place)?;
        if let Some(by) = broken.by {
            moves.push(by)?;
            return self.path_of(alloc, &moves, broken.number);
        }
        let mut path = self.path_of(alloc, &moves, 0)?;
        path.add(alloc, &self.plan().questions, broken.number)?;
        Ok(path)
    }

    // Returns the script of the expectation that isn't met, if there is one.
    fn unmet_script(&self, alloc: Global) -> Result<Option<UnmetScript>, AllocError> {
        let Some(broken) = self.outcomes.broken else {
            return Ok(None);
        };
        let Path { lines } = self.path_to_broken(alloc, &broken)?;
        let number = broken.number;
        Ok(Some(UnmetScript { number, lines }))
    }

    /// Returns the shortest scripts.
    ///
    /// # Errors
    /// [`AllocError`] if out of memory.
    pub(crate) fn scripts(&self, alloc: Global) -> Result<Scripts, AllocError> {
        let mut outcomes = Vec::new(alloc);
        for leading in self.outcomes.found.values() {
            let Path { lines } = self.path_to(alloc, leading.place)?;
            let states = leading.states;
            outcomes.push(OutcomeScript { states, lines })?;
        }
        let unmet = self.unmet_script(alloc)?;
        Ok(Scripts { outcomes, unmet })
    }
}
