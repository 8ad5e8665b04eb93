//! A state of an exploration: a session, and the places in the blocks.
ghost use Rattle.std.specs.Prelude.{◌≡◌, IfOk, string_bytes};
ghost use Rattle.script_session.specs.Session.{State as TheState};
ghost use Rattle.script_session.specs.Stands.{IsSession};
ghost use Rattle.world_texts.specs.Shown.{whole_world};

use crate::keys::key_of;
use crate::moves::{Move, put_line};
use crate::plan::{Numbered, Plan, Step};
use script_lines::Reason;
use script_session::{Session, Stop};
use std::alloc::{AllocError, Global};

/// The reason why a line ends an exploration, or a schedule.
#[derive(Clone, Copy, Debug, PartialEq, Eq)]
pub enum Halt {
    /// The line of this number, from 1, is a bad one, or expects another reply.
    Bad(u64, Reason),
    /// A script doesn't do, run from its first line, as the exploration found. It never happens, as far as is
    /// known.
    Unlike,
    /// Out of memory.
    OutOfMemory,
}

impl From<AllocError> for Halt {
    fn from(_: AllocError) -> Halt {
        Halt::OutOfMemory
    }
}

/// A session behind some steps, and the number of steps of each block that were taken.
#[derive(Drop)]
pub(crate) struct State {
    pub(crate) session: Session,
    pub(crate) at: Vec<usize>,
}

/// Runs a line, and appends its output.
pub(crate) fn run_line(
    alloc: Global,
    session: &mut Session,
    line: Numbered<'_>,
    out: &mut String,
) -> Result<(), Halt> {
    match session.line(alloc, line.text, out) {
        Ok(()) => Ok(()),
        Err(Stop::Bad(reason)) => Err(Halt::Bad(line.number, reason)),
        Err(Stop::OutOfMemory) => Err(Halt::OutOfMemory),
    }
}

/// Runs lines one after the other, and appends their output.
pub(crate) fn run_lines(
    alloc: Global,
    session: &mut Session,
    lines: &[Numbered<'_>],
    out: &mut String,
) -> Result<(), Halt> {
    for line in lines {
        run_line(alloc, session, *line, out)?;
    }
    Ok(())
}

impl State {
    /// Creates the state behind the beginning of a plan, whose lines the session has run.
    pub(crate) fn first(
        alloc: Global,
        plan: &Plan<'_>,
        session: Session,
    ) -> Result<State, AllocError> {
        Ok(State {
            session,
            at: plan.starts(alloc)?,
        })
    }

    /// Returns a copy with memory of its own.
    pub(crate) fn copy(&self, alloc: Global) -> Result<State, AllocError> {
        let mut at = Vec::new(alloc);
        at.extend_from_slice(&self.at)?;
        Ok(State {
            session: self.session.copy(alloc)?,
            at,
        })
    }

    /// Returns the texts by which the state is told apart.
    pub(crate) fn key(&self, alloc: Global, names: &[&str]) -> Result<(String, String), AllocError>
        ensures { (state : TheState) → IsSession self.now.session state →
            IfOk result (λ key. string_bytes key.0 ≡ whole_world state.stage.world) }
    {
        key_of(alloc, &self.session, &self.at, names)
    }

    // Takes the next step of a block.
    fn take_step(&mut self, alloc: Global, plan: &Plan<'_>, block: usize) -> Result<(), Halt> {
        let Some(taken) = self.at.get_mut(block) else {
            return Ok(());
        };
        let Some(step) = plan.step(block, *taken) else {
            return Ok(());
        };
        *taken = taken.saturating_add(1);
        let mut unseen = String::new(alloc);
        let Step { lines } = step;
        run_lines(alloc, &mut self.session, lines, &mut unseen)
    }

    /// Takes a step.
    ///
    /// # Errors
    /// [`Halt::Bad`] with the first line of the step that is a bad one; [`Halt::OutOfMemory`].
    pub(crate) fn take(&mut self, alloc: Global, plan: &Plan<'_>, next: Move) -> Result<(), Halt> {
        if let Move::Block(block) = next {
            return self.take_step(alloc, plan, block);
        }
        let (mut text, mut unseen) = (String::new(alloc), String::new(alloc));
        put_line(&mut text, self.session.world(), next)?;
        let line = Numbered {
            number: 0,
            text: text.as_bytes(),
        };
        run_line(alloc, &mut self.session, line, &mut unseen)
    }
}
