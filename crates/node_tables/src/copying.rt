//! Copies of the tables of a node.
ghost use Rattle.std.specs.Prelude.{◌≡◌, ◌≤◌, IfOk, length, map};
ghost use Rattle.std.specs.Vec.{vec_capacity};
ghost use Rattle.node_tables.specs.Held.{ends, lives};
ghost use Rattle.node_tables.specs.Lives.{life_of, links_of};
ghost use Rattle.node_tables.specs.Registered.{names};
ghost use Rattle.node_tables.specs.Sides.{sides};

use crate::incarnation::Incarnation;
use crate::life::Life;
use crate::names::Names;
use crate::run::Run;
use crate::sides::Sides;
use std::alloc::{AllocError, Global};

impl Life {
    /// Returns a copy with the same links.
    ///
    /// # Errors
    /// If memory runs out.
    pub fn copy(&self, alloc: Global) -> Result<Life, AllocError>
        ensures life { IfOk result (λ copy. life_of copy ≡ life_of self.now) }
        ensures links { IfOk result (λ copy. links_of copy ≡ links_of self.now) }
    {
        match self {
            Life::Living { process, ends } => Ok(Life::Living {
                process: process.copy(alloc)?,
                ends: ends.copy(alloc)?,
            }),
            Life::Ended(reason) => Ok(Life::Ended(reason.copy(alloc)?)),
        }
    }
}

// Returns copies of lives, in their order.
fn copies_of_lives(alloc: Global, lives: &[Life]) -> Result<Vec<Life>, AllocError>
    ensures lives { IfOk result (λ copies. map life_of copies.items ≡ map life_of lives.now) }
    ensures links { IfOk result (λ copies. map links_of copies.items ≡ map links_of lives.now) }
{
    let mut copies = Vec::with_capacity(alloc, lives.len())?;
    for life in lives {
        copies.push(life.copy(alloc)?)?;
    }
    Ok(copies)
}

impl Incarnation {
    /// Returns a copy that has drawn the same numbers, and has the same processes.
    ///
    /// # Errors
    /// If memory runs out.
    pub fn copy(&self, alloc: Global) -> Result<Incarnation, AllocError>
        ensures mint { IfOk result (λ copy. copy.mint ≡ self.now.mint) }
        ensures up { IfOk result (λ copy. copy.up ≡ self.now.up) }
        ensures lives { IfOk result (λ copy. lives copy ≡ lives self.now) }
        ensures ends { IfOk result (λ copy. ends copy ≡ ends self.now) }
    {
        Ok(Incarnation {
            mint: self.mint.clone()?,
            up: self.up,
            held: copies_of_lives(alloc, &self.held)?,
        })
    }
}

impl Names {
    /// Returns a copy with the same names.
    ///
    /// # Errors
    /// If memory runs out.
    pub fn copy(&self, alloc: Global) -> Result<Names, AllocError>
        ensures { IfOk result (λ copy. names copy ≡ names self.now) }
    {
        Ok(Names {
            by_name: self.by_name.copy(alloc)?,
            by_holder: self.by_holder.copy(alloc)?,
        })
    }
}

impl Clone for Run {
    ghost is_clone = { λ run copy. copy ≡ run };

    fn clone(&self) -> Result<Run, AllocError> {
        Ok(Run {
            last: self.last.clone()?,
            first: self.first,
        })
    }
}

// Returns copies of runs, with room for so many runs in all.
fn copies_of_runs(alloc: Global, runs: &[Run], room: usize) -> Result<Vec<Run>, AllocError>
    ensures items { IfOk result (λ copies. copies.items ≡ runs.now) }
    ensures room { IfOk result (λ copies. room ≤ vec_capacity copies) }
{
    let mut copies = Vec::with_capacity(alloc, room)?;
    copies.extend_with_clones(runs)?;
    Ok(copies)
}

impl Sides {
    /// Returns a copy with the same sides.
    ///
    /// # Errors
    /// If memory runs out.
    pub fn copy(&self, alloc: Global) -> Result<Sides, AllocError>
        ensures { IfOk result (λ copy. sides copy ≡ sides self.now) }
    {
        Ok(Sides {
            held: Vec::from_clones(alloc, &self.held)?,
            gone: copies_of_runs(alloc, &self.gone, self.held.len() + self.gone.len())?,
            routes: self.routes.copy(alloc)?,
            lost: self.lost,
        })
    }
}
