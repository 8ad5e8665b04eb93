//! Stories are told, and what of them doesn't hold.
use crate::cutting::{cut_frames, each_length, told_fronts};
use crate::passing::{full_wire, two_ports, two_threads};
use crate::rows::{Kept, Story};
use crate::stage::{Stage, open};
use anyhow::Result;
use erl_term::Refusal;
use std::alloc::{AllocError, Global};
use std::rt::Runtime;
use std::sync::Wait;
use std::thread::Threads;

/// What the tests run on.
pub trait Machine: Runtime + Threads + Wait + Copy + Send + Sync + 'static {}

impl<R: Runtime + Threads + Wait + Copy + Send + Sync + 'static> Machine for R {}

/// Why a story doesn't hold.
#[derive(Clone, Copy, Debug)]
pub enum Wrong {
    /// The row of this number, from 1 on, doesn't.
    Row(u32),
    /// What was asked for with this number isn't so.
    At(u32),
    /// A call was refused.
    Refused(Refusal),
}

impl From<Refusal> for Wrong {
    fn from(e: Refusal) -> Wrong {
        Wrong::Refused(e)
    }
}

impl From<AllocError> for Wrong {
    fn from(_e: AllocError) -> Wrong {
        Wrong::Refused(Refusal::OutOfMemory)
    }
}

/// What is asked for with a number has to be so.
pub fn check(number: u32, is_so: bool) -> Result<(), Wrong> {
    if is_so {
        Ok(())
    } else {
        Err(Wrong::At(number))
    }
}

// New books. Where memory is wanting, they are made again.
fn open_surely(alloc: Global, kept: &[Kept]) -> Result<Stage, Refusal> {
    match open(alloc, kept) {
        Err(Refusal::OutOfMemory) => open(alloc, kept),
        opened => opened,
    }
}

fn goes<R: Wait>(rt: &R, alloc: Global, stage: &mut Stage, story: Story) -> Result<(), Wrong> {
    let mut number = 0u32;
    for part in story.parts {
        for row in part.rows {
            number = number.saturating_add(1);
            if !stage.holds(rt, alloc, part.of, *row)? {
                return Err(Wrong::Row(number));
            }
        }
    }
    Ok(())
}

fn tell<R: Wait>(rt: &R, alloc: Global, story: Story) -> Result<(), Wrong> {
    let mut stage = open_surely(alloc, story.books)?;
    let told = goes(rt, alloc, &mut stage, story);
    drop(stage);
    told
}

// Prints whether a story holds.
fn put<R: Machine>(rt: &R, name: &str, told: Result<(), Wrong>) -> Result<bool> {
    match told {
        Ok(()) => println!(rt; "{name}: holds")?,
        Err(wrong) => println!(rt; "{name}: {wrong:?}")?,
    }
    Ok(told.is_ok())
}

/// Tells each story, and whether it holds. Answers whether all hold.
pub fn tell_all<R: Machine>(rt: &R, alloc: Global, stories: &[Story]) -> Result<bool> {
    let mut all = true;
    for story in stories {
        all &= put(rt, story.name, tell(rt, alloc, *story))?;
    }
    Ok(all)
}

/// The same of the stories of wires alone.
pub fn tell_wires<R: Machine>(rt: &R, alloc: Global) -> Result<bool> {
    let threads = put(rt, "two threads pass pieces", two_threads(rt, alloc))?;
    let full = put(rt, "a full wire gives a piece back", full_wire(rt, alloc))?;
    let ports = put(rt, "two ports pass parcels", two_ports(rt, alloc))?;
    let cuts = put(rt, "frames are cut into pieces", cut_frames(rt, alloc))?;
    let fronts = put(rt, "the first bytes tell a length", told_fronts())?;
    let lengths = put(
        rt,
        "a link in pieces of each length",
        each_length(rt, alloc),
    )?;
    Ok(threads && full && ports && cuts && fronts && lengths)
}
