//! The bytes of each item, cut and replaced, in each state.
use crate::due::{Due, outcome_due};
use crate::items::{ALL as ITEMS, Sample};
use crate::machine::Machine;
use crate::states::{ALL as STATES, State};
use anyhow::Result;
use erl_term::Refusal;
use std::alloc::Global;

/// One more than the greatest number of a fault.
const NUMBERS: usize = 21;

/// The count of each outcome in a state.
#[derive(Clone, Copy)]
struct Counts {
    deaf: u64,
    asks: u64,
    takes: u64,
    forged: u64,
    breaks: [u64; NUMBERS],
    wrong: u64,
}

impl Counts {
    fn count(&mut self, due: Due) {
        match due {
            Due::Deaf => self.deaf = self.deaf.saturating_add(1),
            Due::Asks => self.asks = self.asks.saturating_add(1),
            Due::Takes(_) => self.takes = self.takes.saturating_add(1),
            Due::Forged => self.forged = self.forged.saturating_add(1),
            Due::Breaks(number) => self.count_fault(number as usize),
        }
    }

    fn count_fault(&mut self, number: usize) {
        if number < NUMBERS {
            self.breaks[number] = self.breaks[number].saturating_add(1);
        } else {
            self.wrong = self.wrong.saturating_add(1);
        }
    }
}

/// A state, and the outcomes in it.
#[derive(Drop)]
struct Trial<'a> {
    alloc: Global,
    machine: &'a mut Machine,
    state: State,
    counts: Counts,
}

impl Trial<'_> {
    // Some bytes arrive, at the side and at the node.
    fn comes(&mut self, bytes: &[u8]) -> Result<(), Refusal> {
        let due = outcome_due(self.alloc, self.state, bytes)?;
        self.counts.count(due);
        let at_side = self.machine.side_does(self.alloc, bytes, due)?;
        let at_node = self.machine.node_does(self.alloc, bytes, due)?;
        if !at_side || !at_node {
            self.counts.wrong = self.counts.wrong.saturating_add(1);
        }
        Ok(())
    }

    // The item is whole, and then cut at each byte.
    fn cut(&mut self, bytes: &[u8]) -> Result<(), Refusal> {
        self.comes(bytes)?;
        for len in 0..bytes.len() {
            self.comes(&bytes[..len])?;
        }
        Ok(())
    }

    // A byte is replaced by each other value, and is as before then.
    fn replace(&mut self, bytes: &mut [u8], at: usize) -> Result<(), Refusal> {
        let Some(old) = bytes.get(at).copied() else {
            return Ok(());
        };
        for value in 0..=u8::MAX {
            if value != old {
                if let Some(byte) = bytes.get_mut(at) {
                    *byte = value;
                }
                self.comes(bytes)?;
            }
        }
        if let Some(byte) = bytes.get_mut(at) {
            *byte = old;
        }
        Ok(())
    }

    fn try_item(&mut self, sample: Sample) -> Result<(), Refusal> {
        self.cut(sample.bytes)?;
        let mut bytes = Vec::from_slice(self.alloc, sample.bytes)?;
        for at in 0..sample.bytes.len() {
            self.replace(bytes.as_mut_slice(), at)?;
        }
        Ok(())
    }
}

// The outcomes of the items that the state's reader reads, and of each item where it reads none.
fn try_state(alloc: Global, state: State) -> Result<Counts, Refusal> {
    let mut machine = Machine::new(alloc, state)?;
    let mut counts = Counts {
        deaf: 0,
        asks: 0,
        takes: 0,
        forged: 0,
        breaks: [0; NUMBERS],
        wrong: 0,
    };
    if !machine.stands() {
        counts.wrong = 1;
        return Ok(counts);
    }
    let mut trial = Trial {
        alloc,
        machine: &mut machine,
        state,
        counts,
    };
    let reader = state.awaits.reader();
    for sample in ITEMS {
        if reader.is_none() || reader == Some(sample.reader) {
            trial.try_item(*sample)?;
        }
    }
    Ok(trial.counts)
}

// Prints the counts of a state.
fn print(rt: &HostRuntime, state: State, counts: Counts) -> Result<()> {
    let Counts {
        deaf,
        asks,
        takes,
        forged,
        breaks,
        wrong,
    } = counts;
    println!(rt; "{}: {wrong} wrong", state.name)?;
    println!(rt; "    {deaf} unread, {asks} not whole, {takes} taken, {forged} forged")?;
    for (number, count) in breaks.iter().enumerate() {
        if *count > 0 {
            println!(rt; "    {count} broken by fault {number}")?;
        }
    }
    Ok(())
}

/// Tries each state, and prints the outcomes. Returns if all are right.
pub fn try_all(rt: &HostRuntime) -> Result<bool> {
    let mut are_right = true;
    for state in STATES {
        let counts = try_state(rt.alloc(), *state)?;
        print(rt, *state, counts)?;
        are_right = are_right && counts.wrong == 0;
    }
    Ok(are_right)
}
