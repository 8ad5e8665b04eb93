//! Stories, row by row.
use crate::answers::{reason, told};
use crate::claims::{all_agree, have_one_trunk_each, is_living};
use crate::events::{event, name, pid, place_of, world};
use crate::told::{Place, Process, Reason, Row, Step, Told, Trunk};
use anyhow::Result;
use erl_names::TrunkId;
use erl_term::{Pid, Refusal};
use link_core::End;
use std::alloc::{AllocError, Global};
use world_core::{Life, World};

/// A story of a world.
#[derive(Clone, Copy)]
pub struct Story {
    pub name: &'static str,
    /// The nodes' cookies.
    pub cookies: &'static [&'static str],
    /// Its rows, in parts that other stories have too.
    pub parts: &'static [&'static [Row]],
}

/// Each node dials at most so often, and spawns at most so many processes in each of two incarnations
/// that agreement is asked of.
const MOST: u32 = 4;

/// More than all events that can follow from a row.
const ENOUGH: usize = 1000;

/// A world, and the processes of which agreement is asked.
#[derive(Drop)]
struct Stage {
    world: World,
    processes: Vec<Pid>,
}

fn push(made: &mut Vec<Pid>, pid: Pid) -> Result<(), AllocError> {
    made.push(pid)?;
    Ok(())
}

// One process more.
fn add(alloc: Global, made: &mut Vec<Pid>, process: Process) -> Result<(), Refusal> {
    let pid = pid(alloc, process)?;
    match push(made, pid) {
        Ok(()) => Ok(()),
        Err(_) => Err(Refusal::OutOfMemory),
    }
}

fn add_all(alloc: Global, made: &mut Vec<Pid>, nodes: Place) -> Result<(), Refusal> {
    for place in 0..nodes {
        for creation in 1..=2 {
            for id in 1..=MOST {
                let process = Process {
                    place,
                    creation,
                    id,
                };
                add(alloc, made, process)?;
            }
        }
    }
    Ok(())
}

// The processes of some nodes.
fn processes(alloc: Global, nodes: Place) -> Result<Vec<Pid>, Refusal> {
    let mut made = Vec::new(alloc);
    match add_all(alloc, &mut made, nodes) {
        Ok(()) => Ok(made),
        Err(e) => {
            drop(made);
            Err(e)
        }
    }
}

fn open(alloc: Global, cookies: &[&str]) -> Result<Stage, Refusal> {
    let world = world(alloc, cookies)?;
    match processes(alloc, cookies.len()) {
        Ok(processes) => Ok(Stage { world, processes }),
        Err(e) => {
            drop(world);
            Err(e)
        }
    }
}

/// Returns what comes of a step.
pub fn act(alloc: Global, world: &mut World, step: Step) -> Result<Told, Refusal> {
    let event = event(alloc, step)?;
    let report = world.apply(alloc, event)?;
    let told = told(&report.answer);
    drop(report);
    Ok(told)
}

/// Returns what comes of a step. An event for which there was no memory is tried once more.
pub fn persist(alloc: Global, world: &mut World, step: Step) -> Told {
    let first = act(alloc, world, step);
    let answered = if first == Err(Refusal::OutOfMemory) {
        act(alloc, world, step)
    } else {
        first
    };
    match answered {
        Ok(told) => told,
        Err(why) => Told::Refused(why),
    }
}

impl Stage {
    // Whether the claims hold of what there is to see.
    fn is_right(&self) -> bool {
        all_agree(&self.world, &self.processes, &self.processes) && have_one_trunk_each(&self.world)
    }

    // Whether a step comes to this.
    fn does(&mut self, alloc: Global, step: Step, wanted: Told) -> bool {
        persist(alloc, &mut self.world, step) == wanted && self.is_right()
    }

    // Whether a step is accepted.
    fn accepts(&mut self, alloc: Global, step: Step) -> bool {
        !matches!(persist(alloc, &mut self.world, step), Told::Refused(_))
    }

    // Whether something happens at a node without a caller.
    fn goes_on_at(&mut self, alloc: Global, place: Place) -> bool {
        if self.accepts(alloc, Step::Local(place)) || self.accepts(alloc, Step::Sweep(place)) {
            return true;
        }
        for dialer in 0..self.world.nodes().len() {
            for count in 1..=u64::from(MOST) {
                if self.accepts(alloc, Step::Come(place, Trunk { dialer, count })) {
                    return true;
                }
            }
        }
        false
    }

    fn goes_on(&mut self, alloc: Global) -> bool {
        for place in 0..self.world.nodes().len() {
            if self.goes_on_at(alloc, place) {
                return true;
            }
        }
        false
    }

    // Whether the claims hold after each event that happens without a caller, until none does.
    fn settles(&mut self, alloc: Global) -> bool {
        for _ in 0..ENOUGH {
            if !self.is_right() {
                return false;
            }
            if !self.goes_on(alloc) {
                return true;
            }
        }
        false
    }

    // Whether a process can monitor another and take the monitor back, each time by the next reference.
    fn monitors_often(&mut self, alloc: Global, p: Process, q: Process, times: u32) -> bool {
        for word in 1..=times {
            let steps = [
                (Step::Monitor(p, q), Told::Monitors(word)),
                (Step::Demonitor(p, word), Told::Done),
            ];
            for (step, wanted) in steps {
                if persist(alloc, &mut self.world, step) != wanted {
                    return false;
                }
            }
            let at = place_of(Step::Receive(q));
            if !self.accepts(alloc, Step::Local(at)) || !self.accepts(alloc, Step::Local(at)) {
                return false;
            }
        }
        true
    }

    fn holds(&mut self, alloc: Global, row: Row) -> Result<bool, Refusal> {
        Ok(match row {
            Row::Does(step, wanted) => self.does(alloc, step, wanted),
            Row::Settles => self.settles(alloc),
            Row::MonitorsOften(p, q, times) => self.monitors_often(alloc, p, q, times),
            _ => shows(alloc, &self.world, row)?,
        })
    }
}

fn has_ends(world: &World, p: &Pid, q: &Pid, row: Row) -> bool {
    match row {
        Row::Ends(_, _, of_p, of_q) => world.ends(p, q) == (of_p, of_q),
        Row::Travels(_, _, does) => world.quiet(p, q) != does && world.quiet(q, p) != does,
        _ => false,
    }
}

// Whether a row of two processes holds.
fn shows_between(
    alloc: Global,
    world: &World,
    p: Process,
    q: Process,
    row: Row,
) -> Result<bool, Refusal> {
    let p = pid(alloc, p)?;
    let q = pid(alloc, q)?;
    Ok(has_ends(world, &p, &q, row))
}

fn has_ended(life: Option<&Life>, wanted: Reason) -> bool {
    match life {
        Some(Life::Ended(why)) => reason(why.term()) == Some(wanted),
        _ => false,
    }
}

fn ended(alloc: Global, world: &World, process: Process, why: Reason) -> Result<bool, Refusal> {
    let pid = pid(alloc, process)?;
    Ok(match world.node(&pid.node) {
        Some(node) => has_ended(node.life(&pid), why),
        None => false,
    })
}

fn lives(alloc: Global, world: &World, process: Process) -> Result<bool, Refusal> {
    let pid = pid(alloc, process)?;
    Ok(is_living(world, &pid))
}

fn is_trunk(found: Option<&TrunkId>, wanted: Option<Trunk>) -> bool {
    match (found, wanted) {
        (Some(found), Some(wanted)) => {
            found.count == wanted.count && found.dialer.text() == name(wanted.dialer)
        }
        (None, None) => true,
        _ => false,
    }
}

fn routes(world: &World, place: Place, peer: Place, wanted: Option<Trunk>) -> bool {
    match (world.nodes().get(place), world.nodes().get(peer)) {
        (Some(here), Some(there)) => is_trunk(here.route(there.name().atom()), wanted),
        _ => false,
    }
}

// Whether there is to see what a row says.
fn shows(alloc: Global, world: &World, row: Row) -> Result<bool, Refusal> {
    match row {
        Row::Ends(p, q, ..) | Row::Travels(p, q, _) => shows_between(alloc, world, p, q, row),
        Row::Routes(place, peer, wanted) => Ok(routes(world, place, peer, wanted)),
        Row::Lives(process, does) => Ok(lives(alloc, world, process)? == does),
        Row::HasEnded(process, why) => ended(alloc, world, process, why),
        _ => Ok(false),
    }
}

// Whether a row holds. Where memory was wanting to look, it is looked again.
fn holds_surely(alloc: Global, stage: &mut Stage, row: Row) -> Result<bool, Refusal> {
    match stage.holds(alloc, row) {
        Err(Refusal::OutOfMemory) => stage.holds(alloc, row),
        answered => answered,
    }
}

// The first row that doesn't hold, from 1 on.
fn wrong_row(alloc: Global, stage: &mut Stage, parts: &[&[Row]]) -> Result<Option<usize>, Refusal> {
    let mut number = 0usize;
    for part in parts {
        for row in *part {
            number = number.saturating_add(1);
            if !holds_surely(alloc, stage, *row)? {
                return Ok(Some(number));
            }
        }
    }
    Ok(None)
}

// The same from the beginning.
fn wrong_in(alloc: Global, story: Story) -> Result<Option<usize>, Refusal> {
    let mut stage = match open(alloc, story.cookies) {
        Err(Refusal::OutOfMemory) => open(alloc, story.cookies)?,
        made => made?,
    };
    let wrong = wrong_row(alloc, &mut stage, story.parts);
    drop(stage);
    wrong
}

/// Tells each story, and which row of it doesn't hold. Answers whether all hold.
pub fn tell_all(rt: &HostRuntime, stories: &[Story]) -> Result<bool> {
    let mut are_right = true;
    for story in stories {
        match wrong_in(rt.alloc(), *story)? {
            None => println!(rt; "{}: holds", story.name)?,
            Some(number) => {
                are_right = false;
                println!(rt; "{}: row {number} doesn't hold", story.name)?;
            }
        }
    }
    Ok(are_right)
}
