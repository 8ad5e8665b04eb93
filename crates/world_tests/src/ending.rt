//! A process with many links that ends, while memory is refused.
//!
//! A world and its copy (`World::copy`) stand beside one another. Each event happens in the world, and then
//! in the copy. Where the world refuses it for want of memory, it has to be as the copy still is.
use crate::claims::is_living;
use crate::events::{pid, world};
use crate::stage::{act, persist};
use crate::told::{Place, Process, Reason, Step, Told, Trunk};
use anyhow::Result;
use erl_term::{Pid, Refusal};
use std::alloc::Global;
use world_core::{Node, World};

const COOKIES: &[&str] = &["c", "c"];

/// The number of partners at each of the two nodes.
const PARTNERS: u32 = 500;

/// The size in bytes by which `./fail-allocations` knows the allocation behind which it refuses the others.
const MARK: usize = 1_234_567;

/// More than the number of events that can follow.
const ENOUGH: u32 = 100_000;

const TRUNK: Trunk = Trunk {
    dialer: 0,
    count: 1,
};

const P: Process = Process {
    place: 0,
    creation: 1,
    id: 1,
};

/// The events that happen without a caller.
const BY_ITSELF: &[Step] = &[
    Step::Local(0),
    Step::Local(1),
    Step::Come(0, TRUNK),
    Step::Come(1, TRUNK),
];

// Returns a partner of P, by its number from 0.
fn partner(number: u32) -> Process {
    let (place, id) = if number < PARTNERS {
        (0, number.saturating_add(2))
    } else {
        (1, number.saturating_sub(PARTNERS).saturating_add(1))
    };
    Process {
        place,
        creation: 1,
        id,
    }
}

/// The number of all partners.
const LINKS: u32 = 2 * PARTNERS;

// Returns true if a step is accepted.
fn accepts(alloc: Global, world: &mut World, step: Step) -> bool {
    !matches!(persist(alloc, world, step), Told::Refused(_))
}

// Runs all that happens without a caller. Returns false if that does not end.
fn settles(alloc: Global, world: &mut World) -> bool {
    for _ in 0..ENOUGH {
        let mut has_gone_on = false;
        for step in BY_ITSELF {
            has_gone_on = accepts(alloc, world, *step) || has_gone_on;
        }
        if !has_gone_on {
            return true;
        }
    }
    false
}

// Returns a world of two nodes in which P is linked to all its partners, or None if an event is refused.
fn linked(alloc: Global) -> Result<Option<World>, Refusal> {
    let mut world = world(alloc, COOKIES)?;
    let mut is_right = accepts(alloc, &mut world, Step::Spawn(0))
        && accepts(alloc, &mut world, Step::Dial(0, 1))
        && settles(alloc, &mut world);
    for number in 0..LINKS {
        let q = partner(number);
        is_right = is_right
            && accepts(alloc, &mut world, Step::Spawn(q.place))
            && accepts(alloc, &mut world, Step::Link(P, q));
    }
    is_right = is_right && settles(alloc, &mut world);
    if is_right {
        return Ok(Some(world));
    }
    drop(world);
    Ok(None)
}

// Returns P and its partners.
fn pids(alloc: Global) -> Result<Vec<Pid>, Refusal> {
    let mut pids = Vec::new(alloc);
    pids.push(pid(alloc, P)?)?;
    for number in 0..LINKS {
        pids.push(pid(alloc, partner(number))?)?;
    }
    Ok(pids)
}

/// A world, its copy, and the pids of the processes.
#[derive(Drop)]
struct Twins {
    world: World,
    copy: World,
    pids: Vec<Pid>,
    mark: Vec<u8>,
}

// Returns true if two nodes tell the same of themselves.
fn are_same_nodes(one: &Node, other: &Node) -> bool {
    one.is_up() == other.is_up()
        && one.creation() == other.creation()
        && one.spawned() == other.spawned()
        && one.has_local() == other.has_local()
        && one.is_losing() == other.is_losing()
}

fn is_same_place(world: &World, copy: &World, place: Place) -> bool {
    match (world.nodes().get(place), copy.nodes().get(place)) {
        (Some(one), Some(other)) => are_same_nodes(one, other),
        _ => false,
    }
}

impl Twins {
    // Returns true if the worlds tell the same of two processes.
    fn is_same_between(&self, p: &Pid, q: &Pid) -> bool {
        self.world.ends(p, q) == self.copy.ends(p, q)
            && self.world.quiet(p, q) == self.copy.quiet(p, q)
            && is_living(&self.world, q) == is_living(&self.copy, q)
    }

    // Returns true if the worlds tell the same.
    fn are_same(&self) -> bool {
        let Some(p) = self.pids.first() else {
            return false;
        };
        is_same_place(&self.world, &self.copy, 0)
            && is_same_place(&self.world, &self.copy, 1)
            && self.pids.iter().all(|q| self.is_same_between(p, q))
    }

    // A step happens in both worlds. Returns what it comes to, or None if the worlds differ.
    fn goes(&mut self, alloc: Global, step: Step) -> Option<Told> {
        let told = match act(alloc, &mut self.world, step) {
            Err(Refusal::OutOfMemory) => {
                if !self.are_same() {
                    return None;
                }
                persist(alloc, &mut self.world, step)
            }
            Err(why) => Told::Refused(why),
            Ok(told) => told,
        };
        let in_copy = persist(alloc, &mut self.copy, step);
        (told == in_copy).then_some(told)
    }

    // All happens that does so without a caller. Returns false if the worlds differ, or if it does not end.
    fn settles(&mut self, alloc: Global) -> bool {
        for _ in 0..ENOUGH {
            let mut has_gone_on = false;
            for step in BY_ITSELF {
                match self.goes(alloc, *step) {
                    None => return false,
                    Some(Told::Refused(_)) => {}
                    Some(_) => has_gone_on = true,
                }
            }
            if !has_gone_on {
                return self.are_same();
            }
        }
        false
    }

    // P ends, and so all its partners do.
    fn ends(&mut self, alloc: Global) -> bool {
        self.mark.len() == 1
            && self.goes(alloc, Step::Exit(P, Reason::Boom)) == Some(Told::Done)
            && self.settles(alloc)
            && self.pids.iter().all(|q| !is_living(&self.world, q))
    }
}

fn both_worlds(alloc: Global) -> Result<Option<Twins>, Refusal> {
    let Some(world) = linked(alloc)? else {
        return Ok(None);
    };
    let copy = world.copy(alloc)?;
    let pids = pids(alloc)?;
    let mut mark = Vec::with_capacity(alloc, MARK)?;
    mark.push(1)?;
    Ok(Some(Twins {
        world,
        copy,
        pids,
        mark,
    }))
}

// Returns true if the process ends as it should.
fn is_right(alloc: Global) -> Result<bool, Refusal> {
    let Some(mut twins) = both_worlds(alloc)? else {
        return Ok(false);
    };
    let is_right = twins.ends(alloc);
    drop(twins);
    Ok(is_right)
}

/// Tells how a process with 1,000 links ends. Returns true if all is right.
pub fn tell_ending(rt: &HostRuntime) -> Result<bool> {
    let is_right = is_right(rt.alloc())?;
    let told = if is_right { "holds" } else { "doesn't hold" };
    println!(rt; "a process with 1,000 links ends: {told}")?;
    Ok(is_right)
}
