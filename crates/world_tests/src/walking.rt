//! A walk at random: events at random in a world of up to four nodes, and what has to hold after each.
use crate::answers::{message, process, told};
use crate::claims::{all_agree, have_one_trunk_each, is_living};
use crate::events::{event, pid, place_of, world};
use crate::told::{Message, Place, Process, Reason, Step, Told, Trunk};
use anyhow::Result;
use dist_model::{Effect, Kind, Report};
use erl_term::{Pid, Refusal};
use random_numbers::Random;
use std::alloc::Global;
use world_core::{Frame, World};

const COOKIES: &[&str] = &["c", "c", "c", "c"];

/// So many of a node's last processes act, and are looked at.
const LAST: u32 = 2;

/// Callers act in the first so many of each so many events. In the others what travels comes.
const BUSY: u64 = 60;

const ROUND: u64 = 100;

/// A connection that was dialed.
#[derive(Clone, Copy)]
struct Dialed {
    trunk: Trunk,
    peer: Place,
}

/// A monitor of which no DOWN has come, and which wasn't taken back.
#[derive(Clone, Copy)]
struct Monitor {
    owner: Process,
    word: u32,
    target: Process,
}

/// How a walk has gone.
#[derive(Clone, Copy)]
struct Counts {
    events: u64,
    refused: u64,
    downs: u64,
    link_exits: u64,
    /// Acknowledgements of unlinks that have come.
    unlinks: u64,
}

#[derive(Drop)]
struct Walk {
    random: Random,
    world: World,
    /// The last connection that each node has dialed to each other.
    dialed: Vec<Dialed>,
    monitors: Vec<Monitor>,
    counts: Counts,
}

impl Walk {
    fn place(&mut self) -> Place {
        self.random.below(self.world.nodes().len())
    }

    // One of the last processes of a node, or sometimes one of an earlier incarnation.
    fn process(&mut self) -> Process {
        let place = self.place();
        let back = u32::try_from(self.random.below(LAST as usize)).unwrap_or(0);
        let is_old = self.random.below(40) == 0;
        let (creation, spawned) = match self.world.nodes().get(place) {
            Some(node) => (node.creation(), node.spawned()),
            None => (1, 0),
        };
        let (creation, id) = if is_old {
            (creation.saturating_sub(1), back.saturating_add(1))
        } else {
            (creation, spawned.saturating_sub(back))
        };
        Process {
            place,
            creation: creation.max(1),
            id: id.max(1),
        }
    }

    fn reason(&mut self) -> Reason {
        match self.random.below(4) {
            0 => Reason::Normal,
            1 => Reason::Kill,
            _ => Reason::Boom,
        }
    }

    // A monitor is taken back, or one that there is not.
    fn demonitor(&mut self) -> Step {
        let at = self.random.below(self.monitors.len());
        match self.monitors.get(at) {
            Some(monitor) => Step::Demonitor(monitor.owner, monitor.word),
            None => Step::Demonitor(self.process(), 1),
        }
    }

    // A process acts.
    fn act_of(&mut self, p: Process) -> Step {
        let q = self.process();
        match self.random.below(100) {
            0..=36 => Step::Link(p, q),
            37..=71 => Step::Unlink(p, q),
            72..=78 => Step::Monitor(p, q),
            79..=81 => self.demonitor(),
            82..=84 => Step::Send(p, q),
            85..=86 => Step::Receive(p),
            87..=97 => Step::Trap(p),
            98 => Step::ExitTo(p, q, self.reason()),
            _ => Step::Exit(p, self.reason()),
        }
    }

    // A process acts. Where it isn't living, its node mostly spawns another.
    fn command(&mut self, alloc: Global) -> Result<Step, Refusal> {
        let process = self.process();
        let pid = pid(alloc, process)?;
        let is_living = is_living(&self.world, &pid);
        drop(pid);
        let is_spawned = !is_living && self.random.below(8) > 0;
        Ok(if is_spawned {
            Step::Spawn(process.place)
        } else {
            self.act_of(process)
        })
    }

    // Something on one of the last connections, at one of its two nodes.
    fn on_trunk(&mut self, is_lost: bool) -> Step {
        let at = self.random.below(self.dialed.len());
        let is_dialer = self.random.below(2) == 0;
        let Some(dialed) = self.dialed.get(at) else {
            return Step::Dial(self.place(), self.place());
        };
        let place = if is_dialer {
            dialed.trunk.dialer
        } else {
            dialed.peer
        };
        if is_lost {
            Step::Lose(place, dialed.trunk)
        } else {
            Step::Come(place, dialed.trunk)
        }
    }

    // What happens without a caller.
    fn coming(&mut self) -> Step {
        match self.random.below(20) {
            0..=1 => Step::Sweep(self.place()),
            2..=3 => Step::Local(self.place()),
            _ => self.on_trunk(false),
        }
    }

    fn step(&mut self, alloc: Global) -> Result<Step, Refusal> {
        if self.counts.events % ROUND >= BUSY {
            return Ok(self.coming());
        }
        match self.random.below(1000) {
            0..=599 => self.command(alloc),
            600..=649 => Ok(Step::Dial(self.place(), self.place())),
            650..=651 => Ok(self.on_trunk(true)),
            652 => Ok(Step::Stop(self.place())),
            653..=672 => Ok(Step::Start(self.place())),
            _ => Ok(self.coming()),
        }
    }

    // What an accepted step leaves to be remembered.
    fn remember(&mut self, step: Step, told: Told) -> Result<(), Refusal> {
        match (step, told) {
            (Step::Monitor(owner, target), Told::Monitors(word)) => {
                self.monitors.push(Monitor {
                    owner,
                    word,
                    target,
                })?;
            }
            (Step::Demonitor(owner, word), _) => {
                self.monitors
                    .retain(|one| one.owner != owner || one.word != word);
            }
            (Step::Dial(dialer, peer), Told::Dialed(count)) => {
                self.dialed
                    .retain(|one| one.trunk.dialer != dialer || one.peer != peer);
                let trunk = Trunk { dialer, count };
                self.dialed.push(Dialed { trunk, peer })?;
            }
            (_, Told::Took(Kind::UnlinkAck)) => {
                self.counts.unlinks = self.counts.unlinks.saturating_add(1);
            }
            (Step::Stop(place), _) => self.monitors.retain(|one| one.owner.place != place),
            _ => {}
        }
        Ok(())
    }

    // Whether a DOWN is the first of a monitor of this owner that wasn't taken back.
    fn is_due(&mut self, owner: Process, word: u32, target: Process) -> bool {
        let before = self.monitors.len();
        self.monitors.retain(|one| one.owner != owner || one.word != word || one.target != target);
        self.counts.downs = self.counts.downs.saturating_add(1);
        self.monitors.len() < before
    }

    fn is_effect_right(&mut self, effect: &Effect<Frame>) -> bool {
        match effect {
            Effect::Put { to, message: put } => match (process(to), message(put)) {
                (Some(owner), Some(Message::Down(word, target, _))) => {
                    self.is_due(owner, word, target)
                }
                (owner, said) => owner.is_some() && said.is_some(),
            },
            Effect::Ended { process: ended, .. } => {
                let ended = process(ended);
                self.monitors.retain(|one| Some(one.owner) != ended);
                true
            }
            Effect::LinkExit { .. } => {
                self.counts.link_exits = self.counts.link_exits.saturating_add(1);
                true
            }
            Effect::Sent { .. } => true,
        }
    }

    fn are_effects_right(&mut self, report: &Report<Frame>) -> bool {
        for effect in &report.effects {
            if !self.is_effect_right(effect) {
                return false;
            }
        }
        true
    }

    fn is_report_right(&mut self, step: Step, report: &Report<Frame>) -> Result<bool, Refusal> {
        self.remember(step, told(&report.answer))?;
        Ok(self.are_effects_right(report))
    }

    // Whether what a step brings about is right.
    fn goes(&mut self, alloc: Global, step: Step) -> Result<bool, Refusal> {
        let event = event(alloc, step)?;
        self.counts.events = self.counts.events.saturating_add(1);
        match self.world.apply(alloc, event) {
            Ok(report) => {
                let is_right = self.is_report_right(step, &report);
                drop(report);
                is_right
            }
            Err(Refusal::OutOfMemory) => Err(Refusal::OutOfMemory),
            Err(_) => {
                self.counts.refused = self.counts.refused.saturating_add(1);
                Ok(true)
            }
        }
    }

    // Whether the claims hold, after an event at this node.
    fn is_world_right(&self, alloc: Global, place: Place) -> Result<bool, Refusal> {
        let here = last_processes(alloc, &self.world, &[place])?;
        let others = match last_processes(alloc, &self.world, &[0, 1, 2, 3]) {
            Ok(others) => others,
            Err(e) => {
                drop(here);
                return Err(e);
            }
        };
        let is_right = all_agree(&self.world, &here, &others)
            && all_agree(&self.world, &others, &here)
            && have_one_trunk_each(&self.world);
        drop(here);
        drop(others);
        Ok(is_right)
    }

    // One event. Answers it where something is wrong after it.
    fn go(&mut self, alloc: Global) -> Result<Option<Step>, Refusal> {
        let step = self.step(alloc)?;
        let is_right = self.goes(alloc, step)? && self.is_world_right(alloc, place_of(step))?;
        Ok(if is_right { None } else { Some(step) })
    }
}

// The last processes of some nodes, and the first of their incarnations before.
fn last_processes(alloc: Global, world: &World, places: &[Place]) -> Result<Vec<Pid>, Refusal> {
    let mut made = Vec::new(alloc);
    for place in places {
        if let Some(node) = world.nodes().get(*place) {
            add_last(alloc, &mut made, *place, node.creation(), node.spawned())?;
        }
    }
    Ok(made)
}

fn add_last(
    alloc: Global,
    made: &mut Vec<Pid>,
    place: Place,
    creation: u32,
    spawned: u32,
) -> Result<(), Refusal> {
    for back in 0..LAST {
        if back < spawned {
            let id = spawned.saturating_sub(back);
            made.push(pid(
                alloc,
                Process {
                    place,
                    creation,
                    id,
                },
            )?)?;
        }
    }
    for id in 1..=LAST {
        let creation = creation.saturating_sub(1).max(1);
        made.push(pid(
            alloc,
            Process {
                place,
                creation,
                id,
            },
        )?)?;
    }
    Ok(())
}

/// Goes through so many events from a seed, and prints how it went. Answers whether all was right.
pub fn walk_at_random(rt: &HostRuntime, seed: u64, nodes: usize, events: u64) -> Result<bool> {
    let alloc = rt.alloc();
    let mut walk = Walk {
        random: Random::new(seed),
        world: world(alloc, &COOKIES[..nodes.min(COOKIES.len())])?,
        dialed: Vec::new(alloc),
        monitors: Vec::new(alloc),
        counts: Counts {
            events: 0,
            refused: 0,
            downs: 0,
            link_exits: 0,
            unlinks: 0,
        },
    };
    let wrong = walk_on(alloc, &mut walk, events);
    let counts = walk.counts;
    drop(walk);
    print(rt, seed, counts, wrong?)
}

fn walk_on(alloc: Global, walk: &mut Walk, events: u64) -> Result<Option<Step>, Refusal> {
    for _ in 0..events {
        let wrong = walk.go(alloc)?;
        if wrong.is_some() {
            return Ok(wrong);
        }
    }
    Ok(None)
}

fn print(rt: &HostRuntime, seed: u64, counts: Counts, wrong: Option<Step>) -> Result<bool> {
    let Counts {
        events,
        refused,
        downs,
        link_exits,
        unlinks,
    } = counts;
    println!(rt;
        "walk {seed}: {events} events, {refused} of them refused; {unlinks} unlinks, {link_exits} exits of links, {downs} DOWN"
    )?;
    match wrong {
        None => Ok(true),
        Some(step) => {
            println!(rt; "walk {seed}: the last event is wrong: {step:?}")?;
            Ok(false)
        }
    }
}
