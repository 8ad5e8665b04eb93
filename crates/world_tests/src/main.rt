//! Tests of all nodes and what travels between them: stories, event by event, and a walk at random.
//!
//! With no argument it tells each story, and which of its rows doesn't hold. A story is a table of events,
//! of what each has to come to, and of what there is to see then; after each event it is asked whether all
//! processes agree on their links. `world_tests rows` leaves the long story away, for
//! `./fail-allocations`: an event for which memory was wanting is tried again, so the rows have to hold
//! under each allocation that is refused. `world_tests ending` has a process with 1,000 links end, and
//! compares the world with a copy after each refused event. `world_tests walk SEED NODES EVENTS` has so many
//! events happen at random, and `world_tests measure` says how often some happen in a second.
//! `world_tests reconnect ROUNDS` has two nodes connect and lose their connection so many times, and says
//! how long each tenth of that takes.
#![tactic(auto)]

mod answers;
mod claims;
mod ending;
mod events;
mod measuring;
mod stage;
mod stories;
mod told;
mod walking;

use anyhow::{Context, Result};
use ending::tell_ending;
use measuring::{measure, reconnect};
use stage::tell_all;
use std::env;
use std::process::ExitCode;
use stories::{ALL, LONG};
use walking::walk_at_random;

const USAGE: &str =
    "usage: world_tests [rows | ending | measure | reconnect ROUNDS | walk SEED NODES EVENTS]";

fn number(rt: &HostRuntime, place: usize) -> Result<u64> {
    let word = env::args(rt)?.nth(place).context(USAGE)?;
    word.as_str().parse::<u64>().context(USAGE)
}

/// Whether all is right.
fn run(rt: &HostRuntime) -> Result<bool> {
    let word = env::args(rt)?.nth(1);
    match word.as_ref().map_or("", |word| word.as_str()) {
        "" => Ok(
            tell_all(rt, ALL)?
                && tell_all(rt, LONG)?
                && tell_ending(rt)?
                && walk_at_random(rt, 1, 3, 2000)?,
        ),
        "rows" => tell_all(rt, ALL),
        "ending" => tell_ending(rt),
        "measure" => {
            measure(rt)?;
            Ok(true)
        }
        "reconnect" => {
            reconnect(rt, number(rt, 2)?)?;
            Ok(true)
        }
        "walk" => walk_at_random(rt, number(rt, 2)?, number(rt, 3)? as usize, number(rt, 4)?),
        _ => {
            println!(rt; "{USAGE}")?;
            Ok(false)
        }
    }
}

fn main(rt: HostRuntime) -> Result<ExitCode> {
    Ok(if run(&rt)? {
        ExitCode::SUCCESS
    } else {
        ExitCode::FAILURE
    })
}
