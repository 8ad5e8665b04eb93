//! Tests of nodes that have threads of their own.
//!
//! With no argument it tells of each test whether it holds. `cluster_tests walk SEED CALLS WALKS` has
//! four threads call four nodes at random, so often each, `cluster_tests measure` says how many calls there are in a second,
//! and `cluster_tests small` is one short run, for `./fail-allocations`.
#![tactic(auto)]

mod ground;
mod measuring;
mod meeting;
mod replaying;
mod stories;
mod walking;

use anyhow::{Context, Result};
use ground::Machine;
use measuring::measure;
use std::alloc::Global;
use std::env;
use std::process::ExitCode;
use stories::{tell_all, tell_small};
use walking::walk_at_random;

const USAGE: &str = "usage: cluster_tests [small | measure | walk SEED CALLS WALKS]";

fn number<R: Machine>(rt: &R, place: usize) -> Result<u64> {
    let word = env::args(rt)?.nth(place).context(USAGE)?;
    word.as_str().parse::<u64>().context(USAGE)
}

// Whether all is right.
fn run<R: Machine>(rt: &R, alloc: Global) -> Result<bool> {
    let word = env::args(rt)?.nth(1);
    match word.as_ref().map_or("", |word| word.as_str()) {
        "" => tell_all(rt, alloc),
        "small" => tell_small(rt, alloc),
        "measure" => measure(rt, alloc),
        "walk" => walk_at_random(rt, alloc, number(rt, 2)?, number(rt, 3)?, number(rt, 4)?),
        _ => {
            println!(rt; "{USAGE}")?;
            Ok(false)
        }
    }
}

fn main(rt: HostRuntime) -> Result<ExitCode> {
    Ok(if run(&rt, rt.alloc())? {
        ExitCode::SUCCESS
    } else {
        ExitCode::FAILURE
    })
}
