//! Tests of wires between two threads, of books, and of what they merge into.
//!
//! With no argument it tells each story, and what of it doesn't hold. Most stories are tables of what is
//! asked of the books of some nodes, of what comes of it, and of what they merge into. `wire_tests small`
//! is some short ones, for `./fail-allocations`: what memory was wanting for is tried again, so they have
//! to hold under each allocation that is refused. `wire_tests measure` says how many pieces pass over a
//! wire in a second, and how many calls a node's book takes.
#![tactic(auto)]

mod acts;
mod cutting;
mod measuring;
mod passing;
mod rows;
mod stage;
mod stories;
mod telling;

use anyhow::Result;
use measuring::measure;
use std::alloc::Global;
use std::env;
use std::process::ExitCode;
use stories::{LONG, SHORT};
use telling::{Machine, tell_all, tell_wires};

const USAGE: &str = "usage: wire_tests [small | measure]";

fn all<R: Machine>(rt: &R, alloc: Global) -> Result<bool> {
    let wires = tell_wires(rt, alloc)?;
    let long = tell_all(rt, alloc, LONG)?;
    let short = tell_all(rt, alloc, SHORT)?;
    Ok(wires && long && short)
}

// Whether all is right.
fn run<R: Machine>(rt: &R, alloc: Global) -> Result<bool> {
    let word = env::args(rt)?.nth(1);
    match word.as_ref().map_or("", |word| word.as_str()) {
        "" => all(rt, alloc),
        "small" => tell_all(rt, alloc, SHORT),
        "measure" => measure(rt, alloc),
        _ => {
            println!(rt; "{USAGE}")?;
            Ok(false)
        }
    }
}

fn main(rt: HostRuntime) -> Result<ExitCode> {
    Ok(if run(&rt, rt.alloc())? {
        ExitCode::SUCCESS
    } else {
        ExitCode::FAILURE
    })
}
