//! Measures how fast the crates of this repository are.
//!
//! `benchmark SUBJECT` measures one subject on this machine. With no subject it says which there are.
#![tactic(auto)]

mod frames;
mod pids;
mod printing;
mod rate;
mod terms;

use anyhow::Result;
use std::env;

const USAGE: &str = "usage: benchmark SUBJECT

subjects:
  terms    decode and encode of terms
  frames   unframe and frame of link signals";

fn main(rt: HostRuntime) -> Result<()> {
    let subject = env::args(&rt)?.nth(1);
    match subject.as_ref().map_or("", |word| word.as_str()) {
        "terms" => terms::measure(&rt),
        "frames" => frames::measure(&rt),
        _ => Ok(println!(rt; "{USAGE}")?),
    }
}
