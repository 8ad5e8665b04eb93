//! Tests of hostile bytes. Each item that travels between two nodes is cut at each byte, and each of
//! its bytes is replaced by each value. Each of these is given to the codec, to a side in each state,
//! and to a node whose side stands so.
//!
//! The codec's own answer decides the due outcome, by the plain table of [`due`]. The program prints a
//! line for each item, and some for each state, with the count of each outcome. `reference.py` prints the
//! same by a reader of its own.
#![tactic(auto)]

mod codecs;
mod due;
mod items;
mod machine;
mod states;
mod trying;

use anyhow::Result;
use codecs::read_all;
use std::process::ExitCode;
use trying::try_all;

fn main(rt: HostRuntime) -> Result<ExitCode> {
    let are_right = read_all(&rt)? && try_all(&rt)?;
    Ok(if are_right {
        ExitCode::SUCCESS
    } else {
        ExitCode::FAILURE
    })
}
