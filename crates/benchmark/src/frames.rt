//! Link signals as frames.

use crate::pids::pid;
use crate::printing::print;
use crate::rate::Rate;
use anyhow::Result;
use erl_control::{Signal, frame, unframe};
use std::hint::black_box;
use std::time::Instant;

/// How often a frame is read or written.
const ROUNDS: u64 = 2_000_000;

pub fn measure(rt: &HostRuntime) -> Result<()> {
    let alloc = rt.alloc();
    let link = Signal::Link {
        from: pid(alloc, "a@h", 1)?,
        to: pid(alloc, "b@h", 1)?,
    };
    let unlink = Signal::UnlinkId {
        id: 1,
        from: pid(alloc, "a@h", 1)?,
        to: pid(alloc, "b@h", 1)?,
    };
    measure_signal(rt, "LINK", &link)?;
    measure_signal(rt, "UNLINK_ID", &unlink)
}

/// Writes and reads the frame of the signal so many times.
fn measure_signal(rt: &HostRuntime, name: &str, signal: &Signal) -> Result<()> {
    let alloc = rt.alloc();
    let bytes = frame(alloc, signal, false)?;
    let start = Instant::now(rt)?;
    for _ in 0..ROUNDS {
        black_box(frame(alloc, signal, false)?);
    }
    let framing = Rate {
        name: "frame",
        rounds: ROUNDS,
        bytes: bytes.len(),
        elapsed: start.elapsed(rt)?,
    };
    let start = Instant::now(rt)?;
    for _ in 0..ROUNDS {
        black_box(unframe(alloc, bytes.as_slice())?);
    }
    let unframing = Rate {
        name: "unframe",
        rounds: ROUNDS,
        bytes: bytes.len(),
        elapsed: start.elapsed(rt)?,
    };
    println!(rt; "{name}, {} bytes", bytes.len())?;
    print(rt, &framing)?;
    print(rt, &unframing)
}
