//! Reads bytes by the proved readers, and prints what each line of them is.
//!
//! A line of standard input has a role, the bytes in hexadecimal digits behind it, and between the two what a
//! handshake needs. `vectors/README.md` says how lines and answers look. `vectors/run.py` sends the lines of
//! its files, and compares the answers.
#![tactic(auto)]

mod answers;
mod frames;
mod handshakes;
mod messages;
mod terms;
mod texts;

use answers::answer;
use anyhow::Result;
use std::io::{self, BufRead, BufReader, BufWriter, Write};

fn main(rt: HostRuntime) -> Result<()> {
    let alloc = rt.alloc();
    let mut out = BufWriter::new(alloc, io::writer(&rt))?;
    for line in BufReader::new(alloc, rt.reader())?.lines(alloc) {
        let answer = answer(alloc, line?.as_str())?;
        writeln!(out, "{answer}")?;
    }
    out.flush()?;
    Ok(())
}
