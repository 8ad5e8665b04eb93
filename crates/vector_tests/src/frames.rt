//! Frames between connected nodes, by erl_control.

use crate::texts::{begins, fault, front, reads};
use anyhow::Result;
use erl_control::{FrameError, Item, Signal, frame, unframe};
use erl_term::TermError;
use fault_places::Reader;
use item_texts::put_signal;
use std::alloc::Global;

const TICK: &[u8] = &[0, 0, 0, 0];

/// Returns the answer to the frame at the front of the bytes.
pub fn answer(alloc: Global, bytes: &[u8]) -> Result<String> {
    match unframe(alloc, bytes) {
        Ok(None) => begins(alloc),
        Ok(Some((item, taken))) => read(alloc, front(bytes, taken), &item),
        Err(FrameError::OutOfMemory) => Err(FrameError::OutOfMemory.into()),
        Err(e) => refused(alloc, Reader::Frame.place(alloc, bytes)?, e),
    }
}

fn read(alloc: Global, bytes: &[u8], item: &Item) -> Result<String> {
    match item {
        Item::Tick => reads(alloc, bytes, TICK, "tick"),
        Item::Signal(signal) => read_signal(alloc, bytes, signal),
    }
}

fn read_signal(alloc: Global, bytes: &[u8], signal: &Signal) -> Result<String> {
    let mut words = String::new(alloc);
    put_signal(&mut words, signal)?;
    let written = written(alloc, bytes, signal)?;
    reads(alloc, bytes, written.as_slice(), words.as_str())
}

/// Returns the frame of the signal. Its reason stands behind the control term if these bytes are so.
fn written(alloc: Global, bytes: &[u8], signal: &Signal) -> Result<Vec<u8>, FrameError> {
    let behind = frame(alloc, signal, true)?;
    if behind.as_slice() == bytes {
        return Ok(behind);
    }
    frame(alloc, signal, false)
}

/// Returns the answer to a fault, with that of a term behind it.
fn refused(alloc: Global, place: usize, error: FrameError) -> Result<String> {
    match error {
        FrameError::Term(why) => refused_term(alloc, place, error, why),
        _ => fault(alloc, place, &error),
    }
}

fn refused_term(alloc: Global, place: usize, error: FrameError, why: TermError) -> Result<String> {
    let fault = format!(in alloc; "fault {place} {error} {why}")?;
    Ok(fault)
}
