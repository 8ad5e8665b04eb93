//! The codecs: each item as it is, cut at each byte, and with each byte replaced by each value.
use crate::items::{ALL, Reader, Sample};
use anyhow::Result;
use erl_control::{FrameError, Item, frame, unframe};
use erl_handshake::{Role, ShakeMsg, read, write};
use erl_term::Refusal;
use std::alloc::Global;

/// The answer of a codec to bytes.
#[derive(Clone, Copy, Debug, PartialEq, Eq)]
enum Answer {
    /// The item isn't whole yet.
    Asks,
    /// An item of so many bytes is read. Written and read again, it is the same.
    Reads(usize),
    /// An item is read. Written, it has other bytes, which aren't read as the same item.
    Changes,
    /// The fault of this number.
    Refuses(u8),
}

// Returns the answer to bytes in which an item was read of so many bytes.
fn read_as(is_same: Result<bool, Refusal>, len: usize) -> Result<Answer, Refusal> {
    match is_same {
        Ok(true) => Ok(Answer::Reads(len)),
        Ok(false) => Ok(Answer::Changes),
        Err(e) => Err(e),
    }
}

// Returns the bytes of an item: no bytes where it can't be written. `payload` says where its reason stands.
fn written_frame(alloc: Global, item: &Item, payload: bool) -> Result<Vec<u8>, Refusal> {
    match item {
        Item::Tick => Ok(Vec::from_slice(alloc, &[0, 0, 0, 0])?),
        Item::Signal(signal) => match frame(alloc, signal, payload) {
            Ok(bytes) => Ok(bytes),
            Err(FrameError::OutOfMemory) => Err(Refusal::OutOfMemory),
            Err(_) => Ok(Vec::new(alloc)),
        },
    }
}

// Returns true if an item has these bytes when it is written so.
fn is_written_as(alloc: Global, item: &Item, payload: bool, bytes: &[u8]) -> Result<bool, Refusal> {
    let written = written_frame(alloc, item, payload)?;
    let is_same = written.as_slice() == bytes;
    drop(written);
    Ok(is_same)
}

// Returns true if the item in these bytes has the same ones when it is written so.
fn frame_stays(alloc: Global, payload: bool, bytes: &[u8]) -> Result<bool, Refusal> {
    match unframe(alloc, bytes) {
        Ok(Some((item, _))) => {
            let is_same = is_written_as(alloc, &item, payload, bytes);
            drop(item);
            is_same
        }
        Err(FrameError::OutOfMemory) => Err(Refusal::OutOfMemory),
        _ => Ok(false),
    }
}

// Returns true if an item stays the same once it was written so and read.
fn spelling_stays(alloc: Global, item: &Item, payload: bool) -> Result<bool, Refusal> {
    let written = written_frame(alloc, item, payload)?;
    let is_same = frame_stays(alloc, payload, written.as_slice());
    drop(written);
    is_same
}

// Returns true if an item stays the same once it was written and read, in both spellings.
fn item_stays(alloc: Global, item: &Item) -> Result<bool, Refusal> {
    Ok(spelling_stays(alloc, item, false)? && spelling_stays(alloc, item, true)?)
}

fn answer_to_frame(alloc: Global, bytes: &[u8]) -> Result<Answer, Refusal> {
    match unframe(alloc, bytes) {
        Ok(None) => Ok(Answer::Asks),
        Ok(Some((item, len))) => {
            let is_same = item_stays(alloc, &item);
            drop(item);
            read_as(is_same, len)
        }
        Err(FrameError::OutOfMemory) => Err(Refusal::OutOfMemory),
        Err(why) => Ok(Answer::Refuses(why.number())),
    }
}

// Returns true if a message is read in these bytes.
fn is_read_as(
    alloc: Global,
    role: Role,
    bytes: &[u8],
    message: &ShakeMsg,
) -> Result<bool, Refusal> {
    match read(alloc, role, bytes) {
        Ok(Some((again, _))) => {
            let is_same = again == *message;
            drop(again);
            Ok(is_same)
        }
        Err(Refusal::OutOfMemory) => Err(Refusal::OutOfMemory),
        _ => Ok(false),
    }
}

// Returns true if a message stays the same once it was written and read.
fn message_stays(alloc: Global, role: Role, message: &ShakeMsg) -> Result<bool, Refusal> {
    let written = write(alloc, message)?;
    let is_same = is_read_as(alloc, role, written.as_slice(), message);
    drop(written);
    is_same
}

fn answer_to_message(alloc: Global, role: Role, bytes: &[u8]) -> Result<Answer, Refusal> {
    match read(alloc, role, bytes) {
        Ok(None) => Ok(Answer::Asks),
        Ok(Some((message, len))) => {
            let is_same = message_stays(alloc, role, &message);
            drop(message);
            read_as(is_same, len)
        }
        Err(Refusal::OutOfMemory) => Err(Refusal::OutOfMemory),
        Err(why) => Ok(Answer::Refuses(why.number())),
    }
}

fn answer_to(alloc: Global, reader: Reader, bytes: &[u8]) -> Result<Answer, Refusal> {
    match reader {
        Reader::Dialer => answer_to_message(alloc, Role::Dialer, bytes),
        Reader::Acceptor => answer_to_message(alloc, Role::Acceptor, bytes),
        Reader::Connected => answer_to_frame(alloc, bytes),
    }
}

/// The count of each answer to an item's bytes.
#[derive(Clone, Copy)]
struct Counts {
    asks: u64,
    reads: u64,
    refuses: u64,
    wrong: u64,
}

impl Counts {
    // An answer of the codec to some of an item's bytes, of which there are so many.
    fn count(&mut self, answer: Answer, len: usize) {
        match answer {
            Answer::Asks => self.asks = self.asks.saturating_add(1),
            Answer::Reads(taken) if taken <= len => self.reads = self.reads.saturating_add(1),
            Answer::Refuses(_) => self.refuses = self.refuses.saturating_add(1),
            Answer::Reads(_) | Answer::Changes => self.wrong = self.wrong.saturating_add(1),
        }
    }

    // An answer other than the due one.
    fn expect(&mut self, is_due: bool) {
        if !is_due {
            self.wrong = self.wrong.saturating_add(1);
        }
    }
}

fn cut(alloc: Global, sample: Sample, counts: &mut Counts) -> Result<(), Refusal> {
    let len = sample.bytes.len();
    counts.expect(answer_to(alloc, sample.reader, sample.bytes)? == Answer::Reads(len));
    for less in 0..len {
        counts.expect(answer_to(alloc, sample.reader, &sample.bytes[..less])? == Answer::Asks);
    }
    Ok(())
}

fn replace(
    alloc: Global,
    reader: Reader,
    bytes: &mut [u8],
    at: usize,
    counts: &mut Counts,
) -> Result<(), Refusal> {
    let Some(old) = bytes.get(at).copied() else {
        return Ok(());
    };
    for value in 0..=u8::MAX {
        if value != old {
            if let Some(byte) = bytes.get_mut(at) {
                *byte = value;
            }
            counts.count(answer_to(alloc, reader, bytes)?, bytes.len());
        }
    }
    if let Some(byte) = bytes.get_mut(at) {
        *byte = old;
    }
    Ok(())
}

fn counts_of(alloc: Global, sample: Sample) -> Result<Counts, Refusal> {
    let mut counts = Counts {
        asks: 0,
        reads: 0,
        refuses: 0,
        wrong: 0,
    };
    cut(alloc, sample, &mut counts)?;
    let mut bytes = Vec::from_slice(alloc, sample.bytes)?;
    for at in 0..sample.bytes.len() {
        replace(alloc, sample.reader, bytes.as_mut_slice(), at, &mut counts)?;
    }
    Ok(counts)
}

/// Reads each item, and prints the count of each answer. Returns if no answer is wrong.
pub fn read_all(rt: &HostRuntime) -> Result<bool> {
    let mut are_right = true;
    for sample in ALL {
        let Counts {
            asks,
            reads,
            refuses,
            wrong,
        } = counts_of(rt.alloc(), *sample)?;
        println!(rt;
            "{}: with a byte replaced {asks} not whole, {reads} read, {refuses} refused; {wrong} wrong",
            sample.name
        )?;
        are_right = are_right && wrong == 0;
    }
    Ok(are_right)
}
