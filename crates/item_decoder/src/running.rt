//! Bytes from any reader, and lines about them on any writer.
ghost use Rattle.std.specs.Prelude.{◌≡◌};
ghost use Rattle.item_decoder.specs.declared.running.Decoded.TheVariants.{OutOfMemory};
ghost use Rattle.item_decoder.specs.Outcomes.{decoded_status};

use crate::all::{Style, put_all};
use crate::digits::{DigitFault, bytes_of, is_blank};
use crate::stages::{Form, Next};
use std::alloc::{AllocError, Global};
use std::io::{ErrorKind, Read, Write};

/// The number of bytes that are read at once.
const CHUNK: usize = 16_384;

/// The form of the input and of the output.
#[derive(Clone, Copy, Debug, PartialEq, Eq)]
pub struct Decoding {
    /// The form of the bytes.
    pub form: Form,
    /// The style of the lines.
    pub style: Style,
    /// True if the input is the bytes themselves. Else it has lines of hexadecimal digits.
    pub raw: bool,
}

/// The outcome of a decoding.
#[derive(Clone, Copy, Debug, PartialEq, Eq)]
pub enum Decoded {
    /// All items were read.
    Read,
    /// A fault was told, or that bytes end inside an item.
    Faulty,
    /// The input ends at this line, from 1, which has no hexadecimal digits alone.
    BadLine(u64, DigitFault),
    /// Memory is wanting.
    OutOfMemory,
    /// Reading or writing failed.
    Failed,
}

impl Decoded {
    /// Returns the exit status of the program.
    pub fn status(self) -> u8
        ensures { result ≡ decoded_status self }
    {
        match self {
            Decoded::Read => 0,
            Decoded::BadLine(..) => 3,
            Decoded::OutOfMemory => 4,
            Decoded::Failed => 6,
            Decoded::Faulty => 7,
        }
    }
}

impl From<AllocError> for Decoded {
    ghost from_gives = { λ _ e. e ≡ OutOfMemory };

    fn from(_e: AllocError) -> Decoded {
        Decoded::OutOfMemory
    }
}

/// Bytes that are being decoded.
#[derive(Drop)]
struct Decoder {
    decoding: Decoding,
    next: Next,
    /// The place of the first byte that is left.
    from: u64,
    /// The bytes of an item that may go on.
    left: Vec<u8>,
    /// True if each item so far was read.
    all_read: bool,
    /// The bytes of a line that isn't whole.
    line: Vec<u8>,
    /// The number of that line, from 1.
    number: u64,
}

impl Decoder {
    fn new(alloc: Global, decoding: Decoding) -> Decoder {
        Decoder {
            decoding,
            next: Next::new(decoding.form),
            from: 0,
            left: Vec::new(alloc),
            all_read: true,
            line: Vec::new(alloc),
            number: 1,
        }
    }

    // Appends the lines about the bytes that are left. `ends` says that no others follow.
    fn put_left(&mut self, alloc: Global, out: &mut String, ends: bool) -> Result<(), Decoded> {
        let (style, len) = (self.decoding.style, self.left.len() as u64);
        match self.from.checked_add(len) {
            Some(_) => {}
            None => return Err(Decoded::Failed),
        }
        let progress = put_all(
            alloc,
            out,
            style,
            &mut self.next,
            self.from,
            self.left.as_slice(),
            ends,
        )?;
        self.from += progress.taken as u64;
        self.all_read &= progress.all_read;
        let rest = self.left.get(progress.taken..).unwrap_or(&[]);
        self.left = Vec::from_slice(alloc, rest)?;
        Ok(())
    }

    // Takes the bytes of a line. Those of a stream go on in the next line, and others end.
    fn take_bytes(
        &mut self,
        alloc: Global,
        out: &mut String,
        bytes: Vec<u8>,
    ) -> Result<(), Decoded> {
        if self.decoding.form == Form::Stream {
            self.left.extend_from_slice(bytes.as_slice())?;
            return self.put_left(alloc, out, false);
        }
        self.next = Next::new(self.decoding.form);
        self.from = 0;
        self.left = bytes;
        self.put_left(alloc, out, true)
    }

    // Ends the line of hexadecimal digits, and begins the next.
    fn end_line(&mut self, alloc: Global, out: &mut String) -> Result<(), Decoded> {
        if !is_blank(self.line.as_slice()) {
            match bytes_of(alloc, self.line.as_slice()) {
                Ok(bytes) => self.take_bytes(alloc, out, bytes)?,
                Err(DigitFault::OutOfMemory) => return Err(Decoded::OutOfMemory),
                Err(fault) => return Err(Decoded::BadLine(self.number, fault)),
            }
        }
        self.line.clear();
        self.number = self.number.saturating_add(1);
        Ok(())
    }

    // Takes more of the lines.
    fn take_lines(&mut self, alloc: Global, out: &mut String, chunk: &[u8]) -> Result<(), Decoded> {
        for part in chunk.split_inclusive(|byte| *byte == b'\n') {
            match part.strip_suffix(b"\n") {
                Some(end) => {
                    self.line.extend_from_slice(end)?;
                    self.end_line(alloc, out)?;
                }
                None => self.line.extend_from_slice(part)?,
            }
        }
        Ok(())
    }

    // Takes more of the input.
    fn take(&mut self, alloc: Global, out: &mut String, chunk: &[u8]) -> Result<(), Decoded> {
        if self.decoding.raw {
            self.left.extend_from_slice(chunk)?;
            return self.put_left(alloc, out, false);
        }
        self.take_lines(alloc, out, chunk)
    }

    // Takes the end of the input.
    fn finish(&mut self, alloc: Global, out: &mut String) -> Result<(), Decoded> {
        if !self.decoding.raw {
            self.end_line(alloc, out)?;
        }
        self.put_left(alloc, out, true)
    }

    // Reads to the end of the input, and writes the lines.
    fn run<R: Read, W: Write>(
        &mut self,
        alloc: Global,
        reader: &mut R,
        writer: &mut W,
    ) -> Result<(), Decoded> {
        let mut chunk = [0u8; CHUNK];
        for _ in 0..u64::MAX {
            let mut out = String::new(alloc);
            let (taken, ends) = match reader.read(&mut chunk) {
                Ok(0) => (self.finish(alloc, &mut out), true),
                Ok(len) => (self.take(alloc, &mut out, &chunk[..len]), false),
                Err(error) if error.kind() == ErrorKind::Interrupted => continue,
                Err(_) => return Err(Decoded::Failed),
            };
            write_lines(writer, out.as_str())?;
            taken?;
            if ends {
                return Ok(());
            }
        }
        Err(Decoded::Failed)
    }
}

// Writes and flushes lines.
fn write_lines<W: Write>(writer: &mut W, lines: &str) -> Result<(), Decoded> {
    match writer.write_all(lines.as_bytes()) {
        Ok(()) => {}
        Err(_) => return Err(Decoded::Failed),
    }
    match writer.flush() {
        Ok(()) => Ok(()),
        Err(_) => Err(Decoded::Failed),
    }
}

/// Reads bytes, and writes a line about each item. Lines are written and flushed as soon as their bytes have come.
/// Behind a bad line, and where memory, reading or writing fails, nothing more is read.
pub fn run_decoding<R: Read, W: Write>(
    alloc: Global,
    reader: &mut R,
    writer: &mut W,
    decoding: Decoding,
) -> Decoded {
    let mut decoder = Decoder::new(alloc, decoding);
    match decoder.run(alloc, reader, writer) {
        Ok(()) if decoder.all_read => Decoded::Read,
        Ok(()) => Decoded::Faulty,
        Err(failed) => failed,
    }
}
