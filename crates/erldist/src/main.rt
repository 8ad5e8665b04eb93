//! `erldist`: Erlang nodes in one process, driven by a script.
//!
//! The script comes from a file or on standard input, one command a line. Its output goes to standard
//! output. [`read_options`] reads the command line. [`run_script`] runs the script; [`run_telling`] writes its
//! events instead, [`run_drawing`] a drawing of them, and [`run_threads`] gives its nodes threads.
//! [`run_repeating`] does so too, and writes a script that repeats the run. With `--check` scripts are run for
//! their outcomes, which [`Tally`] counts.
//!
//! `erldist decode` tells the items in bytes, in place of a script: [`read_decoding`] reads its command line, and
//! [`run_decoding`] does it.
#![tactic(auto)]

use clap::Error;
use clap::error::ErrorKind;
use item_decoder::{Decoded, DecodingLine, read_decoding, run_decoding};
use script_core::{
    CommandLine, Form, FusedWriter, LineRange, Machine, Options, Outcome, STANDARD_INPUT, Tally,
    put_result, read_options, run_drawing, run_exploring, run_repeating, run_script, run_telling,
    run_threads,
};
use std::alloc::Global;
use std::fs;
use std::io::{self, BufWriter, Read, Write};
use std::process::ExitCode;
use std::rt::Files;

/// The exit status for a bad command line.
const BAD_COMMAND_LINE: u8 = 2;

/// The first word of a command line that decodes bytes.
const DECODE: &str = "decode";

// Runs the script of a reader, and returns its outcome. Appends the fault of a bad line to `advice`.
fn run<M: Machine, R: Read, W: Write>(
    rt: &M,
    alloc: Global,
    reader: &mut R,
    writer: &mut W,
    options: &Options,
    advice: &mut String,
) -> Outcome {
    match options.form {
        Form::Text => run_script(alloc, reader, writer, options, advice),
        Form::Events => run_telling(alloc, reader, writer, options, advice),
        Form::Picture(lines) => {
            let lines = lines.unwrap_or(LineRange::all());
            run_drawing(alloc, reader, writer, options, lines, advice)
        }
        Form::Threads => run_threads(rt, alloc, reader, writer, options, advice),
        Form::Script => run_repeating(rt, alloc, reader, writer, options, advice),
    }
}

// Runs the script of a file, or of standard input for the path `-`. A fault of the file is an error.
fn run_file<R: Input + Files + Machine, W: Write>(
    rt: &R,
    alloc: Global,
    path: &str,
    writer: &mut W,
    options: &Options,
    advice: &mut String,
) -> io::Result<Outcome> {
    if path == STANDARD_INPUT {
        let mut reader = rt.reader();
        return Ok(run(rt, alloc, &mut reader, writer, options, advice));
    }
    let mut reader = fs::open(rt, path)?;
    Ok(run(rt, alloc, &mut reader, writer, options, advice))
}

// Explores the script of a file, or of standard input for the path `-`. A fault of the file is an error.
fn explore_file<R: Input + Files, W: Write>(
    rt: &R,
    alloc: Global,
    path: &str,
    writer: &mut W,
    options: &Options,
    most: u64,
    advice: &mut String,
) -> io::Result<Outcome> {
    if path == STANDARD_INPUT {
        let mut reader = rt.reader();
        return Ok(run_exploring(alloc, &mut reader, writer, options, most, advice));
    }
    let mut reader = fs::open(rt, path)?;
    Ok(run_exploring(alloc, &mut reader, writer, options, most, advice))
}

/// Runs one script, and returns the exit status. Writes nothing after a failed write.
fn run_one<R: Input + Files + Print + Eprint + Machine>(
    rt: &R,
    alloc: Global,
    path: &str,
    options: &Options,
    most: Option<u64>,
) -> u8 {
    let Ok(mut writer) = BufWriter::new(alloc, FusedWriter::new(io::writer(rt))) else {
        return Outcome::OutOfMemory.status();
    };
    let mut advice = String::new(alloc);
    let ran = match most {
        Some(most) => explore_file(rt, alloc, path, &mut writer, options, most, &mut advice),
        None => run_file(rt, alloc, path, &mut writer, options, &mut advice),
    };
    let outcome = match ran {
        Ok(outcome) => outcome,
        Err(fault) => {
            let _ = eprintln!(rt; "erldist: {path} can't be read: {fault}");
            return Outcome::Failed.status();
        }
    };
    if let Outcome::BadLine(line, reason) = outcome {
        let _ = if advice.is_empty() {
            eprintln!(rt; "line {line}: {reason}")
        } else {
            eprintln!(rt; "line {line}: {reason}: {advice}")
        };
    } else if outcome == Outcome::Failed && !advice.is_empty() {
        let _ = eprintln!(rt; "erldist: {advice}");
    }
    outcome.status()
}

// Runs one script for its outcome, and prints a line about it.
fn check_one<R: Input + Files + Print + Machine>(
    rt: &R,
    alloc: Global,
    path: &str,
    options: &Options,
    tally: &mut Tally,
) -> Result<(), Outcome> {
    let mut advice = String::new(alloc);
    let mut text = String::new(alloc);
    let told = match run_file(rt, alloc, path, &mut io::sink(), options, &mut advice) {
        Ok(outcome) => {
            tally.count(outcome);
            put_result(&mut text, path, outcome, advice.as_str())
        }
        Err(fault) => {
            tally.count(Outcome::Failed);
            write!(text, "failed {path}: it can't be read: {fault}")
        }
    };
    if told.is_err() {
        return Err(Outcome::OutOfMemory);
    }
    match println!(rt; "{text}") {
        Ok(()) => Ok(()),
        Err(_) => Err(Outcome::Failed),
    }
}

/// Runs each script for its outcome, prints a line about each and their number, and returns the exit status.
fn check<R: Input + Files + Print + Machine>(
    rt: &R,
    alloc: Global,
    files: &[&str],
    options: &Options,
) -> u8 {
    let mut tally = Tally::new();
    for path in files {
        if let Err(outcome) = check_one(rt, alloc, path, options, &mut tally) {
            return outcome.status();
        }
    }
    let Tally { passed, failed } = tally;
    match println!(rt; "{passed} passed, {failed} failed") {
        Ok(()) => tally.status(),
        Err(_) => Outcome::Failed.status(),
    }
}

/// Carries out the command line, and returns the exit status.
fn carry_out<R: Input + Files + Print + Eprint + Machine>(
    rt: &R,
    alloc: Global,
    line: &CommandLine<'_>,
) -> u8 {
    if line.check {
        return check(rt, alloc, &line.files, &line.options);
    }
    match line.files.first() {
        Some(path) => run_one(rt, alloc, path, &line.options, line.explore),
        None => Outcome::Ran.status(),
    }
}

/// Prints the fault for which the command line can't be read, and returns the exit status.
fn unread<R: Eprint>(rt: &R, fault: &io::Error) -> u8 {
    if fault.kind() == io::ErrorKind::OutOfMemory {
        return Outcome::OutOfMemory.status();
    }
    let _ = eprintln!(rt; "erldist: the command line can't be read: {fault}");
    BAD_COMMAND_LINE
}

/// Prints the help, the version or the fault of the command line, and returns the exit status.
fn answered<R: Print + Eprint>(rt: &R, fault: &Error) -> u8 {
    if fault.kind() == ErrorKind::OutOfMemory {
        return Outcome::OutOfMemory.status();
    }
    match fault.print(rt) {
        Err(e) if e.kind() == io::ErrorKind::OutOfMemory => Outcome::OutOfMemory.status(),
        Err(_) if fault.exit_code() == 0 => Outcome::Failed.status(),
        _ => fault.exit_code() as u8,
    }
}

// Decodes the bytes of a file, or of standard input for the path `-`. A fault of the file is an error.
fn decode_file<R: Input + Files, W: Write>(
    rt: &R,
    alloc: Global,
    line: &DecodingLine<'_>,
    writer: &mut W,
) -> io::Result<Decoded> {
    if line.file == STANDARD_INPUT {
        let mut reader = rt.reader();
        return Ok(run_decoding(alloc, &mut reader, writer, line.decoding));
    }
    let mut reader = fs::open(rt, line.file)?;
    Ok(run_decoding(alloc, &mut reader, writer, line.decoding))
}

// Prints the fault of a bad line.
fn tell_bad_line<R: Eprint>(rt: &R, alloc: Global, decoded: Decoded) {
    if let Decoded::BadLine(number, fault) = decoded {
        let mut words = String::new(alloc);
        let _ = fault.put(&mut words);
        let _ = eprintln!(rt; "line {number}: {words}");
    }
}

/// Decodes bytes, and returns the exit status. Writes nothing after a failed write.
fn decode<R: Input + Files + Print + Eprint>(rt: &R, alloc: Global, line: &DecodingLine<'_>) -> u8 {
    let Ok(mut writer) = BufWriter::new(alloc, FusedWriter::new(io::writer(rt))) else {
        return Decoded::OutOfMemory.status();
    };
    match decode_file(rt, alloc, line, &mut writer) {
        Ok(decoded) => {
            tell_bad_line(rt, alloc, decoded);
            decoded.status()
        }
        Err(fault) => {
            let path = line.file;
            let _ = eprintln!(rt; "erldist: {path} can't be read: {fault}");
            Decoded::Failed.status()
        }
    }
}

/// Carries out a command line of `decode`, whose first word that is, and returns the exit status.
fn carry_out_decode<R: Input + Files + Print + Eprint>(
    rt: &R,
    alloc: Global,
    words: &[String],
) -> u8 {
    match read_decoding(alloc, words) {
        Ok(line) => decode(rt, alloc, &line),
        Err(fault) => answered(rt, &fault),
    }
}

/// Carries out the words of a command line, and returns the exit status.
fn carry_out_words<R: Input + Files + Print + Eprint + Machine>(
    rt: &R,
    alloc: Global,
    words: &[String],
) -> u8 {
    if let [_, rest @ ..] = words
        && let Some(first) = rest.first()
        && first.as_str() == DECODE
    {
        return carry_out_decode(rt, alloc, rest);
    }
    match read_options(alloc, words) {
        Ok(line) => carry_out(rt, alloc, &line),
        Err(fault) => answered(rt, &fault),
    }
}

fn main(rt: HostRuntime) -> ExitCode {
    let alloc = rt.alloc();
    let words = match std::env::args(&rt) {
        Ok(words) => words,
        Err(fault) => return ExitCode::from(unread(&rt, &fault)),
    };
    let words: Vec<String> = match words.collect(alloc) {
        Ok(words) => words,
        Err(_) => return ExitCode::from(Outcome::OutOfMemory.status()),
    };
    ExitCode::from(carry_out_words(&rt, alloc, words.as_slice()))
}
