//! The command line of a decoding.
use crate::all::Style;
use crate::running::Decoding;
use crate::stages::Form;
use clap::error::ErrorKind;
use clap::{Arg, ArgAction, ArgMatches, Command, Error};
use std::alloc::Global;

/// The words of the command line of a decoding.
#[derive(Debug, Drop)]
pub struct DecodingLine<'a> {
    /// The form of the input and of the output.
    pub decoding: Decoding,
    /// The path of the input, of which `-` is standard input.
    pub file: &'a str,
}

/// The name of the command, as usage has it.
const NAME: &str = "erldist decode";

const ABOUT: &str = "Tell the terms, frames and messages of the handshake in bytes, a line each";

const KINDS: &str = "\
Kinds of bytes:
  term      terms of the External Term Format, behind the version byte 131
  frame     frames between connected nodes
  dialer    messages of the handshake, as the node that dials reads them
  acceptor  messages of the handshake, as the dialed node reads them
  stream    one direction of a connection, from its first byte on
  any       any of these, told by its first bytes; this is the kind if none is given

Each line of FILE has bytes as hexadecimal digits. Spaces may stand between digits, 0x before a word, and '#'
before a comment on a line of its own. The lines of a stream go on in the next line. With --raw FILE is the
bytes themselves.

A line is printed for each item: the operation of a signal or the name of a message, and its fields. Behind a
message stand the names of its flags. A fault has its place, its number and its name: so many of the first
bytes of the line or of the input are right, and the next isn't. 'cut' says that the bytes end inside an item.

Exit status: 0 all items were read; 2 wrong command line; 3 a line with no hexadecimal digits; 4 no memory; 6
reading or writing failed; 7 a fault was told, or the bytes end inside an item.
docs/DECODING.md tells the whole.";

/// The path of standard input.
const STANDARD_INPUT: &str = "-";

const MANY_FILES: &str =
    "one FILE is decoded at a time, and KIND is term, frame, dialer, acceptor, stream or any";

// Returns the command line's options and their help.
fn command<'a>(alloc: Global) -> Result<Command<'a>, Error> {
    let kind = Arg::new(alloc, "KIND")
        .value_name("KIND")
        .help("The kind of the bytes");
    let file = Arg::new(alloc, "FILE")
        .value_name("FILE")
        .help("The input; standard input if it is '-' or left out");
    let json = Arg::new(alloc, "json")
        .long("json")
        .help("Print an object of JSON for each item")
        .action(ArgAction::SetTrue);
    let tree = Arg::new(alloc, "tree")
        .long("tree")
        .help("Print each field of an item too, with its place and its length")
        .action(ArgAction::SetTrue)
        .conflicts_with("json")?;
    let raw = Arg::new(alloc, "raw")
        .long("raw")
        .help("Read the bytes themselves, in place of hexadecimal digits")
        .action(ArgAction::SetTrue);
    let command = Command::new(alloc, NAME)
        .bin_name(NAME)?
        .about(ABOUT)
        .after_help(KINDS);
    Ok(
        command
            .arg(kind)?
            .arg(file)?
            .arg(json)?
            .arg(tree)?
            .arg(raw)?,
    )
}

// Returns the form of bytes of this kind.
fn form_of(kind: &str) -> Option<Form> {
    match kind {
        "term" => Some(Form::Terms),
        "frame" => Some(Form::Frames),
        "dialer" => Some(Form::ToDialer),
        "acceptor" => Some(Form::ToAcceptor),
        "stream" => Some(Form::Stream),
        "any" => Some(Form::Any),
        _ => None,
    }
}

// Returns the form of the bytes and the path of the input, or the reason why the words are none. One word can be
// either.
fn form_and_file<'a>(
    kind: Option<&'a str>,
    file: Option<&'a str>,
) -> Result<(Form, &'a str), &'static str> {
    let Some(word) = kind else {
        return Ok((Form::Any, STANDARD_INPUT));
    };
    match (form_of(word), file) {
        (Some(form), None) => Ok((form, STANDARD_INPUT)),
        (Some(form), Some(path)) => Ok((form, path)),
        (None, None) => Ok((Form::Any, word)),
        (None, Some(_)) => Err(MANY_FILES),
    }
}

// Returns the style of the lines.
fn style_of(matches: &ArgMatches<'_>) -> Style {
    match (matches.get_flag("json"), matches.get_flag("tree")) {
        (true, _) => Style::Json,
        (false, true) => Style::Tree,
        (false, false) => Style::Words,
    }
}

/// Reads the command line of a decoding, of which the first word is the name of the command.
///
/// # Errors
/// The help if it is asked for, else the fault of the command line with its remedy.
pub fn read_decoding<'a>(alloc: Global, words: &'a [String]) -> Result<DecodingLine<'a>, Error> {
    let mut command = command(alloc)?;
    let matches = command.try_get_matches_from_mut(words)?;
    let words = form_and_file(matches.get_str("KIND"), matches.get_str("FILE"));
    let (form, file) = match words {
        Ok(words) => words,
        Err(fault) => return Err(command.error(ErrorKind::TooManyValues, fault)?),
    };
    Ok(DecodingLine {
        decoding: Decoding {
            form,
            style: style_of(&matches),
            raw: matches.get_flag("raw"),
        },
        file,
    })
}
