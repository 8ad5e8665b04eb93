//! The command line.
use crate::near_misses::remedy_for;
use crate::ranges::range_of;
use clap::error::ErrorKind;
use clap::{Arg, ArgAction, ArgMatches, Command, Error};
use run_diagrams::LineRange;
use run_traces::Trace;
use std::alloc::{AllocError, Global};

/// The form of a script's output.
#[derive(Clone, Copy, Debug, PartialEq, Eq)]
pub enum Form {
    /// The text that its commands print.
    Text,
    /// A line of JSON for each event.
    Events,
    /// A drawing in SVG of the events of these lines. [`None`] stands for all lines, or with `--explore` for those
    /// from the first on in which the scripts of the outcomes differ.
    Picture(Option<LineRange>),
    /// The text that its commands print, at nodes that have a thread each.
    Threads,
    /// A plain script that repeats the merged run of nodes that have a thread each.
    Script,
}

/// The words of a command line.
#[derive(Debug, Drop)]
pub struct CommandLine<'a> {
    /// The options that are the same for each script.
    pub options: Options,
    /// The paths of the scripts' files, of which `-` is standard input. Without `check` it is one.
    pub files: Vec<&'a str>,
    /// True if each script is run for its outcome alone.
    pub check: bool,
    /// The most steps of a schedule, if the script is explored.
    pub explore: Option<u64>,
}

/// The options of a script.
#[derive(Clone, Copy, Debug, PartialEq, Eq)]
pub struct Options {
    /// The form in which the items that are sent are printed. A script of a pair prints them in any case.
    pub trace: Trace,
    /// The form of the output.
    pub form: Form,
    /// The first challenge word of the handshakes, 0 to 4,294,967,295; [`DEFAULT_SEED`] if none is given.
    pub seed: u32,
}

/// The first challenge word of the handshakes if none is given.
pub const DEFAULT_SEED: u32 = 1;

const ABOUT: &str = "Erlang nodes in one process, driven by a script";

/// The path of standard input.
pub const STANDARD_INPUT: &str = "-";

/// More files than one are for `--check` alone.
const MANY_FILES: &str =
    "one FILE is run at a time: write '--check' before the files to run each for its outcome";

/// More files than one are none for `--explore`.
const MANY_EXPLORED: &str =
    "one FILE is explored at a time: write '--explore=MOST FILE', or '--explore MOST FILE'";

/// A number behind `--explore` is no file.
const MOST_ALONE: &str =
    "write '--explore=20' to explore standard input; './20' is a script's file of that name";

/// The lines of a picture where none are given: all lines.
const ALL_LINES: &str = "1-";

/// The forms of a trace: items in hex, items in hex and in words, or events in JSON.
const TRACES: &[&str] = &["hex", "text", "json"];

/// Events in threads have no one order in which they happen.
const THREADS_AND_EVENTS: &str = "the argument '--threads' cannot be used with '--trace=json'";

/// The words of an item are for runs without threads.
const THREADS_AND_WORDS: &str =
    "the argument '--threads' cannot be used with '--trace=text': write '--trace' for hex";

/// A script that repeats a run is in place of a trace.
const SCRIPT_AND_TRACE: &str =
    "the argument '--script' cannot be used with '--trace': trace the script that it prints";

/// Only a run of threads is repeated by another script.
const SCRIPT_ALONE: &str =
    "the argument '--script' goes with '--threads': write '--threads --script'";

const VERSION: &str = "0.1";

const COMMANDS: &str = "\
'erldist decode' tells the terms, frames and messages of the handshake in bytes; 'erldist decode --help' tells
more.

Commands of a script, one a line:
  node NAME COOKIE [PROFILE]
                     a node; PROFILE is 1, 2 or 3, by default 3; node lines come before all other commands
  pair               two nodes with a process each, p and q, connected; the first command of all
  spawn NODE name    a process, under this name from then on
  send p q TERM      a message to q
  link p q           p links to q
  unlink p q         p takes its link to q back
  monitor p q name   p monitors q; the name is that of the reference
  demonitor p name   p takes the monitor back
  trap p on|off      p traps exits, or ceases to
  exit p q TERM      p asks q to end, as by exit/2
  die p TERM         p ends, as by exit/1
  receive p          the oldest message of p
  links p            the links of p
  monitors p         the monitors of p, and those that others have of it
  alive p            'alive' or 'not alive'
  register p ATOM    p takes a registered name at its node
  unregister p       p gives its registered name up
  whereis NODE ATOM  the process of NODE that has a registered name
  sendname p NODE ATOM TERM
                     a message to the process of NODE that has a registered name
  monitorname p NODE ATOM name
                     p monitors the process of NODE that has a registered name
  ends p q           how p and q hold their links to one another
  dial NODE PEER     NODE dials PEER
  route NODE PEER    the connection of NODE to PEER that is up
  travels NODE PEER  the items in flight to NODE from PEER, the next to come first
  why NODE PEER      the fault by which the last connection of NODE to PEER broke
  lose NODE PEER [CONNECTION]
                     NODE notices that its connection to PEER is lost
  cut NODE PEER      both do
  stop NODE          the node stops
  start NODE         it starts again, in its next incarnation
  deliver NODE PEER [CONNECTION]
                     the next item from PEER comes to NODE
  local NODE         the next item from NODE to itself comes
  sweep NODE         one record of a lost connection is swept
  settle             all of this happens, until nothing more may
  challenge NUMBER   the next challenge of a handshake
  show [all]         the nodes, their processes and the messages that wait; with all their links, monitors
                     and connections, and the items in flight too
  expect WORDS       ends the script with status 7 unless the last line that was printed is WORDS; in them
                     $name is the process or the reference
With --explore there are three lines more:
  par                begins the blocks, behind the beginning of the script
  and                parts two blocks; the steps of blocks, and all in flight, come in every order
  end                ends the last block; the questions follow, whose replies are the outcome
With --threads there is no pair, deliver, local, sweep, travels, why or challenge: nodes in threads take what
comes by themselves.

Exit status: 0 the script ran; 2 wrong command line; 3 bad line; 4 no memory, or no threads; 5 the
histories of nodes in threads don't merge; 6 reading or writing failed, or the script has more than
1,048,576 lines, or with --script would have; 7 an 'expect' isn't met, or with --check a script failed.
docs/SCRIPTS.md tells the whole.";

// Adds the options that choose the form of the output.
fn with_forms<'a>(alloc: Global, command: Command<'a>) -> Result<Command<'a>, Error> {
    let trace = Arg::new(alloc, "trace")
        .long("trace")
        .value_name("text|json")
        .help(
            "Print each frame that is sent, in hex, and each connection that breaks; with =text also the frame in words; with =json each event, in place of all else",
        )
        .num_args(0..=1)
        .require_equals(true)
        .default_missing_value("hex")
        .value_parser(TRACES);
    let threads = Arg::new(alloc, "threads")
        .long("threads")
        .help("Give each node a thread of its own, and say at the end that their histories merge")
        .action(ArgAction::SetTrue)
        .conflicts_with("picture")?;
    let picture = Arg::new(alloc, "picture")
        .long("picture")
        .value_name("LINES")
        .help(
            "Draw in SVG all that happens, in place of all else; with =10-40 the events of lines 10 to 40 alone",
        )
        .num_args(0..=1)
        .require_equals(true)
        .default_missing_value(ALL_LINES)
        .conflicts_with("trace")?;
    Ok(command.arg(trace)?.arg(threads)?.arg(picture)?)
}

// Adds the option by which a run of threads is printed as a script.
fn with_script<'a>(alloc: Global, command: Command<'a>) -> Result<Command<'a>, Error> {
    let script = Arg::new(alloc, "script")
        .long("script")
        .help(
            "With --threads print, in place of all else, a script without threads that repeats the run, event by event",
        )
        .action(ArgAction::SetTrue)
        .conflicts_with("picture")?
        .conflicts_with("check")?
        .conflicts_with("explore")?;
    Ok(command.arg(script)?)
}

// Adds the option by which scripts are run for their outcomes.
fn with_check<'a>(alloc: Global, command: Command<'a>) -> Result<Command<'a>, Error> {
    let check = Arg::new(alloc, "check")
        .long("check")
        .help(
            "Run each FILE, print 'passed' or 'failed' for it, and count; a script fails at an 'expect' that isn't met",
        )
        .action(ArgAction::SetTrue)
        .conflicts_with("trace")?
        .conflicts_with("picture")?;
    Ok(command.arg(check)?)
}

// Adds the option by which a script with blocks is explored.
fn with_explore<'a>(alloc: Global, command: Command<'a>) -> Result<Command<'a>, Error> {
    let explore = Arg::new(alloc, "explore")
        .long("explore")
        .value_name("MOST")
        .help(
            "Take the blocks of the script, and all that is in flight, in every order, up to MOST steps, by default 100; print each outcome and its shortest script, or with --picture draw these scripts side by side",
        )
        .num_args(0..=1)
        .require_equals(true)
        .default_missing_value("100")
        .value_parser(clap::value_parser!(u64))
        .conflicts_with("trace")?
        .conflicts_with("threads")?
        .conflicts_with("check")?;
    Ok(command.arg(explore)?)
}

// Adds the seed and the files.
fn with_files<'a>(alloc: Global, command: Command<'a>) -> Result<Command<'a>, Error> {
    let seed = Arg::new(alloc, "seed")
        .long("seed")
        .value_name("N")
        .help("The first challenge word of the handshakes")
        .default_value("1")
        .value_parser(clap::value_parser!(u32));
    let files = Arg::new(alloc, "FILE")
        .value_name("FILE")
        .help("The script; standard input if it is '-' or left out")
        .num_args(0..);
    Ok(command.arg(seed)?.arg(files)?)
}

// Returns the command line's options and their help.
fn command<'a>(alloc: Global) -> Result<Command<'a>, Error> {
    let command = Command::new(alloc, "erldist")
        .about(ABOUT)
        .version(VERSION)
        .after_help(COMMANDS);
    let command = with_forms(alloc, command)?;
    let command = with_script(alloc, command)?;
    let command = with_check(alloc, command)?;
    let command = with_explore(alloc, command)?;
    with_files(alloc, command)
}

// Returns the paths of the scripts: standard input if there is none.
fn files_of<'a>(alloc: Global, matches: &ArgMatches<'a>) -> Result<Vec<&'a str>, AllocError> {
    let mut files = Vec::new(alloc);
    if let Some(paths) = matches.get_strs("FILE") {
        files.extend_from_slice(paths)?;
    }
    if files.is_empty() {
        files.push(STANDARD_INPUT)?;
    }
    Ok(files)
}

// Returns true if a word begins with these characters.
fn has_word(words: &[String], front: &str) -> bool {
    words.iter().any(|word| word.as_str().starts_with(front))
}

// Returns the most steps of a schedule, if the script is explored, or the reason why the files don't fit. Takes
// the number from the files if it stands before the script's.
fn most_of(
    matches: &ArgMatches<'_>,
    words: &[String],
    files: &mut Vec<&str>,
) -> Result<Option<u64>, &'static str> {
    let Some(most) = matches.get_one::<u64>("explore") else {
        return Ok(None);
    };
    let number = match files.first() {
        Some(first) if !has_word(words, "--explore=") => first.parse::<u64>().ok(),
        _ => None,
    };
    match (number, files.len()) {
        (None, 1) => Ok(Some(most)),
        (Some(_), 1) => Err(MOST_ALONE),
        (Some(number), 2) => {
            files.remove(0);
            Ok(Some(number))
        }
        _ => Err(MANY_EXPLORED),
    }
}

// Returns the form in which items are printed.
fn trace_of(matches: &ArgMatches<'_>) -> Trace {
    match matches.get_str("trace") {
        Some("hex") => Trace::Frames,
        Some("text") => Trace::Words,
        _ => Trace::Off,
    }
}

// Returns the form of a picture, or the reason why its lines are none.
fn picture_of(words: &[String], lines: &str) -> Result<Form, &'static str> {
    if has_word(words, "--picture=") {
        Ok(Form::Picture(Some(range_of(lines)?)))
    } else {
        Ok(Form::Picture(None))
    }
}

// Returns the form of a script's output, or the reason why the options exclude each other.
fn form_of(matches: &ArgMatches<'_>, words: &[String]) -> Result<Form, &'static str> {
    let trace = matches.get_str("trace");
    if matches.get_flag("script") {
        return match (matches.get_flag("threads"), trace) {
            (true, None) => Ok(Form::Script),
            (true, Some(_)) => Err(SCRIPT_AND_TRACE),
            (false, _) => Err(SCRIPT_ALONE),
        };
    }
    match (matches.get_flag("threads"), matches.get_str("picture")) {
        (true, _) if trace == Some("json") => Err(THREADS_AND_EVENTS),
        (true, _) if trace == Some("text") => Err(THREADS_AND_WORDS),
        (true, _) => Ok(Form::Threads),
        (false, Some(lines)) => picture_of(words, lines),
        (false, None) if trace == Some("json") => Ok(Form::Events),
        (false, None) => Ok(Form::Text),
    }
}

/// Reads the words of a command line, of which the first is the program's name.
///
/// An error has the text for the user: help or the version that was asked for, or what is wrong with the
/// words.
pub fn read_options<'a>(alloc: Global, words: &'a [String]) -> Result<CommandLine<'a>, Error> {
    let mut command = command(alloc)?;
    if let Some(remedy) = remedy_for(words) {
        return Err(command.error(ErrorKind::UnknownArgument, remedy)?);
    }
    let matches = command.try_get_matches_from_mut(words)?;
    let form = match form_of(&matches, words) {
        Ok(form) => form,
        Err(why) => return Err(command.error(ErrorKind::ArgumentConflict, why)?),
    };
    let mut files = files_of(alloc, &matches)?;
    let explore = match most_of(&matches, words, &mut files) {
        Ok(explore) => explore,
        Err(why) => return Err(command.error(ErrorKind::TooManyValues, why)?),
    };
    let check = matches.get_flag("check");
    if files.len() > 1 && !check {
        return Err(command.error(ErrorKind::TooManyValues, MANY_FILES)?);
    }
    Ok(CommandLine {
        options: Options {
            trace: trace_of(&matches),
            form,
            seed: matches.get_one::<u32>("seed").unwrap_or(DEFAULT_SEED),
        },
        files,
        check,
        explore,
    })
}
