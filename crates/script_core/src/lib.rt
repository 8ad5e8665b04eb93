//! Scripts: commands that drive Erlang nodes in one process, and their output.
//!
//! [`run_script`] reads a script, one command a line, and writes its output, over any reader and writer.
//! [`run_telling`] writes a line of JSON for each event instead, and [`run_drawing`] a drawing of the run.
//! [`run_threads`] gives each node of the script a thread, and [`run_repeating`] writes a plain script that repeats such
//! a run. [`run_exploring`] takes the blocks of a script in every order. Their [`Outcome`] is the end of the script, with
//! the number of a bad line and its [`Reason`]. [`read_options`] reads the command line.
//! [`FusedWriter`] ends the output at the first failed write. `script_session` defines the commands.
//! [`every_script`] is the law that every script's run is safe. [`every_expectation`] is the law that a
//! script runs through only if what it expects was printed.
#![tactic(auto)]

mod checking;
mod exploring;
mod laws;
mod lines;
mod near_misses;
mod options;
mod ranges;
mod repeating;
mod script;
mod threads;
mod writing;

pub use checking::{Tally, put_result};
pub use exploring::run_exploring;
pub use laws::{every_expectation, every_script};
pub use options::{CommandLine, Form, Options, STANDARD_INPUT, read_options};
pub use repeating::run_repeating;
pub use run_diagrams::LineRange;
pub use run_traces::Trace;
pub use script::{Outcome, run_drawing, run_script, run_telling};
pub use script_lines::Reason;
pub use script_threads::Machine;
pub use threads::run_threads;
pub use writing::FusedWriter;
