//! Scripts that are run for their outcomes.
ghost use Rattle.std.specs.Prelude.{◌≡◌};
ghost use Rattle.script_core.specs.Checking.{counted, tally_status};

use crate::script::Outcome;
use std::alloc::AllocError;

/// The number of scripts that have passed, and of those that have failed.
#[derive(Clone, Copy, Debug, PartialEq, Eq)]
pub struct Tally {
    /// Those that ran through.
    pub passed: u64,
    /// All others.
    pub failed: u64,
}

impl Tally {
    /// Creates the tally of no scripts.
    pub fn new() -> Tally
        ensures { result ≡ record { passed = 0; failed = 0 } }
    {
        Tally {
            passed: 0,
            failed: 0,
        }
    }

    /// Counts a script of this outcome. A script has passed if it ran through.
    pub fn count(&mut self, outcome: Outcome)
        ensures { self.new ≡ counted outcome self.old }
    {
        if outcome == Outcome::Ran {
            self.passed = self.passed.saturating_add(1);
        } else {
            self.failed = self.failed.saturating_add(1);
        }
    }

    /// Returns the exit status of the program: 0 if no script has failed, and else 7.
    pub fn status(self) -> u8
        ensures { result ≡ tally_status self }
    {
        if self.failed == 0 { 0 } else { 7 }
    }
}

/// Appends the line that tells the outcome of the script of a file. `advice` is that on the line at which it
/// ended.
///
/// # Errors
/// [`AllocError`] if out of memory.
pub fn put_result(
    out: &mut String,
    file: &str,
    outcome: Outcome,
    advice: &str,
) -> Result<(), AllocError> {
    match outcome {
        Outcome::Ran => write!(out, "passed {file}"),
        Outcome::BadLine(line, reason) if advice.is_empty() => {
            write!(out, "failed {file}: line {line}: {reason}")
        }
        Outcome::BadLine(line, reason) => {
            write!(out, "failed {file}: line {line}: {reason}: {advice}")
        }
        Outcome::OutOfMemory => write!(out, "failed {file}: out of memory, or no thread"),
        Outcome::Unmerged => write!(out, "failed {file}: the histories of its nodes don't merge"),
        Outcome::Failed => write!(
            out,
            "failed {file}: it can't be read, or has more than 1,048,576 lines"
        ),
    }
}
