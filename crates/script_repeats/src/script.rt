//! A script that is written and run, line by line.
ghost use Rattle.std.specs.Prelude.{◌≤◌};

use script_session::Session;

/// The most lines of a script.
pub(crate) const MOST_LINES: usize = 1_048_576;

/// A script that has been written and run as far.
#[derive(Drop)]
pub(crate) struct Repeating {
    /// Its session, behind the lines.
    pub(crate) session: Session,
    /// Its lines.
    pub(crate) text: Vec<u8>,
    /// The number of its lines.
    pub(crate) lines: usize,
    ghost within: { lines ≤ 1048576 },
    /// The number of the acts that have their lines.
    pub(crate) acts: usize,
}
