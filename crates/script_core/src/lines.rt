//! A runner of a script's lines, or a keeper of them.

use script_lines::Reason;
use script_session::{Session, Stop};
use std::alloc::{AllocError, Global};

/// A runner of a script's lines, or a keeper of them. For a runner that stands for a state (`stands`),
/// the state and the line determine the effect of the line. A keeper (`keeps`) appends each line to those
/// that it keeps. The knowledge of its nodes and names stays.
pub(crate) trait Lines: Drop {
    ghost use Rattle.std.specs.Prelude.{List, string_bytes, ℕ};
    ghost use Rattle.script_core.specs.Lines.{Heeds, Keeps};
    ghost use Rattle.script_session.specs.Session.{State, line_does};
    ghost use Rattle.script_threads.specs.Standing.{Known};

    ghost stands: { Self → State → Type 0 };

    ghost keeps: { Known → Self → List (List ℕ) → Type 0 };

    /// Runs a line and appends its text to `out`, or keeps the line.
    fn line(&mut self, alloc: Global, line: &[u8], out: &mut String) -> Result<(), Stop>
        ensures runs { (state : State) → stands self.old state →
            Heeds stands (line_does state line.now) self.new (string_bytes out.old) (string_bytes out.new) result }
        ensures kept { (known : Known) (lines : List (List ℕ)) → keeps known self.old lines → Keeps (keeps known) lines line.now self.new result };

    /// Puts what is wrong with a bad line behind what is printed.
    fn put_advice(
        &self,
        alloc: Global,
        out: &mut String,
        reason: Reason,
        line: &[u8],
    ) -> Result<(), AllocError>;
}

impl Lines for Session {
    ghost use Rattle.script_session.specs.Stands.{IsSession};

    ghost stands = { IsSession };

    // (it runs its lines)
    ghost keeps = { λ _ _ _. ⊥ };

    fn line(&mut self, alloc: Global, line: &[u8], out: &mut String) -> Result<(), Stop> {
        self.count_line();
        Session::line(self, alloc, line, out)
    }

    fn put_advice(
        &self,
        alloc: Global,
        out: &mut String,
        reason: Reason,
        line: &[u8],
    ) -> Result<(), AllocError> {
        Session::put_advice(self, alloc, out, reason, line)
    }
}
