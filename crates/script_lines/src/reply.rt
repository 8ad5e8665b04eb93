//! The last reply of a script.
ghost use Rattle.std.specs.Prelude.{◌≡◌, [], IfOk, OnOk};
ghost use Rattle.std.specs.Option.{option_copied};
ghost use Rattle.script_lines.specs.Replies.{expected, is_met, reply_after};
ghost use Rattle.script_lines.specs.Said.{said};
ghost use Rattle.script_terms.specs.Binding.{Knows, Look};

use crate::breaks::last_line;
use crate::line::Line;
use crate::words::{first_word, text_at};
use script_terms::{Names, filled};
use std::alloc::{AllocError, Global};

/// The last line that a command of a script has printed, without its line break. It is empty before the
/// first.
#[derive(Debug, Drop)]
pub struct Reply {
    line: Vec<u8>,
}

impl Reply {
    /// Creates the reply before any command. Never allocates.
    pub fn new(alloc: Global) -> Reply
        ensures { result.line.items ≡ [] }
    {
        Reply {
            line: Vec::new(alloc),
        }
    }

    /// Returns a copy, which is the same line.
    ///
    /// # Errors
    /// [`AllocError`] if out of memory.
    pub fn copy(&self, alloc: Global) -> Result<Reply, AllocError>
        ensures { IfOk result (λ copy. copy.line.items ≡ self.now.line.items) }
    {
        let mut line = Vec::new(alloc);
        line.extend_from_slice(&self.line)?;
        Ok(Reply { line })
    }

    /// Takes the last line of `text`, the output of a command. A text without a line changes nothing.
    ///
    /// # Errors
    /// [`AllocError`] if out of memory.
    pub fn follow(&mut self, text: &[u8]) -> Result<(), AllocError>
        ensures { OnOk result (self.new.line.items ≡ reply_after text.now self.old.line.items) }
    {
        match last_line(text) {
            [] => Ok(()),
            line => {
                self.line.clear();
                self.line.extend_from_slice(line)
            }
        }
    }

    /// Returns true if the reply is `words`, with the printed form of the named process or reference in the
    /// place of each `$name` outside of quotes.
    ///
    /// # Errors
    /// [`AllocError`] if out of memory.
    pub fn is(&self, alloc: Global, names: &Names, words: &str) -> Result<bool, AllocError>
        ensures { (look : Look) → Knows names.now look → IfOk result (λ met. met ≡ is_met look self.now.line.items words.now) }
    {
        let wanted = filled(alloc, names, words)?;
        Ok(wanted.as_slice() == self.line.as_slice())
    }

    /// Appends the reply that `line`, which begins with `expect`, wants, and below it the reply itself.
    ///
    /// # Errors
    /// [`AllocError`] if out of memory.
    pub fn put_unmet(
        &self,
        alloc: Global,
        out: &mut String,
        names: &Names,
        line: &[u8],
    ) -> Result<(), AllocError> {
        let Ok(line) = str::from_utf8(line) else {
            return Ok(());
        };
        let (_, rest) = first_word(line);
        let Ok(words) = text_at(rest) else {
            return Ok(());
        };
        let wanted = filled(alloc, names, words)?;
        out.push_str("the reply isn't the line that was expected\n  expected: ")?;
        put_bytes(out, wanted.as_slice())?;
        if self.line.is_empty() {
            return out.push_str("\n  but no command has printed a line");
        }
        out.push_str("\n  but came: ")?;
        put_bytes(out, self.line.as_slice())
    }
}

// Appends bytes that are text.
fn put_bytes(out: &mut String, bytes: &[u8]) -> Result<(), AllocError> {
    match str::from_utf8(bytes) {
        Ok(text) => out.push_str(text),
        Err(_) => Ok(()),
    }
}

/// Returns the words that a line expects, if it is an `expect` line.
pub fn expected(line: Line<'_>) -> Option<&str>
    ensures { option_copied result ≡ expected (said line.entry) }
{
    match line {
        Line::Expect { words } => Some(words),
        _ => None,
    }
}
