//! Lines are read.
ghost use Rattle.std.specs.Prelude.{◌≡◌};
ghost use Rattle.script_lines.specs.Lines.{ReadsSome};
ghost use Rattle.script_terms.specs.Binding.{Knows, Look};
ghost use Rattle.script_threads.specs.Reading.{is_missing, says};

use script_lines::{Line, MayCome, Reason, Verb, read_line, verb_in};
use script_terms::Names;

// Returns true if nodes in threads have no such command: they take by themselves the items that come.
fn is_missing(verb: Option<Verb>) -> bool
    ensures { result ≡ is_missing verb }
{
    match verb {
        Some(Verb::Pair) => true,
        Some(Verb::Deliver) => true,
        Some(Verb::Local) => true,
        Some(Verb::Travels) => true,
        Some(Verb::Why) => true,
        Some(Verb::Sweep) => true,
        Some(Verb::Challenge) => true,
        _ => false,
    }
}

/// Returns the meaning of a line, or [`None`] if it is a comment or has no words. Never allocates.
///
/// # Errors
/// The first reason that fits, where the line is a bad one.
pub(crate) fn read<'a>(
    may_come: MayCome,
    names: &'a Names,
    line: &'a [u8],
) -> Result<Option<Line<'a>>, Reason>
    ensures { (look : Look) → Knows names.now look → ReadsSome (says may_come look line.now) result }
{
    if is_missing(verb_in(line)) {
        return Err(Reason::UnknownCommand);
    }
    read_line(may_come, names, line)
}
