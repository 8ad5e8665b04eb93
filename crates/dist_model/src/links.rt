//! The links of a process, as an answer tells them.

use erl_term::Pid;
use link_core::End;
use std::marker::Model;

/// The links of a process: each partner with the end that the process holds, in the order of the
/// partners. Contracts see the list of them.
#[derive(Debug, Drop)]
pub struct Links {
    /// Each partner and its end.
    pub entries: Vec<(Pid, End)>,
}

impl Model for Links {
    ghost use Rattle.std.specs.Prelude.{List};
    ghost use Rattle.erl_term.specs.declared.term.Pid.{Pid};
    ghost use Rattle.link_core.specs.declared.end.End.{End};

    ghost Value = { List (Pid × End) };

    ghost view = { λ l. l.entries.items };
}
