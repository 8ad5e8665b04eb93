//! The reasons for which a script ends at a line.
ghost use Rattle.std.specs.Prelude.{◌≡◌};
ghost use Rattle.script_lines.specs.Naming.{reason_of};

use script_terms::TermFault;
use thiserror::Error;

/// The reason for which a script ends at a line. The first reason that fits, in this order, is given.
#[derive(Clone, Copy, Debug, PartialEq, Eq, Error)]
pub enum Reason {
    /// The line has more than 65,536 bytes.
    #[error("too long")]
    TooLong,
    /// The line isn't UTF-8.
    #[error("not text")]
    NotText,
    /// There is no such command.
    #[error("unknown command")]
    UnknownCommand,
    /// The command takes other words, or another number of them, or isn't taken here.
    #[error("wrong words")]
    WrongWords,
    /// A word hasn't the form of a name, of a node's name or of a cookie.
    #[error("bad name")]
    BadName,
    /// Nothing of the kind has that name.
    #[error("unknown name")]
    UnknownName,
    /// Something has that name already.
    #[error("name taken")]
    NameTaken,
    /// The rest of the line is no term.
    #[error("bad term")]
    BadTerm,
    /// The line expects another reply than the last one.
    #[error("not met")]
    Unmet,
}

impl Reason {
    // Of a text that is no term.
    pub(crate) fn of(fault: TermFault) -> Reason
        ensures { result ≡ reason_of fault }
    {
        match fault {
            TermFault::UnknownName => Reason::UnknownName,
            TermFault::BadTerm => Reason::BadTerm,
        }
    }
}
