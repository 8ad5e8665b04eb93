//! What an exit signal does to a process.
ghost use Rattle.std.specs.Prelude.{◌≡◌, IfOk, codes};
ghost use Rattle.erl_term.specs.View.{view};
ghost use Rattle.exit_core.specs.Reaction as table;

use crate::messages::{exit_message, named};
use crate::process::Proc;
use erl_term::{Payload, Pid, Term};
use std::alloc::{AllocError, Global};

/// An exit signal as it comes to a process.
#[derive(Debug, Drop)]
pub struct ExitSignal {
    /// The process that sent it.
    pub sender: Pid,
    /// Why.
    pub reason: Payload,
    /// Whether it came of a link, as EXIT and a lost connection do, and EXIT2 doesn't.
    pub link: bool,
    /// Whether the receiver holds its link to the sender active.
    pub is_active: bool,
    /// Whether the sender is the receiver.
    pub is_own: bool,
}

/// The reaction of a process to an exit signal.
#[derive(Debug, Drop)]
pub enum Reaction {
    /// Nothing.
    Ignore,
    /// The process gets this message.
    Put(Payload),
    /// The process ends with this reason.
    End(Payload),
}

impl Proc {
    /// Returns the reaction of the process to the exit signal, and doesn't change the process.
    ///
    /// The first that holds: a signal of a link that isn't active is ignored; the reason kill, not
    /// of a link, ends the process with killed; a process that traps exits gets
    /// {'EXIT',Sender,Reason}; normal from another process is ignored; else the process ends with
    /// the reason. (Reference Manual, Processes, Receiving Exit Signals.)
    ///
    /// # Errors
    /// Where there is no memory for a message, or for the reason killed.
    pub fn react(&self, alloc: Global, signal: ExitSignal) -> Result<Reaction, AllocError>
        ensures { IfOk result (λ r. r ≡ table.reaction self.now.trap signal) }
    {
        let ExitSignal {
            sender,
            reason,
            link,
            is_active,
            is_own,
        } = signal;
        if link && !is_active {
            return Ok(Reaction::Ignore);
        }
        if !link && is_atom(&reason, "kill") {
            return Ok(Reaction::End(named(alloc, "killed")?));
        }
        if self.trap {
            return Ok(Reaction::Put(exit_message(alloc, sender, reason)?));
        }
        if is_atom(&reason, "normal") && !is_own {
            return Ok(Reaction::Ignore);
        }
        Ok(Reaction::End(reason))
    }
}

/// Whether the term is the atom of this name.
fn is_atom(payload: &Payload, name: &str) -> bool
    ensures { result ≡ table.is_atom name.now payload.now }
{
    match payload.term() {
        Term::Atom(atom) => atom.text() == name,
        _ => false,
    }
}
