//! A process.
ghost use Rattle.std.specs.Prelude.{◌≡◌, IfOk, false, []};

use crate::mailbox::Mailbox;
use std::alloc::{AllocError, Global};

/// A living process, as exit signals and messages find it.
#[derive(Debug, Drop)]
pub struct Proc {
    /// Whether it traps exits: then exit signals become messages. (Reference Manual, Processes,
    /// Receiving Exit Signals.)
    pub trap: bool,
    /// The messages that wait for it.
    pub mailbox: Mailbox,
}

impl Proc {
    /// A process as it is spawned: it doesn't trap exits, and no message waits. Takes no memory.
    pub fn new(alloc: Global) -> Proc
        ensures trap { result.trap ≡ false }
        ensures mailbox { result.mailbox.messages ≡ [] }
    {
        Proc {
            trap: false,
            mailbox: Mailbox::new(alloc),
        }
    }

    /// Returns a copy, which traps exits as the process does, and has the same messages.
    ///
    /// # Errors
    /// If memory runs out.
    pub fn copy(&self, alloc: Global) -> Result<Proc, AllocError>
        ensures trap { IfOk result (λ copy. copy.trap ≡ self.now.trap) }
        ensures mailbox { IfOk result (λ copy. copy.mailbox.messages ≡ self.now.mailbox.messages) }
    {
        Ok(Proc {
            trap: self.trap,
            mailbox: self.mailbox.copy(alloc)?,
        })
    }
}
