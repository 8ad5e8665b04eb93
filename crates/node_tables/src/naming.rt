//! A name for a process, with the copies that its registration needs.
ghost use Rattle.std.specs.Prelude.{◌≡◌, IfOk};

use erl_term::{Atom, Pid};
use std::alloc::AllocError;

/// A name and the process that is to have it. It holds each of the two twice, so that a registration
/// copies nothing. (Reference Manual, Processes, Registered Processes.)
#[derive(Drop)]
pub struct Naming {
    pub(crate) name: Atom,
    pub(crate) process: Pid,
    pub(crate) name_again: Atom,
    pub(crate) process_again: Pid,
    ghost same_name: { name_again ≡ name },
    ghost same_process: { process_again ≡ process },
}

impl Naming {
    /// Copies a name and the process that is to have it, twice each. (Reference Manual, Processes,
    /// Registered Processes.)
    ///
    /// # Errors
    /// [`AllocError`] if out of memory.
    pub fn of(name: &Atom, process: &Pid) -> Result<Naming, AllocError>
        ensures name { IfOk result (λ naming. naming.name ≡ name.now) }
        ensures process { IfOk result (λ naming. naming.process ≡ process.now) }
    {
        Ok(Naming {
            name: name.clone()?,
            process: process.clone()?,
            name_again: name.clone()?,
            process_again: process.clone()?,
        })
    }
}
