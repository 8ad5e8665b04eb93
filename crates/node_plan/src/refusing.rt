//! Want of memory as a refusal.
ghost use Rattle.std.specs.Prelude.{◌≡◌};
ghost use Rattle.node_plan.specs.Planned.{refused};

use erl_term::Refusal;
use std::alloc::AllocError;

/// Want of memory is a refusal.
///
/// # Errors
/// [`Refusal::OutOfMemory`] where memory was wanting.
pub fn or_refuse(given: Result<(), AllocError>) -> Result<(), Refusal>
    ensures { result ≡ refused given }
{
    match given {
        Ok(()) => Ok(()),
        Err(_) => Err(Refusal::OutOfMemory),
    }
}
