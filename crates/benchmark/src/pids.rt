ghost use Rattle.std.specs.Prelude.{◌≡◌, IfOk};
ghost use Rattle.benchmark.specs.Processes.{first_pid};

use anyhow::{Result, ensure};
use erl_term::{Atom, Pid};
use std::alloc::Global;

/// A process of the first incarnation of a node.
pub fn pid(alloc: Global, node: &str, id: u32) -> Result<Pid>
    ensures { IfOk result (λ p. p ≡ first_pid node.now id) }
{
    let node = String::from_str(alloc, node)?;
    ensure!(Atom::fits(node.as_str()), "{node} is too long");
    Ok(Pid {
        node: Atom::new(node)?,
        creation: 1,
        id,
        serial: 0,
    })
}
