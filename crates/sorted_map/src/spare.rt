//! Nodes that were allocated beforehand.

ghost use Rattle.std.specs.Prelude.{◌≡◌, ◌≤◌, ◌+◌, is_ok, if◌then◌else◌, IsOk, OnOk, OnErr};
ghost use Rattle.std.specs.Vec.{vec_len};

use crate::nodes::{Blank, Node, leaf};
use std::alloc::AllocError;

/// Allocates nodes until there are so many to spare.
///
/// # Errors
/// Where there is no memory for it. Then there are as many as before.
pub(crate) fn fill<T: Blank>(spare: &mut Vec<Box<Node<T>>>, wanted: usize) -> Result<(), AllocError>
    ensures filled { OnOk result (wanted ≤ vec_len spare.new) }
    ensures kept { vec_len spare.old ≤ vec_len spare.new }
    ensures succeeds { wanted ≤ vec_len spare.old → IsOk result }
    ensures err { OnErr result (vec_len spare.new ≡ vec_len spare.old) }
{
    let had = spare.len();
    for _ in had..wanted {
        if let Err(refused) = add_spare(spare) {
            spare.truncate(had);
            return Err(refused);
        }
    }
    Ok(())
}

// Allocates one more node to spare.
//
// # Errors
// Where there is no memory for it. Then there are as many as before.
fn add_spare<T: Blank>(spare: &mut Vec<Box<Node<T>>>) -> Result<(), AllocError>
    ensures { vec_len spare.new ≡ (if is_ok result then vec_len spare.old + 1 else vec_len spare.old) }
{
    let alloc = *spare.allocator();
    let node = Box::new(alloc, leaf(T::blank()))?;
    spare.push(node)?;
    Ok(())
}
