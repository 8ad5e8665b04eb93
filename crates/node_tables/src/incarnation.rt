//! The running incarnation of a node.
ghost use Rattle.std.specs.Prelude.{◌≡◌, true, length};

use crate::life::Life;
use erl_names::Mint;

/// The incarnation of a node, which runs or has stopped: what it has drawn, and the processes that it
/// has spawned, each with its links. Looking a process up is an index. (Reference Manual, Processes.)
#[derive(Drop)]
pub struct Incarnation {
    pub(crate) mint: Mint,
    pub(crate) up: bool,
    /// The process of the id n at place n - 1.
    pub(crate) held: Vec<Life>,
    ghost spawned: { up ≡ true → length held.items ≡ mint.pids },
}
