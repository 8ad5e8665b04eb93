//! What becomes of the signals that travel from a node to itself.
ghost use Rattle.std.specs.Prelude.{◌≡◌, ◌++◌, ◌+◌, ◌≤◌, length};
ghost use Rattle.std.specs.VecDeque.{deque_capacity, deque_len};
ghost use Rattle.node_plan.specs.Changed as after;

use erl_control::Signal;
use std::collections::VecDeque;

/// The first signal of the own list goes, if it is taken, and others come behind, in the room that was
/// made. Takes no memory. (Reference Manual, Processes, Delivery of Signals.)
#[inline(always)]
pub fn keep(list: &mut VecDeque<Signal>, pops: bool, signals: Vec<Signal>)
    requires { deque_len list.old + length signals.items ≤ deque_capacity list.old }
    ensures { list.new.items ≡ after.popped pops list.old.items ++ signals.items }
{
    if pops {
        drop(list.pop_front());
    }
    let mut more = VecDeque::from(signals);
    match list.append(&mut more) {
        Ok(()) => {}
        Err(_) => unreachable!(),
    }
}
