//! The signals in flight between two processes of a node.
ghost use Rattle.std.specs.Prelude.{◌≡◌, not, ◌||◌};
ghost use Rattle.std.specs.List.{list_all};
ghost use Rattle.std.specs.Option.{option_copied};
ghost use Rattle.dist_model.specs.Quiet.{is_signal_of, names, nothing_between};
ghost use Rattle.node_plan.specs.OwnList.{own_item};
ghost use Rattle.node_plan.specs.Seen.{seen};

use crate::node::Node;
use erl_control::Signal;
use erl_term::Pid;
use node_frames::{receiver, same_pid, sender};
use std::collections::VecDeque;

// Returns true if it is the process that is named.
fn is_named(named: Option<&Pid>, process: &Pid) -> bool
    ensures { result ≡ names process.now (option_copied named.entry) }
{
    match named {
        Some(named) => same_pid(named, process),
        None => false,
    }
}

// Returns true if a signal is one of a process to another.
fn is_signal_of(signal: &Signal, from: &Pid, to: &Pid) -> bool
    ensures { result ≡ is_signal_of from.now to.now (own_item signal.now) }
{
    is_named(sender(signal), from) && is_named(receiver(signal), to)
}

// Returns true if it is one of the two to the other.
fn is_between(signal: &Signal, p: &Pid, q: &Pid) -> bool
    ensures { result ≡ (is_signal_of p.now q.now (own_item signal.now) || is_signal_of q.now p.now (own_item signal.now)) }
{
    is_signal_of(signal, p, q) || is_signal_of(signal, q, p)
}

fn all_pass(signals: &VecDeque<Signal>, p: &Pid, q: &Pid) -> bool
    ensures { result ≡ list_all (λ s. not (is_signal_of p.now q.now (own_item s) || is_signal_of q.now p.now (own_item s))) signals.now.items }
{
    signals.iter().all(|signal| !is_between(signal, p, q))
}

impl Node {
    /// Returns true if nothing is in flight between two processes of this node. Takes no memory.
    pub fn has_nothing_between(&self, p: &Pid, q: &Pid) -> bool
        ensures { result ≡ nothing_between p.now q.now (seen self.now).local }
    {
        all_pass(&self.local, p, q)
    }
}
