//! Names and pids compared.
ghost use Rattle.std.specs.Prelude.{◌≡◌};
ghost use Rattle.std.specs.Option.{option_copied};
ghost use Rattle.dist_model.specs.Names.{same_name, same_pid};
ghost use Rattle.erl_control.specs.Ends.{receiver_of, sender_of};

use erl_control::Signal;
use erl_term::{Atom, Pid};

/// Returns true if the two are one name.
#[tactic(auto, using(crate::proofs::Texts::same_text))]
pub fn same_name(a: &Atom, b: &Atom) -> bool
    ensures { result ≡ same_name a.now b.now }
{
    a == b
}

/// Returns true if the two are one pid.
pub fn same_pid(a: &Pid, b: &Pid) -> bool
    ensures { result ≡ same_pid a.now b.now }
{
    a.cmp(b).is_eq()
}

/// Returns the process that a signal names as its receiver. A signal to a registered name names none.
pub fn receiver(signal: &Signal) -> Option<&Pid>
    ensures { option_copied result ≡ receiver_of signal.now }
{
    match signal {
        Signal::Link { to, .. }
        | Signal::Send { to, .. }
        | Signal::Exit { to, .. }
        | Signal::Exit2 { to, .. }
        | Signal::Monitor { to, .. }
        | Signal::Demonitor { to, .. }
        | Signal::MonitorExit { to, .. }
        | Signal::MonitorNameExit { to, .. }
        | Signal::UnlinkId { to, .. }
        | Signal::UnlinkIdAck { to, .. } => Some(to),
        Signal::RegSend { .. } | Signal::MonitorName { .. } | Signal::DemonitorName { .. } => None,
    }
}

/// Returns the process that a signal names as its sender. A SEND names none, and neither does a
/// MONITOR_P_EXIT from a registered name.
pub fn sender(signal: &Signal) -> Option<&Pid>
    ensures { option_copied result ≡ sender_of signal.now }
{
    match signal {
        Signal::Send { .. } | Signal::MonitorNameExit { .. } => None,
        Signal::Link { from, .. }
        | Signal::RegSend { from, .. }
        | Signal::Exit { from, .. }
        | Signal::Exit2 { from, .. }
        | Signal::Monitor { from, .. }
        | Signal::MonitorName { from, .. }
        | Signal::Demonitor { from, .. }
        | Signal::DemonitorName { from, .. }
        | Signal::MonitorExit { from, .. }
        | Signal::UnlinkId { from, .. }
        | Signal::UnlinkIdAck { from, .. } => Some(from),
    }
}
