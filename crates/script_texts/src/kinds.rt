//! The words for what travels, what is swept and what breaks a side.
ghost use Rattle.std.specs.Prelude.{◌≡◌};
ghost use Rattle.script_texts.specs.Words.{fault_name, frame_fault_name, kind_name, swept_name};

use conn_core::Fault;
use dist_model::{Kind, Swept};
use erl_control::FrameFault;
use erl_term::Refusal;

/// The word for a kind of item.
pub fn kind_name(kind: Kind) -> &'static str
    ensures { result.now ≡ kind_name kind }
{
    match kind {
        Kind::SendName => "send_name",
        Kind::Status => "status",
        Kind::Challenge => "challenge",
        Kind::ChallengeReply => "challenge_reply",
        Kind::ChallengeAck => "challenge_ack",
        Kind::Tick => "tick",
        Kind::Link => "link",
        Kind::Send => "send",
        Kind::RegSend => "reg_send",
        Kind::Exit => "exit",
        Kind::Exit2 => "exit2",
        Kind::Monitor => "monitor",
        Kind::Demonitor => "demonitor",
        Kind::MonitorExit => "monitor_exit",
        Kind::Unlink => "unlink",
        Kind::UnlinkAck => "unlink_ack",
    }
}

/// The word for what a sweep took.
pub fn swept_name(swept: Swept) -> &'static str
    ensures { result.now ≡ swept_name swept }
{
    match swept {
        Swept::Link => "link",
        Swept::Watch => "watch",
        Swept::Registration => "registration",
        Swept::Side => "side",
    }
}

fn frame_fault_name(fault: FrameFault) -> &'static str
    ensures { result.now ≡ frame_fault_name fault }
{
    match fault {
        FrameFault::NotPassThrough => "NotPassThrough",
        FrameFault::BadControl => "BadControl",
        FrameFault::TooLong => "TooLong",
        FrameFault::Term(_) => "Term",
    }
}

/// The name of what broke a side.
pub fn fault_name(fault: Fault) -> &'static str
    ensures { result.now ≡ fault_name fault }
{
    match fault {
        Fault::Shake(fault) => fault.name(),
        Fault::Frame(fault) => frame_fault_name(fault),
        Fault::Forged => Refusal::Forged.name(),
    }
}
