//! What an item is, told by its bytes.
ghost use Rattle.std.specs.Prelude.{◌≡◌};
ghost use Rattle.node_frames.specs.Kinds.{byte_at, frame_kind, kind_in, message_kind, named_kind, number_at, signal_kind};

use crate::beginning::begins_message;
use dist_model::Kind;

fn byte_at(bytes: &[u8], place: usize) -> u8
    ensures { result ≡ byte_at bytes.now place }
{
    match bytes.get(place) {
        Some(byte) => *byte,
        None => 0,
    }
}

fn number_at(bytes: &[u8], place: u8) -> u32
    ensures { result ≡ number_at bytes.now place }
{
    let place = usize::from(place);
    256 * u32::from(byte_at(bytes, place)) + u32::from(byte_at(bytes, place + 1))
}

fn named_kind(bytes: &[u8]) -> Kind
    ensures { result ≡ named_kind bytes.now }
{
    if number_at(bytes, 19) as usize + 21 == bytes.len() {
        Kind::Challenge
    } else {
        Kind::SendName
    }
}

fn message_kind(letter: u8, bytes: &[u8]) -> Option<Kind>
    ensures { result ≡ message_kind letter bytes.now }
{
    match letter {
        b's' => Some(Kind::Status),
        b'r' => Some(Kind::ChallengeReply),
        b'a' => Some(Kind::ChallengeAck),
        b'N' => Some(named_kind(bytes)),
        _ => None,
    }
}

fn signal_kind(tag: u8) -> Option<Kind>
    ensures { result ≡ signal_kind tag }
{
    match tag {
        1 => Some(Kind::Link),
        2 => Some(Kind::Send),
        6 => Some(Kind::RegSend),
        3 | 24 => Some(Kind::Exit),
        8 | 26 => Some(Kind::Exit2),
        19 => Some(Kind::Monitor),
        20 => Some(Kind::Demonitor),
        21 | 28 => Some(Kind::MonitorExit),
        35 => Some(Kind::Unlink),
        36 => Some(Kind::UnlinkAck),
        _ => None,
    }
}

fn frame_kind(bytes: &[u8]) -> Option<Kind>
    ensures { result ≡ frame_kind bytes.now }
{
    if bytes.len() == 4 {
        Some(Kind::Tick)
    } else {
        signal_kind(byte_at(bytes, 9))
    }
}

/// Returns the kind of the item that is sent as these bytes. None where no item is.
pub fn kind_in(bytes: &[u8]) -> Option<Kind>
    ensures { result ≡ kind_in bytes.now }
{
    if begins_message(bytes)? {
        message_kind(byte_at(bytes, 2), bytes)
    } else {
        frame_kind(bytes)
    }
}
