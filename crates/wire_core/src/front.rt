//! The length at the front of an item.
ghost use Rattle.std.specs.Prelude.{◌≡◌};
ghost use Rattle.wire_core.specs.Fronts.{frame_length, front_length, message_length};

use node_frames::begins_message;

// Returns how many bytes a message of the handshake has that begins so.
fn message_length(bytes: &[u8]) -> Option<usize>
    ensures { result ≡ message_length bytes.now }
{
    match bytes {
        [a, b, ..] => Some(256 * usize::from(*a) + usize::from(*b) + 2),
        _ => None,
    }
}

// Returns how many bytes a frame has that begins so.
fn frame_length(bytes: &[u8]) -> Option<usize>
    ensures { result ≡ frame_length bytes.now }
{
    match bytes {
        [a, b, c, d, ..] => {
            let high = 256 * usize::from(*a) + usize::from(*b);
            Some(65536 * high + (256 * usize::from(*c) + usize::from(*d)) + 4)
        }
        _ => None,
    }
}

/// Returns how many bytes the item has that begins with `bytes`. None where these are too few to tell: fewer
/// than [`begins_message`] needs, or fewer than four of a frame.
pub fn front_length(bytes: &[u8]) -> Option<usize>
    ensures { result ≡ front_length bytes.now }
{
    if begins_message(bytes)? {
        message_length(bytes)
    } else {
        frame_length(bytes)
    }
}
