//! A message of the handshake or a frame, told by the first bytes of an item.
ghost use Rattle.std.specs.Prelude.{◌≡◌};
ghost use Rattle.node_frames.specs.Beginnings.{begins_message, third_tells};

// Tells a message from a frame by the fifth byte of an item. `rest` has the bytes behind its first two.
fn third_tells(rest: &[u8]) -> Option<bool>
    ensures { result ≡ third_tells rest.now }
{
    match rest {
        [_, _, fifth, ..] => Some(*fifth != 112),
        _ => None,
    }
}

/// Returns true if the item that begins with `bytes` is a message of the handshake, and false if it is a
/// frame. None where these bytes are too few to tell: fewer than two, or, where the number that the first
/// two make is 2 to 16, fewer than five. (ERTS User's Guide, Distribution Protocol, Distribution Handshake
/// and Protocol between Connected Nodes.)
///
/// A message has its length in two bytes before it, and a frame in four. A frame has at most 1,048,576 bytes
/// behind its length, so its first two bytes make 16 at most. The shortest messages, most of the statuses,
/// have such lengths too. The fifth byte of a frame is 112, and that of none of these messages is.
pub fn begins_message(bytes: &[u8]) -> Option<bool>
    ensures { result ≡ begins_message bytes.now }
{
    match bytes {
        [a, b, rest @ ..] => {
            let number = 256 * u32::from(*a) + u32::from(*b);
            if number > 16 {
                Some(true)
            } else if number > 1 {
                third_tells(rest)
            } else {
                Some(false)
            }
        }
        _ => None,
    }
}
