//! Whether what comes on a connection is whole.
ghost use Rattle.std.specs.Prelude.{◌≡◌, ◌↔◌, IsTrue, true};
ghost use Rattle.std.specs.FinMap as fm;
ghost use Rattle.erl_control.specs.Answer as frames;
ghost use Rattle.erl_handshake.specs.Answer as messages;
ghost use Rattle.node_connections.specs.Fronts.{IsWhole, IsWholeIn};
ghost use Rattle.node_plan.specs.Seen.{seen};
ghost use Rattle.node_tables.specs.Standings.{is_settled, state_of};

use byteorder::{BigEndian, ByteOrder};
use conn_core::Standing;
use erl_control::FRAME_LIMIT;
use erl_names::TrunkId;
use node_plan::Node;

// Whether the message of the handshake at the front is whole.
fn is_message_whole(bytes: &[u8]) -> bool
    ensures { IsTrue result ↔ (¬ messages.IsBegun bytes.now) }
{
    match bytes.split_first_chunk::<2>() {
        Some((field, rest)) => rest.len() >= usize::from(u16::from_be_bytes(*field)),
        None => false,
    }
}

// Whether the frame at the front is whole, or longer than any may be.
fn is_frame_whole(bytes: &[u8]) -> bool
    ensures { IsTrue result ↔ (¬ frames.IsBegun bytes.now) }
{
    if bytes.len() < 4 {
        return false;
    }
    let (field, rest) = bytes.split_at(4);
    let len = BigEndian::read_u32(field) as usize;
    len > FRAME_LIMIT || rest.len() >= len
}

// Whether the front is known to a side that stands so.
fn is_whole_in(standing: Standing, bytes: &[u8]) -> bool
    requires settled { is_settled standing ≡ true }
    ensures { IsTrue result ↔ IsWholeIn (state_of standing) bytes.now }
{
    match standing {
        Standing::Dialing(_) | Standing::Accepting(_) => is_message_whole(bytes),
        Standing::Up { .. } => is_frame_whole(bytes),
        Standing::Losing { .. } | Standing::Gone => true,
    }
}

/// Returns true if bytes that come on a connection begin with a whole item of the node's side of it, or
/// with a front that is none. Then [`arrive`](crate::arrive) asks for no more of them. Takes no memory.
/// (ERTS User's Guide, Distribution Protocol, Distribution Handshake and Protocol between Connected
/// Nodes.)
pub fn is_whole(node: &Node, trunk: &TrunkId, bytes: &[u8]) -> bool
    ensures { IsTrue result ↔ IsWhole (fm.get (seen node.now).sides trunk.now) bytes.now }
{
    match node.side(trunk) {
        Some(side) => is_whole_in(side.standing, bytes),
        None => is_message_whole(bytes),
    }
}
