//! What comes from the peer.
ghost use Rattle.std.specs.Prelude.{◌≡◌};
ghost use Rattle.conn_core.specs.FaultNumbers.{fault_number};
ghost use Rattle.conn_core.specs.Side as table;

use crate::standing::Standing;
use erl_control::{FrameFault, Item};
use erl_handshake::{Next, Progress, ShakeFault, ShakeMsg};
use erl_term::Refusal;

/// A fault that breaks a side of a connection.
#[derive(Clone, Copy, Debug, PartialEq, Eq)]
pub enum Fault {
    /// The handshake ends, for this reason.
    Shake(ShakeFault),
    /// A frame can't be read.
    Frame(FrameFault),
    /// A signal names a process that isn't one of the peer's, or none that was ever spawned here. The
    /// node that takes the signal finds this; no call of a side answers it.
    Forged,
}

impl Fault {
    /// The number of the fault: of frames 6 to 9, of the handshake 10, 11, 13, 14, 15 or 20, of a forged
    /// signal 20.
    pub fn number(self) -> u8
        ensures { result ≡ fault_number self }
    {
        match self {
            Fault::Shake(why) => why.number(),
            Fault::Frame(why) => why.number(),
            Fault::Forged => Refusal::Forged.number(),
        }
    }
}

/// The message or the item that came from the peer, or the fault of its bytes.
#[derive(Debug, Drop)]
pub enum Taken {
    /// A message of the handshake, and what is sent back.
    Message {
        /// The message.
        message: ShakeMsg,
        /// What is sent back.
        send: Option<ShakeMsg>,
    },
    /// What a frame carries.
    Item(Item),
    /// What broke the side.
    Broken(Fault),
}

/// The outcome of bytes from the peer at a side. Nothing has changed yet: the side takes it by standing
/// so.
#[derive(Debug, Drop)]
pub struct Arrival {
    /// How the side stands after it.
    pub standing: Standing,
    /// What the bytes were.
    pub was: Taken,
    /// How many bytes at the front they were; 0 where these can't be read.
    pub len: usize,
}

impl Arrival {
    /// A message of the handshake came, of so many bytes, to which a step answered so.
    pub(crate) fn of_message(
        standing: Standing,
        message: ShakeMsg,
        next: Next,
        len: usize,
    ) -> Arrival
        ensures { result ≡ record { standing = standing; was = table.taken_as message next; len = len } }
    {
        let Next { send, progress } = next;
        let was = match progress {
            Progress::Go | Progress::Done => Taken::Message { message, send },
            Progress::Ended(why) => Taken::Broken(Fault::Shake(why)),
        };
        Arrival { standing, was, len }
    }

    /// A frame came, of so many bytes.
    pub(crate) fn of_item(standing: Standing, item: Item, len: usize) -> Arrival
        ensures { result ≡ table.on_item standing item len }
    {
        Arrival {
            standing,
            was: Taken::Item(item),
            len,
        }
    }

    /// Bytes came that can't be read.
    pub(crate) fn broken(standing: Standing, fault: Fault) -> Arrival
        ensures { result ≡ table.breaks standing fault }
    {
        Arrival {
            standing: standing.lost(),
            was: Taken::Broken(fault),
            len: 0,
        }
    }
}
