//! What a step of a handshake answers.
ghost use Rattle.std.specs.Prelude.{◌≡◌, Some, None};

use crate::fault::ShakeFault;
use crate::message::ShakeMsg;

/// The progress of a handshake.
#[derive(Clone, Copy, Debug, PartialEq, Eq)]
pub enum Progress {
    /// It goes on.
    Go,
    /// The nodes are connected.
    Done,
    /// It has ended without a connection, for this reason.
    Ended(ShakeFault),
}

/// The answer of a step of a handshake. (ERTS User's Guide, Distribution Protocol, Distribution
/// Handshake.)
#[derive(Debug, Drop)]
pub struct Next {
    /// What is sent to the peer.
    pub send: Option<ShakeMsg>,
    /// Whether the handshake goes on.
    pub progress: Progress,
}

/// The effect of a message on a role of the handshake: the state of the role after it, and the answer
/// of the step. (ERTS User's Guide, Distribution Protocol, Distribution Handshake.)
#[derive(Debug, Drop)]
pub struct Turn<S> {
    /// What the role awaits.
    pub state: S,
    /// What the step answers.
    pub next: Next,
}

impl<S> Turn<S> {
    // It goes on, and nothing is sent.
    pub(crate) fn waits(state: S) -> Turn<S>
        ensures { result ≡ record { state = state; next = record { send = None; progress = Progress.Go } } }
    {
        Turn {
            state,
            next: Next {
                send: None,
                progress: Progress::Go,
            },
        }
    }

    // It goes on, and this is sent.
    pub(crate) fn says(message: ShakeMsg, state: S) -> Turn<S>
        ensures { result ≡ record { state = state; next = record { send = Some message; progress = Progress.Go } } }
    {
        Turn {
            state,
            next: Next {
                send: Some(message),
                progress: Progress::Go,
            },
        }
    }

    // The nodes are connected.
    pub(crate) fn done(send: Option<ShakeMsg>, state: S) -> Turn<S>
        ensures { result ≡ record { state = state; next = record { send = send; progress = Progress.Done } } }
    {
        Turn {
            state,
            next: Next {
                send,
                progress: Progress::Done,
            },
        }
    }

    // It has ended.
    pub(crate) fn ended(why: ShakeFault, state: S) -> Turn<S>
        ensures { result ≡ record { state = state; next = record { send = None; progress = Progress.Ended why } } }
    {
        Turn {
            state,
            next: Next {
                send: None,
                progress: Progress::Ended(why),
            },
        }
    }
}
