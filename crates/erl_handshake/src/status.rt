//! The statuses of the handshake.
ghost use Rattle.std.specs.Prelude.{◌≡◌, ◌≢◌, MatchOption};
ghost use Rattle.erl_handshake.specs.declared.status.Status.{Status as TheStatus};
ghost use Rattle.erl_handshake.specs.Messages.{status_text};

/// The acceptor's answer to a connection attempt, or the dialer's answer to [`Status::Alive`]. (ERTS
/// User's Guide, Distribution Protocol, Distribution Handshake.)
#[derive(Clone, Copy, Debug, PartialEq, Eq)]
pub enum Status {
    /// The handshake goes on.
    Ok,
    /// The handshake goes on, and the acceptor gives up its own attempt.
    OkSimultaneous,
    /// The attempt is refused, since the acceptor's own attempt goes on.
    Nok,
    /// The attempt is refused.
    NotAllowed,
    /// A connection to the dialer is there already. The dialer is asked whether to go on.
    Alive,
    /// The dialer goes on: the older connection is lost.
    True,
    /// The dialer doesn't go on.
    False,
}

impl Status {
    /// The status of this text, if it is the text of one, with nothing behind it.
    pub fn read(text: &[u8]) -> Option<Status>
        ensures { MatchOption result ((status : TheStatus) → text.now ≢ status_text status) (λ status. text.now ≡ status_text status) }
    {
        let Ok(text) = str::from_utf8(text) else {
            return None;
        };
        match text {
            "ok" => Some(Status::Ok),
            "ok_simultaneous" => Some(Status::OkSimultaneous),
            "nok" => Some(Status::Nok),
            "not_allowed" => Some(Status::NotAllowed),
            "alive" => Some(Status::Alive),
            "true" => Some(Status::True),
            "false" => Some(Status::False),
            _ => None,
        }
    }

    /// The text of the status.
    pub fn text(self) -> &'static str
        ensures { result.now ≡ status_text self }
    {
        match self {
            Status::Ok => "ok",
            Status::OkSimultaneous => "ok_simultaneous",
            Status::Nok => "nok",
            Status::NotAllowed => "not_allowed",
            Status::Alive => "alive",
            Status::True => "true",
            Status::False => "false",
        }
    }
}
