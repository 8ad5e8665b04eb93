//! Why a handshake ended.
ghost use Rattle.std.specs.Prelude.{◌≡◌};
ghost use Rattle.erl_term.specs.ErrorNumbers.{refusal_number, refusal_name};
ghost use Rattle.erl_handshake.specs.Faults.{refusal_of};

use erl_term::Refusal;
use thiserror::Error;

/// Why a handshake ended without a connection. Its text is its number and its name, those of the
/// [`Refusal`] of the same name.
#[derive(Clone, Copy, Debug, PartialEq, Eq, Error)]
#[error("{number} {name}", number = self.number(), name = self.name())]
pub enum ShakeFault {
    /// A message can't be read, or isn't due.
    BadMessage,
    /// The peer lacks a mandatory flag.
    FlagsMissing,
    /// The digest isn't that of the cookie and the challenge.
    BadDigest,
    /// The peer refused the connection.
    Nok,
    /// Another attempt at a connection took the place of this one.
    Superseded,
    /// The peer's name isn't that of the connection.
    Forged,
}

impl ShakeFault {
    /// The number of the fault: 10, 11, 13, 14, 15 or 20.
    pub fn number(self) -> u8
        ensures { result ≡ refusal_number (refusal_of self) }
    {
        Refusal::from(self).number()
    }

    /// The name of the fault.
    pub fn name(self) -> &'static str
        ensures { result.now ≡ refusal_name (refusal_of self) }
    {
        Refusal::from(self).name()
    }
}

impl From<ShakeFault> for Refusal {
    ghost from_gives = { λ why r. r ≡ refusal_of why };

    fn from(why: ShakeFault) -> Refusal {
        match why {
            ShakeFault::BadMessage => Refusal::BadMessage,
            ShakeFault::FlagsMissing => Refusal::FlagsMissing,
            ShakeFault::BadDigest => Refusal::BadDigest,
            ShakeFault::Nok => Refusal::Nok,
            ShakeFault::Superseded => Refusal::Superseded,
            ShakeFault::Forged => Refusal::Forged,
        }
    }
}
