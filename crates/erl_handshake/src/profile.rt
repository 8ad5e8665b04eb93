//! The flags that a node offers beyond those that each must offer.
ghost use Rattle.std.specs.Prelude.{◌≡◌};
ghost use Rattle.erl_handshake.specs.Flags.{flags_of};

use crate::flags::Flags;

/// The flags that a node offers. Each profile has all those that are mandatory. (ERTS User's Guide,
/// Distribution Protocol, Distribution Flags.)
#[derive(Clone, Copy, Debug, PartialEq, Eq)]
pub enum Profile {
    /// The mandatory flags alone.
    One,
    /// The mandatory flags and [`Flag::ExitPayload`](crate::Flag::ExitPayload).
    Two,
    /// The flags of [`Profile::Two`] and [`Flag::DistMonitorName`](crate::Flag::DistMonitorName).
    Three,
}

impl Profile {
    /// Returns the flags that a node of the profile offers. (ERTS User's Guide, Distribution Protocol,
    /// Distribution Flags.)
    pub fn flags(self) -> Flags
        ensures { result ≡ flags_of self }
    {
        match self {
            Profile::One => Flags::mandatory(),
            Profile::Two => Flags::from_bits(0x4_0345_010C),
            Profile::Three => Flags::from_bits(0x4_0345_012C),
        }
    }
}
