//! What a node says that it can do.
ghost use Rattle.std.specs.Prelude.{◌≡◌};
ghost use Rattle.erl_handshake.specs.Flags as flags;

use std::marker::Model;

/// A capability of a node that has a flag in the handshake: the eight that each node must offer, and
/// [`Flag::DistMonitorName`] and [`Flag::ExitPayload`], which one may offer.
///
/// (ERTS User's Guide, Distribution Protocol, Distribution Flags.)
#[derive(Clone, Copy, Debug, PartialEq, Eq)]
pub enum Flag {
    /// References of several words.
    ExtendedReferences,
    /// Monitors of processes.
    DistMonitor,
    /// Monitors of processes by their names.
    DistMonitorName,
    /// Pids and ports of more bits.
    ExtendedPidsPorts,
    /// Atoms in UTF-8.
    Utf8Atoms,
    /// Creations of 32 bits.
    BigCreation,
    /// Exit reasons as payloads, behind the control term.
    ExitPayload,
    /// The handshake of version 6.
    Handshake23,
    /// The new link protocol.
    UnlinkId,
    /// More data in pids, ports and references.
    V4Nc,
}

impl Flag {
    /// The flag as a word, in which its bit alone is set. (ERTS User's Guide, Distribution Protocol,
    /// Distribution Flags.)
    pub fn value(self) -> u64
        ensures { result ≡ flags.flag_value self }
    {
        match self {
            Flag::ExtendedReferences => 0x4,
            Flag::DistMonitor => 0x8,
            Flag::DistMonitorName => 0x20,
            Flag::ExtendedPidsPorts => 0x100,
            Flag::Utf8Atoms => 0x1_0000,
            Flag::BigCreation => 0x4_0000,
            Flag::ExitPayload => 0x40_0000,
            Flag::Handshake23 => 0x100_0000,
            Flag::UnlinkId => 0x200_0000,
            Flag::V4Nc => 0x4_0000_0000,
        }
    }
}

/// The flags that a node offers: a word of 64 bits. Contracts see the word. Bits that no [`Flag`]
/// names are kept.
///
/// (ERTS User's Guide, Distribution Protocol, Distribution Flags.)
#[derive(Clone, Copy, Debug, PartialEq, Eq)]
pub struct Flags {
    bits: u64,
}

impl Model for Flags {
    ghost use Rattle.std.specs.Prelude.{ℕ};

    ghost Value = { ℕ };

    ghost view = { λ f. f.bits };

    ghost inverse = { λ n. record { bits = n } };
}

impl Flags {
    /// The flags of this word.
    pub fn from_bits(bits: u64) -> Flags
        ensures { result ≡ bits }
    {
        Flags { bits }
    }

    /// The flags that a node offers and that its peer must offer: all but
    /// [`Flag::DistMonitorName`] and [`Flag::ExitPayload`].
    pub fn mandatory() -> Flags
        ensures { result ≡ flags.mandatory }
    {
        Flags {
            bits: 0x4_0305_010C,
        }
    }

    /// The word of the flags.
    pub fn bits(self) -> u64
        ensures { result ≡ self }
    {
        self.bits
    }

    /// Returns true if the flag is among them.
    pub fn offers(self, flag: Flag) -> bool
        ensures { result ≡ flags.offers self flag }
    {
        self.bits & flag.value() != 0
    }

    /// Returns true if all the required flags are among them.
    pub fn has_all_of(self, required: Flags) -> bool
        ensures { result ≡ flags.has_all_of self required }
    {
        self.bits & required.bits == required.bits
    }
}
