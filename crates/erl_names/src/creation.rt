//! The incarnations of a node.
ghost use Rattle.std.specs.Prelude.{◌≡◌, ◌≤◌, ◌+◌, ◌-◌, ◌^◌, ◌↔◌, IfOk, IsErr, IsOkUnless, MatchOption};

use erl_term::Refusal;
use std::marker::Model;

/// An incarnation of a node: a number from 1 to 2^32 - 1. A node that restarts takes another one.
/// Contracts see the number.
///
/// (ERTS User's Guide, Distribution Protocol, Distribution Handshake.)
#[derive(Clone, Copy, Debug, PartialEq, Eq, PartialOrd, Ord)]
pub struct Creation {
    number: u32,
}

impl Model for Creation {
    ghost use Rattle.std.specs.Prelude.{ℕ, ◌≤◌};

    ghost Value = { ℕ };

    ghost view = { λ c. c.number };

    ghost invariant = { λ c. 1 ≤ c.number };

    ghost inverse = { λ n. record { number = n } };
}

impl Creation {
    /// The first incarnation.
    pub fn first() -> Creation
        ensures { result ≡ 1 }
    {
        Creation { number: 1 }
    }

    /// The incarnation of this number, which is none where it is 0.
    pub fn new(number: u32) -> Option<Creation>
        ensures { MatchOption result (number ≡ 0) (λ c. (c ≡ number) × (1 ≤ number)) }
    {
        if number == 0 {
            return None;
        }
        Some(Creation { number })
    }

    /// The number of the incarnation, from 1 to 2^32 - 1.
    pub fn number(self) -> u32
        ensures number { result ≡ self }
        ensures positive { 1 ≤ result }
    {
        self.number
    }

    /// The next incarnation. Refused with [`Refusal::IdsUsedUp`] behind the last one, 2^32 - 1.
    pub fn next(self) -> Result<Creation, Refusal>
        ensures ok { IfOk result (λ next. next ≡ self + 1) }
        ensures last { IsErr result ↔ (self ≡ 2 ^ 32 - 1) }
        ensures only { IsOkUnless result Refusal.IdsUsedUp }
    {
        let number = self.number.checked_add(1).ok_or(Refusal::IdsUsedUp)?;
        Ok(Creation { number })
    }
}
