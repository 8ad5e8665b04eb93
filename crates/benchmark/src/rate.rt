//! What a measurement found.

ghost use Rattle.std.specs.Prelude.{◌≡◌, ◌≤◌, ◌<◌, ◌*◌, ◌/◌, ◌-◌, ◌^◌, max};
ghost use Rattle.benchmark.specs.Rates.{nanos_of, a_second, megabytes_a_second};

use std::time::Duration;

/// So many rounds, each over as many bytes, in the time that they took.
#[derive(Clone, Copy)]
pub struct Rate<'a> {
    /// What a round did.
    pub name: &'a str,
    pub rounds: u64,
    /// The bytes of one round.
    pub bytes: usize,
    pub elapsed: Duration,
}

// A number, of which 0 counts as 1.
fn at_least_one(number: u128) -> u128
    ensures { result ≡ max number 1 }
{
    if number == 0 { 1 } else { number }
}

impl Rate<'_> {
    /// How many rounds a second has.
    pub fn a_second(&self) -> u128
        ensures { result ≡ a_second self.now.rounds self.now.elapsed }
    {
        u128::from(self.rounds).saturating_mul(1_000_000_000) / self.nanos()
    }

    /// How many megabytes of 1,000,000 bytes a second has.
    #[tactic(auto, using(crate::proofs::Megabytes::thousand_a_nanosecond))]
    pub fn megabytes(&self) -> u128
        ensures exact { let bytes = self.now.rounds * self.now.bytes in
            bytes * 1000 < 2 ^ 128 → result ≡ megabytes_a_second bytes self.now.elapsed }
        // Of more bytes 2^128 - 1 thousandths of a byte are counted.
        ensures most { let bytes = self.now.rounds * self.now.bytes in
            2 ^ 128 ≤ bytes * 1000 → result ≡ (2 ^ 128 - 1) / nanos_of self.now.elapsed }
    {
        let bytes = u128::from(self.rounds).saturating_mul(self.bytes as u128);
        bytes.saturating_mul(1_000) / self.nanos()
    }

    /// The time in nanoseconds, of which 0 count as 1.
    fn nanos(&self) -> u128
        ensures { result ≡ nanos_of self.now.elapsed }
    {
        at_least_one(self.elapsed.as_nanos())
    }
}
