//! Numbers at random from a seed, for walks that can be gone once more. They are no secrets.
#![tactic(auto)]

ghost use Rattle.std.specs.Prelude.{◌≤◌, ◌-◌};

/// A sequence of numbers, by Marsaglia's xorshift. A seed gives the same sequence each time; 0 stands
/// for 1, since the sequence of 0 has nothing else.
#[derive(Clone, Copy)]
pub struct Random {
    state: u64,
}

impl Random {
    /// The sequence of a seed.
    pub fn new(seed: u64) -> Random {
        Random { state: seed.max(1) }
    }

    fn next(&mut self) -> u64 {
        self.state ^= self.state << 13;
        self.state ^= self.state >> 7;
        self.state ^= self.state << 17;
        self.state
    }

    /// The next number, below this one; 0 where that is 0.
    pub fn below(&mut self, end: usize) -> usize
        ensures { result ≤ end - 1 }
    {
        cut(self.next() >> 16, end)
    }
}

// A number that is cut to be below the end; 0 where that is 0, before which there is none.
fn cut(number: u64, end: usize) -> usize
    ensures { result ≤ end - 1 }
{
    if end == 0 {
        0
    } else {
        (number % (end as u64)) as usize
    }
}
