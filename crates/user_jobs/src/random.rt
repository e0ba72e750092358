//! Pseudo-random numbers.
ghost use Rattle.std.specs.Prelude.{◌<◌, ◌≤◌, ◌+◌};

/// Pseudo-random numbers, the same for the same seed: SplitMix64 of Steele, Lea and Flood (2014).
#[derive(Drop)]
pub struct Random {
    state: u64,
}

impl Random {
    /// Returns the generator for this seed.
    pub fn new(seed: u64) -> Random {
        Random { state: seed }
    }

    /// Returns the next number.
    pub fn next(&mut self) -> u64 {
        self.state = self.state.wrapping_add(0x9e37_79b9_7f4a_7c15);
        let once = (self.state ^ (self.state >> 30)).wrapping_mul(0xbf58_476d_1ce4_e5b9);
        let twice = (once ^ (once >> 27)).wrapping_mul(0x94d0_49bb_1331_11eb);
        twice ^ (twice >> 31)
    }

    /// Returns a number from 0 on, below `count`.
    pub fn below(&mut self, count: u32) -> u32
        requires { 0 < count }
        ensures { result < count }
    {
        (self.next() % u64::from(count)) as u32
    }

    /// Returns whether a random event with probability 1 / `count` happens.
    pub fn is_one_in(&mut self, count: u32) -> bool
        requires { 0 < count }
    {
        self.below(count) == 0
    }
}
