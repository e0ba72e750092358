//! The latest frame of a busy period.
ghost use Rattle.std.specs.Prelude.{◌^◌, ◌<◌};

/// The latest frame of a busy period: the first whose response time is the bound. All times are whole bit times.
#[derive(Clone, Copy, Debug)]
pub struct Latest {
    /// Its number in the busy period, counted from 0.
    pub number: u64,
    /// Its delay: the longest time from the begin of the busy period to its start.
    pub delay: u32,
    /// The longest time from its release to the end of its wire: the bound.
    pub end: u64,
    /// How long the earlier frames of its message keep the bus.
    pub earlier: u64,
    /// How long after the first of these it is released.
    pub later: u64,
    /// At most how many hits there are before it starts.
    pub hits: u64,
    /// How many bit times they take.
    pub hits_cost: u64,
    ghost short: { end < 2 ^ 34 },
}
