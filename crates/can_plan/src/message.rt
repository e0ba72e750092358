//! Messages, and the error model.

use can_frame::Key;

/// A message of a network: frames of one arbitration field that are released again and again. All times are whole bit
/// times.
#[derive(Clone, Copy, Debug)]
pub struct Message {
    /// The arbitration field of its frames.
    pub field: Key,
    /// The longest time for which one of its frames keeps the bus: its wire, and three bit times of intermission.
    pub longest: u16,
    /// The shortest time between two of its releases.
    pub period: u32,
    /// The longest time from the release of a frame until it is offered to its port.
    pub jitter: u32,
}

/// The error model: any number of consecutive bit times has at most `burst` hits, and one more for each `spacing`
/// that fits into it. If `spacing` is 0, there are at most `burst` hits in all.
#[derive(Clone, Copy, Debug)]
pub struct HitRate {
    /// The number of hits that may come at once.
    pub burst: u16,
    /// The number of bit times after which one more may come.
    pub spacing: u32,
}
