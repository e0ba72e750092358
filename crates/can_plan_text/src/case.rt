//! Which frames are offered when.
ghost use Rattle.std.specs.Prelude.{◌≤◌};

use can_frame::Frame;

/// The longest frame of a message, and when it is offered.
#[derive(Debug, Drop)]
pub struct Sequence {
    pub frame: Frame,
    /// The bit times before which it is offered, counted from 0, the earliest first.
    pub times: Vec<u64>,
}

/// The worst case of a message.
#[derive(Debug, Drop)]
pub struct WorstCase {
    /// For how many bit times its frames keep the bus busy, from bit time 1 on. Before bit time 1 the frames of the
    /// message and of the higher-priority ones are offered together.
    pub long: u64,
    /// The frames of the message and of the higher-priority ones, highest priority first. The last one is the frame
    /// that blocks them, if there is a lower-priority message.
    pub sequences: Vec<Sequence>,
    ghost short: { long ≤ 999999 },
}
