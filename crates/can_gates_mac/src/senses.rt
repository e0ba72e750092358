//! What the moves read of a controller, of the pending frame and of the sampled level.
use crate::nibble::Nibble;
use can_gates::Literal;

/// What all moves read, made once.
#[derive(Clone, Copy)]
pub(crate) struct Senses {
    /// Whether the controller is error passive.
    pub(crate) passive: Literal,
    /// Whether it is the transmitter of the frame on the bus.
    pub(crate) sender: Literal,
    /// Whether it is a receiver.
    pub(crate) receiver: Literal,
    /// Whether it is error passive, and was the transmitter.
    pub(crate) held_back: Literal,
    /// How many own overload frames are requested.
    pub(crate) pending: Nibble,
    /// How many it has sent since the last frame.
    pub(crate) used: Nibble,
    /// Whether one is requested and can be started.
    pub(crate) asks: Literal,
    /// Whether a frame is pending.
    pub(crate) waits: Literal,
    /// Whether the controller sends it, if a frame starts after intermission.
    pub(crate) starts: Literal,
    /// Whether the sampled level is recessive.
    pub(crate) recessive: Literal,
    /// Whether it is dominant.
    pub(crate) dominant: Literal,
    /// Comparisons of the place in the phase.
    pub(crate) places: Places,
    /// Whether the CRC sequence of the frame on the bus is right.
    pub(crate) agrees: Literal,
    /// Whether it is wrong, and the controller a receiver.
    pub(crate) refuses: Literal,
    /// Whether the level is recessive, in the passive error flag of a transmitter without acknowledgment.
    pub(crate) still: Literal,
    /// Whether the level is dominant there, so that the error is counted now.
    pub(crate) counts: Literal,
    /// How many equal levels in a row a passive error flag has, with this one.
    pub(crate) run: Nibble,
    /// Whether this is fewer than six.
    pub(crate) run_below_6: Literal,
    /// Whether this is the first level after an error flag, and the controller a receiver.
    pub(crate) first: Literal,
}

/// Comparisons of a place with the ends of phases, and the next place.
#[derive(Clone, Copy)]
pub(crate) struct Places {
    /// Whether it is before the last bit of intermission.
    pub(crate) below_2: Literal,
    /// Whether it is before the last bit of a flag.
    pub(crate) below_5: Literal,
    /// Whether it is before the last bit of the end of frame.
    pub(crate) below_6: Literal,
    /// Whether it is before the last bit of a delimiter, or of suspend transmission.
    pub(crate) below_7: Literal,
    /// Whether it is before the last of eleven.
    pub(crate) below_10: Literal,
    /// One more.
    pub(crate) next: Nibble,
}
