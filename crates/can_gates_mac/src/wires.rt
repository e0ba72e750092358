//! The literals of a controller: numbers and truth values.
use crate::nibble::Nibble;
use can_gates::Literal;

/// A controller without its counters and frames, with cause and event. What a phase does not use is 0.
/// (`specs/Numbers.antt`)
#[derive(Clone, Copy)]
pub struct Wires {
    /// The number of the phase.
    pub phase: Nibble,
    /// The place in the phase, or how many levels in a row it has counted.
    pub place: Nibble,
    /// Whether the last level in a passive error flag was recessive.
    pub last: Literal,
    /// Whether the passive error flag is that of a transmitter without acknowledgment, which has counted nothing yet.
    pub unacknowledged: Literal,
    /// Whether the next level is the first after an error flag.
    pub first: Literal,
    /// Whether the controller is the transmitter of the frame on the bus.
    pub sender: Literal,
    /// How many own overload frames are requested, 0 to 2.
    pub pending: Nibble,
    /// How many it has sent since the last frame, 0 to 2.
    pub used: Nibble,
    /// The number of the cause.
    pub cause: Nibble,
    /// The number of the event.
    pub event: Nibble,
}

/// Wires that are chosen if two literals are true.
#[derive(Clone, Copy)]
pub(crate) struct Row(pub(crate) Literal, pub(crate) Literal, pub(crate) Wires);

/// A controller's registers without its counters and frames, and the inputs of a bit time.
#[derive(Clone, Copy)]
pub(crate) struct Now {
    /// The number of the phase.
    pub(crate) phase: Nibble,
    /// The place in the phase.
    pub(crate) place: Nibble,
    /// Whether the last level in a passive error flag was recessive.
    pub(crate) last: Literal,
    /// Whether the passive error flag is that of a transmitter without acknowledgment.
    pub(crate) unacknowledged: Literal,
    /// Whether the next level is the first after an error flag.
    pub(crate) first: Literal,
    /// Whether the controller is the transmitter.
    pub(crate) sender: Literal,
    /// How many own overload frames are requested.
    pub(crate) pending: Nibble,
    /// How many it has sent since the last frame.
    pub(crate) used: Nibble,
    /// Whether the controller is error passive.
    pub(crate) passive: Literal,
    /// Whether a frame is pending.
    pub(crate) waits: Literal,
    /// Whether the sampled level is recessive.
    pub(crate) seen: Literal,
    /// After the stuffed part of the frame on the bus, whether its CRC sequence is right.
    pub(crate) agrees: Literal,
}

/// What the move of the stuffed part reads of a frame as received so far.
#[derive(Clone, Copy)]
pub struct Part {
    /// Whether the next level is a stuff bit.
    pub due: Literal,
    /// Whether the sampled level repeats the last one.
    pub repeats: Literal,
    /// Whether the next level comes no later than the RTR bit of the transmitter's frame.
    pub arbitrates: Literal,
    /// Whether the next level of the transmitter's frame is recessive.
    pub sent: Literal,
    /// Whether the stuffed part ends with the sampled level.
    pub ends: Literal,
}

/// The inputs of a bit time, and what is read of the frame on the bus.
#[derive(Clone, Copy)]
pub struct Inputs {
    /// Whether a frame is pending.
    pub waits: Literal,
    /// Whether the sampled level is recessive.
    pub seen: Literal,
    /// After the stuffed part of the frame on the bus, whether its CRC sequence is right.
    pub agrees: Literal,
    /// What is read of a frame in its stuffed part.
    pub part: Part,
}
