//! What a controller reads of the bus, of the pending frame and of its own frame.
use can_gates::Literal;

/// The inputs of a bit time.
#[derive(Clone, Copy)]
pub struct Seen {
    /// Whether a frame is pending.
    pub waits: Literal,
    /// Whether the sampled level is recessive.
    pub seen: Literal,
    /// After the stuffed part of the frame on the bus, whether its CRC sequence is right.
    pub agrees: Literal,
    /// Whether the next level of the transmitter's frame is recessive.
    pub sent: Literal,
    /// Whether the transmitter's frame is extended.
    pub extended: Literal,
}
