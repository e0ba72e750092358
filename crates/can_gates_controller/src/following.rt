//! Whether a phase belongs to a frame.
use can_gates::Literal;

/// Whether a controller is in the stuffed part of a frame, or in the rest of it.
#[derive(Clone, Copy)]
pub(crate) struct Within {
    /// Whether it is in the stuffed part.
    pub(crate) part: Literal,
    /// Whether it is between the stuffed part and the end of the frame.
    pub(crate) end: Literal,
}
