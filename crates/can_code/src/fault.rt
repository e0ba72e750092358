use thiserror::Error;

/// The kind of fault of levels that do not begin with a frame. (Bosch CAN 2.0 part B, section 7.1)
#[derive(Clone, Copy, Debug, PartialEq, Eq, Error)]
pub enum CodeFaultKind {
    /// The levels end before the frame does.
    #[error("C1")]
    Short,
    /// The first level is recessive.
    #[error("C2")]
    NoStartOfFrame,
    /// A stuff bit has the level of the bit before it.
    #[error("C3")]
    Stuff,
    /// The stuffed part is complete, and its CRC sequence is wrong.
    #[error("C4")]
    Crc,
    /// The CRC delimiter, the ACK delimiter or one of the first six levels of the end of frame is
    /// dominant.
    #[error("C5")]
    Form,
}

/// Why levels do not begin with a frame. It prints as `C5 at 39`.
#[derive(Clone, Copy, Debug, PartialEq, Eq, Error)]
#[error("{kind} at {place}")]
pub struct CodeFault {
    /// The kind of fault.
    pub kind: CodeFaultKind,
    /// The number of levels before the one that shows the fault.
    pub place: usize,
}
