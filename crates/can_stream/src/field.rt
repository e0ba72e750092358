//! The fields of a scenario, as a fault names them.
use thiserror::Error;

/// What is invalid in a scenario: the document, or one of its fields. Ports and elements are counted from
/// 0.
#[derive(Clone, Copy, Debug, PartialEq, Eq, Error)]
pub enum Field {
    /// The bytes are not UTF-8, or not a TOML document.
    #[error("toml")]
    Document,
    /// An unknown field at the top level.
    #[error("key")]
    Unknown,
    /// The version.
    #[error("version")]
    Version,
    /// The number of bit times of the run.
    #[error("bits")]
    Bits,
    /// The list of ports.
    #[error("port")]
    Ports,
    /// A part of one port.
    #[error("port[{number}]{part}")]
    Port { number: usize, part: PortField },
    /// A list of injected bit errors.
    #[error("{0}")]
    Hits(HitList),
    /// An element of a list of injected bit errors.
    #[error("{list}[{place}]")]
    Hit { list: HitList, place: usize },
}

/// What is invalid in a port's table.
#[derive(Clone, Copy, Debug, PartialEq, Eq, Error)]
pub enum PortField {
    /// It is not a table.
    #[error("")]
    Table,
    /// An unknown field.
    #[error(".key")]
    Unknown,
    /// The list of frames.
    #[error(".queue")]
    Queue,
    /// An element of that list.
    #[error(".queue[{0}]")]
    Frame(usize),
    /// The capacity of the log, in entries.
    #[error(".log")]
    Log,
    /// Whether the port begins with bus integration.
    #[error(".join")]
    Join,
    /// How many overload frames it asks for.
    #[error(".hold")]
    Hold,
}

/// The lists of injected bit errors, one for each kind.
#[derive(Clone, Copy, Debug, PartialEq, Eq, Error)]
pub enum HitList {
    /// Times at which the bus level is inverted.
    #[error("at")]
    At,
    /// Attempts, and offsets in them, at which the bus level is inverted.
    #[error("in")]
    In,
    /// Times at which one port alone samples the opposite level.
    #[error("view")]
    View,
}
