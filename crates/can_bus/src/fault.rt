use thiserror::Error;

/// Why a bus is refused, or a call of it.
#[derive(Clone, Copy, Debug, PartialEq, Eq, Error)]
pub enum BusFault {
    /// There is no port.
    #[error("there is no port")]
    NoPort,
    /// There are more than 64 ports.
    #[error("there are more than 64 ports")]
    TooManyPorts,
    /// A hit is not above the one before it, or an offer is earlier than the one before it.
    #[error("a hit or an offer is out of order")]
    NotRising,
    /// A hit or an offer names no port of the bus.
    #[error("a hit or an offer names no port of the bus")]
    NoSuchPort,
}
