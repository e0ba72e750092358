ghost use Rattle.std.specs.Prelude.{◌≡◌};
ghost use Rattle.can_c.specs.Statuses.{bus_status, levels_status, status_code};

use can_bus::BusFault;
use can_code::CodeFaultKind;
use std::alloc::{AllocError, AllocFailed};

/// The result of a call.
#[derive(Clone, Copy, Debug, PartialEq, Eq)]
pub enum Status {
    /// The call has done what it promises.
    Done,
    /// The handle holds no port: none was made, or it was freed.
    NoPort,
    /// There was no memory for the port, or for the run of a bus.
    NoMemory,
    /// The transmit queue is full.
    QueueFull,
    /// The log has no entry with this number.
    NoEntry,
    /// `extended` or `remote` is neither 0 nor 1.
    BadFlag,
    /// The identifier is 2^11 or more and not extended, or 2^29 or more.
    BadIdentifier,
    /// The DLC is above 15.
    BadDlc,
    /// A level is neither 0 nor 1.
    BadLevel,
    /// More than two overload frames were requested.
    BadCount,
    /// There are no levels to sample.
    NoLevels,
    /// A slice is too small for what it is to hold, or differs in length from the others.
    NoRoom,
    /// The levels end before the frame does.
    ShortFrame,
    /// The first level is recessive, so it is no start of frame.
    NoStart,
    /// Stuff error: a sixth equal level in a row.
    StuffFault,
    /// The CRC sequence is wrong.
    CrcFault,
    /// Form error: a delimiter, or one of the first six bits of the end of frame, is dominant.
    FormFault,
    /// A bus has no ports, or more than 64.
    BadBus,
    /// An offer or a hit names no port of the bus.
    NoSuchPort,
    /// An offer is earlier than the previous one, or a hit is not above the previous one.
    BadOrder,
    /// The kind of a hit is above 2.
    BadKind,
    /// The fields of a wire are out of range, or it has had 2^64 - 1 bit times.
    BadWire,
}

impl Status {
    /// Returns the number of the status.
    pub fn code(self) -> u8
        ensures { result ≡ status_code self }
    {
        match self {
            Status::Done => 0,
            Status::NoPort => 3,
            Status::NoMemory => 4,
            Status::QueueFull => 5,
            Status::NoEntry => 6,
            Status::BadFlag => 7,
            Status::BadIdentifier => 8,
            Status::BadDlc => 9,
            Status::BadLevel => 10,
            Status::BadCount => 11,
            Status::NoLevels => 12,
            Status::NoRoom => 13,
            Status::ShortFrame => 14,
            Status::NoStart => 15,
            Status::StuffFault => 16,
            Status::CrcFault => 17,
            Status::FormFault => 18,
            Status::BadBus => 21,
            Status::NoSuchPort => 22,
            Status::BadOrder => 23,
            Status::BadKind => 24,
            Status::BadWire => 25,
        }
    }

    /// The status of a decoding fault.
    pub(crate) fn of_fault(kind: CodeFaultKind) -> Status
        ensures { result ≡ levels_status kind }
    {
        match kind {
            CodeFaultKind::Short => Status::ShortFrame,
            CodeFaultKind::NoStartOfFrame => Status::NoStart,
            CodeFaultKind::Stuff => Status::StuffFault,
            CodeFaultKind::Crc => Status::CrcFault,
            CodeFaultKind::Form => Status::FormFault,
        }
    }

    /// The status of a fault that a bus reports.
    pub(crate) fn of_bus(fault: BusFault) -> Status
        ensures { result ≡ bus_status fault }
    {
        match fault {
            BusFault::NoPort | BusFault::TooManyPorts => Status::BadBus,
            BusFault::NotRising => Status::BadOrder,
            BusFault::NoSuchPort => Status::NoSuchPort,
        }
    }
}

impl<T: Drop> From<AllocFailed<T>> for Status {
    ghost use Rattle.can_c.specs.declared.status.Status.TheVariants.{NoMemory};

    ghost from_gives = { λ _ status. status ≡ NoMemory };

    fn from(_refused: AllocFailed<T>) -> Status {
        Status::NoMemory
    }
}

impl From<AllocError> for Status {
    ghost use Rattle.can_c.specs.declared.status.Status.TheVariants.{NoMemory};

    ghost from_gives = { λ _ status. status ≡ NoMemory };

    fn from(_refused: AllocError) -> Status {
        Status::NoMemory
    }
}
