ghost use Rattle.std.specs.Prelude.{◌≡◌};
ghost use Rattle.can_stream.specs.declared.fault.TraceFault.TheVariants.{Memory};

use crate::field::Field;
use can_frame::TextFault;
use std::alloc::AllocFailed;
use thiserror::Error;

/// Why a stream's output is not complete.
#[derive(Clone, Copy, Debug, PartialEq, Eq, Error)]
pub enum TraceFault {
    /// A byte of the input is not a digit, though a level is expected. Bytes are counted from 0.
    #[error("P1 byte {place}")]
    BadByte { place: u64 },
    /// A scenario is invalid in this field.
    #[error("P2 {0}")]
    ScenarioField(Field),
    /// A read failed.
    #[error("P3 read")]
    Read,
    /// A write failed, or took no byte.
    #[error("P4 write")]
    Write,
    /// Memory allocation failed.
    #[error("P5 memory")]
    Memory,
    /// The input has more than 2^63 bytes.
    #[error("P6 long")]
    Long,
    /// A line is not a frame text. Lines are counted from 1.
    #[error("P7 line {line} {fault}")]
    FrameLine { line: u64, fault: TextFault },
}

impl<T: Drop> From<AllocFailed<T>> for TraceFault {
    ghost from_gives = { λ _ fault. fault ≡ Memory };

    fn from(_refused: AllocFailed<T>) -> TraceFault {
        TraceFault::Memory
    }
}
