//! Why a circuit lacks a gate, and why it is not returned.
ghost use Rattle.std.specs.Prelude.{◌≡◌};
ghost use Rattle.can_gates.specs.declared.lack.CircuitFault.TheVariants.{Memory};

use std::alloc::AllocError;
use thiserror::Error;

/// Why a circuit lacks a gate that a call asked for.
#[derive(Clone, Copy, Debug, PartialEq, Eq, Error)]
pub enum Lack {
    /// It was full: it had no capacity for one more gate.
    #[error("the circuit is full")]
    Room,
    /// One of the gate's sides was of a signal that the circuit does not have.
    #[error("no such signal")]
    Signal,
}

/// Why a circuit is not returned, or no file of it is written.
#[derive(Clone, Copy, Debug, PartialEq, Eq, Error)]
pub enum CircuitFault {
    /// An allocation failed.
    #[error("out of memory")]
    Memory,
    /// The circuit lacks a gate, for this reason.
    #[error("a gate is missing: {0}")]
    Incomplete(Lack),
}

impl From<AllocError> for CircuitFault {
    ghost from_gives = { λ _ e. e ≡ Memory };

    fn from(_fault: AllocError) -> CircuitFault {
        CircuitFault::Memory
    }
}
