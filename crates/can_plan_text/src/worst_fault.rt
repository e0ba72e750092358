//! Why there is no scenario of a worst case.
ghost use Rattle.std.specs.Prelude.{◌≡◌};
ghost use Rattle.can_plan_text.specs.Timelines.{fault_of};
ghost use Rattle.can_plan_text.specs.declared.worst_fault.WorstFault.TheVariants.{Memory};

use crate::fault::PlanFault;
use crate::field::PlanField;
use std::alloc::{AllocError, AllocFailed};

/// Why there is no scenario of a worst case.
#[derive(Clone, Copy, Debug, PartialEq, Eq)]
pub enum WorstFault {
    /// The document is refused because of this field.
    Field(PlanField),
    /// No message of the network has this name.
    Unknown,
    /// The bus is busy for longer than the longest scenario.
    TooLong,
    /// Memory ran out.
    Memory,
}

impl From<PlanFault> for WorstFault {
    ghost from_gives = { λ fault own. own ≡ fault_of fault };

    fn from(fault: PlanFault) -> WorstFault {
        match fault {
            PlanFault::Field(wrong) => WorstFault::Field(wrong),
            PlanFault::Memory => WorstFault::Memory,
        }
    }
}

impl<T: Drop> From<AllocFailed<T>> for WorstFault {
    ghost from_gives = { λ _ fault. fault ≡ Memory };

    fn from(_refused: AllocFailed<T>) -> WorstFault {
        WorstFault::Memory
    }
}

impl From<AllocError> for WorstFault {
    ghost from_gives = { λ _ fault. fault ≡ Memory };

    fn from(_refused: AllocError) -> WorstFault {
        WorstFault::Memory
    }
}
