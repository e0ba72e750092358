//! Why a document is refused.
ghost use Rattle.std.specs.Prelude.{◌≡◌};
ghost use Rattle.can_plan_text.specs.declared.fault.PlanFault.TheVariants.{Memory};

use crate::field::{MessageField, PlanField};
use std::alloc::{AllocError, AllocFailed};

/// Why a document is refused: its first field that is wrong, or memory ran out.
#[derive(Clone, Copy, Debug, PartialEq, Eq)]
pub enum PlanFault {
    /// This field is wrong.
    Field(PlanField),
    /// Memory ran out.
    Memory,
}

impl PlanFault {
    /// Returns the fault for a field of the message at this place.
    pub(crate) fn of_message(place: usize, part: MessageField) -> PlanFault
        ensures { result ≡ PlanFault.Field (PlanField.Message place part) }
    {
        PlanFault::Field(PlanField::Message { place, part })
    }
}

impl<T: Drop> From<AllocFailed<T>> for PlanFault {
    ghost from_gives = { λ _ fault. fault ≡ Memory };

    fn from(_refused: AllocFailed<T>) -> PlanFault {
        PlanFault::Memory
    }
}

impl From<AllocError> for PlanFault {
    ghost from_gives = { λ _ fault. fault ≡ Memory };

    fn from(_refused: AllocError) -> PlanFault {
        PlanFault::Memory
    }
}
