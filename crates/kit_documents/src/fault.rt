//! Why a document is refused.
ghost use Rattle.std.specs.Prelude.{◌≡◌};
ghost use Rattle.kit_documents.specs.declared.fault.KitFault.TheVariants.{Memory};

use crate::field::{CaseField, KitField, TranscriptField};
use std::alloc::{AllocError, AllocFailed};

/// Why a document is refused: its first invalid field, or a failed allocation.
#[derive(Clone, Copy, Debug, PartialEq, Eq)]
pub enum KitFault {
    /// This field is invalid.
    Field(KitField),
    /// An allocation failed.
    Memory,
}

impl KitFault {
    /// The fault of this part of the case with this number.
    pub(crate) fn in_case(number: usize, part: CaseField) -> KitFault
        ensures { result ≡ KitFault.Field (KitField.Case number part) }
    {
        KitFault::Field(KitField::Case { number, part })
    }

    /// The fault of this part of the transcript with this number.
    pub(crate) fn in_transcript(number: usize, part: TranscriptField) -> KitFault
        ensures { result ≡ KitFault.Field (KitField.Transcript number part) }
    {
        KitFault::Field(KitField::Transcript { number, part })
    }
}

impl<T: Drop> From<AllocFailed<T>> for KitFault {
    ghost from_gives = { λ _ fault. fault ≡ Memory };

    fn from(_refused: AllocFailed<T>) -> KitFault {
        KitFault::Memory
    }
}

impl From<AllocError> for KitFault {
    ghost from_gives = { λ _ fault. fault ≡ Memory };

    fn from(_refused: AllocError) -> KitFault {
        KitFault::Memory
    }
}
