//! Why `canhold` did not succeed.
ghost use Rattle.std.specs.Prelude.{◌≡◌};
ghost use Rattle.canhold_commands.specs.Status.{kit_fault_of, canhold_status};
ghost use Rattle.canhold_commands.specs.declared.fault.CanholdFault.TheVariants.{Stream};

use can_program::RunFault;
use can_stream::TraceFault;
use kit_documents::{KitFault, KitField};
use thiserror::Error;

/// Why a subcommand did not succeed.
#[derive(Clone, Copy, Debug, PartialEq, Eq, Error)]
pub enum CanholdFault {
    /// The document is refused for this field.
    #[error("P2 {0}")]
    Field(KitField),
    /// Not all transcripts agree with the reference.
    #[error("transcripts differ")]
    TranscriptsDiffer,
    /// There was no transcript to judge.
    #[error("nothing judged")]
    NothingJudged,
    /// A stream failed, an allocation failed, or the runner's input is too long.
    #[error(transparent)]
    Stream(TraceFault),
}

impl From<TraceFault> for CanholdFault {
    ghost from_gives = { λ fault own. own ≡ Stream fault };

    fn from(fault: TraceFault) -> CanholdFault {
        CanholdFault::Stream(fault)
    }
}

impl From<KitFault> for CanholdFault {
    ghost from_gives = { λ fault own. own ≡ kit_fault_of fault };

    fn from(fault: KitFault) -> CanholdFault {
        match fault {
            KitFault::Field(wrong) => CanholdFault::Field(wrong),
            KitFault::Memory => CanholdFault::Stream(TraceFault::Memory),
        }
    }
}

impl RunFault for CanholdFault {
    ghost status_of = { canhold_status };

    fn status(&self) -> u8 {
        match self {
            CanholdFault::Field(_) | CanholdFault::TranscriptsDiffer => 1,
            CanholdFault::NothingJudged => 5,
            CanholdFault::Stream(fault) => fault.status(),
        }
    }

    fn words(&self) -> &'static str {
        match self {
            CanholdFault::Field(wrong) => wrong.words(),
            CanholdFault::TranscriptsDiffer => "",
            CanholdFault::NothingJudged => "the document has no transcript",
            CanholdFault::Stream(fault) => fault.words(),
        }
    }
}
