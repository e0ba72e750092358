//! Why `canplan` has not done all that was asked.
ghost use Rattle.std.specs.Prelude.{◌≡◌};
ghost use Rattle.can_plan_text.specs.Status.{plan_fault_of, canplan_status, worst_fault_of};
ghost use Rattle.can_plan_text.specs.declared.canplan_fault.CanplanFault.TheVariants.{Stream};

use crate::fault::PlanFault;
use crate::field::PlanField;
use crate::worst_fault::WorstFault;
use can_program::RunFault;
use can_stream::TraceFault;
use thiserror::Error;

/// Why a run has not done all that was asked.
#[derive(Clone, Copy, Debug, PartialEq, Eq, Error)]
pub enum CanplanFault {
    /// The document is refused because of this field.
    #[error("P2 {0}")]
    Field(PlanField),
    /// No message of the network has this name.
    #[error("message unknown")]
    MessageUnknown,
    /// No scenario is long enough for the worst case of the message.
    #[error("timeline too long")]
    TimelineTooLong,
    /// Some message may miss its deadline.
    #[error("deadlines missed")]
    DeadlinesMissed,
    /// The input was not read, the output was not written, or memory ran out.
    #[error(transparent)]
    Stream(TraceFault),
}

impl From<TraceFault> for CanplanFault {
    ghost from_gives = { λ fault own. own ≡ Stream fault };

    fn from(fault: TraceFault) -> CanplanFault {
        CanplanFault::Stream(fault)
    }
}

impl From<PlanFault> for CanplanFault {
    ghost from_gives = { λ fault own. own ≡ plan_fault_of fault };

    fn from(fault: PlanFault) -> CanplanFault {
        match fault {
            PlanFault::Field(wrong) => CanplanFault::Field(wrong),
            PlanFault::Memory => CanplanFault::Stream(TraceFault::Memory),
        }
    }
}

impl From<WorstFault> for CanplanFault {
    ghost from_gives = { λ fault own. own ≡ worst_fault_of fault };

    fn from(fault: WorstFault) -> CanplanFault {
        match fault {
            WorstFault::Field(wrong) => CanplanFault::Field(wrong),
            WorstFault::Unknown => CanplanFault::MessageUnknown,
            WorstFault::TooLong => CanplanFault::TimelineTooLong,
            WorstFault::Memory => CanplanFault::Stream(TraceFault::Memory),
        }
    }
}

impl RunFault for CanplanFault {
    ghost status_of = { canplan_status };

    fn status(&self) -> u8 {
        match self {
            CanplanFault::Field(_)
            | CanplanFault::MessageUnknown
            | CanplanFault::TimelineTooLong
            | CanplanFault::DeadlinesMissed => 1,
            CanplanFault::Stream(fault) => fault.status(),
        }
    }

    fn words(&self) -> &'static str {
        match self {
            CanplanFault::Field(wrong) => wrong.words(),
            CanplanFault::MessageUnknown => {
                "MESSAGE must be a frame of the document, such as 'S 300 D'"
            }
            CanplanFault::TimelineTooLong => {
                "the busy period has more than 999999 bit times, or no end"
            }
            CanplanFault::DeadlinesMissed => "",
            CanplanFault::Stream(fault) => fault.words(),
        }
    }
}
