//! Why `canbit` has not done all that was asked.
ghost use Rattle.std.specs.Prelude.{◌≡◌};
ghost use Rattle.canbit_commands.specs.Status.{canbit_status};
ghost use Rattle.canbit_commands.specs.declared.fault.CanbitFault.TheVariants.{Stream};

use can_program::RunFault;
use can_stream::TraceFault;
use thiserror::Error;

/// Why a subcommand has not done all that was asked.
#[derive(Clone, Copy, Debug, PartialEq, Eq, Error)]
pub enum CanbitFault {
    /// At least one vector does not have the levels of its frame.
    #[error("vectors differ")]
    VectorsDiffer,
    /// The input was not read or is refused, the output was not written, or memory ran out.
    #[error(transparent)]
    Stream(TraceFault),
}

impl From<TraceFault> for CanbitFault {
    ghost from_gives = { λ fault own. own ≡ Stream fault };

    fn from(fault: TraceFault) -> CanbitFault {
        CanbitFault::Stream(fault)
    }
}

impl RunFault for CanbitFault {
    ghost status_of = { canbit_status };

    fn status(&self) -> u8 {
        match self {
            CanbitFault::VectorsDiffer => 1,
            CanbitFault::Stream(fault) => fault.status(),
        }
    }
}
