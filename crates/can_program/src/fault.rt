//! Why a run did not do all that it was asked.
ghost use Rattle.std.specs.Prelude.{◌≡◌, ◌⊎◌, ◌↔◌, ◌<◌, ◌≤◌, length, ℕ};
ghost use Rattle.can_program.specs.Status.{stream_status, words_status};

use can_stream::TraceFault;
use std::fmt::Display;
use std::io;
use std::io::ErrorKind;
use thiserror::Error;

/// Why a run did not do all that it was asked. Its text is a code with a place, of at most 66 bytes. A program prints it on
/// standard error, and its status is the exit status. Each program has faults of its own, such as the fields of the
/// documents that it reads.
pub trait RunFault: Display + Copy {
    /// The exit status of each fault.
    ghost status_of: { Self → ℕ };

    /// Returns the exit status, which is not 0.
    fn status(&self) -> u8
        ensures status { result ≡ status_of self.now }
        ensures told { 0 < result };

    /// What is wrong, in words that follow the code; empty if there are none.
    fn words(&self) -> &'static str
        ensures short { length result.now ≤ 128 }
    {
        ""
    }
}

/// The input was not read or is refused, the output was not written, or memory ran out.
impl RunFault for TraceFault {
    ghost status_of = { stream_status };

    fn status(&self) -> u8 {
        match self {
            TraceFault::BadByte { .. }
            | TraceFault::ScenarioField(_)
            | TraceFault::Long
            | TraceFault::FrameLine { .. } => 1,
            TraceFault::Read | TraceFault::Write => 3,
            TraceFault::Memory => 4,
        }
    }

    fn words(&self) -> &'static str {
        match self {
            TraceFault::Read => "standard input could not be read",
            TraceFault::Write => "standard output could not be written",
            TraceFault::Memory => "not enough memory",
            TraceFault::Long => "the input has more than 2^63 bytes",
            _ => "",
        }
    }
}

/// Why the words of a command line cannot be used.
#[derive(Clone, Copy, Debug, PartialEq, Eq, Error)]
pub enum WordsFault {
    /// The words are not a valid use of the program.
    #[error("usage")]
    Usage,
    /// Memory ran out when the words were read.
    #[error("P5 memory")]
    Memory,
}

impl RunFault for WordsFault {
    ghost status_of = { words_status };

    fn status(&self) -> u8 {
        match self {
            WordsFault::Usage => 2,
            WordsFault::Memory => 4,
        }
    }

    fn words(&self) -> &'static str {
        match self {
            WordsFault::Usage => "unknown or missing arguments, see --help",
            WordsFault::Memory => "not enough memory",
        }
    }
}

impl WordsFault {
    ghost use Rattle.std.specs.IoError.{error_kind};

    /// Returns why there is no command line: memory ran out when it was read, or a word is not UTF-8 and so not a valid
    /// use of the program.
    pub fn of(error: &io::Error) -> WordsFault
        ensures memory { (result ≡ WordsFault.Memory) ↔ (error_kind error.now ≡ ErrorKind.OutOfMemory) }
        ensures other { (result ≡ WordsFault.Memory) ⊎ (result ≡ WordsFault.Usage) }
    {
        match error.kind() {
            ErrorKind::OutOfMemory => WordsFault::Memory,
            _ => WordsFault::Usage,
        }
    }
}
