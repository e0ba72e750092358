//! The subcommands of the program.
ghost use Rattle.std.specs.Prelude.{◌≡◌, IfSome, Some};
ghost use Rattle.canbit_commands.specs.Subcommands.{name_of};

use crate::help;

/// A subcommand.
#[derive(Clone, Copy, Debug, PartialEq, Eq)]
pub enum Chosen {
    /// Reads frame lines, and writes a line of levels for each.
    Encode,
    /// Reads trace text, and writes a line for each frame and each fault.
    Decode,
    /// Reads a scenario, and writes its report.
    Run,
    /// Reads vector lines, and writes a verdict for each, and their total.
    Check,
}

impl Chosen {
    /// All subcommands, in the order of the help text.
    pub const ALL: [Chosen; 4] = [Chosen::Encode, Chosen::Decode, Chosen::Run, Chosen::Check];

    /// Returns the word that names it.
    pub fn name(self) -> &'static str
        ensures { result.now ≡ name_of self }
    {
        match self {
            Chosen::Encode => "encode",
            Chosen::Decode => "decode",
            Chosen::Run => "run",
            Chosen::Check => "check",
        }
    }

    /// Returns its line in the help text.
    pub(crate) fn about(self) -> &'static str {
        match self {
            Chosen::Encode => "Writes the levels of each frame line",
            Chosen::Decode => "Writes the frames and faults of a trace of levels",
            Chosen::Run => "Runs a scenario and writes its report",
            Chosen::Check => "Tells of each vector line whether its levels are its frame's",
        }
    }

    /// Returns its help text about input, output, faults and statuses.
    pub(crate) fn details(self) -> &'static str {
        match self {
            Chosen::Encode => help::ENCODE,
            Chosen::Decode => help::DECODE,
            Chosen::Run => help::RUN,
            Chosen::Check => help::CHECK,
        }
    }

    /// Returns the subcommand with this name.
    pub(crate) fn named(name: &str) -> Option<Chosen>
        ensures some { IfSome result (λ chosen. name_of chosen ≡ name.now) }
        ensures every { (chosen : Chosen) → name_of chosen ≡ name.now → result ≡ Some chosen }
    {
        Chosen::ALL.into_iter().find(|chosen| chosen.name() == name)
    }
}
