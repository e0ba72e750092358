//! The number of cases with each verdict.
ghost use Rattle.std.specs.Prelude.{◌≡◌, ◌++◌, decimal, OnOk};
ghost use Rattle.canhold_commands.specs.Counts.{cases_in, count_line, verdicts_text, without_text};

use document_values::{push_number, push_text};
use std::alloc::AllocError;

/// The number of cases of a run with each verdict.
#[derive(Clone, Copy, Debug, PartialEq, Eq)]
pub struct Tally {
    pub passed: u32,
    pub failed: u32,
    /// A case could not be played to its end.
    pub void: u32,
    /// A case needs what the test bench cannot do.
    pub skipped: u32,
}

impl Tally {
    /// No case has a verdict.
    pub const NONE: Tally = Tally {
        passed: 0,
        failed: 0,
        void: 0,
        skipped: 0,
    };

    /// Returns the number of cases.
    pub fn cases(self) -> u64
        ensures { result ≡ cases_in self }
    {
        u64::from(self.passed)
            + u64::from(self.failed)
            + u64::from(self.void)
            + u64::from(self.skipped)
    }
}

/// Appends the line that counts the cases of a run, `passed 1 failed 1 void 0 skipped 0 of 2`, and 0x0a. If `without`
/// is not 0, the line ends with `, 3 without a transcript`: cases without a transcript have no verdict.
pub fn push_count(out: &mut Vec<u8>, tally: Tally, without: u64) -> Result<(), AllocError>
    ensures { OnOk result (out.new.items ≡ out.old.items ++ count_line tally without) }
{
    push_verdicts(out, tally)?;
    push_without(out, without)?;
    push_text(out, b"\n")
}

/// Appends the number of cases with each verdict, and their sum.
fn push_verdicts(out: &mut Vec<u8>, tally: Tally) -> Result<(), AllocError>
    ensures { OnOk result (out.new.items ≡ out.old.items ++ verdicts_text tally) }
{
    push_number_behind(out, b"passed ", u64::from(tally.passed))?;
    push_number_behind(out, b" failed ", u64::from(tally.failed))?;
    push_number_behind(out, b" void ", u64::from(tally.void))?;
    push_number_behind(out, b" skipped ", u64::from(tally.skipped))?;
    push_number_behind(out, b" of ", tally.cases())
}

/// Appends the number of cases without a transcript; nothing if it is 0.
fn push_without(out: &mut Vec<u8>, without: u64) -> Result<(), AllocError>
    ensures { OnOk result (out.new.items ≡ out.old.items ++ without_text without) }
{
    if without == 0 {
        return Ok(());
    }
    push_number_behind(out, b", ", without)?;
    push_text(out, b" without a transcript")
}

/// Appends a word and a number.
fn push_number_behind(out: &mut Vec<u8>, word: &[u8], number: u64) -> Result<(), AllocError>
    ensures { OnOk result (out.new.items ≡ out.old.items ++ (word.now ++ decimal number)) }
{
    push_text(out, word)?;
    push_number(out, number)
}
