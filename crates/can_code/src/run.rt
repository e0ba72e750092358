//! A run of equal levels, kept as a row of the step table.
ghost use Rattle.std.specs.Prelude.{◌≡◌, ◌==◌, ◌<◌};
ghost use Rattle.can_wire.specs.Stuffing.{run_after as run_after_of};
ghost use Rattle.can_code.specs.Steps.{run_at};

use can_frame::Level;
use std::marker::Model;

/// The number of run lengths.
const RUNS: u8 = 5;

/// A level, and the length of the run of equal levels that it ends: one to five. It is kept as a row of the step
/// table, since nearly all callers need the index of the next step.
#[derive(Clone, Copy)]
pub(crate) struct Run {
    row: u8,
}

impl Model for Run {
    ghost use Rattle.std.specs.Prelude.{◌<◌};
    ghost use Rattle.std.proofs.Common.{ap};
    ghost use Rattle.can_code.specs.Steps.{RunParts, row_of, run_at};
    ghost use Rattle.can_code.specs.RunRows.{row_again};

    ghost Value = { RunParts };

    ghost view = { λ a. run_at a.row };

    ghost invariant = { λ a. a.row < 10 };

    ghost inverse = { λ v. record { row = row_of v.last v.run } };

    ghost inverse_ok = { λ a within. ap (λ r. record { row = r }) (row_again a.row within) };
}

impl Run {
    /// The first level of a run.
    #[inline]
    pub(crate) fn begin(level: Level) -> Run
        ensures { result ≡ record { last = level; run = 1 } }
    {
        Run {
            row: RUNS * u8::from(level.is_recessive()),
        }
    }

    /// The run that a row of the table represents.
    #[inline]
    pub(crate) fn at(row: u8) -> Run
        requires { row < 10 }
        ensures { result ≡ run_at row }
    {
        Run { row }
    }

    /// The row of the table for this run.
    #[inline]
    pub(crate) fn row(self) -> u8
        ensures range { result < 10 }
        ensures run { run_at result ≡ self }
    {
        self.row
    }

    /// The level of the run.
    #[inline]
    pub(crate) fn level(self) -> Level
        ensures { result ≡ self.last }
    {
        Level::from_bool(self.row >= RUNS)
    }

    /// Whether a stuff bit follows this run.
    #[inline]
    pub(crate) fn is_longest(self) -> bool
        ensures { result ≡ (self.run == 5) }
    {
        self.row == RUNS - 1 || self.row == 2 * RUNS - 1
    }

    /// This run with one more level, or the run that this level begins.
    #[inline]
    pub(crate) fn and(self, level: Level) -> Run
        requires { self.run < 5 }
        ensures { result ≡ record { last = level; run = run_after_of self.last self.run level } }
    {
        if level == self.level() {
            Run { row: self.row + 1 }
        } else {
            Run::begin(level)
        }
    }
}
