//! Writes levels as tokens.
ghost use Rattle.std.specs.Prelude.{◌≡◌, ◌++◌, IfOk, OnOk};
ghost use Rattle.kit_documents.specs.LevelTokens.{behind_run, gap_before_literal, gap_before_run, levels_text, run_text};

use can_frame::Level;
use document_values::{push_number, push_text};
use std::alloc::AllocError;

/// A run of at least this length is written as `L*N`.
const LONG_RUN: usize = 8;

/// What comes before a run.
#[derive(Clone, Copy)]
pub(crate) enum Before {
    Nothing,
    /// Levels one by one.
    Literal,
    /// A run as `L*N`.
    LongRun,
}

impl Before {
    /// The gap between this and a long run.
    fn gap_before_run(self) -> &'static [u8]
        ensures { result.now ≡ gap_before_run self }
    {
        match self {
            Before::Nothing => b"",
            Before::Literal | Before::LongRun => b" ",
        }
    }

    /// The gap between this and levels one by one.
    fn gap_before_literal(self) -> &'static [u8]
        ensures { result.now ≡ gap_before_literal self }
    {
        match self {
            Before::Nothing | Before::Literal => b"",
            Before::LongRun => b" ",
        }
    }
}

/// Appends levels as tokens: a run of eight or more as `L*N`, the others one by one.
pub fn push_levels(out: &mut Vec<u8>, levels: &[Level]) -> Result<(), AllocError>
    ensures { OnOk result (out.new.items ≡ out.old.items ++ levels_text levels.now) }
{
    let Some((first, others)) = levels.split_first() else {
        return Ok(());
    };
    let mut before = Before::Nothing;
    let mut level = *first;
    let mut count = 1;
    for next in others {
        if *next == level {
            count += 1;
        } else {
            before = push_run(out, before, level, count)?;
            level = *next;
            count = 1;
        }
    }
    push_run(out, before, level, count)?;
    Ok(())
}

/// Appends a run, and returns what it is for the next one.
fn push_run(
    out: &mut Vec<u8>,
    before: Before,
    level: Level,
    count: usize,
) -> Result<Before, AllocError>
    ensures text { OnOk result (out.new.items ≡ out.old.items ++ run_text before level count) }
    ensures before { IfOk result (λ next. next ≡ behind_run count) }
{
    let digit = level.digit();
    if count >= LONG_RUN {
        push_text(out, before.gap_before_run())?;
        push_text(out, &[digit, b'*'])?;
        push_number(out, count as u64)?;
        return Ok(Before::LongRun);
    }
    push_text(out, before.gap_before_literal())?;
    push_text(out, &[digit; LONG_RUN][..count])?;
    Ok(Before::Literal)
}
