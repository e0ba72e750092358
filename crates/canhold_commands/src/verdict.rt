//! The line of a verdict.
ghost use Rattle.std.specs.Prelude.{◌≡◌, ◌++◌, OnOk};
ghost use Rattle.canhold_commands.specs.Verdicts.{choices_text, failure_text, verdict_line};

use crate::difference::push_difference;
use crate::standing::push_standing;
use can_conform::{Failure, Verdict};
use document_values::{push_number, push_text};
use kit_documents::Choice;
use std::alloc::AllocError;

/// Appends the line of a verdict on the case with this name: `pass NAME`, or `fail NAME at` and the bit time, the first
/// difference, the reference's state before it, and these choices. The line ends with 0x0a.
pub fn push_verdict(
    out: &mut Vec<u8>,
    name: &[u8],
    choices: &[Choice],
    verdict: &Verdict,
) -> Result<(), AllocError>
    ensures { OnOk result (out.new.items ≡ out.old.items ++ verdict_line name.now choices.now verdict.now) }
{
    match verdict {
        Verdict::Pass => {
            push_text(out, b"pass ")?;
            push_text(out, name)?;
        }
        Verdict::Fail(failure) => {
            push_text(out, b"fail ")?;
            push_text(out, name)?;
            push_failure(out, failure)?;
            push_choices(out, choices)?;
        }
    }
    push_text(out, b"\n")
}

/// Appends the bit time, the difference, and the reference's state before it.
fn push_failure(out: &mut Vec<u8>, failure: &Failure) -> Result<(), AllocError>
    ensures { OnOk result (out.new.items ≡ out.old.items ++ failure_text failure.now) }
{
    push_text(out, b" at ")?;
    push_number(out, u64::from(failure.time))?;
    push_text(out, b": ")?;
    push_difference(out, &failure.difference)?;
    push_text(out, b"; ")?;
    push_standing(out, &failure.standing)
}

/// Appends the choices, in their order.
fn push_choices(out: &mut Vec<u8>, choices: &[Choice]) -> Result<(), AllocError>
    ensures { OnOk result (out.new.items ≡ out.old.items ++ choices_text choices.now) }
{
    for choice in choices {
        push_text(out, b"; choice ")?;
        push_text(out, choice.word().as_bytes())?;
    }
    Ok(())
}
