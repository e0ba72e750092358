//! The margins of a network, as text.
ghost use Rattle.std.specs.Prelude.{◌≡◌, ◌+◌, ◌++◌, OnOk, Some, codes, slice_get};
ghost use Rattle.can_plan_text.specs.Details.{late_text, left_lines, margin_line, margin_lines, planned_at};

use crate::left::Left;
use crate::plan::Planned;
use crate::report::{push_end, push_head};
use can_plan::Margin;
use document_values::{push_named, push_text};
use std::alloc::AllocError;

/// Appends the margins: by how many per cent all periods may be shorter, and how many more hits may come at once.
pub(crate) fn push_left(
    out: &mut Vec<u8>,
    planned: &[Planned],
    left: &Left,
) -> Result<(), AllocError>
    ensures { OnOk result (out.new.items ≡ out.old.items ++ left_lines planned.now left.now) }
{
    push_margin(
        out,
        b"shorter periods ",
        b" per cent",
        planned,
        left.periods,
    )?;
    push_margin(out, b"more hits ", b"", planned, left.hits)
}

/// Appends a margin, if there is one.
fn push_margin(
    out: &mut Vec<u8>,
    word: &[u8],
    unit: &[u8],
    planned: &[Planned],
    margin: Option<Margin>,
) -> Result<(), AllocError>
    ensures { OnOk result (out.new.items ≡ out.old.items ++ margin_lines word.now unit.now planned.now margin) }
{
    match margin {
        Some(margin) => push_margin_line(out, word, unit, planned, margin),
        None => Ok(()),
    }
}

/// Appends a margin, and the first message that may miss its deadline with one more.
#[tactic(auto, unfolding(crate::specs::Details::margin_line))]
fn push_margin_line(
    out: &mut Vec<u8>,
    word: &[u8],
    unit: &[u8],
    planned: &[Planned],
    margin: Margin,
) -> Result<(), AllocError>
    ensures { OnOk result (out.new.items ≡ out.old.items ++ margin_line word.now unit.now planned.now margin) }
{
    push_named(out, word, u64::from(margin.most))?;
    push_text(out, unit)?;
    push_text(out, b" ok")?;
    push_late(
        out,
        unit,
        u64::from(margin.most) + 1,
        told(planned, margin.late),
    )
}

/// Returns the message at a place, if a place is given and has one.
fn told(planned: &[Planned], place: Option<usize>) -> Option<Planned>
    ensures { result ≡ planned_at planned.now place }
{
    match place {
        Some(place) => message_at(planned, place),
        None => None,
    }
}

/// Returns the message at a place, if there is one.
fn message_at(planned: &[Planned], place: usize) -> Option<Planned>
    ensures { result ≡ slice_get planned.now place }
{
    planned.get(place).copied()
}

/// Appends the message that may miss its deadline with `more` units, and the end of the line.
fn push_late(
    out: &mut Vec<u8>,
    unit: &[u8],
    more: u64,
    late: Option<Planned>,
) -> Result<(), AllocError>
    ensures { OnOk result (out.new.items ≡ out.old.items ++ late_text unit.now more late) }
{
    match late {
        Some(planned) => push_late_message(out, unit, more, &planned),
        None => push_text(out, b"\n"),
    }
}

/// Appends a message that may miss its deadline with `more` units.
fn push_late_message(
    out: &mut Vec<u8>,
    unit: &[u8],
    more: u64,
    planned: &Planned,
) -> Result<(), AllocError>
    ensures { OnOk result (out.new.items ≡ out.old.items ++ late_text unit.now more (Some planned.now)) }
{
    push_named(out, b" ", more)?;
    push_text(out, unit)?;
    push_text(out, b" late ")?;
    push_head(out, planned)?;
    push_end(out, planned)
}
