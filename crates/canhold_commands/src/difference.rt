//! How a transcript differs: the actual and the expected value.
ghost use Rattle.std.specs.Prelude.{◌≡◌, ◌++◌, OnOk};
ghost use Rattle.canhold_commands.specs.Verdicts.{counters_text, difference_text, ending_text, event_or_nothing, level_difference, level_text};

use can_conform::Difference;
use can_frame::Level;
use can_terms::{Counters, Ending, Event};
use document_values::{push_number, push_text};
use kit_documents::{push_event, push_state};
use std::alloc::AllocError;

/// It separates the actual from the expected value.
const NOT: &[u8] = b" not ";

/// Appends a difference.
pub(crate) fn push_difference(out: &mut Vec<u8>, difference: &Difference) -> Result<(), AllocError>
    ensures { OnOk result (out.new.items ≡ out.old.items ++ difference_text difference.now) }
{
    match difference {
        Difference::Level { told, ought } => push_level_difference(out, *told, *ought),
        Difference::Event { told, ought } => {
            push_text(out, b"reported ")?;
            push_event_or_nothing(out, told)?;
            push_text(out, NOT)?;
            push_event_or_nothing(out, ought)
        }
        Difference::Counters { told, ought } => {
            push_text(out, b"counted ")?;
            push_counters(out, *told)?;
            push_text(out, NOT)?;
            push_counters(out, *ought)
        }
        Difference::End { told, ought } => {
            push_text(out, b"end ")?;
            push_ending(out, told)?;
            push_text(out, NOT)?;
            push_ending(out, ought)
        }
    }
}

/// Appends an actual and an expected level, or that there are too few or too many.
fn push_level_difference(
    out: &mut Vec<u8>,
    told: Option<Level>,
    ought: Option<Level>,
) -> Result<(), AllocError>
    ensures { OnOk result (out.new.items ≡ out.old.items ++ level_difference told ought) }
{
    match (told, ought) {
        (None, _) => push_text(out, b"drove nothing"),
        (Some(_), None) => push_text(out, b"drove too long"),
        (Some(told), Some(ought)) => {
            push_text(out, b"drove ")?;
            push_level(out, told)?;
            push_text(out, NOT)?;
            push_level(out, ought)
        }
    }
}

/// Appends the digit of a level.
fn push_level(out: &mut Vec<u8>, level: Level) -> Result<(), AllocError>
    ensures { OnOk result (out.new.items ≡ out.old.items ++ level_text level) }
{
    push_text(out, &[level.digit()])
}

/// Appends an event, or `nothing`.
fn push_event_or_nothing(out: &mut Vec<u8>, event: &Option<Event>) -> Result<(), AllocError>
    ensures { OnOk result (out.new.items ≡ out.old.items ++ event_or_nothing event.now) }
{
    match event {
        Some(event) => push_event(out, event),
        None => push_text(out, b"nothing"),
    }
}

/// Appends a state, TEC and REC.
fn push_ending(out: &mut Vec<u8>, ending: &Ending) -> Result<(), AllocError>
    ensures { OnOk result (out.new.items ≡ out.old.items ++ ending_text ending.now) }
{
    push_state(out, ending.state)?;
    push_text(out, b" ")?;
    push_counters(out, ending.counters)
}

/// Appends TEC and REC.
fn push_counters(out: &mut Vec<u8>, counters: Counters) -> Result<(), AllocError>
    ensures { OnOk result (out.new.items ≡ out.old.items ++ counters_text counters) }
{
    push_number(out, u64::from(counters.transmit))?;
    push_text(out, b" ")?;
    push_number(out, u64::from(counters.receive))
}
