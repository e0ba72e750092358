//! The output for a network with details, as text.
ghost use Rattle.std.specs.Prelude.{◌≡◌, ◌+◌, ◌-◌, ◌++◌, ◌^◌, ◌<◌, ◌≤◌, OnOk, codes, take};
ghost use Rattle.std.specs.List.{flat_map};
ghost use Rattle.can_plan_text.specs.Details.{before_line, cost_line, detail_lines, details_text, last_lines, latest_line, latest_lines, number_line, own_lines, part_lines, time_line, time_lines, time_outcome};

use crate::detail::Detail;
use crate::left::Left;
use crate::left_text::push_left;
use crate::plan::{Plan, Planned};
use crate::report::{
    push_borne, push_end, push_ended, push_first, push_head, push_last, push_message, push_slack,
};
use crate::times::{time_down, time_up};
use crate::verdict::{Analysis, Verdict};
use can_plan::{Latest, arrivals, own_load};
use document_values::{push_named, push_text};
use std::alloc::AllocError;

/// The bit times of intermission, which the longest time on the bus includes and the wire does not.
const INTERMISSION: u64 = 3;

/// Appends the output for a network with details: the output without them, with the parts of the bound after the line
/// of each message that has one, and how much is left at the end.
pub(crate) fn push_details(
    out: &mut Vec<u8>,
    plan: &Plan,
    analysis: &Analysis,
    details: &[Detail],
    left: &Left,
) -> Result<(), AllocError>
    ensures { OnOk result (out.new.items ≡ out.old.items ++ details_text plan.now analysis.now details.now left.now) }
{
    push_first(out, u64::from(plan.rate), analysis)?;
    push_messages(out, plan, details)?;
    push_last(out, analysis)?;
    push_borne(out, analysis.borne)?;
    push_left(out, &plan.messages, left)
}

/// Appends the lines of each message.
fn push_messages(out: &mut Vec<u8>, plan: &Plan, details: &[Detail]) -> Result<(), AllocError>
    ensures { OnOk result (out.new.items ≡ out.old.items ++ flat_map (detail_lines plan.now) details.now) }
{
    for detail in details {
        push_detail(out, plan, detail)?;
    }
    Ok(())
}

/// Appends the lines of a message.
fn push_detail(out: &mut Vec<u8>, plan: &Plan, detail: &Detail) -> Result<(), AllocError>
    ensures { OnOk result (out.new.items ≡ out.old.items ++ detail_lines plan.now detail.now) }
{
    let higher = before(&plan.messages, detail.place);
    push_message(out, &detail.verdict)?;
    push_latest(out, plan.rate, higher, &detail.verdict, detail.latest)
}

/// Returns the messages before this place.
fn before(messages: &[Planned], place: usize) -> &[Planned]
    ensures { result.now ≡ take place messages.now }
{
    &messages[..place.min(messages.len())]
}

/// Appends the parts of a bound, if there is one.
fn push_latest(
    out: &mut Vec<u8>,
    rate: u32,
    higher: &[Planned],
    verdict: &Verdict,
    latest: Option<Latest>,
) -> Result<(), AllocError>
    ensures { OnOk result (out.new.items ≡ out.old.items ++ latest_lines rate higher.now verdict.now latest) }
{
    match latest {
        Some(latest) => {
            push_times(out, rate, verdict.planned.deadline, latest.end)?;
            push_parts(out, higher, verdict, &latest)
        }
        None => Ok(()),
    }
}

/// Appends bound, deadline and slack in microseconds, if there is a bit rate.
fn push_times(out: &mut Vec<u8>, rate: u32, deadline: u32, bound: u64) -> Result<(), AllocError>
    requires { bound < 2 ^ 34 }
    ensures { OnOk result (out.new.items ≡ out.old.items ++ time_lines rate deadline bound) }
{
    if rate == 0 {
        Ok(())
    } else {
        push_time_line(out, rate, u64::from(deadline), bound)
    }
}

/// Appends bound, deadline and slack in microseconds.
#[tactic(auto, unfolding(crate::specs::Details::time_line))]
fn push_time_line(out: &mut Vec<u8>, rate: u32, deadline: u64, bound: u64) -> Result<(), AllocError>
    requires some { 0 < rate }
    requires due { deadline < 2 ^ 34 }
    requires short { bound < 2 ^ 34 }
    ensures { OnOk result (out.new.items ≡ out.old.items ++ time_line rate deadline bound) }
{
    push_named(out, b"  microseconds bound ", time_up(rate, bound))?;
    push_named(out, b" deadline ", time_down(rate, deadline))?;
    push_outcome(out, rate, deadline, bound)?;
    push_text(out, b"\n")
}

/// Appends how many microseconds a bound is within the deadline, or that a frame may miss it.
fn push_outcome(out: &mut Vec<u8>, rate: u32, deadline: u64, bound: u64) -> Result<(), AllocError>
    requires some { 0 < rate }
    requires due { deadline < 2 ^ 34 }
    ensures { OnOk result (out.new.items ≡ out.old.items ++ time_outcome rate deadline bound) }
{
    if deadline < bound {
        push_text(out, b" late")
    } else {
        push_slack(out, time_down(rate, deadline - bound))
    }
}

/// Appends the parts of a bound.
fn push_parts(
    out: &mut Vec<u8>,
    higher: &[Planned],
    verdict: &Verdict,
    latest: &Latest,
) -> Result<(), AllocError>
    ensures { OnOk result (out.new.items ≡ out.old.items ++ part_lines higher.now verdict.now latest.now) }
{
    push_latest_line(out, latest)?;
    push_own(out, verdict, latest)?;
    push_before(out, latest.delay, higher)?;
    push_others(out, verdict, latest)
}

/// Appends which frame is the latest.
fn push_latest_line(out: &mut Vec<u8>, latest: &Latest) -> Result<(), AllocError>
    ensures { OnOk result (out.new.items ≡ out.old.items ++ latest_line latest.now) }
{
    push_named(out, b"  latest frame ", latest.number)?;
    push_ended(out, b" start ", u64::from(latest.delay))
}

/// Appends jitter, blocking, and the earlier frames of the message itself.
#[tactic(auto, unfolding(crate::specs::Details::own_lines))]
fn push_own(out: &mut Vec<u8>, verdict: &Verdict, latest: &Latest) -> Result<(), AllocError>
    ensures { OnOk result (out.new.items ≡ out.old.items ++ own_lines verdict.now latest.now) }
{
    push_jitter(out, verdict.planned.message.jitter)?;
    push_blocking(out, verdict.blocking)?;
    push_bits(out, b"  earlier frames ", latest.number, latest.earlier)
}

/// Appends the jitter.
fn push_jitter(out: &mut Vec<u8>, jitter: u32) -> Result<(), AllocError>
    ensures { OnOk result (out.new.items ≡ out.old.items ++ number_line (codes "  jitter ") jitter) }
{
    push_ended(out, b"  jitter ", u64::from(jitter))
}

/// Appends the blocking.
fn push_blocking(out: &mut Vec<u8>, blocking: u16) -> Result<(), AllocError>
    ensures { OnOk result (out.new.items ≡ out.old.items ++ number_line (codes "  blocking ") blocking) }
{
    push_ended(out, b"  blocking ", u64::from(blocking))
}

/// Appends the hits, the wire of the frame, and the periods to subtract.
#[tactic(auto, unfolding(crate::specs::Details::last_lines))]
fn push_others(out: &mut Vec<u8>, verdict: &Verdict, latest: &Latest) -> Result<(), AllocError>
    ensures { OnOk result (out.new.items ≡ out.old.items ++ last_lines verdict.now latest.now) }
{
    push_bits(out, b"  hits ", latest.hits, latest.hits_cost)?;
    push_ended(out, b"  wire ", wire(verdict.planned.message.longest))?;
    push_bits(out, b"  less periods ", latest.number, latest.later)
}

/// Returns the length of the wire of a frame that keeps the bus for this long.
fn wire(longest: u16) -> u64
    ensures { result ≡ longest - 3 }
{
    u64::from(longest).saturating_sub(INTERMISSION)
}

/// Appends a word, a number, and how many bit times that is.
fn push_bits(out: &mut Vec<u8>, word: &[u8], number: u64, bits: u64) -> Result<(), AllocError>
    ensures { OnOk result (out.new.items ≡ out.old.items ++ cost_line word.now number bits) }
{
    push_named(out, word, number)?;
    push_ended(out, b" bits ", bits)
}

/// Appends, for each of these messages, how many of its frames are sent before one with this delay.
fn push_before(out: &mut Vec<u8>, delay: u32, higher: &[Planned]) -> Result<(), AllocError>
    ensures { OnOk result (out.new.items ≡ out.old.items ++ flat_map (before_line delay) higher.now) }
{
    for planned in higher {
        push_before_line(out, delay, planned)?;
    }
    Ok(())
}

/// Appends how many frames of a message are sent before one with this delay.
#[tactic(auto, unfolding(crate::specs::Details::before_line))]
fn push_before_line(out: &mut Vec<u8>, delay: u32, planned: &Planned) -> Result<(), AllocError>
    ensures { OnOk result (out.new.items ≡ out.old.items ++ before_line delay planned.now) }
{
    let long = u64::from(delay) + 1;
    push_named(out, b"  before frames ", arrivals(&planned.message, long))?;
    push_named(out, b" bits ", own_load(&planned.message, long))?;
    push_text(out, b" of ")?;
    push_head(out, planned)?;
    push_end(out, planned)
}
