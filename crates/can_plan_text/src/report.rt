//! The output for a network, as text.
ghost use Rattle.std.specs.Prelude.{◌≡◌, ◌++◌, ◌^◌, ◌<◌, codes, decimal, OnOk};
ghost use Rattle.std.specs.List.{flat_map};
ghost use Rattle.can_plan_text.specs.Report.{borne_line, bound_text, end_text, first_line, message_head, last_line, load_thousandths, message_line, outcome_text, quoted_text, plan_report, share_of, slack_text, thousandths, times_text};

use crate::plan::Planned;
use crate::verdict::{Analysis, Verdict};
use can_plan::Borne;
use document_values::{push_named, push_number, push_text};
use std::alloc::AllocError;

/// How many billionths make one.
const BILLION: u64 = 1_000_000_000;

/// How many billionths make one thousandth.
const MILLION: u64 = 1_000_000;

/// Appends the output for a network with this bit rate: a line for the network, one for each message, highest priority
/// first, and one with the number of those that may miss their deadline. If the document has errors, a last line has
/// how long they are tolerated. Each line ends with 0x0a.
pub fn push_report(out: &mut Vec<u8>, rate: u32, analysis: &Analysis) -> Result<(), AllocError>
    ensures { OnOk result (out.new.items ≡ out.old.items ++ plan_report rate analysis.now) }
{
    push_first(out, u64::from(rate), analysis)?;
    push_messages(out, &analysis.verdicts)?;
    push_last(out, analysis)?;
    push_borne(out, analysis.borne)
}

/// Appends the line of the network: the number of its messages, their load, and the bit rate.
#[tactic(auto, unfolding(crate::specs::Report::first_line))]
pub(crate) fn push_first(
    out: &mut Vec<u8>,
    rate: u64,
    analysis: &Analysis,
) -> Result<(), AllocError>
    ensures { OnOk result (out.new.items ≡ out.old.items ++ first_line rate analysis.now.verdicts.items) }
{
    push_named(out, b"network messages ", analysis.verdicts.len() as u64)?;
    push_load(out, b" load ", analysis)?;
    push_ended(out, b" rate ", rate)
}

/// Appends a line for each message.
fn push_messages(out: &mut Vec<u8>, verdicts: &[Verdict]) -> Result<(), AllocError>
    ensures { OnOk result (out.new.items ≡ out.old.items ++ flat_map message_line verdicts.now) }
{
    for verdict in verdicts {
        push_message(out, verdict)?;
    }
    Ok(())
}

/// Appends a message's line.
#[tactic(auto, unfolding(crate::specs::Report::message_line))]
pub(crate) fn push_message(out: &mut Vec<u8>, verdict: &Verdict) -> Result<(), AllocError>
    ensures { OnOk result (out.new.items ≡ out.old.items ++ message_line verdict.now) }
{
    push_head(out, &verdict.planned)?;
    push_named(
        out,
        b" longest ",
        u64::from(verdict.planned.message.longest),
    )?;
    push_named(out, b" blocking ", u64::from(verdict.blocking))?;
    push_times(out, u64::from(verdict.planned.deadline), verdict.bound)?;
    push_end(out, &verdict.planned)
}

/// Appends the text of a message's frames before the data: kind, identifier and DLC.
pub(crate) fn push_head(out: &mut Vec<u8>, planned: &Planned) -> Result<(), AllocError>
    ensures { OnOk result (out.new.items ≡ out.old.items ++ message_head planned.now) }
{
    let text = planned.head.to_text();
    let bytes = text.as_bytes();
    push_text(out, &bytes[..bytes.len().saturating_sub(1)])?;
    push_number(out, u64::from(planned.dlc))
}

/// Appends bound and deadline, and whether the deadline is met.
fn push_times(out: &mut Vec<u8>, deadline: u64, bound: Option<u64>) -> Result<(), AllocError>
    ensures { OnOk result (out.new.items ≡ out.old.items ++ times_text deadline bound) }
{
    push_text(out, b" bound ")?;
    push_bound(out, bound)?;
    push_named(out, b" deadline ", deadline)?;
    push_outcome(out, deadline, bound)
}

/// Appends a bound.
fn push_bound(out: &mut Vec<u8>, bound: Option<u64>) -> Result<(), AllocError>
    ensures { OnOk result (out.new.items ≡ out.old.items ++ bound_text bound) }
{
    match bound {
        Some(bound) => push_number(out, bound),
        None => push_text(out, b"none"),
    }
}

/// Appends how many bit times a bound is within the deadline, or that a frame may miss it.
fn push_outcome(out: &mut Vec<u8>, deadline: u64, bound: Option<u64>) -> Result<(), AllocError>
    ensures { OnOk result (out.new.items ≡ out.old.items ++ outcome_text deadline bound) }
{
    match bound {
        Some(bound) if bound <= deadline => push_slack(out, deadline - bound),
        _ => push_text(out, b" late"),
    }
}

/// Appends how much a bound is within the deadline.
pub(crate) fn push_slack(out: &mut Vec<u8>, slack: u64) -> Result<(), AllocError>
    ensures { OnOk result (out.new.items ≡ out.old.items ++ slack_text slack) }
{
    push_named(out, b" slack ", slack)?;
    push_text(out, b" ok")
}

/// Appends the name of a message, if it has one, and the end of its line.
pub(crate) fn push_end(out: &mut Vec<u8>, planned: &Planned) -> Result<(), AllocError>
    ensures { OnOk result (out.new.items ≡ out.old.items ++ end_text planned.now.name) }
{
    match &planned.name {
        Some(name) => push_quoted(out, name.as_bytes()),
        None => push_text(out, b"\n"),
    }
}

/// Appends a name in quotation marks, and the end of the line.
fn push_quoted(out: &mut Vec<u8>, name: &[u8]) -> Result<(), AllocError>
    ensures { OnOk result (out.new.items ≡ out.old.items ++ quoted_text name.now) }
{
    push_text(out, b" name \"")?;
    push_text(out, name)?;
    push_text(out, b"\"\n")
}

/// Appends the line with the number of messages that may miss their deadline.
#[tactic(auto, unfolding(crate::specs::Report::last_line))]
pub(crate) fn push_last(out: &mut Vec<u8>, analysis: &Analysis) -> Result<(), AllocError>
    ensures { OnOk result (out.new.items ≡ out.old.items ++ last_line analysis.now.verdicts.items) }
{
    push_load(out, b"load ", analysis)?;
    push_named(out, b" late ", analysis.late() as u64)?;
    push_ended(out, b" of ", analysis.verdicts.len() as u64)
}

/// Appends the line with how long hits are tolerated.
pub(crate) fn push_borne(out: &mut Vec<u8>, borne: Option<Borne>) -> Result<(), AllocError>
    ensures { OnOk result (out.new.items ≡ out.old.items ++ borne_line borne) }
{
    match borne {
        None => Ok(()),
        Some(Borne::Ever) => push_text(out, b"hits at most 15 for ever\n"),
        Some(Borne::For(long)) => push_ended(out, b"hits at most 15 within ", long),
        Some(Borne::Never) => push_text(out, b"hits above 15 at once\n"),
    }
}

/// Appends a word, and the load of all messages.
fn push_load(out: &mut Vec<u8>, word: &[u8], analysis: &Analysis) -> Result<(), AllocError>
    ensures { OnOk result (out.new.items ≡ out.old.items ++ (word.now ++ thousandths (load_thousandths analysis.now.verdicts.items))) }
{
    push_text(out, word)?;
    push_thousandths(out, load(analysis))
}

/// Returns the load of all messages, in thousandths.
fn load(analysis: &Analysis) -> u64
    ensures { result ≡ load_thousandths analysis.now.verdicts.items }
{
    let mut total = 0;
    for verdict in &analysis.verdicts {
        total += share(verdict);
    }
    total / MILLION
}

/// Returns the share of the time that a message's frames take at most, in billionths, rounded up.
fn share(verdict: &Verdict) -> u64
    ensures value { result ≡ share_of verdict.now }
    ensures range { result < 2 ^ 47 }
{
    let message = &verdict.planned.message;
    let period = u64::from(message.period);
    (u64::from(message.longest) * BILLION + period - 1) / period
}

/// Appends a word, a decimal number, and the end of the line.
pub(crate) fn push_ended(out: &mut Vec<u8>, word: &[u8], number: u64) -> Result<(), AllocError>
    ensures { OnOk result (out.new.items ≡ out.old.items ++ (word.now ++ (decimal number ++ codes "\n"))) }
{
    push_named(out, word, number)?;
    push_text(out, b"\n")
}

/// Appends thousandths with their point, as `0.972`.
fn push_thousandths(out: &mut Vec<u8>, number: u64) -> Result<(), AllocError>
    ensures { OnOk result (out.new.items ≡ out.old.items ++ thousandths number) }
{
    push_number(out, number / 1000)?;
    push_text(out, b".")?;
    push_number(out, number / 100 % 10)?;
    push_number(out, number / 10 % 10)?;
    push_number(out, number % 10)
}
