//! How much is left of a network until a message may miss its deadline.
ghost use Rattle.std.specs.Prelude.{◌≡◌, ◌-◌, ◌<◌, ◌≤◌, ℕ, IfOk, IsFalse, IsNone, MatchOption, length, map, nat_lt};
ghost use Rattle.std.specs.List.{list_all};
ghost use Rattle.can_plan.specs.Margins.{IsFirstLate, IsFirstUnder, IsMargin, MeetDeadlines, MeetUnder, MeetsDeadline, MeetsUnder, misses_deadline as misses_deadline_of, most_strain as most_strain_of, shorter as shorter_of};
ghost use Rattle.can_plan.specs.Messages.{ArePeriodic};

use crate::message::{HitRate, Message};
use crate::response::{are_periodic, response_after};
use std::alloc::{AllocError, Global};

/// Periods can be shortened by at most this many per cent.
const MOST_PER_CENT: u16 = 99;

/// A change to a network: shorter periods, or more hits.
#[derive(Clone, Copy, Debug, PartialEq, Eq)]
pub enum Strain {
    /// All periods are shorter by a number of per cent, at most 99. They are rounded down to whole bit times, at
    /// least one.
    ShorterPeriods,
    /// The burst is greater by a number of hits, and at most 65,535 then.
    MoreHits,
}

/// How much of a change a network can take.
#[derive(Clone, Copy, Debug)]
pub struct Margin {
    /// With this much, and with less, each message meets its deadline.
    pub most: u16,
    /// The place of the first message that may miss its deadline with one more; `None` if no more is possible.
    pub late: Option<usize>,
}

/// The place of the first message that may miss its deadline; `None` if there is none. It may if the analysis, with
/// numbers up to the limit, does not give its deadline as a bound. Each deadline is at the place of its message. If a
/// period is 0, no message has a bound, so the first is returned, if it has a deadline.
pub fn first_late(
    messages: &[Message],
    deadlines: &[u32],
    rate: &HitRate,
    limit: u32,
) -> Option<usize>
    ensures first { ArePeriodic messages.now → MatchOption result (MeetDeadlines rate.now limit messages.now deadlines.now) (IsFirstLate rate.now limit messages.now deadlines.now) }
    ensures aperiodic { IsFalse (list_all (λ m. nat_lt 0 m.period) messages.now) → MatchOption result (length deadlines.now ≡ 0) (λ place. (place ≡ 0) × (0 < length deadlines.now)) }
{
    first_late_from(0, messages, deadlines, rate, limit)
}

/// The first message from this place on that may miss its deadline; the ones before meet theirs.
fn first_late_from(
    from: usize,
    messages: &[Message],
    deadlines: &[u32],
    rate: &HitRate,
    limit: u32,
) -> Option<usize>
    requires { (k : ℕ) → k < from → MeetsDeadline rate.now limit messages.now deadlines.now k }
    ensures first { ArePeriodic messages.now → MatchOption result (MeetDeadlines rate.now limit messages.now deadlines.now) (IsFirstLate rate.now limit messages.now deadlines.now) }
    ensures aperiodic { IsFalse (list_all (λ m. nat_lt 0 m.period) messages.now) → from < length messages.now → MatchOption result (length deadlines.now ≤ from) (λ place. (place ≡ from) × (from < length deadlines.now)) }
{
    let mut busy = 0;
    for place in from..messages.len().min(deadlines.len()) {
        let (response, next) = response_after(busy, messages, place, rate, limit);
        if misses_deadline(u64::from(deadlines[place]), response.bound) {
            return Some(place);
        }
        busy = next;
    }
    None
}

/// Whether there is no bound, or one above the deadline.
fn misses_deadline(deadline: u64, bound: Option<u64>) -> bool
    ensures { result ≡ misses_deadline_of deadline bound }
{
    match bound {
        Some(bound) => deadline < bound,
        None => true,
    }
}

/// How much of a change a network can take while the analysis, with numbers up to the limit, gives each message's
/// deadline as a bound. Each deadline is at the place of its message. It returns `None` if the unchanged network does
/// not meet them, and if a period is 0. It allocates memory for the messages.
///
/// It is a binary search over at most seventeen networks. If a message is the first that may miss its deadline with
/// some change, none before it may with less, so the analysis of smaller changes starts at this message.
pub fn margin_of(
    alloc: Global,
    strain: Strain,
    messages: &[Message],
    deadlines: &[u32],
    rate: &HitRate,
    limit: u32,
) -> Result<Option<Margin>, AllocError>
    ensures margin { ArePeriodic messages.now → IfOk result (λ margin. MatchOption margin (¬ MeetDeadlines rate.now limit messages.now deadlines.now) (IsMargin strain rate.now limit messages.now deadlines.now)) }
    ensures aperiodic { IsFalse (list_all (λ m. nat_lt 0 m.period) messages.now) → IfOk result (λ margin. IsNone margin) }
{
    if !are_periodic(messages) || first_late(messages, deadlines, rate, limit).is_some() {
        return Ok(None);
    }
    Ok(Some(greatest_strain(alloc, strain, messages, deadlines, rate, limit)?))
}

/// The margin of a network whose messages meet their deadlines.
fn greatest_strain(
    alloc: Global,
    strain: Strain,
    messages: &[Message],
    deadlines: &[u32],
    rate: &HitRate,
    limit: u32,
) -> Result<Margin, AllocError>
    requires periodic { ArePeriodic messages.now }
    requires met { MeetUnder strain rate.now limit messages.now deadlines.now 0 }
    ensures { IfOk result (IsMargin strain rate.now limit messages.now deadlines.now) }
{
    let mut margin = Margin {
        most: 0,
        late: None,
    };
    let mut last = most_strain(strain, rate);
    while margin.most < last {
        let more = last - (last - margin.most) / 2;
        let from = margin.late.unwrap_or(0);
        match first_under(alloc, strain, more, from, messages, deadlines, rate, limit)? {
            None => margin.most = more,
            Some(place) => {
                margin.late = Some(place);
                last = more - 1;
            }
        }
    }
    Ok(margin)
}

/// The greatest change that is possible.
fn most_strain(strain: Strain, rate: &HitRate) -> u16
    ensures { result ≡ most_strain_of strain rate.now }
{
    match strain {
        Strain::ShorterPeriods => MOST_PER_CENT,
        Strain::MoreHits => u16::MAX - rate.burst,
    }
}

/// The first message that may miss its deadline with this change; none before place `from` does.
fn first_under(
    alloc: Global,
    strain: Strain,
    more: u16,
    from: usize,
    messages: &[Message],
    deadlines: &[u32],
    rate: &HitRate,
    limit: u32,
) -> Result<Option<usize>, AllocError>
    requires periodic { ArePeriodic messages.now }
    requires within { more ≤ most_strain_of strain rate.now }
    requires met { (k : ℕ) → k < from → MeetsUnder strain rate.now limit messages.now deadlines.now more k }
    ensures { IfOk result (λ late. MatchOption late (MeetUnder strain rate.now limit messages.now deadlines.now more) (IsFirstUnder strain rate.now limit messages.now deadlines.now more)) }
{
    match strain {
        Strain::ShorterPeriods => {
            let shorter = all_shorter(alloc, more, messages)?;
            Ok(first_late_from(from, &shorter, deadlines, rate, limit))
        }
        Strain::MoreHits => {
            let rate = HitRate {
                burst: rate.burst + more,
                spacing: rate.spacing,
            };
            Ok(first_late_from(from, messages, deadlines, &rate, limit))
        }
    }
}

/// These messages, with periods shorter by this many per cent.
fn all_shorter(
    alloc: Global,
    percent: u16,
    messages: &[Message],
) -> Result<Vec<Message>, AllocError>
    requires { percent ≤ 99 }
    ensures { IfOk result (λ shorter. shorter.items ≡ map (shorter_of percent) messages.now) }
{
    let mut all = Vec::new(alloc);
    for message in messages {
        all.push(shorter(percent, message))?;
    }
    Ok(all)
}

/// This message, with a period shorter by this many per cent.
fn shorter(percent: u16, message: &Message) -> Message
    requires { percent ≤ 99 }
    ensures { result ≡ shorter_of percent message.now }
{
    let period = u64::from(message.period) * u64::from(100 - percent) / 100;
    Message {
        period: period.max(1) as u32,
        ..*message
    }
}
