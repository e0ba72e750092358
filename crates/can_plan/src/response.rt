//! The response times of the frames of a message: from release to the end of the wire.
ghost use Rattle.std.specs.Prelude.{◌≡◌, ◌+◌, ◌-◌, ◌*◌, ◌^◌, ◌<◌, ◌≤◌, ◌∷◌, ℕ, IfSome, IsFalse, IsNone, MatchOption, Some, length, max, min, nat_lt, slice_get};
ghost use Rattle.std.specs.List.{list_all};
ghost use Rattle.can_plan.specs.declared.message.Message.{Message as Sent};
ghost use Rattle.can_plan.specs.Analysis.{IsBound, IsBusyPeriod, IsLeast, IsLeastBound, Ranking, arrivals as arrivals_of, blocking as blocking_of, demand as demand_of, ranking_at, widest as widest_of};
ghost use Rattle.can_plan.specs.Carried.{IsBusyBefore};
ghost use Rattle.can_plan.specs.Ends.{EndAlways};
ghost use Rattle.can_plan.specs.Latest.{end_of};
ghost use Rattle.can_plan.specs.Messages.{ArePeriodic, IsMessageSet, most_hits as most_hits_of};
ghost use Rattle.can_plan.specs.Steps.{AllEnd, ForRanking, IsBusy, IsEnough};

use crate::demand::{arrivals, blocking, demand, own_load, widest};
use crate::longest::INTERMISSION;
use crate::message::{HitRate, Message};

/// The least delay that covers the demand in it; `None` if it is above the limit. No delay below `from` does.
pub(crate) fn delay(
    from: u64,
    time: u64,
    widest: u16,
    higher: &[Message],
    rate: &HitRate,
    limit: u32,
) -> Option<u32>
    requires periodic { ArePeriodic higher.now }
    requires small { time < 2 ^ 52 }
    requires begun { (n : ℕ) → demand_of (most_hits_of rate.now) time widest higher.now (n + 1) ≤ n → from ≤ n }
    ensures { MatchOption result ((n : ℕ) → demand_of (most_hits_of rate.now) time widest higher.now (n + 1) ≤ n → limit < n)
        (λ d. (d ≤ limit) × IsLeast (λ n. demand_of (most_hits_of rate.now) time widest higher.now (n + 1) ≤ n) d) }
{
    if from > u64::from(limit) {
        return None;
    }
    let mut delay = from as u32;
    while let Some(next) = demand(time, widest, higher, rate, u64::from(delay) + 1, limit) {
        if next <= u64::from(delay) {
            return Some(delay);
        }
        delay = next as u32;
    }
    None
}

/// The busy period: the least number of bit times, above 0, within which the bus has been free of a message and of
/// those with higher priority; `None` if it is above the limit. None is shorter than `from`.
fn busy(
    from: u64,
    blocking: u16,
    widest: u16,
    message: &Message,
    higher: &[Message],
    rate: &HitRate,
    limit: u32,
) -> Option<u32>
    requires first { 0 < message.now.period }
    requires periodic { ArePeriodic higher.now }
    requires begun { (n : ℕ) → IsBusy (most_hits_of rate.now) blocking widest message.now higher.now n → from ≤ n }
    ensures { MatchOption result ((n : ℕ) → IsBusy (most_hits_of rate.now) blocking widest message.now higher.now n → limit < n)
        (λ l. (l ≤ limit) × IsLeast (IsBusy (most_hits_of rate.now) blocking widest message.now higher.now) l) }
{
    let from = from.max(1);
    if from > u64::from(limit) {
        return None;
    }
    let mut long = from as u32;
    while let Some(next) = demand(
        u64::from(blocking) + own_load(message, u64::from(long)),
        widest,
        higher,
        rate,
        u64::from(long),
        limit,
    ) {
        if next <= u64::from(long) {
            return Some(long);
        }
        long = next as u32;
    }
    None
}

/// How long after its release the wire of frame q of the busy period, counted from 0, ends with this delay.
pub(crate) fn end(q: u64, delay: u64, message: &Message) -> u64
    requires short { delay < 2 ^ 32 }
    requires small { q * message.now.period ≤ 2 ^ 34 }
    ensures { result ≡ end_of message.now q delay }
{
    let longest = u64::from(message.longest);
    let until = u64::from(message.jitter) + delay + longest;
    until.saturating_sub(u64::from(INTERMISSION) + q * u64::from(message.period))
}

/// The least bound on the response times of all frames of a busy period; `None` if the delay of one is above the
/// limit. The first frame has a delay of at least `from`. Each other has at least the delay of the one before it and
/// its time on the bus.
///
/// It goes from the last frame to the second. After the start of a frame the busy period lasts for its time on the
/// bus and that of the frames after it. A frame that would meet the bound even with the latest start that this allows
/// is skipped.
fn latest_end(
    from: u64,
    long: u32,
    blocking: u16,
    widest: u16,
    message: &Message,
    higher: &[Message],
    rate: &HitRate,
    limit: u32,
) -> Option<u64>
    requires first { 0 < message.now.period }
    requires periodic { ArePeriodic higher.now }
    requires within { long ≤ limit }
    requires busy { IsBusy (most_hits_of rate.now) blocking widest message.now higher.now long }
    requires begun { (n : ℕ) → IsEnough (most_hits_of rate.now) blocking widest message.now higher.now 0 n → from ≤ n }
    ensures { let count = arrivals_of message.now long in
        MatchOption result ((q : ℕ) × (q < count) × ((n : ℕ) → IsEnough (most_hits_of rate.now) blocking widest message.now higher.now q n → limit < n))
        (λ b. IsLeast (AllEnd (most_hits_of rate.now) blocking widest message.now higher.now limit count) b) }
{
    let longest = u64::from(message.longest);
    let blocking = u64::from(blocking);
    let first = u64::from(delay(from, blocking, widest, higher, rate, limit)?);
    let mut bound = end(0, first, message);
    let mut last = u64::from(long);
    for q in (1..arrivals(message, u64::from(long))).rev() {
        last -= longest;
        if longest == 0 || end(q, last, message) > bound {
            let own = q * longest;
            last = u64::from(delay(first + own, blocking + own, widest, higher, rate, limit)?);
            bound = end(q, last, message).max(bound);
        }
    }
    Some(bound)
}

/// The least bound of a message; `None` if the analysis gives none. `blocking` is the time for which lower-priority
/// messages block it, and `widest` the longest time on the bus of it and the higher-priority ones. No delay of its
/// first frame is below `first`.
pub(crate) fn bound_from(
    first: u32,
    blocking: u16,
    widest: u16,
    message: &Message,
    higher: &[Message],
    rate: &HitRate,
    limit: u32,
) -> Option<u64>
    requires first { 0 < message.now.period }
    requires periodic { ArePeriodic higher.now }
    requires begun { (n : ℕ) → IsEnough (most_hits_of rate.now) blocking widest message.now higher.now 0 n → first ≤ n }
    ensures { MatchOption result (ForRanking blocking widest message.now higher.now (λ ranking. (other : ℕ) → IsBound (most_hits_of rate.now) limit ranking other → ⊥))
        (λ b. ForRanking blocking widest message.now higher.now (λ ranking. IsLeastBound (most_hits_of rate.now) limit ranking b)) }
{
    let first = u64::from(first);
    let from = busy_after(first, message.longest);
    let long = busy(from, blocking, widest, message, higher, rate, limit)?;
    latest_end(first, long, blocking, widest, message, higher, rate, limit)
}

/// No busy period of a message is shorter than this, if its first frame has a delay of at least `first`: the frame is
/// sent within it.
fn busy_after(first: u64, longest: u16) -> u64
    requires { first < 2 ^ 32 }
    ensures { (n : ℕ) → (0 < longest → first + longest ≤ n) → result ≤ n }
{
    if longest == 0 {
        0
    } else {
        first + u64::from(longest)
    }
}

/// What the analysis gives for a message.
#[derive(Clone, Copy, Debug)]
pub struct Response {
    /// The least bound on the time from the release of a frame to the end of its wire, which [`response_bound`]
    /// returns.
    pub bound: Option<u64>,
    /// The length of the busy period in bit times; `None` if it is above the limit.
    pub busy: Option<u32>,
}

/// What the analysis gives for this message. Messages with higher priority are `higher`, the others `lower`. If this
/// message or a lower one blocks the higher ones, none of their busy periods is shorter than `before`.
fn ranked_response(
    before: u64,
    higher: &[Message],
    message: &Message,
    lower: &[Message],
    rate: &HitRate,
    limit: u32,
) -> Response
    requires first { 0 < message.now.period }
    requires periodic { ArePeriodic higher.now }
    requires begun { let ranking : Ranking = record { higher = higher.now; message = message.now; lower = lower.now } in
        (n : ℕ) → 0 < n → demand_of (most_hits_of rate.now) (max (message.now.longest - 1) (blocking_of ranking)) (widest_of ranking) higher.now n ≤ n → before ≤ n }
    ensures bound { let ranking : Ranking = record { higher = higher.now; message = message.now; lower = lower.now } in
        MatchOption result.bound ((other : ℕ) → IsBound (most_hits_of rate.now) limit ranking other → ⊥) (λ b. IsLeastBound (most_hits_of rate.now) limit ranking b) }
    ensures busy { IsBusyPeriod (most_hits_of rate.now) limit (record { higher = higher.now; message = message.now; lower = lower.now }) result.busy }
{
    let blocking = blocking(lower);
    let widest = widest(message.longest, higher);
    let from = first_busy(before, blocking, message, limit);
    let Some(long) = busy(from, blocking, widest, message, higher, rate, limit) else {
        return Response {
            bound: None,
            busy: None,
        };
    };
    let from = first_delay(before, blocking, message.longest);
    Response {
        bound: latest_end(from, long, blocking, widest, message, higher, rate, limit),
        busy: Some(long),
    }
}

/// No busy period of a message is shorter than this, if those with higher priority have none shorter than `before`
/// when this message or a lower one blocks them. In that time its own frames keep the bus too, and it no longer
/// blocks. If nothing blocked, a busy period of one bit time may be that of no frame.
fn first_busy(before: u64, blocking: u16, message: &Message, limit: u32) -> u64
    requires { 0 < message.now.period }
    ensures { let blocked = max (message.now.longest - 1) blocking in
        (n : ℕ) → before ≤ n → (0 < blocked → before + arrivals_of message.now (min before limit) * message.now.longest ≤ n + (blocked - blocking)) → result ≤ n }
{
    let blocked = blocking.max(message.longest.saturating_sub(1));
    if blocked == 0 {
        return before;
    }
    let own = own_load(message, before.min(u64::from(limit)));
    before
        .saturating_add(own)
        .saturating_sub(u64::from(blocked - blocking))
}

/// No delay of the first frame of a message is below this, if those with higher priority have no busy period shorter
/// than `before` when this message or a lower one blocks them. If this message would block longer than the others,
/// nothing is known.
fn first_delay(before: u64, blocking: u16, longest: u16) -> u64
    ensures { (n : ℕ) → (0 < blocking → longest ≤ blocking + 1 → before ≤ n) → result ≤ n }
{
    if blocking > 0 && longest <= blocking.saturating_add(1) {
        before
    } else {
        0
    }
}

/// Whether each message has a period above 0.
pub(crate) fn are_periodic(messages: &[Message]) -> bool
    ensures { result ≡ list_all (λ m. nat_lt 0 m.period) messages.now }
{
    messages.iter().all(|message| message.period > 0)
}

/// The least bound that the analysis gives for the message at this place, with numbers up to the limit. The wire of
/// each of its frames ends at most this many bit times after its release. It returns `None` if the analysis gives
/// none, if there is no such place, or if a period is 0.
///
/// The bound holds on every course if
/// - the messages are in priority order, no two with the same field, and none with a `longest` of 0
/// - the releases keep to the messages, and the hits to the error model
///
/// Its work is proportional to the messages, to the frames of this one in a busy period, and to the steps of the sums
/// that grow up to the limit. For all messages of a network [`crate::Responses`] takes fewer steps.
pub fn response_bound(messages: &[Message], place: usize, rate: &HitRate, limit: u32) -> Option<u64>
    ensures least { (message : Sent) → slice_get messages.now place ≡ Some message → ArePeriodic messages.now → let ranking = ranking_at messages.now place message in
        MatchOption result ((other : ℕ) → IsBound (most_hits_of rate.now) limit ranking other → ⊥) (λ b. IsLeastBound (most_hits_of rate.now) limit ranking b) }
    ensures absent { length messages.now ≤ place → IsNone result }
    ensures aperiodic { IsFalse (list_all (λ m. nat_lt 0 m.period) messages.now) → IsNone result }
    ensures holds { (message : Sent) → slice_get messages.now place ≡ Some message → IsMessageSet messages.now →
        IfSome result (λ b. EndAlways (most_hits_of rate.now) messages.now message b) }
{
    let (response, _) = response_after(0, messages, place, rate, limit);
    response.bound
}

/// What the analysis gives for the message at this place, and a number for the next call: no busy period of this
/// message is shorter. `before` is that number for the message before it, or 0.
pub(crate) fn response_after(
    before: u64,
    messages: &[Message],
    place: usize,
    rate: &HitRate,
    limit: u32,
) -> (Response, u64)
    requires { IsBusyBefore (most_hits_of rate.now) messages.now place before }
    ensures least { (message : Sent) → slice_get messages.now place ≡ Some message → ArePeriodic messages.now → let ranking = ranking_at messages.now place message in
        MatchOption result.0.bound ((other : ℕ) → IsBound (most_hits_of rate.now) limit ranking other → ⊥) (λ b. IsLeastBound (most_hits_of rate.now) limit ranking b) }
    ensures busy { (message : Sent) → slice_get messages.now place ≡ Some message → ArePeriodic messages.now →
        IsBusyPeriod (most_hits_of rate.now) limit (ranking_at messages.now place message) result.0.busy }
    ensures absent { length messages.now ≤ place → IsNone result.0.bound × IsNone result.0.busy }
    ensures aperiodic { IsFalse (list_all (λ m. nat_lt 0 m.period) messages.now) → IsNone result.0.bound × IsNone result.0.busy }
    ensures holds { (message : Sent) → slice_get messages.now place ≡ Some message → IsMessageSet messages.now →
        IfSome result.0.bound (λ b. EndAlways (most_hits_of rate.now) messages.now message b) }
    ensures next { IsBusyBefore (most_hits_of rate.now) messages.now (place + 1) result.1 }
{
    if place >= messages.len() || !are_periodic(messages) {
        let none = Response {
            bound: None,
            busy: None,
        };
        return (none, 0);
    }
    let response = ranked_response(
        before,
        &messages[..place],
        &messages[place],
        &messages[place + 1..],
        rate,
        limit,
    );
    (response, least_busy(response.busy, limit))
}

/// No busy period is shorter than this, if `busy` is what the analysis gives with numbers up to the limit.
fn least_busy(busy: Option<u32>, limit: u32) -> u64
    ensures { MatchOption busy (result ≡ limit + 1) (λ long. result ≡ long) }
{
    match busy {
        Some(long) => u64::from(long),
        None => u64::from(limit) + 1,
    }
}
