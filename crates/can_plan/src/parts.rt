//! The parts of a bound.
ghost use Rattle.std.specs.Prelude.{◌≡◌, ◌*◌, ◌+◌, ◌^◌, ◌<◌, ◌≤◌, ℕ, IfSome, IsFalse, IsNone, MatchOption, Some, length, nat_lt, slice_get};
ghost use Rattle.std.specs.List.{list_all};
ghost use Rattle.can_plan.specs.declared.message.Message.{Message as Sent};
ghost use Rattle.can_plan.specs.Analysis.{IsLeast, IsLeastBound, Ranking, ranking_at};
ghost use Rattle.can_plan.specs.Latest.{IsLatest, end_of, sum_of_parts};
ghost use Rattle.can_plan.specs.Messages.{ArePeriodic, most_hits as most_hits_of};
ghost use Rattle.can_plan.specs.Steps.{EndsElse, IsEnough, NoneEnds};

use crate::demand::{arrivals, blocking, hits, hits_cost, widest};
use crate::latest::Latest;
use crate::message::{HitRate, Message};
use crate::response::{are_periodic, bound_from, delay, end};

/// The number and the delay of the first frame of a busy period whose wire ends `bound` bit times after its release.
/// The first frame has no delay below `first`.
fn first_to_end(
    bound: u64,
    first: u64,
    blocking: u16,
    widest: u16,
    message: &Message,
    higher: &[Message],
    rate: &HitRate,
    limit: u32,
) -> Option<(u64, u32)>
    requires first { 0 < message.now.period }
    requires periodic { ArePeriodic higher.now }
    requires begun { (n : ℕ) → IsEnough (most_hits_of rate.now) blocking widest message.now higher.now 0 n → first ≤ n }
    ensures first_found { MatchOption result (NoneEnds (most_hits_of rate.now) blocking widest message.now higher.now limit bound)
        (λ f. IsLeast (IsEnough (most_hits_of rate.now) blocking widest message.now higher.now f.0) f.1 × (end_of message.now f.0 f.1 ≡ bound)
        × ((k : ℕ) → k < f.0 → EndsElse (most_hits_of rate.now) blocking widest message.now higher.now limit bound k)) }
    ensures small { IfSome result (λ f. (f.0 < 2 ^ 34) × (f.0 * message.now.period ≤ 2 ^ 34)) }
{
    let longest = u64::from(message.longest);
    let mut from = first;
    for number in 0..arrivals(message, u64::from(limit)) {
        let before = u64::from(blocking) + number * longest;
        let delay = delay(from, before, widest, higher, rate, limit)?;
        if end(number, u64::from(delay), message) == bound {
            return Some((number, delay));
        }
        from = u64::from(delay) + longest;
    }
    None
}

/// The latest frame of this message, if `bound` is its least bound. Messages with higher priority are `higher`, the
/// others `lower`.
fn ranked_latest(
    bound: u64,
    higher: &[Message],
    message: &Message,
    lower: &[Message],
    rate: &HitRate,
    limit: u32,
) -> Option<Latest>
    requires first { 0 < message.now.period }
    requires periodic { ArePeriodic higher.now }
    ensures latest { let ranking : Ranking = record { higher = higher.now; message = message.now; lower = lower.now } in
        MatchOption result (¬ IsLeastBound (most_hits_of rate.now) limit ranking bound) (λ latest. IsLatest (most_hits_of rate.now) ranking bound latest) }
    ensures least { let ranking : Ranking = record { higher = higher.now; message = message.now; lower = lower.now } in
        IfSome result (λ latest. IsLeastBound (most_hits_of rate.now) limit ranking bound) }
{
    let blocking = blocking(lower);
    let widest = widest(message.longest, higher);
    let first = delay(0, u64::from(blocking), widest, higher, rate, limit)?;
    let least = bound_from(first, blocking, widest, message, higher, rate, limit)?;
    if least != bound {
        return None;
    }
    let first = u64::from(first);
    let (number, delay) = first_to_end(
        bound, first, blocking, widest, message, higher, rate, limit,
    )?;
    let long = u64::from(delay) + 1;
    Some(Latest {
        number,
        delay,
        end: end(number, u64::from(delay), message),
        earlier: number * u64::from(message.longest),
        later: number * u64::from(message.period),
        hits: hits(rate, widest, long),
        hits_cost: hits_cost(rate, widest, long),
    })
}

/// The latest frame of the message at this place, if `bound` is its least bound, which [`crate::response_bound`]
/// returns. It is the first frame of a busy period whose wire ends `bound` bit times after its release. For any other
/// number it returns `None`, and if there is no such place, or a period is 0.
///
/// The bound is the sum of these parts, less `later`:
/// - the jitter and the blocking
/// - `earlier`
/// - what [`crate::own_load`] returns for each higher-priority message, for one bit time more than the delay
/// - `hits_cost`
/// - its wire, which is `longest` less three bit times
///
/// Its work is that of [`crate::response_bound`], and proportional to the frames of this message before the latest
/// one.
pub fn latest_frame(
    bound: u64,
    messages: &[Message],
    place: usize,
    rate: &HitRate,
    limit: u32,
) -> Option<Latest>
    ensures latest { (message : Sent) → slice_get messages.now place ≡ Some message → ArePeriodic messages.now → let ranking = ranking_at messages.now place message in
        MatchOption result (¬ IsLeastBound (most_hits_of rate.now) limit ranking bound) (λ latest. IsLatest (most_hits_of rate.now) ranking bound latest) }
    ensures least { (message : Sent) → slice_get messages.now place ≡ Some message → ArePeriodic messages.now →
        IfSome result (λ latest. IsLeastBound (most_hits_of rate.now) limit (ranking_at messages.now place message) bound) }
    ensures parts { (message : Sent) → slice_get messages.now place ≡ Some message → ArePeriodic messages.now →
        IfSome result (λ latest. bound ≡ sum_of_parts (ranking_at messages.now place message) latest) }
    ensures absent { length messages.now ≤ place → IsNone result }
    ensures aperiodic { IsFalse (list_all (λ m. nat_lt 0 m.period) messages.now) → IsNone result }
{
    if place >= messages.len() || !are_periodic(messages) {
        return None;
    }
    ranked_latest(
        bound,
        &messages[..place],
        &messages[place],
        &messages[place + 1..],
        rate,
        limit,
    )
}
