//! The demand on the bus in a number of bit times.
ghost use Rattle.std.specs.Prelude.{◌≡◌, ◌+◌, ◌-◌, ◌*◌, ◌^◌, ◌<◌, ◌≤◌, ◌∷◌, MatchOption};
ghost use Rattle.can_plan.specs.Analysis.{arrivals as arrivals_of, demand as demand_of, greatest, hits_cost as hits_cost_of, load as load_of};
ghost use Rattle.can_plan.specs.Messages.{ArePeriodic, most_hits as most_hits_of};

use crate::message::{HitRate, Message};

/// The latest hit falls this many bit times before the end of the time for which the frame keeps the bus.
const LEFT_BEHIND_HIT: u64 = 5;

/// An attempt that is hit keeps the bus at most this many bit times longer than its frame.
const HIT_COST: u64 = 13;

/// At most how many frames of a message are offered in `long` bit times.
pub fn arrivals(message: &Message, long: u64) -> u64
    requires periodic { 0 < message.now.period }
    requires short { long ≤ 2 ^ 32 }
    ensures value { result ≡ arrivals_of message.now long }
    ensures range { result < 2 ^ 34 }
    ensures whole { result * message.now.period ≤ 2 ^ 34 }
{
    let period = u64::from(message.period);
    (long + u64::from(message.jitter) + period - 1) / period
}

/// How long the frames of a message that are offered in `long` bit times keep the bus.
pub fn own_load(message: &Message, long: u64) -> u64
    requires periodic { 0 < message.now.period }
    requires short { long ≤ 2 ^ 32 }
    ensures value { result ≡ arrivals_of message.now long * message.now.longest }
    ensures range { result < 2 ^ 50 }
{
    arrivals(message, long) * u64::from(message.longest)
}

/// How long the frames of these messages that are offered in `long` bit times keep the bus; `None` if this is more
/// than the limit.
fn load(messages: &[Message], long: u64, limit: u32) -> Option<u64>
    requires periodic { ArePeriodic messages.now }
    requires short { long ≤ 2 ^ 32 }
    ensures { MatchOption result (limit < load_of messages.now long) (λ n. (n ≡ load_of messages.now long) × (n ≤ limit)) }
{
    let mut total = 0;
    for message in messages {
        total += own_load(message, long);
        if total > u64::from(limit) {
            return None;
        }
    }
    Some(total)
}

/// The greatest `longest` of these messages, or `first` if that is greater.
pub(crate) fn widest(first: u16, messages: &[Message]) -> u16
    ensures { (message : Message) → message.longest ≡ first → result ≡ greatest (λ m. m.longest) (message ∷ messages.now) }
{
    let mut wide = first;
    for message in messages {
        wide = wide.max(message.longest);
    }
    wide
}

/// For how many bit times a frame of these messages that started one bit time earlier still keeps the bus, at most.
pub fn blocking(messages: &[Message]) -> u16
    ensures { result ≡ greatest (λ m. m.longest - 1) messages.now }
{
    let mut long = 0;
    for message in messages {
        long = long.max(message.longest.saturating_sub(1));
    }
    long
}

/// At most how many hits fall in `long` bit times.
fn most_hits(rate: &HitRate, long: u64) -> u64
    requires short { long ≤ 2 ^ 33 }
    ensures value { result ≡ most_hits_of rate.now long }
    ensures range { result ≤ 2 ^ 34 }
{
    let burst = u64::from(rate.burst);
    if rate.spacing == 0 {
        burst
    } else {
        burst + long / u64::from(rate.spacing)
    }
}

/// At most how many hits fall in attempts that begin within `long` bit times.
pub(crate) fn hits(rate: &HitRate, widest: u16, long: u64) -> u64
    requires short { long ≤ 2 ^ 32 }
    ensures value { result ≡ most_hits_of rate.now (long + widest - 5) }
    ensures range { result ≤ 2 ^ 34 }
{
    most_hits(
        rate,
        (long + u64::from(widest)).saturating_sub(LEFT_BEHIND_HIT),
    )
}

/// How many bit times these hits take.
pub(crate) fn hits_cost(rate: &HitRate, widest: u16, long: u64) -> u64
    requires short { long ≤ 2 ^ 32 }
    ensures value { result ≡ hits_cost_of (most_hits_of rate.now) widest long }
    ensures range { result < 2 ^ 52 }
{
    hits(rate, widest, long) * (u64::from(widest) + HIT_COST)
}

/// The demand of attempts that begin within `long` bit times: `time`, these messages, and hits; `None` if it is more
/// than the limit.
pub(crate) fn demand(
    time: u64,
    widest: u16,
    messages: &[Message],
    rate: &HitRate,
    long: u64,
    limit: u32,
) -> Option<u64>
    requires periodic { ArePeriodic messages.now }
    requires short { long ≤ 2 ^ 32 }
    requires small { time < 2 ^ 52 }
    ensures { MatchOption result (limit < demand_of (most_hits_of rate.now) time widest messages.now long)
        (λ n. (n ≡ demand_of (most_hits_of rate.now) time widest messages.now long) × (n ≤ limit)) }
{
    let load = load(messages, long, limit)?;
    let total = time + load + hits_cost(rate, widest, long);
    if total > u64::from(limit) {
        None
    } else {
        Some(total)
    }
}
