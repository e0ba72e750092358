ghost use Rattle.std.specs.Prelude.{ℕ, ◌≡◌, ◌+◌, ◌-◌, ◌<◌, ◌≤◌, ◌^◌, false, IfSome, Some};
ghost use Rattle.std.specs.List.{list_any};
ghost use Rattle.can_bus.specs.Run.{following as following_of, hits_view, hits_wire};
ghost use Rattle.can_bus.specs.Walks.{AreBelow, HitsRise, IsCall, IsFreeFrom, IsPassed, aged_by, first_call, in_now, until_at as until_at_of, until_in as until_in_of, until_view as until_view_of};

use crate::cursor::Cursor;
use crate::moment::{Attempt, following};
use can_terms::Hit;

/// The progress of a call: the bit time, the latest attempt, and how many hits of each kind have been passed.
#[derive(Clone, Copy)]
pub(crate) struct Call {
    pub(crate) time: u64,
    pub(crate) latest: Option<Attempt>,
    pub(crate) at: Cursor,
    pub(crate) within: Cursor,
    pub(crate) view: Cursor,
}

impl Call {
    /// The progress at the start of a call.
    pub(crate) fn new() -> Call
        ensures { result ≡ first_call }
    {
        let first = Cursor { place: 0 };
        Call {
            time: 0,
            latest: None,
            at: first,
            within: first,
            view: first,
        }
    }

    /// Whether a hit falls on the wired level in this bit time, of which `latest` is the latest attempt.
    pub(crate) fn hits_wire(&mut self, hits: &[Hit]) -> bool
        requires rising { HitsRise hits.now }
        requires at { AreBelow hits.now self.old.at.place (Hit.At self.old.time) }
        requires within { AreBelow hits.now self.old.within.place (in_now self.old.latest) }
        ensures result { result ≡ list_any (hits_wire self.old.time self.old.latest) hits.now }
        ensures at { AreBelow hits.now self.new.at.place (Hit.At self.new.time) }
        ensures within { AreBelow hits.now self.new.within.place (in_now self.new.latest) }
        ensures time { self.new.time ≡ self.old.time }
        ensures latest { self.new.latest ≡ self.old.latest }
        ensures view { self.new.view ≡ self.old.view }
    {
        let by_time = self.at.reach(hits, Hit::At(self.time));
        let by_attempt = match self.latest {
            None => false,
            Some(attempt) => self.within.reach(
                hits,
                Hit::In {
                    attempt: attempt.number,
                    offset: attempt.offset,
                },
            ),
        };
        by_time || by_attempt
    }

    /// The number of bit times from this one on in which no hit falls if no attempt begins, at most `most`. It may be
    /// fewer right after a hit.
    #[inline(never)]
    pub(crate) fn undisturbed(&self, hits: &[Hit], most: usize) -> usize
        requires rising { HitsRise hits.now }
        requires call { IsCall hits.now self.now }
        requires time { self.now.time < 2 ^ 64 - 1 }
        ensures most { result ≤ most }
        ensures wire { (n : ℕ) → n < result → list_any (hits_wire (self.now.time + n) (aged_by (n + 1) self.now.latest)) hits.now ≡ false }
        ensures view { (n node : ℕ) → n < result → list_any (hits_view (self.now.time + n) node) hits.now ≡ false }
    {
        let at = until_at(self.at.next(hits), self.time);
        let within = until_in(self.within.next(hits), self.latest);
        let view = until_view(self.view.next(hits), self.time);
        at.min(within).min(view).min(most as u64) as usize
    }

    /// The progress after `count` bit times, if an attempt begins in the first of them and no other follows; `None`
    /// if a hit falls in them, or may fall.
    pub(crate) fn behind(&self, hits: &[Hit], count: usize) -> Option<Call>
        requires rising { HitsRise hits.now }
        requires call { IsCall hits.now self.now }
        requires some { 1 < count }
        requires time { self.now.time + count < 2 ^ 64 }
        ensures call { IfSome result (λ later. IsCall hits.now later) }
        ensures time { IfSome result (λ later. later.time ≡ self.now.time + count) }
        ensures latest { IfSome result (λ later. later.latest ≡ aged_by (count - 1) (Some (following_of self.now.latest))) }
        ensures free { IfSome result (λ later. IsFreeFrom hits.now self.now.time (Some (following_of self.now.latest)) count) }
    {
        let later = self.up_to_hit(hits, count)?;
        if later.time < self.time + count as u64 {
            return None;
        }
        Some(later)
    }

    /// The progress just before the next hit, or after `most` bit times, if an attempt begins in the first of them
    /// and no other follows; `None` if a hit falls in the first, or may fall. They may be fewer right after a hit.
    pub(crate) fn up_to_hit(&self, hits: &[Hit], most: usize) -> Option<Call>
        requires rising { HitsRise hits.now }
        requires call { IsCall hits.now self.now }
        requires some { 1 < most }
        requires time { self.now.time + most < 2 ^ 64 }
        ensures call { IfSome result (λ later. IsCall hits.now later) }
        ensures some { IfSome result (λ later. self.now.time < later.time) }
        ensures most { IfSome result (λ later. later.time ≤ self.now.time + most) }
        ensures latest { IfSome result (λ later. later.latest ≡ aged_by (later.time - self.now.time - 1) (Some (following_of self.now.latest))) }
        ensures free { IfSome result (λ later. IsFreeFrom hits.now self.now.time (Some (following_of self.now.latest)) (later.time - self.now.time)) }
    {
        if until_view(self.view.next(hits), self.time) == 0 {
            return None;
        }
        let mut later = *self;
        later.latest = Some(following(self.latest));
        if later.hits_wire(hits) {
            return None;
        }
        later.time += 1;
        let more = later.undisturbed(hits, most - 1);
        later.pass(more);
        Some(later)
    }

    /// Passes `count` bit times in which no attempt begins.
    pub(crate) fn pass(&mut self, count: usize)
        requires passed { IsPassed self.old.latest self.old.time }
        requires time { self.old.time + count < 2 ^ 64 }
        ensures time { self.new.time ≡ self.old.time + count }
        ensures latest { self.new.latest ≡ aged_by count self.old.latest }
        ensures at { self.new.at ≡ self.old.at }
        ensures within { self.new.within ≡ self.old.within }
        ensures view { self.new.view ≡ self.old.view }
    {
        self.time += count as u64;
        self.latest = match self.latest {
            None => None,
            Some(Attempt { number, offset }) => Some(Attempt {
                number,
                offset: offset + count as u64,
            }),
        };
    }
}

/// The number of bit times before an `At` inverts the wired level, if this is the next hit at its cursor.
fn until_at(next: Option<Hit>, time: u64) -> u64
    ensures { result ≡ until_at_of time next }
{
    match next {
        Some(Hit::At(hit)) => hit.saturating_sub(time),
        Some(Hit::In { .. }) => u64::MAX,
        Some(Hit::View { .. }) => u64::MAX,
        None => u64::MAX,
    }
}

/// The number of bit times before the latest attempt is hit, if no later one begins. It is 0 if a hit of an earlier
/// attempt has yet to be passed.
fn until_in(next: Option<Hit>, latest: Option<Attempt>) -> u64
    requires { IsPassed latest (2 ^ 64 - 1) }
    ensures { result ≡ until_in_of latest next }
{
    let Some(latest) = latest else {
        return u64::MAX;
    };
    match next {
        Some(Hit::At(_)) => 0,
        Some(Hit::In { attempt, offset }) => {
            if latest.number < attempt {
                u64::MAX
            } else if attempt < latest.number {
                0
            } else {
                offset.saturating_sub(latest.offset + 1)
            }
        }
        Some(Hit::View { .. }) => u64::MAX,
        None => u64::MAX,
    }
}

/// The number of bit times before a hit on what a port samples, if this is the next hit at its cursor.
fn until_view(next: Option<Hit>, time: u64) -> u64
    ensures { result ≡ until_view_of time next }
{
    match next {
        Some(Hit::At(_)) => 0,
        Some(Hit::In { .. }) => 0,
        Some(Hit::View { time: hit, node: _ }) => hit.saturating_sub(time),
        None => u64::MAX,
    }
}
