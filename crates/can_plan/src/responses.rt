//! What the analysis gives for the messages of a network, one after another.
ghost use Rattle.std.specs.Prelude.{◌≡◌, ◌+◌, ◌<◌, ◌≤◌, ℕ, IfSome, IsFalse, IsNone, MatchOption, Some, length, nat_lt, slice_get};
ghost use Rattle.std.specs.List.{list_all};
ghost use Rattle.can_plan.specs.declared.message.Message.{Message as Sent};
ghost use Rattle.can_plan.specs.Analysis.{IsBound, IsBusyPeriod, IsLeastBound, ranking_at};
ghost use Rattle.can_plan.specs.Carried.{IsBusyBefore};
ghost use Rattle.can_plan.specs.Ends.{EndAlways};
ghost use Rattle.can_plan.specs.Messages.{ArePeriodic, IsMessageSet, most_hits};

use crate::message::{HitRate, Message};
use crate::response::{Response, response_after};

/// What the analysis gives for the messages of a network, one after another. Each result starts from that of the
/// message before it, so all of them take fewer steps than [`crate::response_bound`] at each place.
#[derive(Drop)]
pub struct Responses<'a> {
    messages: &'a [Message],
    rate: HitRate,
    limit: u32,
    /// The place of the next message.
    place: usize,
    /// No busy period of the message before it is shorter.
    before: u64,
    ghost begun: { IsBusyBefore (most_hits rate) messages.now place before },
}

impl<'a> Responses<'a> {
    /// The results for these messages, from the one at this place on, with numbers up to the limit.
    pub fn new(messages: &'a [Message], place: usize, rate: &HitRate, limit: u32) -> Responses<'a>
        ensures messages { result.messages.now ≡ messages.now }
        ensures place { result.place ≡ place }
        ensures rate { result.rate ≡ rate.now }
        ensures limit { result.limit ≡ limit }
    {
        Responses {
            messages,
            rate: *rate,
            limit,
            place,
            before: 0,
        }
    }

    /// What the analysis gives for the next message: the bound that [`crate::response_bound`] returns, and the length
    /// of its busy period. Both are `None` if there is no further message, or if a period is 0.
    pub fn next_response(&mut self) -> Response
        ensures least { (message : Sent) → slice_get self.old.messages.now self.old.place ≡ Some message → ArePeriodic self.old.messages.now → let ranking = ranking_at self.old.messages.now self.old.place message in
            MatchOption result.bound ((other : ℕ) → IsBound (most_hits self.old.rate) self.old.limit ranking other → ⊥) (λ b. IsLeastBound (most_hits self.old.rate) self.old.limit ranking b) }
        ensures busy { (message : Sent) → slice_get self.old.messages.now self.old.place ≡ Some message → ArePeriodic self.old.messages.now →
            IsBusyPeriod (most_hits self.old.rate) self.old.limit (ranking_at self.old.messages.now self.old.place message) result.busy }
        ensures absent { length self.old.messages.now ≤ self.old.place → IsNone result.bound × IsNone result.busy }
        ensures aperiodic { IsFalse (list_all (λ m. nat_lt 0 m.period) self.old.messages.now) → IsNone result.bound × IsNone result.busy }
        ensures holds { (message : Sent) → slice_get self.old.messages.now self.old.place ≡ Some message → IsMessageSet self.old.messages.now →
            IfSome result.bound (λ b. EndAlways (most_hits self.old.rate) self.old.messages.now message b) }
        ensures messages { self.new.messages.now ≡ self.old.messages.now }
        ensures rate { self.new.rate ≡ self.old.rate }
        ensures limit { self.new.limit ≡ self.old.limit }
        ensures next { self.old.place < length self.old.messages.now → self.new.place ≡ self.old.place + 1 }
        ensures ended { length self.old.messages.now ≤ self.old.place → self.new.place ≡ self.old.place }
    {
        let (response, before) = response_after(
            self.before,
            self.messages,
            self.place,
            &self.rate,
            self.limit,
        );
        if self.place < self.messages.len() {
            self.place += 1;
            self.before = before;
        }
        response
    }
}
