ghost use Rattle.std.specs.Prelude.{◌≡◌, ◌<◌, IsTrue, slice_get};
ghost use Rattle.std.specs.List.{list_any};
ghost use Rattle.can_bus.specs.Walks.{AreBelow, HitsRise, is_hit, until_view};

use can_terms::Hit;
use std::cmp::Ordering;

/// A place in a list of hits, for a walk in their order.
#[derive(Clone, Copy)]
pub(crate) struct Cursor {
    pub(crate) place: usize,
}

impl Cursor {
    /// The first hit that has not been passed.
    pub(crate) fn next(&self, hits: &[Hit]) -> Option<Hit>
        ensures { result ≡ slice_get hits.now self.now.place }
    {
        hits.get(self.place).copied()
    }

    /// Whether the next hit is a `View` later than this time, or there is none.
    #[inline(always)]
    pub(crate) fn is_ahead(&self, hits: &[Hit], time: u64) -> bool
        ensures { IsTrue result → 0 < until_view time (slice_get hits.now self.now.place) }
    {
        match hits.get(self.place) {
            None => true,
            Some(Hit::View { time: hit, .. }) => *hit > time,
            Some(Hit::At(_) | Hit::In { .. }) => false,
        }
    }

    /// Passes the hits below this one. Returns whether this hit is in the list.
    pub(crate) fn reach(&mut self, hits: &[Hit], hit: Hit) -> bool
        requires rising { HitsRise hits.now }
        requires passed { AreBelow hits.now self.old.place hit }
        ensures result { result ≡ list_any (is_hit hit) hits.now }
        ensures passed { AreBelow hits.now self.new.place hit }
    {
        while self.place < hits.len() {
            match hits[self.place].cmp(&hit) {
                Ordering::Less => self.place += 1,
                Ordering::Equal => return true,
                Ordering::Greater => return false,
            }
        }
        false
    }
}
