//! The literal at an index that is a word.
ghost use Rattle.std.specs.Prelude.{◌≡◌, ◌≤◌, ◌^◌, ◌++◌, [], ◌∷◌, ℕ, Bool, min, slice_index_or};
ghost use Rattle.can_gates.specs.Circuit.{value, Makes};
ghost use Rattle.can_gates.specs.Lacking.{Serves};
ghost use Rattle.can_gates.specs.Words.{number};

use crate::circuit::Circuit;
use crate::literal::{FALSE, Literal};

impl Circuit {
    /// Returns the literal at an index that is a number; past the end it is never true.
    pub fn select(&mut self, items: &[Literal], place: &[Literal]) -> Literal
        ensures made { Makes self.old self.new (λ v. value v result ≡ value v (slice_index_or items.now (number v place.now) FALSE)) }
        ensures serves { Serves self.old self.new (items.now ++ place.now) (result ∷ []) }
    {
        if items.len() == 0 {
            return FALSE;
        }
        if place.len() == 0 {
            return items[0];
        }
        let highest = place.len() - 1;
        let rest = &place[..highest];
        let half = power_within(highest, items.len());
        let low = self.select(&items[..half], rest);
        let high = self.select(&items[half..], rest);
        self.ite(place[highest], high, low)
    }
}

/// The number of bits of a length.
const BITS: usize = 64;

/// 2 to the power of `times`, or `bound` if that is less.
fn power_within(times: usize, bound: usize) -> usize
    ensures { result ≡ min (2 ^ times) bound }
{
    if times >= BITS {
        return bound;
    }
    (1 << times).min(bound)
}
