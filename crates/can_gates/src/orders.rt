//! Comparisons of two words as numbers.
ghost use Rattle.std.specs.Prelude.{◌≡◌, ◌==◌, ◌++◌, [], ◌∷◌, ℕ, Bool, nat_lt};
ghost use Rattle.can_gates.specs.Circuit.{value, Makes};
ghost use Rattle.can_gates.specs.Lacking.{Serves};
ghost use Rattle.can_gates.specs.Words.{number};

use crate::circuit::Circuit;
use crate::literal::{FALSE, Literal, TRUE};
use crate::words::literal_at;

impl Circuit {
    /// Returns whether the first number is less than the second.
    pub fn less(&mut self, a: &[Literal], b: &[Literal]) -> Literal
        ensures made { Makes self.old self.new (λ v. value v result ≡ nat_lt (number v a.now) (number v b.now)) }
        ensures serves { Serves self.old self.new (a.now ++ b.now) (result ∷ []) }
    {
        let places = a.len().max(b.len());
        let mut less = FALSE;
        for place in 0..places {
            let left = literal_at(a, place);
            let right = literal_at(b, place);
            let differ = self.xor(left, right);
            // the highest bit in which they differ decides
            less = self.ite(differ, right, less);
        }
        less
    }

    /// Returns whether two numbers are equal.
    pub fn equals(&mut self, a: &[Literal], b: &[Literal]) -> Literal
        ensures made { Makes self.old self.new (λ v. value v result ≡ (number v a.now == number v b.now)) }
        ensures serves { Serves self.old self.new (a.now ++ b.now) (result ∷ []) }
    {
        let places = a.len().max(b.len());
        let mut equal = TRUE;
        for place in 0..places {
            let left = literal_at(a, place);
            let right = literal_at(b, place);
            let differ = self.xor(left, right);
            equal = self.and(differ.opposite(), equal);
        }
        equal
    }
}
