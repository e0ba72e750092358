//! OR, XOR, and a choice between two literals.
ghost use Rattle.std.specs.Prelude.{◌≡◌, ◌&&◌, ◌||◌, ◌⊎◌, [], ◌∷◌, ℕ, Bool, max, if◌then◌else◌};
ghost use Rattle.can_gates.specs.Circuit.{value, Makes, differ};
ghost use Rattle.can_gates.specs.Lacking.{Serves, lack_with};

use crate::circuit::Circuit;
use crate::literal::Literal;

impl Circuit {
    /// Returns the OR of two literals.
    pub fn or(&mut self, a: Literal, b: Literal) -> Literal
        ensures made { Makes self.old self.new (λ v. value v result ≡ (value v a || value v b)) }
        ensures lack { (self.new.lack ≡ self.old.lack) ⊎ (self.new.lack ≡ lack_with self.old (max a.signal b.signal)) }
        ensures serves { Serves self.old self.new (a ∷ b ∷ []) (result ∷ []) }
    {
        let neither = self.and(a.opposite(), b.opposite());
        neither.opposite()
    }

    /// Returns the first literal if the test is true, otherwise the second.
    pub fn ite(&mut self, test: Literal, a: Literal, b: Literal) -> Literal
        ensures made { Makes self.old self.new (λ v. value v result ≡ (if value v test then value v a else value v b)) }
        ensures serves { Serves self.old self.new (test ∷ a ∷ b ∷ []) (result ∷ []) }
    {
        if a.is_same(b) {
            return a;
        }
        let first = self.and(test, a);
        let second = self.and(test.opposite(), b);
        self.or(first, second)
    }

    /// Returns the XOR of two literals.
    pub fn xor(&mut self, a: Literal, b: Literal) -> Literal
        ensures made { Makes self.old self.new (λ v. value v result ≡ differ (value v a) (value v b)) }
        ensures serves { Serves self.old self.new (a ∷ b ∷ []) (result ∷ []) }
    {
        self.ite(a, b.opposite(), b)
    }
}
