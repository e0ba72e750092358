//! Sums and differences of words.
ghost use Rattle.std.specs.Prelude.{◌≡◌, ◌++◌, ◌∷◌, ◌+◌, ◌*◌, ◌-◌, ◌^◌, ℕ, Bool, min, length, take};
ghost use Rattle.can_gates.specs.Circuit.{value, Makes};
ghost use Rattle.can_gates.specs.Lacking.{Serves};
ghost use Rattle.can_gates.specs.Words.{number, bit};

use crate::circuit::Circuit;
use crate::literal::{FALSE, Literal};
use crate::words::{complement, literal_at};

impl Circuit {
    /// Returns the sum of `a`, the lowest N bits of `b`, and the carry. `carry` becomes the carry out of the highest
    /// bit.
    pub fn add<const N: usize>(
        &mut self,
        a: &[Literal; N],
        b: &[Literal],
        carry: &mut Literal,
    ) -> [Literal; N]
        ensures places { length result ≡ N }
        ensures sum { Makes self.old self.new (λ v. number v result + 2 ^ N * bit (value v carry.new) ≡ number v a.now + number v (take N b.now) + bit (value v carry.old)) }
        ensures serves { Serves self.old self.new (carry.old ∷ (a.now ++ b.now)) (carry.new ∷ result) }
    {
        let mut word = [FALSE; N];
        let mut over = *carry;
        for place in 0..N {
            let differ = self.xor(a[place], literal_at(b, place));
            word[place] = self.xor(differ, over);
            over = self.ite(differ, over, a[place]);
        }
        *carry = over;
        word
    }

    /// Returns the sum of the word and the lowest N bits of `by`, saturated at 2^N - 1.
    pub fn raised<const N: usize>(&mut self, word: &[Literal; N], by: &[Literal]) -> [Literal; N]
        ensures places { length result ≡ N }
        ensures number { Makes self.old self.new (λ v. number v result ≡ min (number v word.now + number v (take N by.now)) (2 ^ N - 1)) }
        ensures serves { Serves self.old self.new (word.now ++ by.now) result }
    {
        let mut carry = FALSE;
        let sum = self.add(word, by, &mut carry);
        self.or_all(&sum, carry)
    }

    /// Returns the word minus the lowest N bits of `by`, saturated at 0.
    pub fn lowered<const N: usize>(&mut self, word: &[Literal; N], by: &[Literal]) -> [Literal; N]
        ensures places { length result ≡ N }
        ensures number { Makes self.old self.new (λ v. number v result ≡ number v word.now - number v (take N by.now)) }
        ensures serves { Serves self.old self.new (word.now ++ by.now) result }
    {
        let turned = complement(word);
        let up = self.raised(&turned, by);
        complement(&up)
    }
}
