//! Numbers as words: literals, the lowest bit first.
ghost use Rattle.std.specs.Prelude.{◌≡◌, ◌++◌, ◌∷◌, ◌+◌, ◌*◌, ◌%◌, ◌-◌, ◌^◌, ℕ, Bool, false, if◌then◌else◌, length, slice_index_or};
ghost use Rattle.can_gates.specs.Circuit.{CircuitParts, value, Makes};
ghost use Rattle.can_gates.specs.Lacking.{HasSignals, Serves};
ghost use Rattle.can_gates.specs.Words.{number, bit};

use crate::circuit::Circuit;
use crate::literal::{FALSE, Literal, TRUE};

/// Returns the literal at an index of a word, [`FALSE`] past its end.
pub fn literal_at(word: &[Literal], place: usize) -> Literal
    ensures { result ≡ slice_index_or word.now place FALSE }
{
    word.get(place).copied().unwrap_or(FALSE)
}

/// Returns the lowest N bits of a number.
pub fn constant<const N: usize>(of: u64) -> [Literal; N]
    ensures places { length result ≡ N }
    ensures number { (v : ℕ → Bool) → v 0 ≡ false → number v result ≡ of % 2 ^ N }
{
    let mut word = [FALSE; N];
    let mut rest = of;
    for place in 0..N {
        word[place] = lowest(rest);
        rest /= 2;
    }
    word
}

/// The lowest bit of a number.
#[tactic(auto, unfolding(crate::specs::Circuit::value))]
fn lowest(of: u64) -> Literal
    ensures { (v : ℕ → Bool) → v 0 ≡ false → bit (value v result) ≡ of % 2 }
{
    if of % 2 == 1 { TRUE } else { FALSE }
}

/// The negation of each bit: 2^N - 1 minus the number.
pub(crate) fn complement<const N: usize>(word: &[Literal; N]) -> [Literal; N]
    ensures places { length result ≡ N }
    ensures number { (v : ℕ → Bool) → v 0 ≡ false → number v result + number v word.now + 1 ≡ 2 ^ N }
    ensures signals { (c : CircuitParts) → HasSignals c word.now → HasSignals c result }
{
    let mut all = [FALSE; N];
    for place in 0..N {
        all[place] = word[place].opposite();
    }
    all
}

impl Circuit {
    /// Returns the first word if the test is true, otherwise the second.
    pub fn choose<const N: usize>(
        &mut self,
        test: Literal,
        a: &[Literal; N],
        b: &[Literal; N],
    ) -> [Literal; N]
        ensures places { length result ≡ N }
        ensures number { Makes self.old self.new (λ v. number v result ≡ (if value v test then number v a.now else number v b.now)) }
        ensures serves { Serves self.old self.new (test ∷ (a.now ++ b.now)) result }
    {
        let mut all = [FALSE; N];
        for place in 0..N {
            all[place] = self.ite(test, a[place], b[place]);
        }
        all
    }

    /// The word, or all ones if `over` is true.
    pub(crate) fn or_all<const N: usize>(
        &mut self,
        word: &[Literal; N],
        over: Literal,
    ) -> [Literal; N]
        ensures places { length result ≡ N }
        ensures number { Makes self.old self.new (λ v. number v result ≡ (if value v over then 2 ^ N - 1 else number v word.now)) }
        ensures serves { Serves self.old self.new (over ∷ word.now) result }
    {
        let mut all = [FALSE; N];
        for place in 0..N {
            all[place] = self.or(word[place], over);
        }
        all
    }
}
