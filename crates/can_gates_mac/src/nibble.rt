//! Numbers below 16.
ghost use Rattle.std.specs.Prelude.{◌≡◌, ◌+◌, ◌%◌, ◌<◌, ℕ, Bool, false, nat_lt, if◌then◌else◌};
ghost use Rattle.can_gates.specs.Circuit.{value, Makes};
ghost use Rattle.can_gates.specs.Words.{bit};
ghost use Rattle.can_gates_mac.specs.Nibbles.{nibble};

use can_gates::{Circuit, FALSE, Literal, TRUE};

/// A number below 16, of four literals.
#[derive(Clone, Copy)]
pub struct Nibble {
    /// The lowest bit.
    pub ones: Literal,
    /// The second bit.
    pub twos: Literal,
    /// The third bit.
    pub fours: Literal,
    /// The highest bit.
    pub eights: Literal,
}

impl Nibble {
    /// Returns a constant.
    pub fn of(number: u8) -> Nibble
        requires { number < 16 }
        ensures { (v : ℕ → Bool) → v 0 ≡ false → nibble v result ≡ number }
    {
        Nibble {
            ones: lowest(number),
            twos: lowest(number / 2),
            fours: lowest(number / 4),
            eights: lowest(number / 8),
        }
    }

    /// Returns the first number if the test is true, otherwise the second.
    pub fn choose(circuit: &mut Circuit, test: Literal, a: Nibble, b: Nibble) -> Nibble
        ensures { Makes circuit.old circuit.new (λ v. nibble v result ≡ (if value v test then nibble v a else nibble v b)) }
    {
        let ones = circuit.ite(test, a.ones, b.ones);
        let twos = circuit.ite(test, a.twos, b.twos);
        let fours = circuit.ite(test, a.fours, b.fours);
        let eights = circuit.ite(test, a.eights, b.eights);
        Nibble {
            ones,
            twos,
            fours,
            eights,
        }
    }

    /// Returns whether it is less than a bound.
    pub fn less(self, circuit: &mut Circuit, bound: u8) -> Literal
        requires { bound < 16 }
        ensures { Makes circuit.old circuit.new (λ v. value v result ≡ nat_lt (nibble v self) bound) }
    {
        let most = Nibble::of(bound);
        circuit.less(
            &[self.ones, self.twos, self.fours, self.eights],
            &[most.ones, most.twos, most.fours, most.eights],
        )
    }

    /// One more, of a number below 15.
    pub(crate) fn next(self, circuit: &mut Circuit) -> Nibble
        ensures { Makes circuit.old circuit.new (λ v. nibble v self < 15 → nibble v result ≡ nibble v self + 1) }
    {
        let twos = circuit.xor(self.twos, self.ones);
        let two = circuit.and(self.ones, self.twos);
        let fours = circuit.xor(self.fours, two);
        let three = circuit.and(two, self.fours);
        let eights = circuit.xor(self.eights, three);
        Nibble {
            ones: self.ones.opposite(),
            twos,
            fours,
            eights,
        }
    }
}

/// The lowest bit of a number.
#[tactic(auto, unfolding(can_gates::specs::Circuit::value))]
fn lowest(number: u8) -> Literal
    ensures { (v : ℕ → Bool) → v 0 ≡ false → bit (value v result) ≡ number % 2 }
{
    if number % 2 == 1 { TRUE } else { FALSE }
}
