//! Levels as words: a literal for each.
ghost use Rattle.std.specs.Prelude.{◌≡◌, ◌<◌, ℕ, Bool, if◌then◌else◌, length, slice_index_or};
ghost use Rattle.can_gates.specs.Circuit.{value, Makes};

use can_gates::{Circuit, FALSE, Literal, literal_at};

/// The first levels if the test is true, otherwise the second. Past their end levels are dominant.
pub(crate) fn choose_levels<const N: usize>(
    circuit: &mut Circuit,
    test: Literal,
    a: &[Literal],
    b: &[Literal],
) -> [Literal; N]
    ensures places { length result ≡ N }
    ensures levels { Makes circuit.old circuit.new (λ v. (p : ℕ) → p < N → value v (slice_index_or result p FALSE) ≡ (if value v test then value v (slice_index_or a.now p FALSE) else value v (slice_index_or b.now p FALSE))) }
{
    let mut all = [FALSE; N];
    for place in 0..N {
        let first = literal_at(a, place);
        let other = literal_at(b, place);
        all[place] = circuit.ite(test, first, other);
    }
    all
}
