//! The CRC register: the CRC of the unstuffed levels received so far. (Bosch CAN 2.0 part B, section 3.2.1)
ghost use Rattle.std.specs.Prelude.{◌≡◌, ◌+◌, ◌<◌, ◌≤◌, ◌&&◌, ◌++◌, ◌∷◌, [], ℕ, Bool, false, if◌then◌else◌, List, length};
ghost use Rattle.can_frame.specs.declared.level.Level.{Level};
ghost use Rattle.can_frame.specs.Levels.{is_recessive};
ghost use Rattle.can_wire.specs.Crc.{lower_terms, crc_of};
ghost use Rattle.can_wire.specs.Layout.{level_at};
ghost use Rattle.can_mac.specs.Moves.{agrees as check_agrees};
ghost use Rattle.can_gates.specs.Circuit.{value, Makes, differ};
ghost use Rattle.can_gates_controller.specs.Fronts.{HoldsCheck};

use crate::levels::choose_levels;
use can_gates::{Circuit, FALSE, Literal};

/// How many bits a CRC sequence has.
pub(crate) const PLACES: usize = 15;

/// Whether the generator polynomial has each of its terms below the highest, from x^14 on.
const TERMS: [bool; 15] = [
    true, false, false, false, true, false, true, true, false, false, true, true, false, false,
    true,
];

/// The CRC register after one more level.
fn divide(circuit: &mut Circuit, check: &[Literal; 15], level: Literal) -> [Literal; 15]
    ensures { Makes circuit.old circuit.new (λ v. (u : List Level) (x : Level) → HoldsCheck v check.now u → value v level ≡ is_recessive x → HoldsCheck v result (u ++ x ∷ [])) }
{
    let fed = circuit.xor(check[0], level);
    divided(circuit, check, fed)
}

/// The CRC register after one more level, or unchanged if the level is a stuff bit.
pub(crate) fn next_check(
    circuit: &mut Circuit,
    check: &[Literal; 15],
    plain: Literal,
    level: Literal,
) -> [Literal; 15]
    ensures { Makes circuit.old circuit.new (λ v. (u : List Level) (x : Level) → HoldsCheck v check.now u → value v level ≡ is_recessive x → HoldsCheck v result (if value v plain then u ++ x ∷ [] else u)) }
{
    let more = divide(circuit, check, level);
    choose_levels(circuit, plain, &more, check)
}

/// The CRC register after one more level, given whether that level and the highest bit differ.
fn divided(circuit: &mut Circuit, check: &[Literal; 15], fed: Literal) -> [Literal; 15]
    ensures { Makes circuit.old circuit.new (λ v. (u : List Level) (x : Level) → HoldsCheck v check.now u → value v fed ≡ differ (is_recessive (level_at (crc_of u) 0)) (is_recessive x) → HoldsCheck v result (u ++ x ∷ [])) }
{
    let mut all = [FALSE; PLACES];
    for place in 0..PLACES {
        let moved = next_place(check, place);
        let term = term_of(fed, place);
        all[place] = circuit.xor(moved, term);
    }
    all
}

/// The next lower bit, dominant after the lowest.
fn next_place(check: &[Literal; 15], place: usize) -> Literal
    requires { place < 15 }
    ensures { (v : ℕ → Bool) (u : List Level) → v 0 ≡ false → HoldsCheck v check.now u → value v result ≡ is_recessive (level_at (crc_of u) (place + 1)) }
{
    if place == 14 {
        return FALSE;
    }
    check[place + 1]
}

/// The bit of the generator polynomial with this index if `fed` is true, otherwise dominant.
fn term_of(fed: Literal, place: usize) -> Literal
    requires { place < 15 }
    ensures { (v : ℕ → Bool) → v 0 ≡ false → value v result ≡ (value v fed && is_recessive (level_at lower_terms place)) }
{
    if TERMS[place] {
        return fed;
    }
    FALSE
}

/// Whether the CRC sequence at the end of these levels is right: then the CRC register is 0.
pub(crate) fn agrees(circuit: &mut Circuit, check: &[Literal; 15]) -> Literal
    ensures { Makes circuit.old circuit.new (λ v. (u : List Level) → 15 ≤ length u → HoldsCheck v check.now u → value v result ≡ check_agrees u) }
{
    let mut some = FALSE;
    for place in 0..PLACES {
        some = circuit.or(some, check[place]);
    }
    some.opposite()
}
