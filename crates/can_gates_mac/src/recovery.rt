//! Bus-off, and how it ends. (Bosch CAN 2.0 part B, section 8)
ghost use Rattle.std.specs.Prelude.{◌≡◌, ◌<◌, ℕ, Bool, true, false, if◌then◌else◌, length};
ghost use Rattle.can_frame.specs.declared.level.Level.{Level};
ghost use Rattle.can_frame.specs.Levels.{is_recessive};
ghost use Rattle.can_fault.specs.Counters.{ConfineParts, is_bus_off};
ghost use Rattle.can_gates.specs.Circuit.{value, Makes};
ghost use Rattle.can_gates.specs.Words.{number};
ghost use Rattle.can_gates_mac.specs.Nibbles.{nibble};
ghost use Rattle.can_gates_mac.specs.Sensed.{IsPlaced};
ghost use Rattle.can_gates_mac.specs.StepParts.{Recovers};

use crate::nibble::Nibble;
use crate::senses::Places;
use can_gates::{Circuit, FALSE, Literal};

/// Recovery after a level.
#[derive(Clone, Copy)]
pub(crate) struct Recovery {
    /// How many recessive levels in a row there are since the last occurrence of eleven.
    pub(crate) row: Nibble,
    /// How many occurrences of eleven recessive levels there were.
    pub(crate) occurrences: [Literal; 7],
    /// Whether this level completed the 128th.
    pub(crate) ended: Literal,
}

/// Recovery after a level during bus-off.
pub(crate) fn recover(
    circuit: &mut Circuit,
    places: &Places,
    seen: Literal,
    occurrences: &[Literal; 7],
) -> Recovery
    ensures places { length result.occurrences ≡ 7 }
    ensures recovers { Makes circuit.old circuit.new (λ v. (c : ConfineParts) (x : Level) → is_bus_off c ≡ true → c.row < 11 → c.occurrences < 128 → IsPlaced v places.now c.row → value v seen ≡ is_recessive x → number v occurrences.now ≡ c.occurrences → Recovers v result.row result.occurrences result.ended c x) }
{
    let late = places.below_10.opposite();
    let early = circuit.and(seen, places.below_10);
    let full = circuit.and(seen, late);
    let row = Nibble::choose(circuit, early, places.next, Nibble::of(0));
    let mut ended = FALSE;
    let occurrences = circuit.add(occurrences, &[full], &mut ended);
    Recovery {
        row,
        occurrences,
        ended,
    }
}

/// The phase bus-off, or idle if it has ended.
pub(crate) fn rest_phase(ended: Literal) -> Nibble
    ensures { (v : ℕ → Bool) → v 0 ≡ false → nibble v result ≡ (if value v ended then 0 else 14) }
{
    Nibble {
        ones: FALSE,
        twos: ended.opposite(),
        fours: ended.opposite(),
        eights: ended.opposite(),
    }
}

/// The event of the end of bus-off.
pub(crate) fn rest_event(ended: Literal) -> Nibble
    ensures { (v : ℕ → Bool) → v 0 ≡ false → nibble v result ≡ (if value v ended then 11 else 0) }
{
    Nibble {
        ones: ended,
        twos: ended,
        fours: FALSE,
        eights: ended,
    }
}
