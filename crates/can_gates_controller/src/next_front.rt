//! What has been received of a frame after a bit time: one level more, the same as before, or only a start of frame.
ghost use Rattle.std.specs.Prelude.{◌≡◌, ℕ, Bool, false, Option};
ghost use Rattle.can_frame.specs.declared.level.Level.{Level};
ghost use Rattle.can_frame.specs.Parts.{Parts};
ghost use Rattle.can_code.specs.Front.{FrontParts, first_front, heard_level};
ghost use Rattle.can_mac.specs.declared.phase.Role.{Role};
ghost use Rattle.can_mac.specs.declared.phase.Phase.TheVariants.{StuffedPart};
ghost use Rattle.can_mac.specs.State.{MacPhase, IsPhase};
ghost use Rattle.can_gates.specs.Circuit.{value, Makes};
ghost use Rattle.can_gates_mac.specs.Nibbles.{nibble};
ghost use Rattle.can_gates_mac.specs.Numbers.{phase_number};
ghost use Rattle.can_gates_controller.specs.Fronts.{HoldsFront};
ghost use Rattle.can_gates_controller.specs.Holding.{HoldsHeard};
ghost use Rattle.can_gates_controller.specs.Following.{ShowsWithin, IsEither, IsPhaseBehind};

use crate::check;
use crate::following::Within;
use crate::heard::Heard;
use crate::levels::choose_levels;
use can_gates::{Circuit, FALSE, Literal, TRUE, constant};
use can_gates_mac::Nibble;

/// How many bits of a received frame have a register.
const PLACES: usize = 103;

/// Whether the phase with this number belongs to a frame.
pub(crate) fn within(circuit: &mut Circuit, phase: Nibble) -> Within
    ensures { Makes circuit.old circuit.new (λ v. (p : MacPhase) → nibble v phase ≡ phase_number p → ShowsWithin v result p) }
{
    let place = [phase.ones, phase.twos, phase.fours, phase.eights];
    // in the order of the phases' numbers
    let part = circuit.select(&[FALSE, FALSE, TRUE], &place);
    let end = circuit.select(&[FALSE, FALSE, FALSE, TRUE, TRUE, TRUE, TRUE], &place);
    Within { part, end }
}

/// The registers after a start of frame.
fn first_heard() -> Heard
    ensures { (v : ℕ → Bool) → v 0 ≡ false → HoldsFront v result first_front }
{
    Heard {
        levels: [FALSE; PLACES],
        count: constant(1),
        last: FALSE,
        run: Nibble::of(1),
        check: [FALSE; check::PLACES],
    }
}

/// The first registers if the test is true, otherwise the second.
fn choose_heard(circuit: &mut Circuit, test: Literal, a: &Heard, b: &Heard) -> Heard
    ensures { Makes circuit.old circuit.new (λ v. IsEither v result (value v test) a.now b.now) }
{
    let levels = choose_levels(circuit, test, &a.levels, &b.levels);
    let count = circuit.choose(test, &a.count, &b.count);
    let last = circuit.ite(test, a.last, b.last);
    let run = Nibble::choose(circuit, test, a.run, b.run);
    let check = choose_levels(circuit, test, &a.check, &b.check);
    Heard {
        levels,
        count,
        last,
        run,
        check,
    }
}

/// What has been received after a bit time: in a stuffed part one level more; after it, in the same frame, what it was;
/// otherwise a start of frame.
pub(crate) fn front_behind(
    circuit: &mut Circuit,
    within: Within,
    heard: &Heard,
    next: &Heard,
) -> Heard
    ensures { Makes circuit.old circuit.new (λ v. (p q : MacPhase) (role new : Role) (waiting : Option Parts) (x : Level) → IsPhase p → ShowsWithin v within p → HoldsHeard v heard.now p → ((front : FrontParts) → p ≡ StuffedPart front → HoldsFront v next.now (heard_level front x)) → IsPhaseBehind p role waiting x q new → HoldsHeard v result q) }
{
    let first = first_heard();
    let kept = choose_heard(circuit, within.end, heard, &first);
    choose_heard(circuit, within.part, next, &kept)
}
