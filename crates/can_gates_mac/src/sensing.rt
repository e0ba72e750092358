//! Makes what the moves read.
ghost use Rattle.std.specs.Prelude.{◌≡◌, ◌≤◌, ℕ, Bool, nat_lt, ◌&&◌, if◌then◌else◌, Option};
ghost use Rattle.can_frame.specs.declared.level.Level.{Level};
ghost use Rattle.can_frame.specs.Parts.{Parts};
ghost use Rattle.can_mac.specs.declared.moves.Stance.{Stance};
ghost use Rattle.can_mac.specs.State.{MacPhase};
ghost use Rattle.can_gates.specs.Circuit.{value, Makes, differ};
ghost use Rattle.can_gates_mac.specs.Nibbles.{nibble};
ghost use Rattle.can_gates_mac.specs.Sensed.{IsNow, IsSensed, IsPlaced};

use crate::nibble::Nibble;
use crate::senses::{Places, Senses};
use crate::wires::Now;
use can_gates::{Circuit, Literal};

/// What all moves read.
pub(crate) fn sense(circuit: &mut Circuit, now: &Now) -> Senses
    ensures { Makes circuit.old circuit.new (λ v. (s : Stance) (p : MacPhase) (waiting : Option Parts) (x : Level) → IsNow v now.now s p waiting x → IsSensed v result s p waiting x) }
{
    let receiver = now.sender.opposite();
    let dominant = now.seen.opposite();
    let differs = now.agrees.opposite();
    let places = compare(circuit, now.place);
    let held_back = circuit.and(now.sender, now.passive);
    let free = held_back.opposite();
    let asks = asks(circuit, now.pending, now.used);
    let starts = circuit.and(now.waits, free);
    let refuses = circuit.and(receiver, differs);
    let still = circuit.and(now.unacknowledged, now.seen);
    let counts = circuit.and(now.unacknowledged, dominant);
    let run = run_behind(circuit, now.last, now.seen, places.next);
    let run_below_6 = run.less(circuit, 6);
    let first = circuit.and(receiver, now.first);
    Senses {
        passive: now.passive,
        sender: now.sender,
        receiver,
        held_back,
        pending: now.pending,
        used: now.used,
        asks,
        waits: now.waits,
        starts,
        recessive: now.seen,
        dominant,
        places,
        agrees: now.agrees,
        refuses,
        still,
        counts,
        run,
        run_below_6,
        first,
    }
}

/// Comparisons of a place, and the next place.
pub(crate) fn compare(circuit: &mut Circuit, place: Nibble) -> Places
    ensures { Makes circuit.old circuit.new (λ v. IsPlaced v result (nibble v place)) }
{
    let below_2 = place.less(circuit, 2);
    let below_5 = place.less(circuit, 5);
    let below_6 = place.less(circuit, 6);
    let below_7 = place.less(circuit, 7);
    let below_10 = place.less(circuit, 10);
    let next = place.next(circuit);
    Places {
        below_2,
        below_5,
        below_6,
        below_7,
        below_10,
        next,
    }
}

/// Whether an own overload frame is requested and can be started. (Bosch CAN 2.0 part B, section 3.2.4)
fn asks(circuit: &mut Circuit, pending: Nibble, used: Nibble) -> Literal
    ensures { Makes circuit.old circuit.new (λ v. nibble v pending ≤ 2 → nibble v used ≤ 2 → value v result ≡ (nat_lt 0 (nibble v pending) && nat_lt (nibble v used) 2)) }
{
    let some = circuit.or(pending.ones, pending.twos);
    circuit.and(some, used.twos.opposite())
}

/// How many equal levels in a row a passive error flag has, with the sampled one.
fn run_behind(circuit: &mut Circuit, last: Literal, seen: Literal, next: Nibble) -> Nibble
    ensures { Makes circuit.old circuit.new (λ v. nibble v result ≡ (if differ (value v last) (value v seen) then 1 else nibble v next)) }
{
    let differs = circuit.xor(last, seen);
    Nibble::choose(circuit, differs, Nibble::of(1), next)
}
