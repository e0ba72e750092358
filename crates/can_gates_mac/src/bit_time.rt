//! A bit time of a controller.
ghost use Rattle.std.specs.Prelude.{◌≡◌, ◌<◌, ℕ, Bool, true, false, Option};
ghost use Rattle.can_frame.specs.declared.level.Level.{Level};
ghost use Rattle.can_frame.specs.Levels.{is_recessive};
ghost use Rattle.can_frame.specs.Parts.{Parts};
ghost use Rattle.can_fault.specs.Counters.{ConfineParts};
ghost use Rattle.can_mac.specs.State.{MacState, IsMac, IsFrameOrNone, is_off_phase};
ghost use Rattle.can_mac.specs.Moves.{MacMove};
ghost use Rattle.can_mac.specs.Machine.{mac_step, step_counting, off_step};
ghost use Rattle.can_gates.specs.Circuit.{value, Makes};
ghost use Rattle.can_gates_mac.specs.Numbers.{numbers};
ghost use Rattle.can_gates_mac.specs.Shown.{shown};
ghost use Rattle.can_gates_mac.specs.Stepping.{Holds, HoldsCounters, IsInput, IsStep};
ghost use Rattle.can_gates_mac.specs.StepParts.{IsChosen};

use crate::choices::choose_wires;
use crate::counters::{is_passive, rec_behind, tec_behind};
use crate::moves::next_move;
use crate::nibble::Nibble;
use crate::numbers::{BUS_OFF, UNCOUNTED, WENT_OFF};
use crate::recovery::{Recovery, recover, rest_event, rest_phase};
use crate::registers::{Controller, Counters};
use crate::sensing::compare;
use crate::wires::{Inputs, Now, Wires};
use can_gates::{Circuit, FALSE, Literal};

/// Makes one bit time of a controller: returns the next values of its registers, and the event.
pub fn step(circuit: &mut Circuit, held: &Controller, inputs: &Inputs) -> Controller
    ensures { Makes circuit.old circuit.new (λ v. (m : MacState) (waiting : Option Parts) (x : Level) → IsMac m → IsFrameOrNone waiting → Holds v held.now m → IsInput v inputs.now m waiting x → IsStep v result (mac_step m waiting x)) }
{
    let state = held.wires;
    let passive = is_passive(circuit, &held.counters.tec, &held.counters.rec);
    let now = Now {
        phase: state.phase,
        place: state.place,
        last: state.last,
        unacknowledged: state.unacknowledged,
        first: state.first,
        sender: state.sender,
        pending: state.pending,
        used: state.used,
        passive,
        waits: inputs.waits,
        seen: inputs.seen,
        agrees: inputs.agrees,
    };
    let moved = next_move(circuit, &now, &inputs.part);
    let on = count(circuit, &moved, &held.counters);
    let off = rest(circuit, held, inputs.seen);
    let is_off = held.counters.tec[8];
    choose_controller(circuit, is_off, &off, &on)
}

/// The first controller if the test is true, otherwise the second.
fn choose_controller(
    circuit: &mut Circuit,
    test: Literal,
    a: &Controller,
    b: &Controller,
) -> Controller
    ensures { Makes circuit.old circuit.new (λ v. IsChosen v result (value v test) a.now b.now) }
{
    let wires = choose_wires(circuit, test, a.wires, b.wires);
    let tec = circuit.choose(test, &a.counters.tec, &b.counters.tec);
    let rec = circuit.choose(test, &a.counters.rec, &b.counters.rec);
    let occurrences = circuit.choose(test, &a.counters.occurrences, &b.counters.occurrences);
    Controller {
        wires,
        counters: Counters {
            tec,
            rec,
            occurrences,
        },
    }
}

/// A move, with the error counters after it.
fn count(circuit: &mut Circuit, moved: &Wires, counters: &Counters) -> Controller
    ensures { Makes circuit.old circuit.new (λ v. (m : MacMove) (c : ConfineParts) → shown v moved.now ≡ numbers m → is_off_phase m.phase ≡ false → HoldsCounters v counters.now c → c.tec < 256 → c.row ≡ 0 → IsStep v result (step_counting m c m.cause)) }
{
    let tec = tec_behind(circuit, moved.cause, &counters.tec);
    let rec = rec_behind(circuit, moved.cause, &counters.rec);
    let zero = Nibble::of(0);
    let off = Wires {
        phase: Nibble::of(BUS_OFF),
        place: zero,
        last: FALSE,
        unacknowledged: FALSE,
        first: FALSE,
        sender: FALSE,
        pending: moved.pending,
        used: moved.used,
        cause: zero,
        event: Nibble::of(WENT_OFF),
    };
    let went_off = tec[8];
    let wires = choose_wires(circuit, went_off, off, *moved);
    Controller {
        wires,
        counters: Counters {
            tec,
            rec,
            occurrences: counters.occurrences,
        },
    }
}

/// A level during bus-off.
fn rest(circuit: &mut Circuit, held: &Controller, seen: Literal) -> Controller
    ensures { Makes circuit.old circuit.new (λ v. (m : MacState) (x : Level) → IsMac m → Holds v held.now m → is_off_phase m.phase ≡ true → value v seen ≡ is_recessive x → IsStep v result (off_step m x)) }
{
    let state = held.wires;
    let places = compare(circuit, state.place);
    let Recovery {
        row,
        occurrences,
        ended,
    } = recover(circuit, &places, seen, &held.counters.occurrences);
    let tec = circuit.choose(ended, &[FALSE; 9], &held.counters.tec);
    let rec = circuit.choose(ended, &[FALSE; 8], &held.counters.rec);
    let wires = Wires {
        phase: rest_phase(ended),
        place: row,
        last: FALSE,
        unacknowledged: FALSE,
        first: FALSE,
        sender: state.sender,
        pending: state.pending,
        used: state.used,
        cause: Nibble::of(UNCOUNTED),
        event: rest_event(ended),
    };
    Controller {
        wires,
        counters: Counters {
            tec,
            rec,
            occurrences,
        },
    }
}
