//! A step: a reset, a bit time, or nothing.
ghost use Rattle.std.specs.Prelude.{◌≡◌, ◌<◌, ◌==◌, ◌&&◌, ◌||◌, ℕ, Bool, false, length, slice_index_or};
ghost use Rattle.can_mac.specs.State.{MacState};
ghost use Rattle.can_gates.specs.Circuit.{value, Makes};
ghost use Rattle.can_gates_controller.specs.Whole.{HoldsAll, IsBitTime};
ghost use Rattle.can_gates_controller.specs.Steps.{ControllerStep, asked};
ghost use Rattle.can_gates_controller.specs.Listed.{register_list};
ghost use Rattle.can_gates_controller.specs.Runs.{step_in, Shows};
ghost use Rattle.can_gates_controller.specs.Stepped.{TakesReset, TakesStep, taken_at};

use crate::laying::levels_of;
use crate::legal::{is_legal, is_off};
use crate::listing::register_at;
use crate::ports::{InputPorts, OutputPorts};
use crate::registers::{BitTime, Offered, Registers};
use crate::telling::told_frame;
use crate::whole::bit_time;
use can_gates::{Circuit, FALSE, Literal};
use can_gates_mac::{Nibble, asking, is_passive};

/// One more than the most own overload frames of a request.
const ABOVE_WISHES: u8 = 3;

/// How many registers there are.
const REGISTERS: usize = 277;

/// A step: the next values of the registers, in their order, and the outputs.
pub(crate) fn step(
    circuit: &mut Circuit,
    held: &Registers,
    inputs: &InputPorts,
) -> ([Literal; 277], OutputPorts)
    ensures places { length result.0 ≡ 277 }
    ensures taken { Makes circuit.old circuit.new (λ v. TakesReset v inputs.now held.now result.0 × TakesStep v inputs.now result.1 held.now result.0) }
{
    let levels = levels_of(circuit, &inputs.frame);
    let offered = Offered {
        waits: inputs.waits,
        levels,
    };
    let wished = with_wish(circuit, held, inputs);
    let made = bit_time(circuit, &wished, &offered, inputs.bus);
    let outputs = show(circuit, held, inputs, &wished, &made);
    let taken = take(circuit, inputs, held, &made.next);
    (taken, outputs)
}

/// The registers, with the requested own overload frames.
fn with_wish(circuit: &mut Circuit, held: &Registers, inputs: &InputPorts) -> Registers
    ensures { Makes circuit.old circuit.new (λ v. (m : MacState) → HoldsAll v held.now m → HoldsAll v result (asked (step_in v inputs.now).wish m)) }
{
    let wish = Nibble {
        ones: inputs.overload_count_ones,
        twos: inputs.overload_count_twos,
        fours: FALSE,
        eights: FALSE,
    };
    let few = wish.less(circuit, ABOVE_WISHES);
    let asks = circuit.and(inputs.overload_request, few);
    let pending = Nibble::choose(circuit, asks, wish, held.controller.wires.pending);
    Registers {
        controller: asking(held.controller, pending),
        ..*held
    }
}

/// The outputs, given the registers, the registers with the requested overload frames (`wished`), and the bit time of
/// these (`made`).
fn show(
    circuit: &mut Circuit,
    held: &Registers,
    inputs: &InputPorts,
    wished: &Registers,
    made: &BitTime,
) -> OutputPorts
    ensures { Makes circuit.old circuit.new (λ v. (m : MacState) (s : ControllerStep) → s ≡ step_in v inputs.now → HoldsAll v held.now m → HoldsAll v wished.now (asked s.wish m) → IsBitTime v made.now wished.now (asked s.wish m) s.waiting s.level → Shows v result m s) }
{
    let counters = &held.controller.counters;
    let passes = circuit.and(inputs.enable, inputs.reset.opposite());
    let event = made.next.controller.wires.event;
    let event_code = Nibble::choose(circuit, passes, event, Nibble::of(0));
    let frame = told_frame(circuit, wished);
    let passive = is_passive(circuit, &counters.tec, &counters.rec);
    let legal = is_legal(circuit, held);
    OutputPorts {
        drive: made.recessive,
        event_code,
        frame,
        tec: counters.tec,
        rec: counters.rec,
        passive,
        off: is_off(counters),
        legal,
    }
}

/// The next values of the registers. At a reset they are 0, except that the first is whether the controller joins.
/// Otherwise they are those after the bit time, or the present ones if none passes.
fn take(
    circuit: &mut Circuit,
    inputs: &InputPorts,
    held: &Registers,
    next: &Registers,
) -> [Literal; 277]
    ensures places { length result ≡ 277 }
    ensures taken { Makes circuit.old circuit.new (λ v. (p : ℕ) → p < 277 → value v (slice_index_or result p FALSE) ≡ taken_at (value v inputs.now.reset) (value v inputs.now.integrating) (value v inputs.now.enable) p (value v (slice_index_or (register_list next.now) p FALSE)) (value v (slice_index_or (register_list held.now) p FALSE))) }
{
    let passes = circuit.and(inputs.enable, inputs.reset.opposite());
    let rests = circuit.and(inputs.enable.opposite(), inputs.reset.opposite());
    let integrating = circuit.and(inputs.reset, inputs.integrating);
    merge(circuit, passes, next, rests, held, integrating)
}

/// The levels of `next` if `passes` is true, those of `held` if `rests` is, and the first one also if `integrating` is.
fn merge(
    circuit: &mut Circuit,
    passes: Literal,
    next: &Registers,
    rests: Literal,
    held: &Registers,
    integrating: Literal,
) -> [Literal; 277]
    ensures places { length result ≡ 277 }
    ensures merged { Makes circuit.old circuit.new (λ v. (p : ℕ) → p < 277 → value v (slice_index_or result p FALSE) ≡ (((value v passes && value v (slice_index_or (register_list next.now) p FALSE)) || (value v rests && value v (slice_index_or (register_list held.now) p FALSE))) || (p == 0 && value v integrating))) }
{
    let mut all = [FALSE; REGISTERS];
    for place in 0..REGISTERS {
        let new = circuit.and(passes, register_at(next, place));
        let old = circuit.and(rests, register_at(held, place));
        let either = circuit.or(new, old);
        all[place] = circuit.or(either, at_first(place, integrating));
    }
    all
}

/// The literal at index 0, [`FALSE`] at others.
fn at_first(place: usize, literal: Literal) -> Literal
    ensures { (v : ℕ → Bool) → v 0 ≡ false → value v result ≡ (place == 0 && value v literal) }
{
    if place == 0 {
        return literal;
    }
    FALSE
}
