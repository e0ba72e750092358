//! An invariant of the registers: true in each state that a run reaches, so that a solver may assume it.
ghost use Rattle.std.specs.Prelude.{◌≡◌, ◌+◌, ◌<◌, ◌≤◌, ℕ, nat_le, nat_lt, Bool, true, false, List, length};
ghost use Rattle.can_frame.specs.declared.level.Level.{Level};
ghost use Rattle.can_wire.specs.Layout.{frame_len};
ghost use Rattle.can_code.specs.Front.{FrontParts};
ghost use Rattle.can_mac.specs.State.{MacPhase, MacState, IsOpen, IsPhase, IsMac};
ghost use Rattle.can_gates.specs.Circuit.{value, Makes};
ghost use Rattle.can_gates.specs.Words.{number};
ghost use Rattle.can_gates_mac.specs.Nibbles.{nibble};
ghost use Rattle.can_gates_mac.specs.Stepping.{Holds};
ghost use Rattle.can_gates_controller.specs.Fronts.{HoldsLevels, HoldsFront};
ghost use Rattle.can_gates_controller.specs.Holding.{HoldsHeard};
ghost use Rattle.can_gates_controller.specs.Following.{ShowsWithin};
ghost use Rattle.can_gates_controller.specs.Whole.{HoldsAll, IsSettled};

use crate::following::Within;
use crate::front::frame_length;
use crate::heard::Heard;
use crate::next_front::within;
use crate::own_frame::own_is_legal;
use crate::registers::Registers;
use can_gates::{Circuit, FALSE, Literal, TRUE, constant};
use can_gates_mac::{Controller, Counters, Wires};

/// How many bits of a received frame have a register.
const PLACES: usize = 103;

/// One more than the highest TEC.
const ABOVE_TEC: u64 = 264;

/// Whether the values of the registers are within those of a controller.
pub(crate) fn is_legal(circuit: &mut Circuit, held: &Registers) -> Literal
    ensures { Makes circuit.old circuit.new (λ v. (m : MacState) → HoldsAll v held.now m → value v result ≡ true) }
{
    let wires = held.controller.wires;
    let within = within(circuit, wires.phase);
    let place = place_is_legal(circuit, &held.controller);
    let marks = marks_are_legal(circuit, &held.controller);
    let stance = stance_is_legal(circuit, &held.controller);
    let wishes = wishes_are_legal(circuit, wires);
    let counters = counters_are_legal(circuit, &held.controller);
    let heard = heard_is_legal(circuit, within, &held.heard);
    let own = own_is_legal(circuit, within, held);
    let phase = circuit.and(place, marks);
    let state = circuit.and(stance, wishes);
    let on = circuit.and(phase, state);
    let counted = circuit.and(counters, heard);
    let frames = circuit.and(counted, own);
    circuit.and(on, frames)
}

/// Whether the place is in the range of the phase.
fn place_is_legal(circuit: &mut Circuit, held: &Controller) -> Literal
    ensures { Makes circuit.old circuit.new (λ v. (m : MacState) → IsMac m → Holds v held.now m → value v result ≡ true) }
{
    let place = held.wires.place;
    let first = place.less(circuit, 1);
    let below_3 = place.less(circuit, 3);
    let below_6 = place.less(circuit, 6);
    let below_7 = place.less(circuit, 7);
    let below_8 = place.less(circuit, 8);
    let below_11 = place.less(circuit, 11);
    let later = circuit.and(first.opposite(), below_8);
    // in the order of the phases' numbers
    let items = [
        first, below_11, first, first, first, first, below_7, below_6, below_6, below_6, below_8,
        later, below_3, below_8, below_11,
    ];
    let phase = held.wires.phase;
    let number = [phase.ones, phase.twos, phase.fours, phase.eights];
    circuit.select(&items, &number)
}

/// Whether `last` and `unacknowledged` are 0 except in a passive error flag, and `first` except after a flag.
fn marks_are_legal(circuit: &mut Circuit, held: &Controller) -> Literal
    ensures { Makes circuit.old circuit.new (λ v. (m : MacState) → Holds v held.now m → value v result ≡ true) }
{
    let wires = held.wires;
    let no_flag = circuit.and(wires.last.opposite(), wires.unacknowledged.opposite());
    let no_first = wires.first.opposite();
    let none = circuit.and(no_flag, no_first);
    // in the order of the phases' numbers
    let items = [
        none, none, none, none, none, none, none, none, no_first, none, no_flag, none, none, none,
        none,
    ];
    let phase = wires.phase;
    let number = [phase.ones, phase.twos, phase.fours, phase.eights];
    circuit.select(&items, &number)
}

/// Whether what the phase leaves open is legal. A controller that is idle, joining or bus-off is no transmitter, and one
/// that suspends transmission is one. In a frame no own overload frame was sent since the last one. A passive error flag
/// waits for an acknowledgement only at a transmitter, and begins as after a recessive level. No dominant level has come
/// before the first level after an error flag.
fn stance_is_legal(circuit: &mut Circuit, held: &Controller) -> Literal
    ensures { Makes circuit.old circuit.new (λ v. (m : MacState) → IsSettled m.phase m.role m.overloads.used → Holds v held.now m → value v result ≡ true) }
{
    let wires = held.wires;
    let receives = wires.sender.opposite();
    let unused = wires.used.less(circuit, 1);
    let start = wires.place.less(circuit, 1);
    let waits = circuit.or(wires.unacknowledged.opposite(), wires.sender);
    let begins = circuit.or(start.opposite(), wires.last);
    let flag = circuit.and(waits, begins);
    let first = circuit.or(start, wires.first.opposite());
    // in the order of the phases' numbers
    let items = [
        receives,
        receives,
        unused,
        unused,
        unused,
        unused,
        unused,
        TRUE,
        flag,
        TRUE,
        first,
        TRUE,
        TRUE,
        wires.sender,
        receives,
    ];
    let phase = wires.phase;
    let place = [phase.ones, phase.twos, phase.fours, phase.eights];
    circuit.select(&items, &place)
}

/// Whether at most two own overload frames are requested, and at most two were sent since the last frame.
fn wishes_are_legal(circuit: &mut Circuit, wires: Wires) -> Literal
    ensures { Makes circuit.old circuit.new (λ v. nibble v wires.pending ≤ 2 → nibble v wires.used ≤ 2 → value v result ≡ true) }
{
    let pending = wires.pending.less(circuit, 3);
    let used = wires.used.less(circuit, 3);
    circuit.and(pending, used)
}

/// Whether TEC is in its range, TEC is at least 256 exactly during bus-off, and the occurrences of eleven recessive
/// levels are 0 otherwise.
fn counters_are_legal(circuit: &mut Circuit, held: &Controller) -> Literal
    ensures { Makes circuit.old circuit.new (λ v. (m : MacState) → IsMac m → Holds v held.now m → value v result ≡ true) }
{
    let phase = held.wires.phase;
    let place = [phase.ones, phase.twos, phase.fours, phase.eights];
    let items = [
        FALSE, FALSE, FALSE, FALSE, FALSE, FALSE, FALSE, FALSE, FALSE, FALSE, FALSE, FALSE, FALSE,
        FALSE, TRUE,
    ];
    let rests = circuit.select(&items, &place);
    let off = is_off(&held.counters);
    let most = constant::<9>(ABOVE_TEC);
    let small = circuit.less(&held.counters.tec, &most);
    let differs = circuit.xor(off, rests);
    let some = circuit.less(&[FALSE], &held.counters.occurrences);
    let counts = circuit.or(off, some.opposite());
    let fits = circuit.and(small, differs.opposite());
    circuit.and(fits, counts)
}

/// Whether the registers of a received frame are consistent: in its stuffed part a frame that goes on, after it a whole
/// one. Its start of frame is dominant.
fn heard_is_legal(circuit: &mut Circuit, within: Within, heard: &Heard) -> Literal
    ensures { Makes circuit.old circuit.new (λ v. (p : MacPhase) → IsPhase p → ShowsWithin v within p → HoldsHeard v heard.now p → value v result ≡ true) }
{
    let length = frame_length(circuit, &heard.levels);
    let going = going_is_legal(circuit, heard, &length);
    let over = over_is_legal(circuit, heard, &length);
    let unheard = levels_are_legal(circuit, &heard.levels, &heard.count);
    let levels = circuit.and(unheard, heard.levels[0].opposite());
    let part = circuit.and(going, levels);
    let end = circuit.and(over, levels);
    let behind = circuit.ite(within.end, end, TRUE);
    circuit.ite(within.part, part, behind)
}

/// Whether a received frame that has `length` bits in all goes on: it has 1 to `length` bits so far, a run of 1 to 5,
/// and its stuffed part has not ended.
fn going_is_legal(circuit: &mut Circuit, heard: &Heard, length: &[Literal]) -> Literal
    ensures { Makes circuit.old circuit.new (λ v. (front : FrontParts) → IsOpen front → HoldsFront v heard.now front → number v length.now ≡ frame_len front.unstuffed → value v result ≡ true) }
{
    let some = circuit.less(&[FALSE], &heard.count);
    let over = circuit.less(length, &heard.count);
    let none = heard.run.less(circuit, 1);
    let few = heard.run.less(circuit, 6);
    let plain = heard.run.less(circuit, 5);
    let whole = circuit.equals(length, &heard.count);
    let ended = circuit.and(whole, plain);
    let counted = circuit.and(some, over.opposite());
    let runs = circuit.and(none.opposite(), few);
    let fits = circuit.and(counted, runs);
    circuit.and(fits, ended.opposite())
}

/// Whether a received frame that has `length` bits in all is whole, with a run of 1 to 4: no stuff bit is due.
fn over_is_legal(circuit: &mut Circuit, heard: &Heard, length: &[Literal]) -> Literal
    ensures { Makes circuit.old circuit.new (λ v. number v length.now ≡ number v heard.now.count → 1 ≤ nibble v heard.now.run → nibble v heard.now.run < 5 → value v result ≡ true) }
{
    let whole = circuit.equals(length, &heard.count);
    let none = heard.run.less(circuit, 1);
    let few = heard.run.less(circuit, 5);
    let runs = circuit.and(none.opposite(), few);
    circuit.and(whole, runs)
}

/// Whether no bit is recessive after the first `count`.
pub(crate) fn levels_are_legal(
    circuit: &mut Circuit,
    levels: &[Literal; 103],
    count: &[Literal; 7],
) -> Literal
    ensures { Makes circuit.old circuit.new (λ v. (u : List Level) → HoldsLevels v levels.now u → number v count.now ≡ length u → value v result ≡ true) }
{
    let mut legal = TRUE;
    let mut behind = FALSE;
    for place in 0..PLACES {
        behind = is_past(circuit, behind, count, place);
        let wrong = circuit.and(behind, levels[place]);
        legal = circuit.and(legal, wrong.opposite());
    }
    legal
}

/// Whether the bit with this index comes after the first `count`, given whether the one before it does.
pub(crate) fn is_past(
    circuit: &mut Circuit,
    before: Literal,
    count: &[Literal; 7],
    place: usize,
) -> Literal
    requires { place < 128 }
    ensures { Makes circuit.old circuit.new (λ v. value v before ≡ nat_lt (number v count.now) place → value v result ≡ nat_lt (number v count.now) (place + 1)) }
{
    let number = constant::<7>(place as u64);
    let here = circuit.equals(count, &number);
    circuit.or(before, here)
}

/// Whether a controller with these counters is bus-off.
pub(crate) fn is_off(counters: &Counters) -> Literal
    ensures { (v : ℕ → Bool) → v 0 ≡ false → value v result ≡ nat_le 256 (number v counters.now.tec) }
{
    counters.tec[8]
}
