//! The level that a controller drives, and the stuffing of a frame. (Bosch CAN 2.0 part B, sections 3.2 and 6)
ghost use Rattle.std.specs.Prelude.{◌≡◌, ◌≤◌, ◌==◌, ℕ, Bool, nat_le, Option};
ghost use Rattle.can_frame.specs.declared.level.Level.{Level};
ghost use Rattle.can_frame.specs.Levels.{is_recessive, same};
ghost use Rattle.can_frame.specs.Parts.{Parts};
ghost use Rattle.can_wire.specs.Layout.{rtr_place};
ghost use Rattle.can_code.specs.Front.{FrontParts, heard_level};
ghost use Rattle.can_mac.specs.State.{MacState};
ghost use Rattle.can_mac.specs.Machine.{mac_drives};
ghost use Rattle.can_gates.specs.Circuit.{value, Makes};
ghost use Rattle.can_gates.specs.Words.{number};
ghost use Rattle.can_gates_mac.specs.Stepping.{Holds};
ghost use Rattle.can_gates_mac.specs.Driving.{DrivesIn, HoldsRun};

use crate::nibble::Nibble;
use crate::registers::Controller;
use can_gates::{Circuit, FALSE, Literal, TRUE, constant};

/// What decides which level a controller drives: of the pending frame, and of the frame on the bus.
#[derive(Clone, Copy)]
pub struct Sends {
    /// Whether a frame is pending.
    pub waits: Literal,
    /// After the stuffed part of a frame, whether its CRC sequence is right.
    pub agrees: Literal,
    /// Whether the next level is a stuff bit.
    pub due: Literal,
    /// Whether the last level was recessive.
    pub last: Literal,
    /// Whether the next level of the transmitter's frame is recessive.
    pub sent: Literal,
}

/// A level after a run of equal levels, and the run with it.
#[derive(Clone, Copy)]
pub struct StuffPlace {
    /// Whether the level is a stuff bit.
    pub due: Literal,
    /// Whether it repeats the level before.
    pub repeats: Literal,
    /// Whether it is recessive.
    pub last: Literal,
    /// How many equal levels in a row end with it.
    pub run: Nibble,
}

/// Returns whether a controller drives recessive.
pub fn drive(circuit: &mut Circuit, held: &Controller, sends: &Sends) -> Literal
    ensures { Makes circuit.old circuit.new (λ v. (m : MacState) (waiting : Option Parts) → Holds v held.now m → DrivesIn v sends.now m waiting → value v result ≡ is_recessive (mac_drives m waiting)) }
{
    let phase = held.wires.phase;
    let receiver = held.wires.sender.opposite();
    let silent = sends.waits.opposite();
    let stuff = sends.last.opposite();
    let differs = sends.agrees.opposite();
    let of_sender = circuit.ite(sends.due, stuff, sends.sent);
    let of_part = circuit.or(receiver, of_sender);
    let of_slot = circuit.or(held.wires.sender, differs);
    // in the order of the phases' numbers
    let items = [
        silent, TRUE, of_part, TRUE, of_slot, TRUE, TRUE, FALSE, TRUE, FALSE, TRUE, TRUE, TRUE,
        TRUE, TRUE,
    ];
    let place = [phase.ones, phase.twos, phase.fours, phase.eights];
    circuit.select(&items, &place)
}

/// Returns whether a level is a stuff bit, whether it repeats the last level, and the run with it. `last` is whether
/// the last level was recessive, `run` how many equal levels ended with it.
pub fn stuffing(circuit: &mut Circuit, last: Literal, run: Nibble, seen: Literal) -> StuffPlace
    ensures { Makes circuit.old circuit.new (λ v. (front : FrontParts) (x : Level) → HoldsRun v last run front → front.run ≤ 5 → value v seen ≡ is_recessive x → (value v result.due ≡ (front.run == 5)) × ((value v result.repeats ≡ same x front.last) × HoldsRun v result.last result.run (heard_level front x))) }
{
    let due = circuit.and(run.ones, run.fours);
    let differs = circuit.xor(seen, last);
    let repeats = differs.opposite();
    let plain = due.opposite();
    let grows = circuit.and(plain, repeats);
    let next = run.next(circuit);
    let behind = Nibble::choose(circuit, grows, next, Nibble::of(1));
    StuffPlace {
        due,
        repeats,
        last: seen,
        run: behind,
    }
}

/// The first index after the RTR bit of a standard frame.
const BEHIND_STANDARD: u64 = 13;

/// The first index after the RTR bit of an extended frame.
const BEHIND_EXTENDED: u64 = 33;

/// Returns whether an unstuffed bit comes no later than the RTR bit of a frame of this format, so that it arbitrates.
/// `count` is the index of the bit. (Bosch CAN 2.0 part B, section 3.2.1)
pub fn arbitrates(circuit: &mut Circuit, count: &[Literal], extended: Literal) -> Literal
    ensures { Makes circuit.old circuit.new (λ v. value v result ≡ nat_le (number v count.now) (rtr_place (value v extended))) }
{
    let long = constant::<6>(BEHIND_EXTENDED);
    let short = constant::<6>(BEHIND_STANDARD);
    let bound = circuit.choose(extended, &long, &short);
    circuit.less(count, &bound)
}
