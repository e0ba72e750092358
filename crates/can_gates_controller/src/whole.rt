//! A bit time of a controller with the frame on the bus.
ghost use Rattle.std.specs.Prelude.{◌≡◌, ◌<◌, ℕ, Bool, Option, if◌then◌else◌, slice_index_or};
ghost use Rattle.can_frame.specs.declared.level.Level.{Level};
ghost use Rattle.can_frame.specs.Levels.{is_recessive};
ghost use Rattle.can_frame.specs.Parts.{Parts};
ghost use Rattle.can_mac.specs.State.{MacPhase, MacState};
ghost use Rattle.can_gates.specs.Circuit.{value, Makes};
ghost use Rattle.can_gates_mac.specs.Driving.{DrivesIn};
ghost use Rattle.can_gates_mac.specs.Numbers.{is_waiting};
ghost use Rattle.can_gates_controller.specs.Holding.{is_in_frame};
ghost use Rattle.can_gates_controller.specs.Following.{ShowsWithin};
ghost use Rattle.can_gates_controller.specs.Whole.{HoldsAll, Offers, IsBitTime};

use crate::check::agrees;
use crate::following::Within;
use crate::hearing::step_hearing;
use crate::levels::choose_levels;
use crate::next_front::within;
use crate::registers::{BitTime, Offered, Registers};
use crate::seen::Seen;
use crate::sending::{is_extended, next_sent};
use can_gates::{Circuit, FALSE, Literal};
use can_gates_mac::{Sends, drive};

/// Makes a bit time of a controller with the frame on the bus: returns the next values of its registers, the driven
/// level, and the event.
pub fn bit_time(
    circuit: &mut Circuit,
    held: &Registers,
    offered: &Offered,
    seen: Literal,
) -> BitTime
    ensures { Makes circuit.old circuit.new (λ v. (m : MacState) (waiting : Option Parts) (x : Level) → HoldsAll v held.now m → Offers v offered.now waiting → value v seen ≡ is_recessive x → IsBitTime v result held.now m waiting x) }
{
    let sends = reads(circuit, held, offered.waits);
    let recessive = drive(circuit, &held.controller, &sends);
    let sees = Seen {
        waits: offered.waits,
        seen,
        agrees: sends.agrees,
        sent: sends.sent,
        extended: is_extended(&held.own),
    };
    let (controller, heard) = step_hearing(circuit, &held.controller, &held.heard, &sees);
    let within = within(circuit, held.controller.wires.phase);
    let own = next_own(circuit, within, &held.own, &offered.levels);
    BitTime {
        next: Registers {
            controller,
            heard,
            own,
        },
        recessive,
    }
}

/// What is read of registers to drive a level.
fn reads(circuit: &mut Circuit, held: &Registers, waits: Literal) -> Sends
    ensures { Makes circuit.old circuit.new (λ v. (m : MacState) (waiting : Option Parts) → HoldsAll v held.now m → value v waits ≡ is_waiting waiting → DrivesIn v result m waiting) }
{
    let heard = &held.heard;
    let agrees = agrees(circuit, &heard.check);
    let due = circuit.and(heard.run.ones, heard.run.fours);
    let sent = next_sent(circuit, heard, &held.own);
    Sends {
        waits,
        agrees,
        due,
        last: heard.last,
        sent,
    }
}

/// The transmitter's frame after a bit time: within a frame what it was, otherwise the pending one.
fn next_own(
    circuit: &mut Circuit,
    within: Within,
    own: &[Literal; 103],
    offered: &[Literal; 103],
) -> [Literal; 103]
    ensures { Makes circuit.old circuit.new (λ v. (p : MacPhase) (place : ℕ) → ShowsWithin v within p → place < 103 → value v (slice_index_or result place FALSE) ≡ (if is_in_frame p then value v (slice_index_or own.now place FALSE) else value v (slice_index_or offered.now place FALSE))) }
{
    let busy = circuit.or(within.part, within.end);
    choose_levels(circuit, busy, own, offered)
}
