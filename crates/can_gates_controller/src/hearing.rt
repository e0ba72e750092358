//! A bit time of a controller and of what it has received of a frame.
ghost use Rattle.std.specs.Prelude.{◌≡◌, ℕ, Bool, Option};
ghost use Rattle.can_frame.specs.declared.level.Level.{Level};
ghost use Rattle.can_frame.specs.Parts.{Parts};
ghost use Rattle.can_mac.specs.State.{MacState, IsMac, IsFrameOrNone};
ghost use Rattle.can_mac.specs.Machine.{mac_step};
ghost use Rattle.can_gates.specs.Circuit.{Makes};
ghost use Rattle.can_gates_mac.specs.Stepping.{Holds, IsStep};
ghost use Rattle.can_gates_controller.specs.Holding.{HoldsHeard, IsSeen};

use crate::front::read;
use crate::heard::Heard;
use crate::next_front::{front_behind, within};
use crate::seen::Seen;
use can_gates::Circuit;
use can_gates_mac::{Controller, Inputs, step};

/// Makes a bit time of a controller and of what it has received of a frame: returns the next values of their registers.
pub fn step_hearing(
    circuit: &mut Circuit,
    held: &Controller,
    heard: &Heard,
    seen: &Seen,
) -> (Controller, Heard)
    ensures { Makes circuit.old circuit.new (λ v. (m : MacState) (waiting : Option Parts) (x : Level) → IsMac m → IsFrameOrNone waiting → Holds v held.now m → HoldsHeard v heard.now m.phase → IsSeen v seen.now m waiting x → IsStep v result.0 (mac_step m waiting x) × HoldsHeard v result.1 (mac_step m waiting x).0.phase) }
{
    let within = within(circuit, held.wires.phase);
    let (next, part) = read(circuit, heard, seen.seen, seen.sent, seen.extended);
    let behind = front_behind(circuit, within, heard, &next);
    let inputs = Inputs {
        waits: seen.waits,
        seen: seen.seen,
        agrees: seen.agrees,
        part,
    };
    let made = step(circuit, held, &inputs);
    (made, behind)
}
