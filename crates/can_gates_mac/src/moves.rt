//! The move of each phase with a level: one function for each definition of can_mac/specs/Moves.antt, as a list of
//! rows.

pub(crate) mod between_frames;
pub(crate) mod flags;
pub(crate) mod frame_end;
pub(crate) mod stuffed_part;

ghost use Rattle.std.specs.Prelude.{◌≡◌, ℕ, Bool, false, Option};
ghost use Rattle.can_frame.specs.declared.level.Level.{Level};
ghost use Rattle.can_frame.specs.Parts.{Parts};
ghost use Rattle.can_mac.specs.declared.moves.Stance.{Stance};
ghost use Rattle.can_mac.specs.State.{MacPhase, is_off_phase};
ghost use Rattle.can_mac.specs.Moves.{move};
ghost use Rattle.can_gates.specs.Circuit.{Makes};
ghost use Rattle.can_gates_mac.specs.Nibbles.{nibble};
ghost use Rattle.can_gates_mac.specs.Numbers.{numbers, phase_number};
ghost use Rattle.can_gates_mac.specs.Shown.{shown};
ghost use Rattle.can_gates_mac.specs.Sensed.{IsNow};
ghost use Rattle.can_gates_mac.specs.Inputs.{IsPartIn};

use crate::choices::select_wires;
use crate::sensing::sense;
use crate::wires::{Now, Part, Wires};
use between_frames::{idle, intermission, joining, suspend};
use can_gates::Circuit;
use flags::{after_flag, delimiter, error_flag, overload_flag, passive_flag};
use frame_end::{ack_delimiter, ack_slot, crc_delimiter, end_of_frame};
use stuffed_part::stuffed_part;

/// The move from any phase but bus-off.
pub(crate) fn next_move(circuit: &mut Circuit, now: &Now, part: &Part) -> Wires
    ensures { Makes circuit.old circuit.new (λ v. (s : Stance) (p : MacPhase) (waiting : Option Parts) (x : Level) → IsNow v now.now s p waiting x → nibble v now.now.phase ≡ phase_number p → IsPartIn v part.now s.role p x → is_off_phase p ≡ false → shown v result ≡ numbers (move s p waiting x)) }
{
    let senses = sense(circuit, now);
    let idle = idle(circuit, &senses);
    let joining = joining(circuit, &senses);
    let part = stuffed_part(circuit, &senses, part);
    let crc_delimiter = crc_delimiter(circuit, &senses);
    let ack_slot = ack_slot(circuit, &senses);
    let ack_delimiter = ack_delimiter(circuit, &senses);
    let end_of_frame = end_of_frame(circuit, &senses);
    let error_flag = error_flag(circuit, &senses);
    let passive_flag = passive_flag(circuit, &senses);
    let overload_flag = overload_flag(circuit, &senses);
    let after_flag = after_flag(circuit, &senses);
    let delimiter = delimiter(circuit, &senses);
    let intermission = intermission(circuit, &senses);
    let suspend = suspend(circuit, &senses);
    // in the order of the phases' numbers
    let items = [
        idle,
        joining,
        part,
        crc_delimiter,
        ack_slot,
        ack_delimiter,
        end_of_frame,
        error_flag,
        passive_flag,
        overload_flag,
        after_flag,
        delimiter,
        intermission,
        suspend,
    ];
    let phase = now.phase;
    let place = [phase.ones, phase.twos, phase.fours, phase.eights];
    select_wires(circuit, &items, &place, idle)
}
