//! The fields of a frame, read from its bits. (Bosch CAN 2.0 part B, section 3.2.1)
ghost use Rattle.std.specs.Prelude.{◌≡◌, ◌<◌, if◌then◌else◌, List, Option, Some, length, slice_index_or};
ghost use Rattle.can_frame.specs.declared.level.Level.{Level};
ghost use Rattle.can_frame.specs.Parts.{Parts};
ghost use Rattle.can_wire.specs.Layout.{frame_of};
ghost use Rattle.can_mac.specs.State.{MacState};
ghost use Rattle.can_mac.specs.Machine.{mac_step};
ghost use Rattle.can_gates.specs.Circuit.{value, Makes};
ghost use Rattle.can_gates.specs.Words.{number};
ghost use Rattle.can_gates_controller.specs.Fronts.{HoldsLevels};
ghost use Rattle.can_gates_controller.specs.Whole.{HoldsAll};
ghost use Rattle.can_gates_controller.specs.Fields.{HoldsFields, frame_told};
ghost use Rattle.can_gates_controller.specs.Laying.{long_list, short_list};

use crate::fields::{Fields, clear_behind};
use crate::levels::choose_levels;
use crate::registers::Registers;
use crate::turning::turn_bytes;
use can_gates::{Circuit, FALSE, Literal, literal_at};
use can_gates_mac::Nibble;

/// How many bits with registers follow the identifier of a frame.
const BEHIND: usize = 71;

/// How many bits an extended identifier has.
const IDENTIFIER: usize = 29;

/// Returns the frame of a bit time in which a controller reports a transmitted or received one: that of the
/// transmitter, or the received one.
pub fn told_frame(circuit: &mut Circuit, held: &Registers) -> Fields
    ensures { Makes circuit.old circuit.new (λ v. (m : MacState) (waiting : Option Parts) (x : Level) (f : Parts) → HoldsAll v held.now m → frame_told (mac_step m waiting x).1 ≡ Some f → HoldsFields v result f) }
{
    let sender = held.controller.wires.sender;
    let levels = choose_levels(circuit, sender, &held.own, &held.heard.levels);
    fields_of(circuit, &levels)
}

/// Returns the fields of the frame that begins with these bits.
pub fn fields_of(circuit: &mut Circuit, levels: &[Literal; 103]) -> Fields
    ensures { Makes circuit.old circuit.new (λ v. (u : List Level) → HoldsLevels v levels.now u → HoldsFields v result (frame_of u)) }
{
    let extended = levels[13];
    let identifier = identifier_of(circuit, extended, levels);
    // from its RTR bit on a frame is the same in both formats: two bits follow, the data length code, and the data
    let behind = choose_levels::<BEHIND>(circuit, extended, &levels[32..], &levels[12..]);
    let remote = behind[0];
    let dlc = Nibble {
        ones: behind[6],
        twos: behind[5],
        fours: behind[4],
        eights: behind[3],
    };
    let word = turn_bytes(&behind, 7);
    let bytes = clear_behind(circuit, remote, dlc, &word);
    Fields {
        extended,
        remote,
        identifier,
        dlc,
        bytes,
    }
}

/// The identifier of the frame that begins with these bits: in an extended one the eleven highest bits come first.
fn identifier_of(circuit: &mut Circuit, extended: Literal, levels: &[Literal; 103]) -> [Literal; 29]
    ensures places { length result ≡ 29 }
    ensures number { Makes circuit.old circuit.new (λ v. number v result ≡ (if value v extended then number v (long_list levels.now) else number v (short_list levels.now))) }
{
    let mut word = [FALSE; IDENTIFIER];
    for place in 0..IDENTIFIER {
        let long = long_bit(levels, place);
        let short = short_bit(levels, place);
        word[place] = circuit.ite(extended, long, short);
    }
    word
}

/// A bit of an extended frame's identifier; the lowest is bit 0.
fn long_bit(levels: &[Literal; 103], place: usize) -> Literal
    requires { place < 29 }
    ensures { result ≡ slice_index_or (long_list levels.now) place FALSE }
{
    if place < 18 {
        return literal_at(levels, 31 - place);
    }
    literal_at(levels, 29 - place)
}

/// A bit of a standard frame's identifier.
fn short_bit(levels: &[Literal; 103], place: usize) -> Literal
    ensures { result ≡ slice_index_or (short_list levels.now) place FALSE }
{
    if place < 11 {
        return literal_at(levels, 11 - place);
    }
    FALSE
}
