ghost use Rattle.std.specs.Prelude.{◌≡◌, ◌≤◌, if◌then◌else◌, List, length, take};
ghost use Rattle.can_frame.specs.declared.level.Level.{Level as Bit};
ghost use Rattle.can_frame.specs.declared.level.Level.TheVariants.{Recessive};
ghost use Rattle.can_wire.specs.Wire.{head, driven, stuffed_part, wire, IsSpelling};

use crate::heard::Heard;
use crate::spelling::{respell, respell_into};
use crate::stuff_steps::LONGEST_WIRE;
use arrayvec::ArrayVec;
use can_frame::{Frame, Level};

/// Returns the levels that the transmitter of a frame drives, one for each bit time. They begin with
/// the start of frame and end with the end of frame. (Bosch CAN 2.0 part B, section 3.2.1)
pub fn encode(frame: &Frame) -> ArrayVec<Level, 157>
    ensures levels { result.items ≡ driven frame.now }
    ensures spelled { IsSpelling (head frame.now) Recessive Recessive result.items }
    ensures only { (w : List Bit) → IsSpelling (head frame.now) Recessive Recessive w → w ≡ result.items }

    // The maximum lengths of the parts.
    ensures head_bound { length (head frame.now) ≤ (if frame.now.id.extended then 103 else 83) }
    ensures stuffed_bound { length (stuffed_part frame.now) ≤ (if frame.now.id.extended then 147 else 122) }
    ensures wire_bound { length (wire frame.now) ≤ (if frame.now.id.extended then 157 else 132) }
{
    respell(&Heard::unacknowledged(*frame))
}

/// Writes the levels of [`encode`] to the front of an array, and returns how many there are.
pub fn encode_into(frame: &Frame, levels: &mut [Level; LONGEST_WIRE]) -> usize
    ensures levels { take result levels.new ≡ driven frame.now }
    ensures bound { result ≤ LONGEST_WIRE }
{
    respell_into(&Heard::unacknowledged(*frame), levels)
}
