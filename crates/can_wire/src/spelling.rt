ghost use Rattle.std.specs.Prelude.{◌≡◌, ◌+◌, ◌≤◌, ◌++◌, if◌then◌else◌, List, length, take};
ghost use Rattle.arrayvec.specs.ArrayVec.{array_vec_len};
ghost use Rattle.can_frame.specs.declared.level.Level.{Level as Bit};
ghost use Rattle.can_wire.specs.Wire.{tail};
ghost use Rattle.can_wire.specs.Heard.{ack_slot, IsHeard, Spells, spelling};
ghost use Rattle.can_wire.specs.Stuffing.{stuffed};

use crate::frame_bits::FrameBits;
use crate::heard::{END_OF_FRAME, Heard};
use crate::layout::head_and_crc;
use crate::packed_bits::PackedBits;
use crate::stuff_steps::{LONGEST_WIRE, STEP_LEVELS, Stuffing};
use arrayvec::ArrayVec;
use can_frame::Level;

/// The CRC delimiter and the ACK delimiter.
const DELIMITER: Level = Level::Recessive;

/// The number of levels after the stuffed part.
const TAIL_LEVELS: usize = 10;

/// Returns the levels that encode a frame as received, one for each bit time. They begin with the start of frame and
/// end with the end of frame. The CRC sequence is computed over the levels as received. (Bosch CAN 2.0 part B, section
/// 3.2.1)
pub fn respell(heard: &Heard) -> ArrayVec<Level, 157>
    ensures spells { Spells heard.now result.items }
    ensures only { (w : List Bit) → Spells heard.now w → w ≡ result.items }
    ensures computed { result.items ≡ spelling heard.now }
    ensures bound { array_vec_len result ≤ (if heard.now.frame.id.extended then 157 else 132) }
{
    let mut levels = [Level::Recessive; LONGEST_WIRE];
    let count = respell_into(heard, &mut levels);
    let mut wire = ArrayVec::from(levels);
    wire.truncate(count);
    wire
}

/// Writes these levels to the front of an array, and returns how many there are.
pub(crate) fn respell_into(heard: &Heard, levels: &mut [Level; LONGEST_WIRE]) -> usize
    ensures whole { IsHeard heard.now }
    ensures levels { take result levels.new ≡ spelling heard.now }
    ensures bound { result ≤ LONGEST_WIRE }
{
    let unstuffed: PackedBits = head_and_crc(heard);
    let part = lay_out(levels, &unstuffed);
    put_tail(levels, part, heard);
    part + TAIL_LEVELS
}

/// Lays out the levels with their stuff bits, eight a step, and returns how many there are.
fn lay_out(levels: &mut [Level; LONGEST_WIRE], unstuffed: &PackedBits) -> usize
    requires some { 1 ≤ length unstuffed.now }
    requires few { length unstuffed.now ≤ 118 }
    ensures levels { take result levels.new ≡ stuffed unstuffed.now }
    ensures bound { result ≤ 147 }
{
    let count = unstuffed.len();
    let mut stuffing = Stuffing::begin(levels, unstuffed.level_at(0));
    let mut place = 1;
    while place + STEP_LEVELS <= count {
        stuffing.push_octet(levels, unstuffed.number_at(place, STEP_LEVELS) as u8);
        place += STEP_LEVELS;
    }
    while place < count {
        stuffing.push(levels, unstuffed.level_at(place));
        place += 1;
    }
    stuffing.len
}

/// Writes the ten levels after the stuffed part: CRC delimiter, ACK slot, ACK delimiter, and the seven levels of the
/// end of frame.
fn put_tail(levels: &mut [Level; LONGEST_WIRE], place: usize, heard: &Heard)
    requires { place ≤ 147 }
    ensures { take (place + TAIL_LEVELS) levels.new ≡ take place levels.old ++ tail (ack_slot heard.now.acked) heard.now.last }
{
    let ack_slot = if heard.acked() {
        Level::Dominant
    } else {
        Level::Recessive
    };
    let last = heard.last();
    let end = END_OF_FRAME;
    let tail = [
        DELIMITER, ack_slot, DELIMITER, end, end, end, end, end, end, last,
    ];
    levels[place..place + TAIL_LEVELS].copy_from_slice(&tail);
}
