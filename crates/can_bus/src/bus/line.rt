//! The levels of a frame that passes a bus in one step.
ghost use Rattle.std.specs.Prelude.{◌≡◌, ◌≢◌, ◌+◌, ◌++◌, ◌<◌, ◌≤◌, length, take};
ghost use Rattle.can_mac.specs.Frames.{with_intermission};

use can_frame::{Frame, Level};
use can_wire::{LONGEST_WIRE, encode_into};

/// The bit times of the shortest frame and its intermission. This and the next three constants avoid useless attempts
/// at frames that do not fit. They are chosen for speed; the proofs need only a value above 1.
pub(super) const SHORTEST_LINE: usize = 47;

/// The bit times of the longest frame and its intermission.
pub(super) const LONGEST_LINE: usize = 160;

/// The bit times of a byte of data.
const BYTE_LEVELS: usize = 8;

/// The additional bit times of an extended frame.
const EXTENDED_LEVELS: usize = 20;

/// The number of levels after the stuffed part of a frame. The proofs depend on it.
const TAIL_LEVELS: usize = 10;

/// The levels after the stuffed part of an acknowledged frame, from the CRC delimiter to the end of intermission.
pub(super) const END: [Level; 13] = [
    Level::Recessive,
    Level::Dominant,
    Level::Recessive,
    Level::Recessive,
    Level::Recessive,
    Level::Recessive,
    Level::Recessive,
    Level::Recessive,
    Level::Recessive,
    Level::Recessive,
    Level::Recessive,
    Level::Recessive,
    Level::Recessive,
];

/// A lower bound of the bit times of the frame and its intermission: those without stuff bits.
fn least_line(frame: &Frame) -> usize
    ensures { SHORTEST_LINE ≤ result }
{
    let data = BYTE_LEVELS * frame.bytes().len();
    if frame.is_extended() {
        SHORTEST_LINE + EXTENDED_LEVELS + data
    } else {
        SHORTEST_LINE + data
    }
}

/// Writes the levels of the acknowledged frame and its intermission to the front of the slice, and returns their
/// number. It returns 0 if they do not fit.
#[inline(never)]
pub(super) fn lay_out(frame: &Frame, rec: &mut [Level]) -> usize
    ensures most { result ≤ length rec.old }
    ensures len { length rec.new ≡ length rec.old }
    ensures some { result ≢ 0 → 1 < result }
    ensures levels { result ≢ 0 → take result rec.new ≡ with_intermission frame.now }
{
    if rec.len() < least_line(frame) {
        return 0;
    }
    let mut levels = [Level::Recessive; LONGEST_WIRE];
    let part = encode_into(frame, &mut levels).saturating_sub(TAIL_LEVELS);
    let count = part + END.len();
    if count > rec.len() {
        return 0;
    }
    put(rec, 0, &levels[..part]);
    put(rec, part, &END);
    count
}

/// Writes levels to the slice, from this place on.
fn put(rec: &mut [Level], place: usize, levels: &[Level])
    requires { place + length levels.now ≤ length rec.old }
    ensures len { length rec.new ≡ length rec.old }
    ensures levels { take (place + length levels.now) rec.new ≡ take place rec.old ++ levels.now }
{
    rec[place..place + levels.len()].copy_from_slice(levels);
}
