//! The digits of the levels that the transmitter of a frame drives, eight levels a step. (Bosch CAN 2.0 part B,
//! sections 3.2.1 and 6)

mod tables;

ghost use Rattle.std.specs.Prelude.{◌≡◌, ◌+◌, ◌*◌, ◌^◌, ◌<◌, ◌≤◌, ◌++◌, List, map, take, slice_range};
ghost use Rattle.can_frame.specs.declared.level.Level.{Level as Bit};
ghost use Rattle.can_frame.specs.declared.level.Level.TheVariants.{Recessive};
ghost use Rattle.can_frame.specs.Levels.{bits_of, digit_of};
ghost use Rattle.can_wire.specs.Stuffing.{stuffed_from};
ghost use Rattle.can_wire.specs.StuffSteps.{HasDigits};
ghost use Rattle.can_wire.specs.Wire.{driven};

use crate::frame_number::frame_number;
use crate::stuff_steps::{LONGEST_WIRE, MOST_STEPPED, STEP_LEVELS, row_of, stuff_step};
use can_frame::{Frame, Level};
use tables::{OCTET_DIGITS, PAIR_DIGITS};

/// The number of bytes that [`driven_digits`] writes into: enough for the longest frame and the levels before it.
pub const DIGITS_ROOM: usize = 168;

/// The number of digits that the first of two lookups gives.
const OCTET: usize = 8;

/// Levels before the start of frame that fill up a number of levels to whole bytes. Its lowest bits are used. No two
/// neighbouring ones are equal, and the last differs from the start of frame, so they cause no stuff bit.
const FILLING: u128 = 0b101_0101;

/// The digits after the stuffed part: CRC delimiter, ACK slot, ACK delimiter and end of frame.
const TAIL: [u8; 10] = *b"1111111111";

/// Writes the digits of the levels that the transmitter of a frame drives. Returns their start and end in the array.
/// The bytes before the start and from the end on have no meaning.
pub fn driven_digits(frame: &Frame, digits: &mut [u8; DIGITS_ROOM]) -> (usize, usize)
    ensures digits { slice_range digits.new result.0 result.1 ≡ map digit_of (driven frame.now) }
    ensures order { result.0 ≤ result.1 }
    ensures bound { result.1 < DIGITS_ROOM }
    ensures few { result.1 ≤ result.0 + LONGEST_WIRE }
{
    let unstuffed = frame_number(frame);
    let filling = (STEP_LEVELS - unstuffed.count % STEP_LEVELS) % STEP_LEVELS;
    let filled = ((FILLING % (1 << filling)) << unstuffed.count) + unstuffed.number;
    let end = put_stuffed(digits, filled, (filling + unstuffed.count) / STEP_LEVELS);
    digits[end..end + TAIL.len()].copy_from_slice(&TAIL);
    (filling, end + TAIL.len())
}

/// How many digits have been written.
#[derive(Clone, Copy)]
struct DigitRun {
    /// Their number.
    len: usize,
    /// The row of the step table for the next levels.
    row: u16,
}

/// Writes the digits of the lowest bytes of a number, the highest bit first, and returns how many. The stuff bits are
/// those after a recessive level.
fn put_stuffed(digits: &mut [u8; DIGITS_ROOM], number: u128, octets: usize) -> usize
    requires { octets ≤ 15 }
    ensures digits { take result digits.new ≡ map digit_of (stuffed_from Recessive 1 (bits_of (8 * octets) number)) }
    ensures bound { result ≤ 150 }
{
    let bytes = number.to_le_bytes();
    let mut now = DigitRun {
        len: 0,
        row: row_of(Level::Recessive, 1),
    };
    let mut left = octets;
    while left > 0 {
        left -= 1;
        now = put_octet(digits, now, bytes[left]);
    }
    now.len
}

/// Writes the digits of the eight levels of another byte, with their stuff bits.
#[inline]
fn put_octet(digits: &mut [u8; DIGITS_ROOM], before: DigitRun, octet: u8) -> DigitRun
    requires small { before.row < 8 }
    requires room { before.len + MOST_STEPPED ≤ DIGITS_ROOM }
    ensures { (u : List Bit) → HasDigits digits.old before u → HasDigits digits.new result (u ++ bits_of 8 octet) }
{
    let step = stuff_step(before.row, octet);
    put_ten(digits, before.len, step.number);
    DigitRun {
        len: before.len + step.len,
        row: step.row,
    }
}

/// Writes the digits of a number's ten bits from a place on, the highest first.
#[inline]
fn put_ten(digits: &mut [u8; DIGITS_ROOM], place: usize, number: u16)
    requires room { place + MOST_STEPPED ≤ DIGITS_ROOM }
    requires small { number < 2 ^ 10 }
    ensures { take (place + MOST_STEPPED) digits.new ≡ take place digits.old ++ map digit_of (bits_of MOST_STEPPED number) }
{
    let (first, second) = (octet_digits(number / 4), pair_digits(number % 4));
    digits[place..place + OCTET].copy_from_slice(&first);
    digits[place + OCTET..place + MOST_STEPPED].copy_from_slice(&second);
}

/// The digits of a number's eight bits, the highest first.
#[inline]
fn octet_digits(number: u16) -> [u8; OCTET]
    requires { number < 2 ^ 8 }
    ensures { result ≡ map digit_of (bits_of OCTET number) }
{
    OCTET_DIGITS[usize::from(number)]
}

/// The digits of a number's two bits, the highest first.
#[inline]
fn pair_digits(number: u16) -> [u8; 2]
    requires { number < 2 ^ 2 }
    ensures { result ≡ map digit_of (bits_of 2 number) }
{
    PAIR_DIGITS[usize::from(number)]
}
