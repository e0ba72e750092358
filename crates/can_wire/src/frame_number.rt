//! The unstuffed levels of a frame as it is transmitted, as the bits of a number. (Bosch CAN 2.0 part B, section
//! 3.2.1)
ghost use Rattle.std.specs.Prelude.{◌≡◌, ◌+◌, ◌*◌, ◌^◌, ◌<◌, ◌≤◌, ◌++◌, length, true, false};
ghost use Rattle.std.specs.List.{flat_map};
ghost use Rattle.can_frame.specs.Levels.{bits_of};
ghost use Rattle.can_frame.specs.Parts.{IsFrame};
ghost use Rattle.can_wire.specs.Wire.{head, unstuffed};
ghost use Rattle.can_wire.specs.FrameNumber.{control_of, header_of};

use crate::crc_places::crc_of_number;
use crate::places::{CHECK_BITS, EXTENSION_BITS};
use can_frame::Frame;

/// The number of levels before the data of a standard frame.
const STANDARD_HEADER: usize = 19;

/// The number of levels before the data of an extended frame.
const EXTENDED_HEADER: usize = 39;

/// SRR and IDE as the transmitter of an extended frame sends them: two recessive levels.
const EXTENDED_FORMAT: u64 = 0b11;

/// Levels as the lowest bits of a number that has no others, the first level highest.
#[derive(Clone, Copy)]
pub(crate) struct FrameNumber {
    pub(crate) number: u128,
    /// The number of levels.
    pub(crate) count: usize,
}

/// The levels before the data of a frame as a number.
#[derive(Clone, Copy)]
struct Header {
    number: u64,
    /// The number of levels.
    count: usize,
}

/// The unstuffed levels of a frame, from the start of frame to the end of the CRC sequence.
pub(crate) fn frame_number(frame: &Frame) -> FrameNumber
    ensures levels { bits_of result.count result.number ≡ unstuffed frame.now }
    ensures small { result.number < 2 ^ result.count }
    ensures few { result.count ≤ 118 }
{
    let header = header_number(frame);
    let data_bits = 8 * frame.bytes().len();
    let head = (u128::from(header.number) << data_bits) + u128::from(data_number(frame));
    let check = crc_of_number(head);
    FrameNumber {
        number: (head << CHECK_BITS) + u128::from(check),
        count: header.count + data_bits + CHECK_BITS,
    }
}

/// The levels before the data, from the start of frame on.
#[inline]
fn header_number(frame: &Frame) -> Header
    ensures levels { bits_of result.count result.number ≡ header_of frame.now }
    ensures small { result.number < 2 ^ result.count }
    ensures few { result.count ≤ 39 }
{
    if frame.is_extended() {
        Header {
            number: extended_header(frame),
            count: EXTENDED_HEADER,
        }
    } else {
        Header {
            number: standard_header(frame),
            count: STANDARD_HEADER,
        }
    }
}

/// The levels before the data of a standard frame.
#[inline]
fn standard_header(frame: &Frame) -> u64
    requires { frame.now.id.extended ≡ false }
    ensures levels { bits_of 19 result ≡ header_of frame.now }
    ensures small { result < 2 ^ 19 }
{
    (u64::from(frame.id().raw()) << 7) + control(frame)
}

/// The levels before the data of an extended frame.
#[inline]
fn extended_header(frame: &Frame) -> u64
    requires { frame.now.id.extended ≡ true }
    ensures levels { bits_of 39 result ≡ header_of frame.now }
    ensures small { result < 2 ^ 39 }
{
    let raw = u64::from(frame.id().raw());
    let base = ((raw >> EXTENSION_BITS) << 2) + EXTENDED_FORMAT;
    let identifier = (base << EXTENSION_BITS) + raw % (1 << EXTENSION_BITS);
    (identifier << 7) + control(frame)
}

/// The last seven levels before the data: RTR, two dominant levels and the DLC.
#[inline]
fn control(frame: &Frame) -> u64
    ensures levels { bits_of 7 result ≡ control_of frame.now }
    ensures small { result < 2 ^ 7 }
{
    (u64::from(frame.is_remote()) << 6) + u64::from(frame.dlc())
}

/// The data bytes as one number, the first of them highest.
#[inline]
fn data_number(frame: &Frame) -> u64
    ensures levels { bits_of (8 * length frame.now.bytes) result ≡ flat_map (bits_of 8) frame.now.bytes }
    ensures small { result < 2 ^ (8 * length frame.now.bytes) }
{
    // two shifts, since the whole shift may be by 64 bits
    let half = 4 * (8 - frame.bytes().len());
    (u64::from_be_bytes(frame.octets()) >> half) >> half
}
