//! The levels of a frame before its data, and its CRC sequence.
ghost use Rattle.std.specs.Prelude.{◌≡◌, ◌+◌, ◌*◌, ◌^◌, ◌<◌, ◌≤◌, ◌++◌, [], List, length, replicate};
ghost use Rattle.can_frame.specs.declared.level.Level.{Level as Bit};
ghost use Rattle.can_frame.specs.declared.level.Level.TheVariants.{Dominant};
ghost use Rattle.can_frame.specs.Ident.{IsIdent};
ghost use Rattle.can_frame.specs.Levels.{bits_of};
ghost use Rattle.can_frame.specs.Parts.{byte_count};
ghost use Rattle.can_wire.specs.Crc.{crc_of};
ghost use Rattle.can_wire.specs.FrameNumber.{header_of};
ghost use Rattle.can_wire.specs.Stuffing.{stuffed_from};
ghost use Rattle.can_longest.specs.Longest.{IsFrameOf, with_bytes};

use crate::hearing::{Heard, hear_bits};
use can_frame::{Frame, Id};
use can_wire::{FrameBits, PackedBits, head};

/// The levels of a frame so far, and its CRC sequence if only dominant data follow.
#[derive(Clone, Copy)]
pub(crate) struct Begun {
    pub(crate) heard: Heard,
    pub(crate) check: u16,
}

/// Lays out the levels before the data of the frames with this identifier, kind and DLC.
pub(crate) fn hear_header(id: Id, remote: bool, dlc: u8) -> Begun
    requires { dlc < 16 }
    ensures behind { (rest : List Bit) → length (stuffed_from Dominant 0 (header_of (with_bytes id remote dlc []) ++ rest)) ≡ result.heard.levels + length (stuffed_from result.heard.last result.heard.run rest) }
    ensures check { bits_of 15 result.check ≡ crc_of (header_of (with_bytes id remote dlc []) ++ replicate (8 * byte_count remote dlc) Dominant) }
    ensures range { result.check < 2 ^ 15 }
    ensures some { 1 ≤ result.heard.run }
    ensures short { result.heard.run < 5 }
    ensures few { result.heard.levels ≤ 78 }
    ensures known { IsIdent id }
{
    let frame = with_dominant_data(id, remote, dlc);
    let levels: PackedBits = head(&can_wire::Heard::sent(frame));
    let count = levels.len() - 8 * frame.bytes().len();
    Begun {
        heard: hear_bits(Heard::NONE, levels.number_at(0, count), count),
        check: levels.check(),
    }
}

/// The frame of this kind whose data are all dominant.
fn with_dominant_data(id: Id, remote: bool, dlc: u8) -> Frame
    requires { dlc < 16 }
    ensures { result ≡ with_bytes id remote dlc (replicate (byte_count remote dlc) 0) }
{
    if !remote {
        return Frame::data_of_number(id, dlc, 0);
    }
    match Frame::remote(id, dlc) {
        Ok(frame) => frame,
        Err(_) => unreachable!(),
    }
}
