//! The table of maximum lengths.
ghost use Rattle.std.specs.Prelude.{◌≡◌, ◌+◌, ◌*◌, ◌^◌, ◌<◌, ◌≤◌, ◌++◌, List, length, replicate};
ghost use Rattle.can_frame.specs.declared.level.Level.{Level as Bit};
ghost use Rattle.can_frame.specs.declared.level.Level.TheVariants.{Dominant};
ghost use Rattle.can_frame.specs.Levels.{bits_of};
ghost use Rattle.can_frame.specs.Parts.{byte_count as byte_count_of};
ghost use Rattle.can_wire.specs.Crc.{crc_of, xor};
ghost use Rattle.can_wire.specs.Stuffing.{stuffed_from};
ghost use Rattle.can_wire.specs.Wire.{wire};
ghost use Rattle.can_longest.specs.Longest.{IsFrameOf, IsLongestWire, with_bytes};
ghost use Rattle.can_longest.specs.ToCome.{AreRows, AreRows-prop, most as most_of};

use crate::header::{Begun, hear_header};
use crate::hearing::hear_bits;
use crate::rows::{Row, byte_before, last_row};
use crate::sums::added;
use arrayvec::ArrayVec;
use can_frame::Id;
use std::alloc::{AllocError, Global};

/// The maximum number of data bytes of a frame.
const MOST_BYTES: usize = 8;

/// The number of levels of a frame that are never stuffed.
const TAIL: u16 = 10;

/// The maximum lengths of frames, by the levels before their data.
#[derive(Drop)]
pub struct LongestWires {
    rows: Vec<Row>,
    ghost whole: { AreRows 9 rows.items } by { AreRows-prop 9 rows.items },
}

impl LongestWires {
    /// Computes the table for all frames.
    pub fn new(alloc: Global) -> Result<LongestWires, AllocError> {
        let mut rows = Vec::with_capacity(alloc, MOST_BYTES + 1)?;
        rows.push(last_row(alloc)?)?;
        for bytes in 0..MOST_BYTES {
            let row = byte_before(alloc, bytes, &rows[bytes])?;
            rows.push(row)?;
        }
        Ok(LongestWires { rows })
    }

    /// Returns the maximum number of levels of a frame with this identifier, kind and DLC. Intermission is not
    /// included.
    pub fn longest_wire(&self, id: Id, remote: bool, dlc: u8) -> u16
        requires { dlc < 16 }
        ensures longest { IsLongestWire id remote dlc result }
        ensures few { result ≤ 157 }
    {
        let begun = hear_header(id, remote, dlc);
        let most = self.most(byte_count(remote, dlc), begun);
        begun.heard.levels + u16::from(most) + TAIL
    }

    /// Returns data with which the frame has its maximum number of levels.
    pub fn longest_data(&self, id: Id, remote: bool, dlc: u8) -> ArrayVec<u8, 8>
        requires { dlc < 16 }
        ensures frame { IsFrameOf id remote dlc (with_bytes id remote dlc result.items) }
        ensures longest { IsLongestWire id remote dlc (length (wire (with_bytes id remote dlc result.items))) }
    {
        let mut begun = hear_header(id, remote, dlc);
        let mut data = ArrayVec::new();
        let mut left = byte_count(remote, dlc);
        while left > 0 {
            left -= 1;
            let chosen = self.longest_octet(left, begun);
            data.push(chosen.octet);
            begun = chosen.begun;
        }
        data
    }

    /// A data byte with which the maximum for it and `left` more bytes can still be reached.
    fn longest_octet(&self, left: usize, begun: Begun) -> Chosen
        requires few { left < 8 }
        requires some { 1 ≤ begun.heard.run }
        requires short { begun.heard.run < 5 }
        requires range { begun.check < 2 ^ 15 }
        requires room { begun.heard.levels ≤ 206 }
        ensures behind { (rest : List Bit) → begun.heard.levels + length (stuffed_from begun.heard.last begun.heard.run (bits_of 8 result.octet ++ rest)) ≡ result.begun.heard.levels + length (stuffed_from result.begun.heard.last result.begun.heard.run rest) }
        ensures check { bits_of 15 result.begun.check ≡ xor (bits_of 15 begun.check) (crc_of (bits_of 8 result.octet ++ replicate (8 * left) Dominant)) }
        ensures most { begun.heard.levels + most_of (8 * (left + 1)) begun.heard.last begun.heard.run (bits_of 15 begun.check) ≡ result.begun.heard.levels + most_of (8 * left) result.begun.heard.last result.begun.heard.run (bits_of 15 result.begun.check) }
        ensures some { 1 ≤ result.begun.heard.run }
        ensures short { result.begun.heard.run < 5 }
        ensures range { result.begun.check < 2 ^ 15 }
        ensures few { result.begun.heard.levels ≤ begun.heard.levels + 16 }
        ensures byte { result.octet < 256 }
    {
        let whole = begun.heard.levels + u16::from(self.most(left + 1, begun));
        for octet in 0..256u64 {
            let next = Begun {
                heard: hear_bits(begun.heard, octet, 8),
                check: begun.check ^ added(octet, 8, 8 * left),
            };
            if next.heard.levels + u16::from(self.most(left, next)) == whole {
                return Chosen {
                    octet: octet as u8,
                    begun: next,
                };
            }
        }
        unreachable!()
    }

    /// The maximum number of levels that follow with `bytes` bytes of data.
    #[inline]
    fn most(&self, bytes: usize, begun: Begun) -> u8
        requires few { bytes ≤ 8 }
        requires some { 1 ≤ begun.heard.run }
        requires short { begun.heard.run < 5 }
        requires range { begun.check < 2 ^ 15 }
        ensures { result ≡ most_of (8 * bytes) begun.heard.last begun.heard.run (bits_of 15 begun.check) }
    {
        self.rows[bytes].most(begun.heard, begun.check)
    }
}

/// A byte of data that was chosen.
#[derive(Clone, Copy)]
struct Chosen {
    octet: u8,
    /// The levels so far, this byte included.
    begun: Begun,
}

/// The number of data bytes of a frame.
fn byte_count(remote: bool, dlc: u8) -> usize
    ensures value { result ≡ byte_count_of remote dlc }
    ensures few { result ≤ 8 }
{
    if remote { 0 } else { usize::from(dlc.min(8)) }
}
