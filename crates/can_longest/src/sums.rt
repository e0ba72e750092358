//! What levels add to a CRC sequence.
ghost use Rattle.std.specs.Prelude.{◌≡◌, ◌^◌, ◌<◌, ◌≤◌, ◌++◌, replicate};
ghost use Rattle.can_frame.specs.declared.level.Level.TheVariants.{Dominant};
ghost use Rattle.can_frame.specs.Levels.{bits_of};
ghost use Rattle.can_wire.specs.Crc.{crc_of};

use can_wire::{FrameBits, PackedBits};

/// What the lowest bits of a number, the highest first, add to a CRC sequence if `behind` levels follow them.
pub(crate) fn added(number: u64, count: usize, behind: usize) -> u16
    requires few { count ≤ 8 }
    requires small { number < 2 ^ count }
    requires within { behind ≤ 64 }
    ensures range { result < 2 ^ 15 }
    ensures sum { bits_of 15 result ≡ crc_of (bits_of count number ++ replicate behind Dominant) }
{
    // the start of frame is dominant and adds nothing
    let mut levels = PackedBits::start();
    levels.append(number, count);
    levels.append(0, behind);
    levels.check()
}
