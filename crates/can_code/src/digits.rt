ghost use Rattle.std.specs.Prelude.{◌≡◌, ◌<◌, ◌≤◌, ◌==◌, map, take};
ghost use Rattle.std.specs.Simd.Lanes.{mask_l};
ghost use Rattle.can_frame.specs.Levels.{digit_of};
ghost use Rattle.can_code.specs.Digits.{levels_up};

use std::simd::prelude::*;

/// The number of digits that are read at once.
pub(crate) const BLOCK: usize = 16;

/// Levels whose digits begin a block.
#[derive(Clone, Copy)]
pub(crate) struct BlockLevels {
    /// The levels as the bits of a number, the first level lowest.
    pub(crate) number: u64,
    /// The number of levels.
    pub(crate) count: usize,
}

/// The levels whose digits begin the block, before its first byte that is not a digit.
#[inline]
pub(crate) fn levels_of(block: &[u8; BLOCK]) -> BlockLevels
    ensures within { result.count ≤ 16 }
    ensures digits { take result.count block.now ≡ map digit_of (levels_up result.count result.number) }
{
    let recessive = places_of(block, b'1');
    let digits = places_of(block, b'0') + recessive;
    BlockLevels {
        number: recessive,
        count: (digits + 1).trailing_zeros() as usize,
    }
}

/// The places of this byte in the block of 16, as the bits of a number. The first place is the lowest
/// bit.
#[inline]
pub fn places_of(block: &[u8; BLOCK], byte: u8) -> u64
    ensures places { result ≡ mask_l (map (λ other. other == byte) block.now) }
    ensures small { result < 65536 }
{
    u8x16::from_array(*block)
        .simd_eq(u8x16::splat(byte))
        .to_bitmask()
}
