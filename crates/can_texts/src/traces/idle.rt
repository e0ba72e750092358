//! Rows of recessive levels, compared in blocks.
ghost use Rattle.std.specs.Prelude.{◌≡◌, ◌*◌, ◌≤◌, ◌==◌, IsTrue, length, map, not, take, replicate};
ghost use Rattle.std.specs.Simd.Lanes.{mask_l};

use std::simd::prelude::*;

/// The number of bytes that are compared at once: the bits of the mask. The proofs have this number too.
const BLOCK: usize = 64;

/// The number of bytes that are compared first, since most rows between frames are short. The proofs have this number
/// too.
const FIRST: usize = 16;

/// The number of digits of recessive levels at the front of the bytes.
pub(crate) fn recessive_count(bytes: &[u8]) -> usize
    ensures within { result ≤ length bytes.now }
    ensures row { take result bytes.now ≡ replicate result 49 }
{
    if bytes.len() >= FIRST {
        let others = others_at_front(bytes);
        if others != 0 {
            return others.trailing_zeros() as usize;
        }
    }
    let mut count = 0;
    while bytes.len() - count >= BLOCK {
        let others = others_in_block(&bytes[count..]);
        if others != 0 {
            return count + others.trailing_zeros() as usize;
        }
        count += BLOCK;
        count += pairs_count(&bytes[count..]);
    }
    while count < bytes.len() && bytes[count] == b'1' {
        count += 1;
    }
    count
}

/// The number of digits of recessive levels at the front of the bytes, in whole pairs of blocks.
fn pairs_count(bytes: &[u8]) -> usize
    ensures within { result ≤ length bytes.now }
    ensures row { take result bytes.now ≡ replicate result 49 }
{
    let mut count = 0;
    while bytes.len() - count >= 2 * BLOCK && begin_with_a_row(&bytes[count..]) {
        count += 2 * BLOCK;
    }
    count
}

/// Whether the first two blocks have only recessive levels. The masks are only compared with zero, which takes half the
/// time of finding a place in them.
#[inline(always)]
fn begin_with_a_row(bytes: &[u8]) -> bool
    requires { 2 * BLOCK ≤ length bytes.now }
    ensures { IsTrue result → take (2 * BLOCK) bytes.now ≡ replicate (2 * BLOCK) 49 }
{
    others_in_block(bytes) | others_in_block(&bytes[BLOCK..]) == 0
}

/// Which of the first bytes are not digits of recessive levels, the first byte in the lowest bit.
#[inline(always)]
fn others_at_front(bytes: &[u8]) -> u64
    requires { FIRST ≤ length bytes.now }
    ensures { result ≡ mask_l (map (λ byte. not (byte == 49)) (take FIRST bytes.now)) }
{
    u8x16::from_slice(bytes)
        .simd_ne(u8x16::splat(b'1'))
        .to_bitmask()
}

/// Which bytes of the first block are not digits of recessive levels, the first byte in the lowest bit.
#[inline(always)]
fn others_in_block(bytes: &[u8]) -> u64
    requires { BLOCK ≤ length bytes.now }
    ensures { result ≡ mask_l (map (λ byte. not (byte == 49)) (take BLOCK bytes.now)) }
{
    u8x64::from_slice(bytes)
        .simd_ne(u8x64::splat(b'1'))
        .to_bitmask()
}
