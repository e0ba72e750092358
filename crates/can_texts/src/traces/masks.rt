//! The places of bytes in a block.
ghost use Rattle.std.specs.Prelude.{◌≡◌, ◌<◌, ◌==◌, ◌||◌, IsTrue, map, not};
ghost use Rattle.std.specs.Simd.Lanes.{mask_l};
ghost use Rattle.can_texts.specs.TraceText.{IsTraceText, is_skipped as may_be_skipped};
ghost use Rattle.can_texts.specs.Decoding.{AreDigits, AreSkipped};

use can_code::places_of;

/// The number of bytes in a block: the bits of the masks. The proofs have this number too.
pub(crate) const BLOCK: usize = 16;

/// All places of a block, as the bits of a number.
const ALL_PLACES: u64 = 0xffff;

/// Whether the bytes are digits.
#[inline]
pub(crate) fn are_digits(block: &[u8; BLOCK]) -> bool
    ensures { IsTrue result → AreDigits block.now }
{
    digits_of(block) == ALL_PLACES
}

/// Whether the bytes are spaces and line ends.
#[inline]
pub(crate) fn are_skipped(block: &[u8; BLOCK]) -> bool
    ensures { IsTrue result → AreSkipped block.now }
{
    skipped_of(block) == ALL_PLACES
}

/// Whether the bytes are trace text.
#[inline]
pub(crate) fn is_text(block: &[u8; BLOCK]) -> bool
    ensures { IsTrue result → IsTraceText block.now }
{
    digits_of(block) + skipped_of(block) == ALL_PLACES
}

/// The places of bytes in the block that are neither spaces nor line ends, as the bits of a number, the first place
/// lowest.
#[inline]
pub(crate) fn others_of(block: &[u8; BLOCK]) -> u64
    ensures { result ≡ mask_l (map (λ byte. not (may_be_skipped byte)) block.now) }
{
    ALL_PLACES - skipped_of(block)
}

/// The places of digits in the block, as the bits of a number.
#[inline]
fn digits_of(block: &[u8; BLOCK]) -> u64
    ensures places { result ≡ mask_l (map (λ byte. byte == 48 || byte == 49) block.now) }
    ensures small { result < 65536 }
{
    places_of(block, b'0') + places_of(block, b'1')
}

/// The places of spaces and line ends in the block, as the bits of a number.
#[inline]
fn skipped_of(block: &[u8; BLOCK]) -> u64
    ensures places { result ≡ mask_l (map may_be_skipped block.now) }
    ensures small { result < 65536 }
{
    places_of(block, b' ') + places_of(block, b'\n') + places_of(block, b'\r')
}

/// Whether the byte is the digit of a level.
#[inline]
pub(crate) fn is_digit(byte: u8) -> bool
    ensures { result ≡ (byte == 48 || byte == 49) }
{
    byte == b'0' || byte == b'1'
}
