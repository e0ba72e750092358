//! Digits between spaces and line ends, gathered so that they are decoded in long runs.
ghost use Rattle.std.specs.Prelude.{◌≡◌, ◌+◌, ◌≤◌, ◌++◌, map, take};
ghost use Rattle.can_frame.specs.Levels.{digit_of};
ghost use Rattle.can_texts.specs.TraceText.{IsTraceText, levels_in};
ghost use Rattle.can_texts.specs.Decoding.{Gathers};

use crate::traces::masks::{BLOCK, are_digits, are_skipped, is_digit, is_text};
use crate::traces::skipped::skipped_count;

/// The maximum number of gathered digits. Chosen for speed; a block has to fit.
pub(crate) const GATHERED_ROOM: usize = 512;

/// After this number of blocks of digits alone, the following digits are probably adjacent too, and gathering ends.
/// Chosen for speed alone.
const DIGIT_BLOCKS: usize = 2;

/// Digits that were gathered into the front of a buffer.
#[derive(Clone, Copy)]
pub(crate) struct Gathered {
    /// The number of bytes from which they were gathered.
    pub(crate) taken: usize,
    /// The number of digits.
    pub(crate) count: usize,
}

impl Gathered {
    /// Whether there is no space for another block.
    #[inline(always)]
    pub(crate) fn is_full(&self) -> bool {
        self.count > GATHERED_ROOM - BLOCK
    }
}

/// Gathers digits at the front of the bytes by whole blocks. It ends if the buffer is full, if the digits are adjacent,
/// or before a block with a byte that is not trace text.
pub(crate) fn gather(bytes: &[u8], digits: &mut [u8; GATHERED_ROOM]) -> Gathered
    ensures { Gathers bytes.now result digits.new }
{
    let mut now = Gathered { taken: 0, count: 0 };
    // the number of blocks of digits alone, in a row, so far
    let mut row = 0;
    while now.count + BLOCK <= GATHERED_ROOM && row < DIGIT_BLOCKS {
        let Some(block) = bytes[now.taken..].first_chunk::<BLOCK>() else {
            return now;
        };
        if are_digits(block) {
            digits[now.count..now.count + BLOCK].copy_from_slice(block);
            now.count += BLOCK;
            now.taken += BLOCK;
            row += 1;
        } else if are_skipped(block) {
            now.taken += BLOCK + skipped_count(&bytes[now.taken + BLOCK..]);
            row = 0;
        } else if is_text(block) {
            now.count = put_digits(block, digits, now.count);
            now.taken += BLOCK;
            row = 0;
        } else {
            return now;
        }
    }
    now
}

/// Appends the digits of a block of trace text to those that have been gathered, and returns how many there are now. No
/// branch separates them from skipped bytes, since it could not be predicted.
#[inline]
fn put_digits(block: &[u8; BLOCK], digits: &mut [u8; GATHERED_ROOM], count: usize) -> usize
    requires room { count + BLOCK ≤ GATHERED_ROOM }
    requires text { IsTraceText block.now }
    ensures digits { take result digits.new ≡ take count digits.old ++ map digit_of (levels_in block.now) }
    ensures bound { result ≤ count + BLOCK }
{
    let mut end = count;
    for byte in block {
        digits[end] = *byte;
        end += usize::from(is_digit(*byte));
    }
    end
}
