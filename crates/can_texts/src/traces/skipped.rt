//! Spaces and line ends between levels, skipped in blocks.
ghost use Rattle.std.specs.Prelude.{◌≡◌, ◌≤◌, length, take};
ghost use Rattle.can_texts.specs.TraceText.{is_skipped as may_be_skipped};
ghost use Rattle.can_texts.specs.Decoding.{AreSkipped};

use crate::traces::masks::{BLOCK, others_of};

/// The number of bytes that are tested one by one first, since most line ends are single. Chosen for
/// speed alone.
const FIRST: usize = 3;

/// The number of spaces and line ends at the front of the bytes.
#[inline(always)]
pub(crate) fn skipped_count(bytes: &[u8]) -> usize
    ensures within { result ≤ length bytes.now }
    ensures skipped { AreSkipped (take result bytes.now) }
{
    let mut count = 0;
    while count < bytes.len() && is_skipped(bytes[count]) {
        count += 1;
        if count == FIRST {
            return count + row_count(&bytes[count..]);
        }
    }
    count
}

/// Counts them by whole blocks, for long rows.
#[inline(never)]
fn row_count(bytes: &[u8]) -> usize
    ensures within { result ≤ length bytes.now }
    ensures skipped { AreSkipped (take result bytes.now) }
{
    let mut count = 0;
    while let Some(block) = bytes[count..].first_chunk::<BLOCK>() {
        let others = others_of(block);
        if others != 0 {
            return count + others.trailing_zeros() as usize;
        }
        count += BLOCK;
    }
    while count < bytes.len() && is_skipped(bytes[count]) {
        count += 1;
    }
    count
}

/// Whether the byte is a space or a line end.
#[inline(always)]
pub(crate) fn is_skipped(byte: u8) -> bool
    ensures { result ≡ may_be_skipped byte }
{
    byte == b' ' || byte == b'\n' || byte == b'\r'
}
