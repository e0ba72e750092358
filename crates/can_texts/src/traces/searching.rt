//! The search for an idle row after a fault.
ghost use Rattle.std.specs.Prelude.{◌≤◌, length, take};
ghost use Rattle.can_texts.specs.Decoding.{Searches};

use can_frame::IDLE_ROW;

/// The maximum number of recessive levels in a row during the search: one more ends it.
pub(crate) const LONGEST_ROW: u8 = IDLE_ROW - 1;

/// Levels of the search.
#[derive(Clone, Copy)]
pub(crate) struct SearchRun {
    /// The number of levels.
    pub(crate) taken: usize,
    /// The length of the row of recessive levels that the last one ends.
    pub(crate) row: u8,
}

/// Takes levels from the front of these digits, after `row` recessive ones in a row. It stops before the last
/// level of the idle row, and before a byte that is not a digit.
pub(crate) fn search(digits: &[u8], row: u8) -> SearchRun
    ensures within { result.taken ≤ length digits.now }
    ensures searched { Searches row (take result.taken digits.now) result.row }
{
    let mut now = SearchRun { taken: 0, row };
    while now.taken < digits.len() {
        let byte = digits[now.taken];
        let is_recessive = byte == b'1';
        if !is_recessive && byte != b'0' {
            return now;
        }
        if is_recessive && now.row >= LONGEST_ROW {
            return now;
        }
        now.row = if is_recessive { now.row + 1 } else { 0 };
        now.taken += 1;
    }
    now
}
