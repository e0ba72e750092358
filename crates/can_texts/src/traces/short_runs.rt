//! When digits are gathered: if many runs of digits within frames are short, one after another.

use crate::traces::gathered::Gathered;

/// A run with at least this number of digits is long. On a busy bus, digits are decoded faster by gathering even in
/// runs of up to twice this length; on a bus that is mostly idle, only in shorter ones. Chosen for speed alone.
const LONG_RUN: usize = 20;

/// Digits are gathered after this number of short runs. Decoding these takes some twenty times as long as gathering in
/// vain. Chosen for speed alone.
const ENOUGH: usize = 32;

/// The number of short runs of digits within frames, one after another.
#[derive(Clone, Copy)]
pub(crate) struct ShortRuns {
    count: usize,
}

impl ShortRuns {
    /// No run yet.
    pub(crate) fn none() -> ShortRuns {
        ShortRuns { count: 0 }
    }

    /// Whether there are enough short runs, after a run of `run` digits. A run that does not end in a frame does not
    /// count: there digits are skipped or searched, and gathering gains nothing.
    #[inline(always)]
    pub(crate) fn are_enough_behind(&mut self, run: usize, is_in_frame: bool) -> bool {
        if !is_in_frame {
            return false;
        }
        if run >= LONG_RUN {
            self.count = 0;
            return false;
        }
        if self.count < ENOUGH {
            self.count += 1;
            return false;
        }
        true
    }

    /// Starts again if these digits were gathered in vain, that is if there was space for more.
    #[inline(always)]
    pub(crate) fn forget_in_vain(&mut self, gathered: &Gathered) {
        if !gathered.is_full() {
            self.count = 0;
        }
    }
}
