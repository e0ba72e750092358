//! The parts of a bound.

use crate::verdict::Verdict;
use can_plan::Latest;

/// The verdict on a message, and the latest of its frames.
#[derive(Clone, Copy)]
pub struct Detail {
    pub verdict: Verdict,
    /// Its place in the order of priority, counted from 0.
    pub place: usize,
    /// The latest frame, if it has a bound.
    pub latest: Option<Latest>,
}
