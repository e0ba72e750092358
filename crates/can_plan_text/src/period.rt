//! The busy period of a worst case.
ghost use Rattle.std.specs.Prelude.{◌≡◌, ◌+◌, ◌*◌, ◌^◌, ◌<◌, ◌≤◌, ℕ, MatchOption};
ghost use Rattle.can_plan.specs.Analysis.{IsLeast};
ghost use Rattle.can_plan_text.specs.Worst.{IsBusyPeriod, load_of, most_long};

use crate::plan::Planned;
use can_plan::own_load;

/// The longest busy period of a worst case in bit times: a scenario has one more.
const MOST_LONG: u64 = 999_999;

/// Returns how long the frames of these messages keep the bus, or `None` if that is longer than a scenario.
fn load(level: &[Planned], long: u64) -> Option<u64>
    requires { long ≤ 2 ^ 32 }
    ensures { MatchOption result (most_long < load_of level.now long) (λ n. (n ≡ load_of level.now long) × (n ≤ most_long)) }
{
    let mut total = 0;
    for planned in level {
        total += own_load(&planned.message, long);
        if total > MOST_LONG {
            return None;
        }
    }
    Some(total)
}

/// Returns this with what is left of a frame that blocks them.
fn kept(blocking: u16, level: &[Planned], long: u64) -> Option<u64>
    requires { long ≤ 2 ^ 32 }
    ensures { MatchOption result (most_long < blocking + load_of level.now long) (λ n. (n ≡ blocking + load_of level.now long) × (n ≤ most_long)) }
{
    let total = u64::from(blocking) + load(level, long)?;
    if total > MOST_LONG { None } else { Some(total) }
}

/// Returns the busy period of these messages if a frame that blocks them has `blocking` bit times left: the least
/// number of bit times, above 0, within which this frame and all of their frames that arrive have been sent. `None`: it
/// is longer than a scenario.
pub(crate) fn busy_period(blocking: u16, level: &[Planned]) -> Option<u64>
    ensures { MatchOption result ((n : ℕ) → IsBusyPeriod blocking level.now n → most_long < n)
        (λ long. (long ≤ most_long) × IsLeast (IsBusyPeriod blocking level.now) long) }
{
    let mut long = 1;
    while let Some(next) = kept(blocking, level, long) {
        if next <= long {
            return Some(long);
        }
        long = next;
    }
    None
}
