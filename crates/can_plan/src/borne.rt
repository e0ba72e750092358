//! For how long an error model is tolerated.
ghost use Rattle.std.specs.Prelude.{ℕ, ◌≤◌, ◌↔◌};
ghost use Rattle.can_plan.specs.Borne.{Allows};
ghost use Rattle.can_plan.specs.Messages.{most_hits};

use crate::message::HitRate;

/// With at most this many hits every port stays error active, wherever they fall.
const MOST_BORNE: u16 = 15;

/// For how long every port is sure to stay error active.
#[derive(Clone, Copy, Debug, PartialEq, Eq)]
pub enum Borne {
    /// Forever.
    Ever,
    /// For this many bit times.
    For(u64),
    /// Not at all: a single burst may be too many hits.
    Never,
}

/// For how long the error model allows at most fifteen hits. With these, each port whose counters were 0 before stays
/// error active, wherever they fall.
pub fn borne_for(rate: &HitRate) -> Borne
    ensures { (long : ℕ) → Allows result long ↔ (most_hits rate.now long ≤ 15) }
{
    if rate.burst > MOST_BORNE {
        Borne::Never
    } else if rate.spacing == 0 {
        Borne::Ever
    } else {
        let bursts = u64::from(MOST_BORNE - rate.burst) + 1;
        Borne::For(bursts * u64::from(rate.spacing) - 1)
    }
}
