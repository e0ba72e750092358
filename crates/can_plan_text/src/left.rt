//! How much is left of a network until a message may miss its deadline.
ghost use Rattle.std.specs.Prelude.{◌≡◌, IfOk};
ghost use Rattle.can_plan_text.specs.Details.{IsLeft, IsMarginOf, deadlines_of as deadlines_in};
ghost use Rattle.can_plan_text.specs.Plans.{messages_of as messages_in};

use crate::analysis::{LIMIT, messages_of};
use crate::plan::{Plan, Planned};
use can_plan::{Margin, Message, Strain, margin_of};
use std::alloc::{AllocError, Global};

/// The margins until a message may miss its deadline; `None` if one may already.
#[derive(Clone, Copy)]
pub struct Left {
    /// By how many per cent all periods may be shorter.
    pub periods: Option<Margin>,
    /// How many more hits may come at once.
    pub hits: Option<Margin>,
}

/// Returns the margins of a network.
pub(crate) fn left_of(alloc: Global, plan: &Plan) -> Result<Left, AllocError>
    ensures { IfOk result (IsLeft plan.now) }
{
    let messages = messages_of(alloc, &plan.messages)?;
    let deadlines = deadlines_of(alloc, &plan.messages)?;
    Ok(Left {
        periods: margin_in(alloc, Strain::ShorterPeriods, plan, &messages, &deadlines)?,
        hits: margin_in(alloc, Strain::MoreHits, plan, &messages, &deadlines)?,
    })
}

/// Returns the margin for this change of a network with these messages and deadlines.
fn margin_in(
    alloc: Global,
    strain: Strain,
    plan: &Plan,
    messages: &[Message],
    deadlines: &[u32],
) -> Result<Option<Margin>, AllocError>
    requires all { messages.now ≡ messages_in plan.now.messages.items }
    requires due { deadlines.now ≡ deadlines_in plan.now.messages.items }
    ensures { IfOk result (IsMarginOf plan.now strain) }
{
    margin_of(alloc, strain, messages, deadlines, &plan.hit_rate(), LIMIT)
}

/// Returns the deadlines of these messages.
fn deadlines_of(alloc: Global, planned: &[Planned]) -> Result<Vec<u32>, AllocError>
    ensures { IfOk result (λ deadlines. deadlines.items ≡ deadlines_in planned.now) }
{
    let mut deadlines = Vec::new(alloc);
    for each in planned {
        deadlines.push(each.deadline)?;
    }
    Ok(deadlines)
}
