//! The latest frame of each message.
ghost use Rattle.std.specs.Prelude.{◌≡◌, IfOk, Some, length, slice_get};
ghost use Rattle.can_plan_text.specs.Answers.{AreVerdicts, IsPlanVerdict};
ghost use Rattle.can_plan_text.specs.Details.{AreDetails, IsLatestOf};
ghost use Rattle.can_plan_text.specs.Plans.{messages_of as messages_in};

use crate::analysis::{LIMIT, messages_of};
use crate::detail::Detail;
use crate::plan::Plan;
use crate::verdict::{Analysis, Verdict};
use can_plan::{Latest, Message, latest_frame};
use std::alloc::{AllocError, Global};

/// Returns the parts of each bound of an analysis.
pub(crate) fn details_of(
    alloc: Global,
    plan: &Plan,
    analysis: &Analysis,
) -> Result<Vec<Detail>, AllocError>
    requires { AreVerdicts plan.now (length plan.now.messages.items) analysis.now.verdicts.items }
    ensures { IfOk result (λ details. AreDetails plan.now analysis.now.verdicts.items details.items) }
{
    let messages = messages_of(alloc, &plan.messages)?;
    let mut details = Vec::new(alloc);
    for (place, verdict) in analysis.verdicts.iter().enumerate() {
        details.push(Detail {
            verdict: *verdict,
            place,
            latest: latest_of(plan, &messages, place, verdict),
        })?;
    }
    Ok(details)
}

/// Returns the latest frame of the message at this place, if it has a bound.
fn latest_of(plan: &Plan, messages: &[Message], place: usize, verdict: &Verdict) -> Option<Latest>
    requires all { messages.now ≡ messages_in plan.now.messages.items }
    requires judged { IsPlanVerdict plan.now place verdict.now }
    requires here { slice_get messages.now place ≡ Some verdict.now.planned.message }
    ensures { IsLatestOf plan.now place verdict.now verdict.now.bound result }
{
    match verdict.bound {
        Some(bound) => latest_frame(bound, messages, place, &plan.hit_rate(), LIMIT),
        None => None,
    }
}
