//! The analysis of each message of a network.
ghost use Rattle.std.specs.Prelude.{◌≡◌, ◌≤◌, IfOk, Some, length, slice_get};
ghost use Rattle.can_plan.specs.Analysis.{blocking as blocking_of, ranking_at};
ghost use Rattle.can_plan_text.specs.Answers.{AreVerdicts, IsAnalysis, IsBorneFor};
ghost use Rattle.can_plan_text.specs.Plans.{messages_of as messages_in};

use crate::plan::{Plan, Planned};
use crate::verdict::{Analysis, Verdict};
use can_plan::{Borne, HitRate, Message, Responses, blocking, borne_for};
use std::alloc::{AllocError, Global};

/// The limit of the analysis for busy periods and delays, in bit times.
pub(crate) const LIMIT: u32 = 10_000_000;

/// Returns the analysis of a network. It fails only if an allocation fails.
pub fn analysed(alloc: Global, plan: &Plan) -> Result<Analysis, AllocError>
    ensures { IfOk result (IsAnalysis plan.now) }
{
    let messages = messages_of(alloc, &plan.messages)?;
    let verdicts = judge_each(alloc, plan, &messages)?;
    Ok(Analysis {
        verdicts,
        borne: borne(plan.errors),
    })
}

/// Returns for how long the error model is tolerated, if there is one.
fn borne(errors: Option<HitRate>) -> Option<Borne>
    ensures { IsBorneFor errors result }
{
    match errors {
        Some(rate) => Some(borne_for(&rate)),
        None => None,
    }
}

/// Returns what the analysis needs of these messages.
pub(crate) fn messages_of(alloc: Global, planned: &[Planned]) -> Result<Vec<Message>, AllocError>
    ensures { IfOk result (λ messages. messages.items ≡ messages_in planned.now) }
{
    let mut messages = Vec::new(alloc);
    for each in planned {
        messages.push(each.message)?;
    }
    Ok(messages)
}

/// Returns the verdict on each message of a network.
fn judge_each(alloc: Global, plan: &Plan, messages: &[Message]) -> Result<Vec<Verdict>, AllocError>
    requires { messages.now ≡ messages_in plan.now.messages.items }
    ensures { IfOk result (λ verdicts. AreVerdicts plan.now (length plan.now.messages.items) verdicts.items) }
{
    let rate = plan.hit_rate();
    let mut verdicts = Vec::new(alloc);
    let mut responses = Responses::new(messages, 0, &rate, LIMIT);
    for (place, planned) in plan.messages.iter().enumerate() {
        let response = responses.next_response();
        verdicts.push(judge(planned, place, messages, response.bound))?;
    }
    Ok(verdicts)
}

/// Returns the verdict on the message at this place, with the bound that the analysis gives.
fn judge(planned: &Planned, place: usize, messages: &[Message], bound: Option<u64>) -> Verdict
    requires here { slice_get messages.now place ≡ Some planned.now.message }
    ensures planned { result.planned ≡ planned.now }
    ensures block { result.blocking ≡ blocking_of (ranking_at messages.now place planned.now.message) }
    ensures bound { result.bound ≡ bound }
{
    Verdict {
        planned: *planned,
        blocking: blocking(&messages[place + 1..]),
        bound,
    }
}
