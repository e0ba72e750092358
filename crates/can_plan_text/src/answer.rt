//! The output for a document.
ghost use Rattle.std.specs.Prelude.{IfOk, IsErrOf};
ghost use Rattle.can_plan_text.specs.declared.field.PlanField.{PlanField as Wrong};
ghost use Rattle.can_plan_text.specs.Details.{IsAnswerIn, IsDetailedAnswer};
ghost use Rattle.can_plan_text.specs.Plans.{IsWrongPlanField};
ghost use Rattle.can_plan_text.specs.Report.{IsAnswer};

use crate::analysis::analysed;
use crate::details::push_details;
use crate::fault::PlanFault;
use crate::latest::details_of;
use crate::left::left_of;
use crate::plan::Plan;
use crate::report::push_report;
use std::alloc::Global;

/// The output for a document, and how many of its messages may miss their deadline.
#[derive(Debug, Drop)]
pub struct Answer {
    pub bytes: Vec<u8>,
    pub late: usize,
}

/// Returns the output for the network in this text, without details.
///
/// - `Field`: the first field that is wrong, as [`Plan::from_text`] finds it.
/// - `Memory`: memory ran out.
pub fn answered(alloc: Global, text: &[u8]) -> Result<Answer, PlanFault>
    ensures found { IfOk result (λ answer. IsAnswer text.now answer.bytes.items answer.late) }
    ensures wrong { (wrong : Wrong) → IsErrOf result (PlanFault.Field wrong) → IsWrongPlanField wrong text.now }
{
    let plan = Plan::from_text(alloc, text)?;
    let analysis = analysed(alloc, &plan)?;
    let mut bytes = Vec::new(alloc);
    push_report(&mut bytes, plan.rate, &analysis)?;
    Ok(Answer {
        late: analysis.late(),
        bytes,
    })
}

/// The forms of the output.
#[derive(Clone, Copy, Debug, PartialEq, Eq)]
pub enum Form {
    /// A line for each message.
    Brief,
    /// After the line of each message the parts of its bound, and at the end how much is left until a message may miss
    /// its deadline.
    Detailed,
}

/// Returns the output for the network in this text, in this form. The faults are those of [`answered`], which returns
/// the brief form.
pub fn answered_in(alloc: Global, form: Form, text: &[u8]) -> Result<Answer, PlanFault>
    ensures found { IfOk result (λ answer. IsAnswerIn form text.now answer.bytes.items answer.late) }
    ensures wrong { (wrong : Wrong) → IsErrOf result (PlanFault.Field wrong) → IsWrongPlanField wrong text.now }
{
    match form {
        Form::Brief => answered(alloc, text),
        Form::Detailed => detailed(alloc, text),
    }
}

/// Returns the output with details.
fn detailed(alloc: Global, text: &[u8]) -> Result<Answer, PlanFault>
    ensures found { IfOk result (λ answer. IsDetailedAnswer text.now answer.bytes.items answer.late) }
    ensures wrong { (wrong : Wrong) → IsErrOf result (PlanFault.Field wrong) → IsWrongPlanField wrong text.now }
{
    let plan = Plan::from_text(alloc, text)?;
    let analysis = analysed(alloc, &plan)?;
    let details = details_of(alloc, &plan, &analysis)?;
    let left = left_of(alloc, &plan)?;
    let mut bytes = Vec::new(alloc);
    push_details(&mut bytes, &plan, &analysis, &details, &left)?;
    Ok(Answer {
        late: analysis.late(),
        bytes,
    })
}
