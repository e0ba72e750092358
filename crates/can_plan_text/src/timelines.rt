//! From a network's document and the name of a message to the scenario of its worst case.
ghost use Rattle.std.specs.Prelude.{◌≡◌, IfOk, IsErrOf};
ghost use Rattle.can_plan_text.specs.declared.field.PlanField.{PlanField as Wrong};
ghost use Rattle.can_plan_text.specs.Plans.{IsWrongPlanField};
ghost use Rattle.can_plan_text.specs.Timelines.{IsTimeline, IsUnending, IsUnknown};

use crate::named::place_of;
use crate::plan::Plan;
use crate::scenario::push_scenario;
use crate::worst::worst_case;
use crate::worst_fault::WorstFault;
use can_longest::LongestWires;
use std::alloc::Global;

/// Returns the scenario of the worst case of a message, without hits. `document` is that of the network. `name` is the
/// text of a frame before the space and the DLC, such as `S 300 D`; the message is the one whose frames have its
/// arbitration field.
///
/// - `Field`: the first field of the document that is wrong, as [`Plan::from_text`] finds it.
/// - `Unknown`: no message has the name.
/// - `TooLong`: the bus is busy for longer than the longest scenario.
/// - `Memory`: memory ran out.
pub fn timeline(alloc: Global, document: &[u8], name: &[u8]) -> Result<Vec<u8>, WorstFault>
    ensures found { IfOk result (λ scenario. IsTimeline document.now name.now scenario.items) }
    ensures wrong { (wrong : Wrong) → IsErrOf result (WorstFault.Field wrong) → IsWrongPlanField wrong document.now }
    ensures unknown { IsErrOf result WorstFault.Unknown → IsUnknown document.now name.now }
    ensures too_long { IsErrOf result WorstFault.TooLong → IsUnending document.now name.now }
{
    let plan = Plan::from_text(alloc, document)?;
    let Some(place) = place_of(&plan.messages, name) else {
        return Err(WorstFault::Unknown);
    };
    let wires = LongestWires::new(alloc)?;
    let worst = worst_case(alloc, &wires, &plan.messages, place)?;
    let mut scenario = Vec::new(alloc);
    push_scenario(&mut scenario, &worst)?;
    Ok(scenario)
}
