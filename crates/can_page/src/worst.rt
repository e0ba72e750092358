ghost use Rattle.std.specs.Prelude.{◌≡◌, ◌⊎◌, [], false, true, IfSome, Some};
ghost use Rattle.can_page.specs.Answers.{bad_plan, all_done, no_memory, no_message, no_room, too_long};
ghost use Rattle.can_page.specs.Lines.{is_overfull, written_lines};
ghost use Rattle.can_page.specs.Plain.{wrong_in_plan};
ghost use Rattle.can_plan_text.specs.Plans.{IsWrongPlanField};
ghost use Rattle.can_plan_text.specs.declared.field.PlanField.{PlanField as Wrong};
ghost use Rattle.can_plan_text.specs.Timelines.{IsTimeline, IsUnending, IsUnknown};

use crate::answer::Answer;
use crate::lines::Lines;
use crate::plain::WrongField;
use can_plan_text::{WorstFault, timeline};
use can_stream::{Sink, write_all};
use std::alloc::Global;

/// Writes the scenario of the worst case of a message to `out`, without injected bit errors, for the network in this
/// text. The message is named by the text of one of its frames before the space and the DLC. If the text is not a valid
/// network, the call writes the first wrong field to `wrong`.
#[unsafe(no_mangle)]
pub extern "C" fn page_worst_case(
    alloc: Global,
    text: &[u8],
    name: &[u8],
    out: &mut Lines,
    wrong: &mut WrongField,
) -> u8
    ensures scenario { result ≡ all_done → IsTimeline text.now name.now (written_lines out.new) }
    ensures wrong { result ≡ bad_plan → (field : Wrong) × (IsWrongPlanField field text.now × (wrong.new ≡ wrong_in_plan field)) }
    ensures unknown { result ≡ no_message → IsUnknown text.now name.now }
    ensures unending { result ≡ too_long → IsUnending text.now name.now }
    ensures answers { (result ≡ all_done) ⊎ (result ≡ bad_plan) ⊎ (result ≡ no_message) ⊎ (result ≡ too_long) ⊎ (result ≡ no_room) ⊎ (result ≡ no_memory) }
    ensures room { result ≡ no_room → is_overfull out.new ≡ true }
{
    out.clear();
    worst_case_onto(alloc, text, name, out, wrong).code()
}

/// Does this for any sink, which must be empty.
fn worst_case_onto<W: Sink>(
    alloc: Global,
    text: &[u8],
    name: &[u8],
    out: &mut W,
    wrong: &mut WrongField,
) -> Answer
    requires unfailed { W.has_failed out.old ≡ false }
    requires empty { W.contents out.old ≡ Some [] }
    ensures scenario { result ≡ Answer.Done → IfSome (W.contents out.new) (IsTimeline text.now name.now) }
    ensures wrong { result ≡ Answer.BadPlan → (field : Wrong) × (IsWrongPlanField field text.now × (wrong.new ≡ wrong_in_plan field)) }
    ensures unknown { result ≡ Answer.NoMessage → IsUnknown text.now name.now }
    ensures unending { result ≡ Answer.TooLong → IsUnending text.now name.now }
    ensures answers { (result ≡ Answer.Done) ⊎ (result ≡ Answer.BadPlan) ⊎ (result ≡ Answer.NoMessage) ⊎ (result ≡ Answer.TooLong) ⊎ (result ≡ Answer.NoRoom) ⊎ (result ≡ Answer.NoMemory) }
    ensures room { result ≡ Answer.NoRoom → W.has_failed out.new ≡ true }
{
    match timeline(alloc, text, name) {
        Ok(scenario) => match write_all(out, scenario.as_slice()) {
            Ok(()) => Answer::Done,
            Err(_) => Answer::NoRoom,
        },
        Err(WorstFault::Field(field)) => {
            *wrong = WrongField::in_plan(field);
            Answer::BadPlan
        }
        Err(WorstFault::Unknown) => Answer::NoMessage,
        Err(WorstFault::TooLong) => Answer::TooLong,
        Err(WorstFault::Memory) => Answer::NoMemory,
    }
}
