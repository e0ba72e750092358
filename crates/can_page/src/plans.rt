ghost use Rattle.std.specs.Prelude.{◌≡◌, ◌⊎◌, [], false, true, IfSome, Some};
ghost use Rattle.can_page.specs.Answers.{bad_plan, all_done, no_memory, no_room};
ghost use Rattle.can_page.specs.Codes.{form_of};
ghost use Rattle.can_page.specs.Lines.{is_overfull, written_lines};
ghost use Rattle.can_page.specs.Plain.{wrong_in_plan};
ghost use Rattle.can_plan_text.specs.Details.{IsAnswerIn};
ghost use Rattle.can_plan_text.specs.Plans.{IsWrongPlanField};
ghost use Rattle.can_plan_text.specs.declared.field.PlanField.{PlanField as Wrong};

use crate::answer::Answer;
use crate::lines::Lines;
use crate::plain::WrongField;
use can_plan_text::{Form, PlanFault, PlanField, answered_in};
use can_stream::{Sink, write_all};
use std::alloc::Global;

/// Analyses the network of a document: writes the lines of `canplan` to `out`, with the parts of each bound or without, and
/// how many messages may miss their deadlines. If the document has no network, it writes the first field that is wrong, and to
/// `out` what that field must be, in words.
#[unsafe(no_mangle)]
pub extern "C" fn page_plan(
    alloc: Global,
    text: &[u8],
    details: bool,
    out: &mut Lines,
    late: &mut usize,
    wrong: &mut WrongField,
) -> u8
    ensures answer { result ≡ all_done → IsAnswerIn (form_of details) text.now (written_lines out.new) late.new }
    ensures wrong { result ≡ bad_plan → (field : Wrong) × (IsWrongPlanField field text.now × (wrong.new ≡ wrong_in_plan field)) }
    ensures answers { (result ≡ all_done) ⊎ (result ≡ bad_plan) ⊎ (result ≡ no_room) ⊎ (result ≡ no_memory) }
    ensures room { result ≡ no_room → is_overfull out.new ≡ true }
{
    out.clear();
    plan_onto(alloc, form(details), text, out, late, wrong).code()
}

/// Returns the form of the output, with details or without.
fn form(details: bool) -> Form
    ensures { result ≡ form_of details }
{
    if details { Form::Detailed } else { Form::Brief }
}

/// Does this for any sink, which must be empty.
pub(crate) fn plan_onto<W: Sink>(
    alloc: Global,
    form: Form,
    text: &[u8],
    out: &mut W,
    late: &mut usize,
    wrong: &mut WrongField,
) -> Answer
    requires unfailed { W.has_failed out.old ≡ false }
    requires empty { W.contents out.old ≡ Some [] }
    ensures answer { result ≡ Answer.Done → IfSome (W.contents out.new) (λ bytes. IsAnswerIn form text.now bytes late.new) }
    ensures wrong { result ≡ Answer.BadPlan → (field : Wrong) × (IsWrongPlanField field text.now × (wrong.new ≡ wrong_in_plan field)) }
    ensures answers { (result ≡ Answer.Done) ⊎ (result ≡ Answer.BadPlan) ⊎ (result ≡ Answer.NoRoom) ⊎ (result ≡ Answer.NoMemory) }
    ensures room { result ≡ Answer.NoRoom → W.has_failed out.new ≡ true }
{
    match answered_in(alloc, form, text) {
        Ok(answer) => {
            *late = answer.late;
            match write_all(out, answer.bytes.as_slice()) {
                Ok(()) => Answer::Done,
                Err(_) => Answer::NoRoom,
            }
        }
        Err(PlanFault::Field(field)) => refuse_field(field, out, wrong),
        Err(PlanFault::Memory) => Answer::NoMemory,
    }
}

/// Writes which field is wrong, and to `out` what it must be, in words. No clause says that the words are written: that is
/// only tested.
fn refuse_field<W: Sink>(field: PlanField, out: &mut W, wrong: &mut WrongField) -> Answer
    requires { W.has_failed out.old ≡ false }
    ensures answer { result ≡ Answer.BadPlan }
    ensures wrong { wrong.new ≡ wrong_in_plan field }
{
    *wrong = WrongField::in_plan(field);
    let _ = write_all(out, field.words().as_bytes());
    Answer::BadPlan
}
