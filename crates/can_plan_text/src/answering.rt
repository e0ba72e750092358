//! The output for the document of a network from a reader.
ghost use Rattle.std.specs.Prelude.{◌≡◌, ◌⊎◌, ◌↔◌, false, IfErr, IfOk, IsErrOf, IsTrue};
ghost use Rattle.can_stream.specs.Told.{Told};
ghost use Rattle.can_plan_text.specs.declared.field.PlanField.{PlanField as Wrong};
ghost use Rattle.can_program.specs.Written.{WritesBeginning, WritesNothing};
ghost use Rattle.can_plan_text.specs.Runs.{AnswersNetwork, AnswersWhole, IsPlanFault, RefusesNetwork};

use crate::answer::{Form, answered_in};
use crate::canplan_fault::CanplanFault;
use can_stream::{Sink, Source, TraceFault, read_whole, write_all};
use std::alloc::Global;

/// Reads a network's document up to the reader's end, writes the output for it in this form, and returns how many
/// messages may miss their deadline. It writes nothing if the reader fails, the document is refused, or memory runs
/// out.
pub fn answer_document<R: Source, W: Sink>(
    alloc: Global,
    form: Form,
    r: &mut R,
    w: &mut W,
) -> Result<usize, CanplanFault>
    requires reader_unfailed { R.has_failed r.old ≡ false }
    requires reader_unended { R.has_ended r.old ≡ false }
    requires writer_unfailed { W.has_failed w.old ≡ false }

    // What was written for what was read.
    ensures ok { IfOk result (λ late. Told R.remaining r.old r.new W.contents w.old w.new (AnswersNetwork form late)) }
    ensures field { (wrong : Wrong) → IsErrOf result (CanplanFault.Field wrong) →
        Told R.remaining r.old r.new W.contents w.old w.new (RefusesNetwork wrong) }
    ensures read { IsErrOf result (CanplanFault.Stream TraceFault.Read) → Told R.remaining r.old r.new W.contents w.old w.new WritesNothing }
    ensures write { IsErrOf result (CanplanFault.Stream TraceFault.Write) → Told R.remaining r.old r.new W.contents w.old w.new (WritesBeginning (AnswersWhole form)) }
    ensures memory { IsErrOf result (CanplanFault.Stream TraceFault.Memory) → Told R.remaining r.old r.new W.contents w.old w.new WritesNothing }
    ensures other { IfErr result (λ fault. IsPlanFault fault ⊎ (fault ≡ CanplanFault.Stream TraceFault.Read) ⊎ (fault ≡ CanplanFault.Stream TraceFault.Write)) }

    // Whether the reader and the writer failed.
    ensures read_failed { IsErrOf result (CanplanFault.Stream TraceFault.Read) ↔ IsTrue (R.has_failed r.new) }
    ensures write_failed { IsErrOf result (CanplanFault.Stream TraceFault.Write) ↔ IsTrue (W.has_failed w.new) }
{
    let text = read_whole(alloc, r)?;
    let answer = answered_in(alloc, form, text.as_slice())?;
    write_all(w, answer.bytes.as_slice())?;
    Ok(answer.late)
}
