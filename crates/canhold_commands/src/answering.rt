//! Reads a kit document, and writes the output for it.
ghost use Rattle.std.specs.Prelude.{◌≡◌, ◌⊎◌, ◌↔◌, false, IfErr, IfOk, IsErrOf, IsTrue};
ghost use Rattle.can_stream.specs.Told.{Told};
ghost use Rattle.kit_documents.specs.declared.field.KitField.{KitField};
ghost use Rattle.canhold_commands.specs.Documents.{IsWrongKitField};
ghost use Rattle.can_program.specs.Written.{WritesBeginning, WritesNothing};
ghost use Rattle.canhold_commands.specs.Answers.{demands_of, finding_of, Answers, AnswersSo, IsKitFault, RefusesDocument};

use crate::expecting::expected;
use crate::fault::CanholdFault;
use crate::judging::judged;
use crate::naming::case_of;
use crate::tally::Tally;
use crate::words::Question;
use can_stream::{Sink, Source, TraceFault, read_whole, write_all};
use kit_documents::KitFault;
use std::alloc::Global;

/// The result for a document.
#[derive(Clone, Copy, Debug, PartialEq, Eq)]
pub enum Finding {
    /// All judged transcripts agree with the reference.
    Agree,
    /// Some transcript differs.
    Differ,
    /// There was no transcript to judge.
    Nothing,
}

/// Reads a kit document until the reader ends, and writes the output for the question. Returns the result for the
/// document.
///
/// Nothing is written if the reader fails, the document is refused, or an allocation fails. If the document is refused
/// for a field that belongs to a case, `of` becomes the name of that case, if it is known.
pub fn answer_document<R: Source, W: Sink>(
    alloc: Global,
    question: Question,
    r: &mut R,
    w: &mut W,
    of: &mut String,
) -> Result<Finding, CanholdFault>
    requires reader_unfailed { R.has_failed r.old ≡ false }
    requires reader_unended { R.has_ended r.old ≡ false }
    requires writer_unfailed { W.has_failed w.old ≡ false }

    // What was read and written.
    ensures ok { IfOk result (λ finding. Told R.remaining r.old r.new W.contents w.old w.new (AnswersSo question finding)) }
    ensures field { (wrong : KitField) → IsErrOf result (CanholdFault.Field wrong) →
        Told R.remaining r.old r.new W.contents w.old w.new (RefusesDocument question wrong) }
    ensures read { IsErrOf result (CanholdFault.Stream TraceFault.Read) → Told R.remaining r.old r.new W.contents w.old w.new WritesNothing }
    ensures write { IsErrOf result (CanholdFault.Stream TraceFault.Write) → Told R.remaining r.old r.new W.contents w.old w.new (WritesBeginning (Answers question)) }
    ensures memory { IsErrOf result (CanholdFault.Stream TraceFault.Memory) → Told R.remaining r.old r.new W.contents w.old w.new WritesNothing }
    ensures other { IfErr result (λ fault. IsKitFault fault ⊎ (fault ≡ CanholdFault.Stream TraceFault.Read) ⊎ (fault ≡ CanholdFault.Stream TraceFault.Write)) }

    // Whether the reader or the writer failed.
    ensures read_failed { IsErrOf result (CanholdFault.Stream TraceFault.Read) ↔ IsTrue (R.has_failed r.new) }
    ensures write_failed { IsErrOf result (CanholdFault.Stream TraceFault.Write) ↔ IsTrue (W.has_failed w.new) }
{
    let text = read_whole(alloc, r)?;
    let answer = answer_or_name(alloc, question, text.as_slice(), of)?;
    write_all(w, answer.bytes.as_slice())?;
    Ok(answer.finding)
}

/// The output for a document, and its result.
#[derive(Drop)]
struct Answer {
    bytes: Vec<u8>,
    finding: Finding,
}

/// The output for a document. If it is refused, `of` becomes the name of the case that the invalid field belongs to.
fn answer_or_name(
    alloc: Global,
    question: Question,
    text: &[u8],
    of: &mut String,
) -> Result<Answer, KitFault>
    ensures found { IfOk result (λ answer. AnswersSo question answer.finding text.now answer.bytes.items) }
    ensures wrong { (wrong : KitField) → IsErrOf result (KitFault.Field wrong) → IsWrongKitField (demands_of question) wrong text.now }
{
    let answer = answer_to(alloc, question, text);
    if let Err(KitFault::Field(wrong)) = answer {
        if let Some(name) = case_of(alloc, text, wrong) {
            *of = name;
        }
    }
    answer
}

/// The output for a document.
fn answer_to(alloc: Global, question: Question, text: &[u8]) -> Result<Answer, KitFault>
    ensures found { IfOk result (λ answer. AnswersSo question answer.finding text.now answer.bytes.items) }
    ensures wrong { (wrong : KitField) → IsErrOf result (KitFault.Field wrong) → IsWrongKitField (demands_of question) wrong text.now }
{
    match question {
        Question::Expect => Ok(Answer {
            bytes: expected(alloc, text)?,
            finding: Finding::Agree,
        }),
        Question::Judge => {
            let judgement = judged(alloc, text)?;
            Ok(Answer {
                finding: found(judgement.tally),
                bytes: judgement.lines,
            })
        }
    }
}

/// The result for transcripts with this count of verdicts.
fn found(tally: Tally) -> Finding
    ensures { result ≡ finding_of tally }
{
    if tally.cases() == 0 {
        Finding::Nothing
    } else if tally.failed == 0 {
        Finding::Agree
    } else {
        Finding::Differ
    }
}
