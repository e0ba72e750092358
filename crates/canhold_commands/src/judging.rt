//! Verdicts on the transcripts of a document.
ghost use Rattle.std.specs.Prelude.{◌≡◌, ◌≤◌, ◌<◌, ◌+◌, ◌++◌, false, not, count_by, replicate, All, [], length, IfOk, IsErrOf, OnOk};
ghost use Rattle.std.specs.String.{string_bytes};
ghost use Rattle.canhold_commands.specs.Verdicts.{verdict_line};
ghost use Rattle.can_terms.specs.Cases.{IsTold};
ghost use Rattle.kit_documents.specs.declared.field.KitField.{KitField as Wrong};
ghost use Rattle.kit_documents.specs.Cases.{longest_case};
ghost use Rattle.canhold_commands.specs.Documents.{document_demands, IsWrongKitField};
ghost use Rattle.canhold_commands.specs.Marks.{with_marks};
ghost use Rattle.canhold_commands.specs.Judgements.{cases_without as without_in, with_verdict, lines_with, no_cases, AddVerdicts, AddsVerdict, TellsVerdicts, IsJudged};

use crate::document::Document;
use crate::tally::{Tally, push_count};
use crate::verdict::push_verdict;
use can_conform::{Verdict, judge};
use kit_documents::{Case, KitFault, Told};
use std::alloc::{AllocError, Global};

/// The verdicts on the transcripts of a document.
#[derive(Debug, Drop)]
pub struct Judgement {
    /// A line for each transcript, in their order, and then the count, which includes the number of cases without a
    /// transcript. Each line ends with 0x0a.
    pub lines: Vec<u8>,
    /// The number of transcripts with each verdict. None is void or skipped.
    pub tally: Tally,
}

/// Judges each transcript of a kit document.
///
/// The error is `Field` with the first invalid field, as in [`Document::from_text`], or `Memory` if an allocation
/// failed.
pub fn judged(alloc: Global, text: &[u8]) -> Result<Judgement, KitFault>
    ensures found { IfOk result (λ judgement. IsJudged text.now judgement.lines.items judgement.tally) }
    ensures wrong { (wrong : Wrong) → IsErrOf result (KitFault.Field wrong) → IsWrongKitField document_demands wrong text.now }
{
    let document = Document::from_text(alloc, text)?;
    Ok(judge_all(alloc, &document)?)
}

/// Judges each transcript of a document.
fn judge_all(alloc: Global, document: &Document) -> Result<Judgement, AllocError>
    requires short { All (λ one. length one.script.tester.items ≤ longest_case) document.now.cases.items }
    requires told { All (λ one. IsTold one.transcript) document.now.transcripts.items }
    requires known { All (λ one. one.case < length document.now.cases.items) document.now.transcripts.items }
    requires few { length document.now.transcripts.items ≤ 4096 }
    ensures { IfOk result (λ judgement. TellsVerdicts document.now judgement.lines.items judgement.tally) }
{
    let mut lines = Vec::new(alloc);
    let tally = push_verdicts(alloc, &mut lines, &document.cases, &document.transcripts)?;
    push_count(&mut lines, tally, cases_without(alloc, document)? as u64)?;
    Ok(Judgement { lines, tally })
}

/// The number of cases of a document without a transcript.
fn cases_without(alloc: Global, document: &Document) -> Result<usize, AllocError>
    requires { All (λ one. one.case < length document.now.cases.items) document.now.transcripts.items }
    ensures { IfOk result (λ count. count ≡ without_in document.now) }
{
    let marks = marks_of(alloc, document.cases.len(), &document.transcripts)?;
    Ok(unmarked(&marks))
}

/// A mark for each of `number` cases, set if one of these transcripts belongs to it.
fn marks_of(alloc: Global, number: usize, transcripts: &[Told]) -> Result<Vec<bool>, AllocError>
    requires { All (λ one. one.case < number) transcripts.now }
    ensures { IfOk result (λ marks. marks.items ≡ with_marks transcripts.now (replicate number false)) }
{
    let mut marks = no_marks(alloc, number)?;
    mark(&mut marks, transcripts);
    Ok(marks)
}

/// The number of marks that are not set.
fn unmarked(marks: &[bool]) -> usize
    ensures { result ≡ count_by not marks.now }
{
    marks.iter().filter(|mark| !**mark).count()
}

/// `number` marks, none of them set.
fn no_marks(alloc: Global, number: usize) -> Result<Vec<bool>, AllocError>
    ensures { IfOk result (λ marks. marks.items ≡ replicate number false) }
{
    Ok(vec![in alloc; false; number]?)
}

/// Sets the marks of the cases that these transcripts belong to.
fn mark(marks: &mut [bool], transcripts: &[Told])
    requires { All (λ one. one.case < length marks.old) transcripts.now }
    ensures { marks.new ≡ with_marks transcripts.now marks.old }
{
    for told in transcripts {
        marks[told.case] = true;
    }
}

/// Appends a line for each transcript, and counts the verdicts.
fn push_verdicts(
    alloc: Global,
    out: &mut Vec<u8>,
    cases: &[Case],
    transcripts: &[Told],
) -> Result<Tally, AllocError>
    requires short { All (λ one. length one.script.tester.items ≤ longest_case) cases.now }
    requires told { All (λ one. IsTold one.transcript) transcripts.now }
    requires known { All (λ one. one.case < length cases.now) transcripts.now }
    requires few { length transcripts.now ≤ 4096 }
    ensures { IfOk result (λ counts. AddVerdicts cases.now transcripts.now (lines_with out.old.items no_cases) (lines_with out.new.items counts)) }
{
    let mut tally = Tally::NONE;
    for told in transcripts {
        tally = push_one(alloc, out, &cases[told.case], told, tally)?;
    }
    Ok(tally)
}

/// Appends the line of a transcript of this case, and counts its verdict.
fn push_one(
    alloc: Global,
    out: &mut Vec<u8>,
    case: &Case,
    told: &Told,
    tally: Tally,
) -> Result<Tally, AllocError>
    requires short { length case.now.script.tester.items ≤ longest_case }
    requires told { IsTold told.now.transcript }
    requires few { (tally.passed ≤ 4095) × (tally.failed ≤ 4095) }
    ensures { IfOk result (λ counts. AddsVerdict case.now told.now (lines_with out.old.items tally) (lines_with out.new.items counts)) }
{
    match judge(alloc, &case.script, &told.transcript) {
        Ok(verdict) => push_said(out, case, &verdict, tally),
        Err(error) => Err(error),
    }
}

/// Appends the line of this verdict on the transcript of this case.
fn push_said(
    out: &mut Vec<u8>,
    case: &Case,
    verdict: &Verdict,
    tally: Tally,
) -> Result<Tally, AllocError>
    requires few { (tally.passed ≤ 4095) × (tally.failed ≤ 4095) }
    ensures line { OnOk result (out.new.items ≡ out.old.items ++ verdict_line (string_bytes case.now.name) case.now.choices.items verdict.now) }
    ensures count { IfOk result (λ counts. counts ≡ with_verdict tally verdict.now) }
{
    push_verdict(out, case.name.as_bytes(), &case.choices, verdict)?;
    Ok(counted(tally, verdict))
}

/// Counts one more verdict.
fn counted(tally: Tally, verdict: &Verdict) -> Tally
    requires { (tally.passed ≤ 4095) × (tally.failed ≤ 4095) }
    ensures { result ≡ with_verdict tally verdict.now }
{
    match verdict {
        Verdict::Pass => Tally {
            passed: tally.passed + 1,
            ..tally
        },
        Verdict::Fail(_) => Tally {
            failed: tally.failed + 1,
            ..tally
        },
    }
}
