//! A document followed by the transcripts of the reference.
ghost use Rattle.std.specs.Prelude.{◌≤◌, All, length, IfOk, IsErrOf, OnOk};
ghost use Rattle.kit_documents.specs.declared.field.KitField.{KitField as Wrong};
ghost use Rattle.kit_documents.specs.Cases.{longest_case};
ghost use Rattle.canhold_commands.specs.Documents.{IsWrongKitField};
ghost use Rattle.canhold_commands.specs.Expectations.{cases_alone_demands, AddTables, IsCasesText, IsExpected};

use crate::document::{Document, read_fields, read_tables};
use crate::transcript::push_transcript;
use can_conform::expect;
use document_values::field;
use kit_documents::{Case, KitFault, KitField};
use std::alloc::{AllocError, Global};

/// Returns a kit document, byte for byte, followed by a table for each of its cases: the reference's transcript with
/// levels, events, counters and the end.
///
/// The error is `Field` with the first invalid field, as in [`Document::from_text`], or `Memory` if an allocation
/// failed. A document with a list of transcripts, even an empty one, is refused for that list.
pub fn expected(alloc: Global, text: &[u8]) -> Result<Vec<u8>, KitFault>
    ensures found { IfOk result (λ answer. IsExpected text.now answer.items) }
    ensures wrong { (wrong : Wrong) → IsErrOf result (KitFault.Field wrong) → IsWrongKitField cases_alone_demands wrong text.now }
{
    let document = read_alone(alloc, text)?;
    Ok(with_tables(alloc, text, &document.cases)?)
}

/// Reads a kit document that must have no list of transcripts: TOML allows no tables after an empty one.
fn read_alone(alloc: Global, text: &[u8]) -> Result<Document, KitFault>
    ensures read { IfOk result (IsCasesText text.now) }
    ensures short { IfOk result (λ document. All (λ one. length one.script.tester.items ≤ longest_case) document.cases.items) }
    ensures wrong { (wrong : Wrong) → IsErrOf result (KitFault.Field wrong) → IsWrongKitField cases_alone_demands wrong text.now }
{
    let fields = read_fields(alloc, text)?;
    let document = read_tables(alloc, &fields)?;
    if field(&fields, "transcript").is_some() {
        return Err(KitFault::Field(KitField::Transcripts));
    }
    Ok(document)
}

/// The bytes, followed by the table of each case's transcript.
fn with_tables(alloc: Global, text: &[u8], cases: &[Case]) -> Result<Vec<u8>, AllocError>
    requires { All (λ one. length one.script.tester.items ≤ longest_case) cases.now }
    ensures { IfOk result (λ answer. AddTables cases.now text.now answer.items) }
{
    let mut answer = Vec::from_slice(alloc, text)?;
    push_tables(alloc, &mut answer, cases)?;
    Ok(answer)
}

/// Appends the table of each case's transcript.
fn push_tables(alloc: Global, out: &mut Vec<u8>, cases: &[Case]) -> Result<(), AllocError>
    requires { All (λ one. length one.script.tester.items ≤ longest_case) cases.now }
    ensures { OnOk result (AddTables cases.now out.old.items out.new.items) }
{
    for case in cases {
        let told = expect(alloc, &case.script)?;
        push_transcript(out, case.name.as_bytes(), &told)?;
    }
    Ok(())
}
