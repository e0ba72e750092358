//! Kit documents.
ghost use Rattle.std.specs.Prelude.{◌≡◌, ◌≤◌, ◌<◌, All, length, map, IfOk, IfNone, IfSome, IsErrOf, OnOk, OnSome};
ghost use Rattle.toml.specs.Data.{table};
ghost use Rattle.toml.specs.View.{table_view, view};
ghost use Rattle.can_terms.specs.Cases.{IsTold};
ghost use Rattle.kit_documents.specs.declared.field.KitField.{KitField as Wrong};
ghost use Rattle.document_values.specs.Demands.{AllMet, IsFirstUnmet};
ghost use Rattle.document_values.specs.Refusals.{IsNoDocument};
ghost use Rattle.document_values.specs.Values.{elements_in, named, IsDocument, IsOptional};
ghost use Rattle.kit_documents.specs.Cases.{longest_case};
ghost use Rattle.kit_documents.specs.Lists.{IsArrayOf};
ghost use Rattle.canhold_commands.specs.Documents.{cases_of, document_demands, document_top_demands, transcripts_of, IsKitText, IsWrongKitField, SaysDocument};

use document_values::{DocumentFault, elements_or_none, has_only, read_document};
use kit_documents::{Case, KitFault, KitField, Told, read_cases, read_transcripts};
use std::alloc::Global;
use toml::{Table, Value};

/// A document has at most this number of cases, and of transcripts.
const MOST_TABLES: usize = 4096;

/// The fields that a document may have.
const DOCUMENT_FIELDS: [&str; 2] = ["case", "transcript"];

/// A document of the conformance kit.
#[derive(Debug, Drop)]
pub struct Document {
    /// At most 4096 cases.
    pub cases: Vec<Case>,
    /// At most one transcript for each case.
    pub transcripts: Vec<Told>,
}

impl Document {
    /// Reads a kit document: TOML with an array of tables `case`, an array of tables `transcript`, and nothing else at
    /// the top level.
    ///
    /// The error is `Field` with the first invalid field, or `Memory` if an allocation failed. The top level is tested
    /// first, then each case, then each transcript. The returned document owns all memory that it needs.
    pub fn from_text(alloc: Global, text: &[u8]) -> Result<Document, KitFault>
        ensures found { IfOk result (IsKitText text.now) }
        ensures short { IfOk result (λ document. All (λ one. length one.script.tester.items ≤ longest_case) document.cases.items) }
        ensures told { IfOk result (λ document. All (λ one. IsTold one.transcript) document.transcripts.items) }
        ensures known { IfOk result (λ document. All (λ one. one.case < length document.cases.items) document.transcripts.items) }
        ensures few { IfOk result (λ document. length document.transcripts.items ≤ 4096) }
        ensures wrong { (wrong : Wrong) → IsErrOf result (KitFault.Field wrong) → IsWrongKitField document_demands wrong text.now }
    {
        let fields = read_fields(alloc, text)?;
        Ok(read_tables(alloc, &fields)?)
    }
}

/// The fields at the top level of a TOML document.
pub(crate) fn read_fields(alloc: Global, text: &[u8]) -> Result<Table, KitFault>
    ensures said { IfOk result (λ fields. IsDocument text.now (table (table_view fields))) }
    ensures wrong { (wrong : Wrong) → IsErrOf result (KitFault.Field wrong) → IsNoDocument KitField.Document wrong text.now }
{
    match read_document(alloc, text) {
        Ok(fields) => Ok(fields),
        Err(DocumentFault::Memory) => Err(KitFault::Memory),
        Err(DocumentFault::NoDocument) => Err(KitFault::Field(KitField::Document)),
    }
}

/// Reads the cases and transcripts of a document with these fields.
pub(crate) fn read_tables(alloc: Global, fields: &Table) -> Result<Document, KitFault>
    ensures said { IfOk result (SaysDocument (table (table_view fields.now))) }
    ensures short { IfOk result (λ document. All (λ one. length one.script.tester.items ≤ longest_case) document.cases.items) }
    ensures told { IfOk result (λ document. All (λ one. IsTold one.transcript) document.transcripts.items) }
    ensures known { IfOk result (λ document. All (λ one. one.case < length document.cases.items) document.transcripts.items) }
    ensures few { IfOk result (λ document. length document.transcripts.items ≤ 4096) }
    ensures unmet { (wrong : Wrong) → IsErrOf result (KitFault.Field wrong) → IsFirstUnmet wrong (document_demands (table (table_view fields.now))) }
{
    let top = read_top(fields)?;
    let cases = read_cases(alloc, top.cases)?;
    let transcripts = read_transcripts(alloc, top.cases, top.transcripts)?;
    Ok(Document { cases, transcripts })
}

/// The tables of a document.
#[derive(Clone, Copy)]
struct Top<'a> {
    cases: &'a [Value],
    transcripts: &'a [Value],
}

/// Reads the fields at the top level of a document.
fn read_top(fields: &Table) -> Result<Top<'_>, KitFault>
    ensures cases { IfOk result (λ top. map view top.cases.now ≡ cases_of (table (table_view fields.now))) }
    ensures transcripts { IfOk result (λ top. map view top.transcripts.now ≡ transcripts_of (table (table_view fields.now))) }
    ensures few { IfOk result (λ top. length top.transcripts.now ≤ 4096) }
    ensures met { OnOk result (AllMet (document_top_demands (table (table_view fields.now)))) }
    ensures unmet { (wrong : Wrong) → IsErrOf result (KitFault.Field wrong) → IsFirstUnmet wrong (document_top_demands (table (table_view fields.now))) }
{
    if !has_only(fields, &DOCUMENT_FIELDS) {
        return Err(KitFault::Field(KitField::Unknown));
    }
    let Some(cases) = tables(fields, "case") else {
        return Err(KitFault::Field(KitField::Cases));
    };
    let Some(transcripts) = tables(fields, "transcript") else {
        return Err(KitFault::Field(KitField::Transcripts));
    };
    Ok(Top { cases, transcripts })
}

/// The elements of a list of at most 4096; none if it is left out.
fn tables<'a>(fields: &'a Table, name: &str) -> Option<&'a [Value]>
    ensures said { IfSome result (λ values. map view values.now ≡ elements_in (named name.now (table (table_view fields.now)))) }
    ensures few { IfSome result (λ values. length values.now ≤ 4096) }
    ensures met { OnSome result (IsOptional (IsArrayOf 0 4096) (named name.now (table (table_view fields.now)))) }
    ensures unmet { IfNone result (¬ IsOptional (IsArrayOf 0 4096) (named name.now (table (table_view fields.now)))) }
{
    let values = elements_or_none(fields, name)?;
    (values.len() <= MOST_TABLES).then_some(values)
}
