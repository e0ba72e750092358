//! Transcripts of a document.
ghost use Rattle.std.specs.Prelude.{◌≡◌, All, Some, codes, map, IfOk, IsErrOf, OnOk};
ghost use Rattle.toml.specs.Data.{table};
ghost use Rattle.toml.specs.View.{table_view, view};
ghost use Rattle.can_terms.specs.Cases.{IsTold};
ghost use Rattle.kit_documents.specs.declared.field.KitField.{KitField as Wrong};
ghost use Rattle.document_values.specs.Demands.{AllMet, IsFirstUnmet};
ghost use Rattle.document_values.specs.Values.{named, ArePaired, IsRequired};
ghost use Rattle.kit_documents.specs.Cases.{case_name};
ghost use Rattle.kit_documents.specs.CaseWords.{IsText};
ghost use Rattle.kit_documents.specs.Elements.{SaysEnd, SaysIfThere};
ghost use Rattle.kit_documents.specs.Transcripts.{end_demands, transcript_naming_demands, place_where, telling_demands, transcript_demands, transcripts_demands, SaysTelling, SaysTranscript};

use crate::fault::KitFault;
use crate::field::TranscriptField;
use crate::tables::is_of_version_one;
use crate::transcripts::drove::read_drove;
use crate::transcripts::elements::end_in;
use crate::transcripts::known::Known;
use crate::transcripts::lists::{TranscriptList, read_list};
use crate::transcripts::naming::case_in;
use can_terms::{Ending, Transcript};
use document_values::{field, fields_of, has_only};
use std::alloc::Global;
use toml::{Table, Value};

/// The fields that a transcript may have.
const TRANSCRIPT_FIELDS: [&str; 6] = ["version", "case", "drove", "events", "counters", "end"];

/// A transcript of a document.
#[derive(Debug, Drop)]
pub struct Told {
    /// The number of its case in the document, counted from 0.
    pub case: usize,
    pub transcript: Transcript,
}

/// Reads the transcripts of a document, each of one of these cases, and at most one of each.
///
/// The error is `Field` with the first invalid field, or `Memory` if an allocation failed.
pub fn read_transcripts(
    alloc: Global,
    cases: &[Value],
    values: &[Value],
) -> Result<Vec<Told>, KitFault>
    ensures said { IfOk result (λ read. ArePaired (SaysTranscript (map view cases.now)) (map view values.now) read.items) }
    ensures told { IfOk result (λ read. All (λ one. IsTold one.transcript) read.items) }
    ensures met { OnOk result (AllMet (transcripts_demands (map view cases.now) (map view values.now))) }
    ensures unmet { (wrong : Wrong) → IsErrOf result (KitFault.Field wrong) → IsFirstUnmet wrong (transcripts_demands (map view cases.now) (map view values.now)) }
{
    let mut read = Vec::new(alloc);
    let mut known = Known::of(cases, &[]);
    for (number, value) in values.iter().enumerate() {
        known.keep_where_it_pays(alloc);
        let told = read_behind(alloc, &known, number, value)?;
        known.add(&values[..number + 1], value, told.case);
        read.push(told)?;
    }
    Ok(read)
}

/// Reads the transcript with this number from its table. It must belong to one of these cases, and to none that an
/// earlier transcript belongs to.
///
/// The error is `Field` with the first invalid field, or `Memory` if an allocation failed.
pub fn read_transcript(
    alloc: Global,
    cases: &[Value],
    earlier: &[Value],
    number: usize,
    value: &Value,
) -> Result<Told, KitFault>
    ensures said { IfOk result (SaysTranscript (map view cases.now) (view value.now)) }
    ensures told { IfOk result (λ read. IsTold read.transcript) }
    ensures met { OnOk result (AllMet (transcript_demands (map view cases.now) (map view earlier.now) number (view value.now))) }
    ensures unmet { (wrong : Wrong) → IsErrOf result (KitFault.Field wrong) → IsFirstUnmet wrong (transcript_demands (map view cases.now) (map view earlier.now) number (view value.now)) }
{
    read_behind(alloc, &Known::of(cases, earlier), number, value)
}

/// Reads the transcript with this number from its table.
fn read_behind(
    alloc: Global,
    known: &Known<'_>,
    number: usize,
    value: &Value,
) -> Result<Told, KitFault>
    ensures said { IfOk result (SaysTranscript (map view known.now.cases.now) (view value.now)) }
    ensures told { IfOk result (λ read. IsTold read.transcript) }
    ensures met { OnOk result (AllMet (transcript_demands (map view known.now.cases.now) (map view known.now.earlier.now) number (view value.now))) }
    ensures unmet { (wrong : Wrong) → IsErrOf result (KitFault.Field wrong) → IsFirstUnmet wrong (transcript_demands (map view known.now.cases.now) (map view known.now.earlier.now) number (view value.now)) }
{
    let Some(fields) = fields_of(value) else {
        return Err(KitFault::in_transcript(number, TranscriptField::Table));
    };
    let case = read_case(known, number, fields)?;
    let transcript = read_telling(alloc, number, fields)?;
    Ok(Told { case, transcript })
}

/// Reads which case the transcript with this number belongs to.
fn read_case(known: &Known<'_>, number: usize, fields: &Table) -> Result<usize, KitFault>
    ensures said { IfOk result (λ place. IsRequired (IsText (λ name. place_where case_name name (map view known.now.cases.now) ≡ Some place)) (named (codes "case") (table (table_view fields.now)))) }
    ensures met { OnOk result (AllMet (transcript_naming_demands (map view known.now.cases.now) (map view known.now.earlier.now) number (table (table_view fields.now)))) }
    ensures unmet { (wrong : Wrong) → IsErrOf result (KitFault.Field wrong) → IsFirstUnmet wrong (transcript_naming_demands (map view known.now.cases.now) (map view known.now.earlier.now) number (table (table_view fields.now))) }
{
    if !has_only(fields, &TRANSCRIPT_FIELDS) {
        return Err(KitFault::in_transcript(number, TranscriptField::Unknown));
    }
    if !is_of_version_one(fields) {
        return Err(KitFault::in_transcript(number, TranscriptField::Version));
    }
    case_in(known, fields).ok_or(KitFault::in_transcript(number, TranscriptField::Case))
}

/// Reads what the transcript with this number lists of the run of its case.
fn read_telling(alloc: Global, number: usize, fields: &Table) -> Result<Transcript, KitFault>
    ensures said { IfOk result (SaysTelling (table (table_view fields.now))) }
    ensures told { IfOk result IsTold }
    ensures met { OnOk result (AllMet (telling_demands number (table (table_view fields.now)))) }
    ensures unmet { (wrong : Wrong) → IsErrOf result (KitFault.Field wrong) → IsFirstUnmet wrong (telling_demands number (table (table_view fields.now))) }
{
    let drove = read_drove(alloc, number, fields)?;
    let events = read_list(alloc, TranscriptList::Events, number, fields)?;
    let counters = read_list(alloc, TranscriptList::Counters, number, fields)?;
    let end = read_end(number, fields)?;
    Ok(Transcript {
        drove,
        events,
        counters,
        end,
    })
}

/// Reads the end of the transcript with this number; `None` if it is left out.
fn read_end(number: usize, fields: &Table) -> Result<Option<Ending>, KitFault>
    ensures said { IfOk result (SaysIfThere SaysEnd (named (codes "end") (table (table_view fields.now)))) }
    ensures met { OnOk result (AllMet (end_demands number (table (table_view fields.now)))) }
    ensures unmet { (wrong : Wrong) → IsErrOf result (KitFault.Field wrong) → IsFirstUnmet wrong (end_demands number (table (table_view fields.now))) }
{
    let Some(value) = field(fields, "end") else {
        return Ok(None);
    };
    match end_in(value) {
        Some(end) => Ok(Some(end)),
        None => Err(KitFault::in_transcript(number, TranscriptField::End)),
    }
}
