//! The document of a network, and its fields at the top.
ghost use Rattle.std.specs.Prelude.{◌≡◌, ◌≤◌, length, map, codes, IfNone, IfOk, IfSome, IsErrOf, IsFalse, IsTrue, OnOk, OnSome};
ghost use Rattle.toml.specs.Data.{table};
ghost use Rattle.toml.specs.View.{view, table_view};
ghost use Rattle.can_plan_text.specs.declared.field.PlanField.{PlanField as Wrong};
ghost use Rattle.document_values.specs.Demands.{AllMet, IsFirstUnmet};
ghost use Rattle.document_values.specs.Refusals.{IsNoDocument};
ghost use Rattle.document_values.specs.Values.{named, IsDocument, IsNumber, IsOptional, IsRequired, SaysNumber};
ghost use Rattle.can_plan_text.specs.Plans.{errors_demands, messages_in, most_rate, longest_time, rate_demands, rate_in, table_demands, plan_top_demands, IsMessageArray, IsSpacing, SaysErrors, SaysHitRate, SaysSpacing};

use crate::fault::PlanFault;
use crate::field::PlanField;
use crate::times::bits_down;
use can_plan::HitRate;
use document_values::{
    DocumentFault, elements_of, field, fields_of, has_only, number, number_or, read_document,
};
use std::alloc::Global;
use toml::{Table, Value};

/// The fields that a document may have.
const TOP_FIELDS: [&str; 4] = ["version", "rate", "errors", "message"];

/// The fields that its table of errors may have.
const ERROR_FIELDS: [&str; 2] = ["burst", "spacing"];

/// The highest bit rate in bits a second: no classical CAN bus has a higher one.
const MOST_RATE: u64 = 1_000_000;

/// The longest time, in microseconds or bit times.
pub(crate) const MOST_TIME: u64 = u32::MAX as u64;

/// The highest number of hits at once.
const MOST_BURST: u64 = u16::MAX as u64;

/// The highest number of messages of a network.
const MOST_MESSAGES: usize = 512;

/// Parses the bytes as a document.
pub(crate) fn parse(alloc: Global, text: &[u8]) -> Result<Table, PlanFault>
    ensures said { IfOk result (λ fields. IsDocument text.now (table (table_view fields))) }
    ensures unmet { (wrong : Wrong) → IsErrOf result (PlanFault.Field wrong) → IsNoDocument PlanField.Document wrong text.now }
{
    match read_document(alloc, text) {
        Ok(document) => Ok(document),
        Err(DocumentFault::Memory) => Err(PlanFault::Memory),
        Err(DocumentFault::NoDocument) => Err(PlanFault::Field(PlanField::Document)),
    }
}

/// The fields at the top.
#[derive(Clone, Copy)]
pub(crate) struct Top<'a> {
    /// The bit rate in bits a second, or 0.
    pub(crate) rate: u32,
    /// The error model, if there is one.
    pub(crate) errors: Option<HitRate>,
    /// The values in the list of messages.
    pub(crate) messages: &'a [Value],
}

/// Reads the fields at the top.
pub(crate) fn read_top(document: &Table) -> Result<Top<'_>, PlanFault>
    ensures rate { IfOk result (λ top. top.rate ≡ rate_in (table (table_view document.now))) }
    ensures slow { IfOk result (λ top. top.rate ≤ 1000000) }
    ensures errors { IfOk result (λ top. SaysErrors (rate_in (table (table_view document.now))) (named (codes "errors") (table (table_view document.now))) top.errors) }
    ensures messages { IfOk result (λ top. map view top.messages.now ≡ messages_in (table (table_view document.now))) }
    ensures few { IfOk result (λ top. length top.messages.now ≤ 512) }
    ensures met { OnOk result (AllMet (plan_top_demands (table (table_view document.now)))) }
    ensures unmet { (wrong : Wrong) → IsErrOf result (PlanFault.Field wrong) → IsFirstUnmet wrong (plan_top_demands (table (table_view document.now))) }
{
    let rate = read_rate(document)?;
    let errors = read_errors(rate, document)?;
    let messages = message_values(document).ok_or(PlanFault::Field(PlanField::Messages))?;
    Ok(Top {
        rate,
        errors,
        messages,
    })
}

/// Reads the fields before the errors, and returns the bit rate, or 0 if it is left out.
fn read_rate(document: &Table) -> Result<u32, PlanFault>
    ensures said { IfOk result (λ rate. rate ≡ rate_in (table (table_view document.now))) }
    ensures within { IfOk result (λ rate. rate ≤ 1000000) }
    ensures met { OnOk result (AllMet (rate_demands (table (table_view document.now)))) }
    ensures unmet { (wrong : Wrong) → IsErrOf result (PlanFault.Field wrong) → IsFirstUnmet wrong (rate_demands (table (table_view document.now))) }
{
    if !has_only(document, &TOP_FIELDS) {
        return Err(PlanFault::Field(PlanField::Unknown));
    }
    if !is_of_version_one(document) {
        return Err(PlanFault::Field(PlanField::Version));
    }
    let rate = number_or(document, "rate", 0, MOST_RATE).ok_or(PlanFault::Field(PlanField::Rate))?;
    Ok(rate as u32)
}

/// Returns whether the document says that it is of version 1 of the format.
fn is_of_version_one(document: &Table) -> bool
    ensures yes { IsTrue result → IsRequired (IsNumber 1) (named (codes "version") (table (table_view document.now))) }
    ensures no { IsFalse result → ¬ IsRequired (IsNumber 1) (named (codes "version") (table (table_view document.now))) }
{
    matches!(field(document, "version"), Some(Value::Integer(1)))
}

/// Returns the error model of the document, if it has one.
fn read_errors(rate: u32, document: &Table) -> Result<Option<HitRate>, PlanFault>
    requires { rate ≤ 1000000 }
    ensures said { IfOk result (SaysErrors rate (named (codes "errors") (table (table_view document.now)))) }
    ensures met { OnOk result (AllMet (errors_demands rate (named (codes "errors") (table (table_view document.now))))) }
    ensures unmet { (wrong : Wrong) → IsErrOf result (PlanFault.Field wrong) → IsFirstUnmet wrong (errors_demands rate (named (codes "errors") (table (table_view document.now)))) }
{
    let Some(value) = field(document, "errors") else {
        return Ok(None);
    };
    let fields = fields_of(value).ok_or(PlanFault::Field(PlanField::Errors))?;
    Ok(Some(read_hit_rate(rate, fields)?))
}

/// Returns the error model in the table of errors.
fn read_hit_rate(rate: u32, fields: &Table) -> Result<HitRate, PlanFault>
    requires { rate ≤ 1000000 }
    ensures said { IfOk result (SaysHitRate rate (table (table_view fields.now))) }
    ensures met { OnOk result (AllMet (table_demands rate (table (table_view fields.now)))) }
    ensures unmet { (wrong : Wrong) → IsErrOf result (PlanFault.Field wrong) → IsFirstUnmet wrong (table_demands rate (table (table_view fields.now))) }
{
    if !has_only(fields, &ERROR_FIELDS) {
        return Err(PlanFault::Field(PlanField::UnknownError));
    }
    let burst = number_or(fields, "burst", 0, MOST_BURST).ok_or(PlanFault::Field(
        PlanField::Burst,
    ))?;
    let spacing = spacing(rate, fields).ok_or(PlanFault::Field(PlanField::Spacing))?;
    Ok(HitRate {
        burst: burst as u16,
        spacing,
    })
}

/// Returns the spacing of hits in bit times, or 0 if it is left out. A spacing above 0 that is less than a bit time is
/// refused: rounded down to 0 it would mean that no more hits come than the burst.
fn spacing(rate: u32, fields: &Table) -> Option<u32>
    requires { rate ≤ 1000000 }
    ensures said { IfSome result (SaysSpacing rate (named (codes "spacing") (table (table_view fields.now)))) }
    ensures met { OnSome result (IsOptional (IsSpacing rate) (named (codes "spacing") (table (table_view fields.now)))) }
    ensures unmet { IfNone result (¬ IsOptional (IsSpacing rate) (named (codes "spacing") (table (table_view fields.now)))) }
{
    let Some(value) = field(fields, "spacing") else {
        return Some(0);
    };
    let said = number(value, MOST_TIME)?;
    let bits = bits_down(rate, said as u32);
    (said == 0 || bits > 0).then_some(bits)
}

/// Returns the values in the list of messages, 1 to 512 of them.
fn message_values(document: &Table) -> Option<&[Value]>
    ensures said { IfSome result (λ values. map view values.now ≡ messages_in (table (table_view document.now))) }
    ensures few { IfSome result (λ values. length values.now ≤ 512) }
    ensures met { OnSome result (IsRequired IsMessageArray (named (codes "message") (table (table_view document.now)))) }
    ensures unmet { IfNone result (¬ IsRequired IsMessageArray (named (codes "message") (table (table_view document.now)))) }
{
    let values = elements_of(field(document, "message")?)?;
    (!values.is_empty() && values.len() <= MOST_MESSAGES).then_some(values)
}
