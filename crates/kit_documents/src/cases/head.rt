//! The head of a case: its start, needs, choices and length.
ghost use Rattle.std.specs.Prelude.{◌≤◌, codes, IfNone, IfOk, IfSome, IsErrOf, OnOk, OnSome};
ghost use Rattle.toml.specs.Data.{table};
ghost use Rattle.toml.specs.View.{table_view};
ghost use Rattle.can_terms.specs.declared.script.Start.{Start as StartSaid};
ghost use Rattle.kit_documents.specs.declared.field.KitField.{KitField as Wrong};
ghost use Rattle.document_values.specs.Demands.{AllMet, IsFirstUnmet};
ghost use Rattle.document_values.specs.Values.{named, IsNumber, IsRequired};
ghost use Rattle.kit_documents.specs.CaseWords.{SaysChoices, SaysNeeds, SaysStart};
ghost use Rattle.kit_documents.specs.Cases.{head_demands, longest_case, IsLength};

use crate::cases::words::{Choice, Needs, choices_in, needs_in, start_in};
use crate::fault::KitFault;
use crate::field::CaseField;
use can_terms::Start;
use document_values::{field, required_number};
use std::alloc::Global;
use toml::Table;

/// A case has at most this number of bit times.
const MOST_BITS: u64 = 100_000;

/// Start, needs, choices and number of bit times of a case.
#[derive(Drop)]
pub(crate) struct Head {
    pub(crate) start: Start,
    pub(crate) needs: Needs,
    pub(crate) choices: Vec<Choice>,
    pub(crate) bits: u32,
}

/// Reads the head of the case with this number.
pub(crate) fn read_head(alloc: Global, number: usize, fields: &Table) -> Result<Head, KitFault>
    ensures start { IfOk result (λ head. IsRequired (λ value. SaysStart value head.start) (named (codes "start") (table (table_view fields.now)))) }
    ensures needs { IfOk result (λ head. SaysNeeds (named (codes "needs") (table (table_view fields.now))) head.needs) }
    ensures choices { IfOk result (λ head. SaysChoices (named (codes "choices") (table (table_view fields.now))) head.choices.items) }
    ensures bits { IfOk result (λ head. IsRequired (IsNumber head.bits) (named (codes "bits") (table (table_view fields.now)))) }
    ensures short { IfOk result (λ head. head.bits ≤ longest_case) }
    ensures met { OnOk result (AllMet (head_demands number (table (table_view fields.now)))) }
    ensures unmet { (wrong : Wrong) → IsErrOf result (KitFault.Field wrong) → IsFirstUnmet wrong (head_demands number (table (table_view fields.now))) }
{
    let Some(start) = start_said(fields) else {
        return Err(KitFault::in_case(number, CaseField::Start));
    };
    let Some(needs) = needs_in(fields) else {
        return Err(KitFault::in_case(number, CaseField::Needs));
    };
    let Some(choices) = choices_in(alloc, fields)? else {
        return Err(KitFault::in_case(number, CaseField::Choices));
    };
    let Some(bits) = length_said(fields) else {
        return Err(KitFault::in_case(number, CaseField::Bits));
    };
    Ok(Head {
        start,
        needs,
        choices,
        bits,
    })
}

/// The start in the fields of a case.
fn start_said(fields: &Table) -> Option<Start>
    ensures said { IfSome result (λ start. IsRequired (λ value. SaysStart value start) (named (codes "start") (table (table_view fields.now)))) }
    ensures unmet { IfNone result (¬ IsRequired (λ value. (start : StartSaid) × SaysStart value start) (named (codes "start") (table (table_view fields.now)))) }
{
    start_in(field(fields, "start")?)
}

/// The number of bit times in the fields of a case.
fn length_said(fields: &Table) -> Option<u32>
    ensures said { IfSome result (λ bits. IsRequired (IsNumber bits) (named (codes "bits") (table (table_view fields.now)))) }
    ensures short { IfSome result (λ bits. bits ≤ longest_case) }
    ensures met { OnSome result (IsRequired IsLength (named (codes "bits") (table (table_view fields.now)))) }
    ensures unmet { IfNone result (¬ IsRequired IsLength (named (codes "bits") (table (table_view fields.now)))) }
{
    let bits = required_number(fields, "bits", MOST_BITS)?;
    if bits == 0 {
        return None;
    }
    Some(bits as u32)
}
