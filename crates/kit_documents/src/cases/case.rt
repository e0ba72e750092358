//! Cases, and the list of cases of a document.
ghost use Rattle.std.specs.Prelude.{◌≡◌, ◌≢◌, ◌≤◌, [], All, codes, length, map, IfOk, IsErrOf, MatchBool, OnOk};
ghost use Rattle.toml.specs.Data.{table};
ghost use Rattle.toml.specs.View.{table_view, view};
ghost use Rattle.kit_documents.specs.declared.field.KitField.{KitField as Wrong};
ghost use Rattle.document_values.specs.Demands.{AllMet, IsFirstUnmet};
ghost use Rattle.document_values.specs.Values.{elements_in, named, ArePaired};
ghost use Rattle.kit_documents.specs.Cases.{case_demands, cases_demands, case_fields_demands, longest_case, NeedsAll, SaysCase};
ghost use Rattle.kit_documents.specs.CaseWords.{SaysNeeds};

use crate::cases::earlier::Earlier;
use crate::cases::head::read_head;
use crate::cases::naming::read_name;
use crate::cases::tester::read_tester;
use crate::cases::timed::read_lists;
use crate::cases::words::{Choice, Needs};
use crate::fault::KitFault;
use crate::field::CaseField;
use can_terms::Script;
use document_values::{elements_or_none, fields_of, has_only};
use std::alloc::Global;
use toml::{Table, Value};

/// The fields that a case may have.
const CASE_FIELDS: [&str; 12] = [
    "version", "name", "family", "purpose", "start", "needs", "choices", "bits", "tester",
    "offers", "holds", "forced",
];

/// A case of a document. It has no expected result, which follows from its script.
#[derive(Debug, Drop)]
pub struct Case {
    /// 1 to 80 letters from a to z, digits and hyphens.
    pub name: String,
    /// What a test bench must be able to do.
    pub needs: Needs,
    /// The choices that the expected result depends on.
    pub choices: Vec<Choice>,
    pub script: Script,
}

/// Reads the cases in the array `case` of a document, in order.
///
/// The error is `Field` with the first invalid field, or `Memory` if an allocation failed.
pub fn read_cases(alloc: Global, values: &[Value]) -> Result<Vec<Case>, KitFault>
    ensures said { IfOk result (λ cases. ArePaired SaysCase (map view values.now) cases.items) }
    ensures short { IfOk result (λ cases. All (λ one. length one.script.tester.items ≤ longest_case) cases.items) }
    ensures met { OnOk result (AllMet (cases_demands (map view values.now))) }
    ensures unmet { (wrong : Wrong) → IsErrOf result (KitFault.Field wrong) → IsFirstUnmet wrong (cases_demands (map view values.now)) }
{
    let mut cases = Vec::new(alloc);
    let mut earlier = Earlier::none(alloc, values.len());
    for (number, value) in values.iter().enumerate() {
        cases.push(read_behind(alloc, &earlier, number, value)?)?;
        earlier.add(&values[..number + 1], value)?;
    }
    Ok(cases)
}

/// Reads the case with this number from its table. `earlier` are the tables of the cases before it, whose names it may
/// not have.
///
/// - `version`: 1
/// - `family` and `name`: letters from a to z, digits and hyphens
/// - `purpose`: one line
/// - `start`: `idle` or `joining`
/// - `needs` and `choices`: arrays of words
/// - `bits`: the number of bit times, 1 to 100000
/// - `tester`: an array of strings of levels
/// - `offers`: arrays of a time and a frame text
/// - `holds`: arrays of a time and a number from 0 to 2
/// - `forced`: an array of times
///
/// Times are bit times, counted from 0 and below `bits`. `purpose`, `needs`, `choices`, `offers`, `holds` and `forced`
/// may be left out.
///
/// The error is `Field` with the first invalid field, or `Memory` if an allocation failed. The returned case owns all
/// memory that it needs.
pub fn read_case(
    alloc: Global,
    earlier: &[Value],
    number: usize,
    value: &Value,
) -> Result<Case, KitFault>
    ensures said { IfOk result (SaysCase (view value.now)) }
    ensures short { IfOk result (λ one. length one.script.tester.items ≤ longest_case) }
    ensures met { OnOk result (AllMet (case_demands (map view earlier.now) number (view value.now))) }
    ensures unmet { (wrong : Wrong) → IsErrOf result (KitFault.Field wrong) → IsFirstUnmet wrong (case_demands (map view earlier.now) number (view value.now)) }
{
    read_behind(alloc, &Earlier::of(earlier), number, value)
}

/// Reads the case with this number from its table, after these cases.
fn read_behind(
    alloc: Global,
    earlier: &Earlier<'_>,
    number: usize,
    value: &Value,
) -> Result<Case, KitFault>
    ensures said { IfOk result (SaysCase (view value.now)) }
    ensures short { IfOk result (λ one. length one.script.tester.items ≤ longest_case) }
    ensures met { OnOk result (AllMet (case_demands (map view earlier.now.tables.now) number (view value.now))) }
    ensures unmet { (wrong : Wrong) → IsErrOf result (KitFault.Field wrong) → IsFirstUnmet wrong (case_demands (map view earlier.now.tables.now) number (view value.now)) }
{
    let Some(fields) = fields_of(value) else {
        return Err(KitFault::in_case(number, CaseField::Table));
    };
    read_fields(alloc, earlier, number, fields)
}

/// Reads the case with this number from its fields, after these cases.
fn read_fields(
    alloc: Global,
    earlier: &Earlier<'_>,
    number: usize,
    fields: &Table,
) -> Result<Case, KitFault>
    ensures said { IfOk result (SaysCase (table (table_view fields.now))) }
    ensures short { IfOk result (λ one. length one.script.tester.items ≤ longest_case) }
    ensures met { OnOk result (AllMet (case_fields_demands (map view earlier.now.tables.now) number (table (table_view fields.now)))) }
    ensures unmet { (wrong : Wrong) → IsErrOf result (KitFault.Field wrong) → IsFirstUnmet wrong (case_fields_demands (map view earlier.now.tables.now) number (table (table_view fields.now))) }
{
    if !has_only(fields, &CASE_FIELDS) {
        return Err(KitFault::in_case(number, CaseField::Unknown));
    }
    let name = read_name(earlier, number, fields)?;
    let head = read_head(alloc, number, fields)?;
    let levels = read_tester(alloc, number, head.bits, fields)?;
    let lists = read_lists(alloc, number, head.bits, &levels, fields)?;
    if !has_all(head.needs, fields) {
        return Err(KitFault::in_case(number, CaseField::Needs));
    }
    Ok(Case {
        name: String::from_str(alloc, name)?,
        needs: head.needs,
        choices: head.choices,
        script: Script {
            start: head.start,
            tester: lists.tester,
            offers: lists.offers,
            holds: lists.holds,
        },
    })
}

/// Whether the needs include all that the lists of the case require of a test bench.
fn has_all(needs: Needs, fields: &Table) -> bool
    requires { SaysNeeds (named (codes "needs") (table (table_view fields.now))) needs }
    ensures { MatchBool result (NeedsAll (table (table_view fields.now)) needs) (¬ NeedsAll (table (table_view fields.now)) needs) }
{
    (needs.forced || is_left_empty(fields, "forced"))
        && (needs.hold || is_left_empty(fields, "holds"))
}

/// Whether a list of the case is empty or left out.
fn is_left_empty(fields: &Table, name: &str) -> bool
    ensures { MatchBool result (elements_in (named name.now (table (table_view fields.now))) ≡ []) (elements_in (named name.now (table (table_view fields.now))) ≢ []) }
{
    match elements_or_none(fields, name) {
        Some(values) => values.is_empty(),
        None => true,
    }
}
