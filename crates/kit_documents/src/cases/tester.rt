//! What the tester does in a case: its levels, and the forced bit times.
ghost use Rattle.std.specs.Prelude.{◌≡◌, ◌<◌, All, codes, map, length, IfNone, IfOk, IfSome, IsErrOf, OnOk, OnSome};
ghost use Rattle.toml.specs.Data.{table};
ghost use Rattle.toml.specs.View.{table_view, view};
ghost use Rattle.kit_documents.specs.declared.field.KitField.{KitField as Wrong};
ghost use Rattle.document_values.specs.Demands.{AllMet, IsFirstUnmet};
ghost use Rattle.document_values.specs.Values.{named, IsNumber, IsRequired};
ghost use Rattle.kit_documents.specs.Cases.{tester_level, forced_at, strings_of, tester_demands};
ghost use Rattle.kit_documents.specs.Lists.{IsArrayOf, SayStrings};

use crate::elements::ElementFault;
use crate::fault::KitFault;
use crate::field::CaseField;
use crate::strings::{MOST_STRINGS, read_strings};
use crate::tables::array_of;
use can_frame::Level;
use can_terms::TesterLevel;
use document_values::field;
use std::alloc::{AllocError, Global};
use toml::{Table, Value};

/// Reads the levels that the tester drives in the case with this number, which has `bits` bit times.
pub(crate) fn read_tester(
    alloc: Global,
    number: usize,
    bits: u32,
    fields: &Table,
) -> Result<Vec<Level>, KitFault>
    requires { IsRequired (IsNumber bits) (named (codes "bits") (table (table_view fields.now))) }
    ensures said { IfOk result (λ levels. SayStrings (strings_of (table (table_view fields.now))) levels.items) }
    ensures long { IfOk result (λ levels. length levels.items ≡ bits) }
    ensures met { OnOk result (AllMet (tester_demands number (table (table_view fields.now)))) }
    ensures unmet { (wrong : Wrong) → IsErrOf result (KitFault.Field wrong) → IsFirstUnmet wrong (tester_demands number (table (table_view fields.now))) }
{
    let Some(values) = strings_in(fields) else {
        return Err(KitFault::in_case(number, CaseField::Tester));
    };
    // One level more than bit times is enough to show that there are too many.
    let levels = match read_strings(alloc, bits as usize + 1, values) {
        Ok(levels) => levels,
        Err(ElementFault::At(place)) => {
            return Err(KitFault::in_case(number, CaseField::Levels(place)));
        }
        Err(ElementFault::Memory) => return Err(KitFault::Memory),
    };
    if levels.len() != bits as usize {
        return Err(KitFault::in_case(number, CaseField::Tester));
    }
    Ok(levels)
}

/// The strings of the tester's levels: 1 to 4096.
fn strings_in(fields: &Table) -> Option<&[Value]>
    ensures said { IfSome result (λ values. map view values.now ≡ strings_of (table (table_view fields.now))) }
    ensures met { OnSome result (IsRequired (IsArrayOf 1 4096) (named (codes "tester") (table (table_view fields.now)))) }
    ensures unmet { IfNone result (¬ IsRequired (IsArrayOf 1 4096) (named (codes "tester") (table (table_view fields.now)))) }
{
    array_of(field(fields, "tester")?, 1, MOST_STRINGS)
}

/// What a tester with these levels does, if the bit times at these times are forced.
pub(crate) fn forced_tester(
    alloc: Global,
    levels: &[Level],
    times: &[u32],
) -> Result<Vec<TesterLevel>, AllocError>
    requires { All (λ time. time < length levels.now) times.now }
    ensures { IfOk result (λ does. does.items ≡ forced_at times.now (map tester_level levels.now)) }
{
    let mut does = Vec::new(alloc);
    for level in levels {
        does.push(driven(*level))?;
    }
    force(&mut does, times);
    Ok(does)
}

/// Forces the bit times at these times.
fn force(does: &mut [TesterLevel], times: &[u32])
    requires { All (λ time. time < length does.old) times.now }
    ensures { does.new ≡ forced_at times.now does.old }
{
    for time in times {
        does[*time as usize] = TesterLevel::Forced;
    }
}

/// The tester drives this level.
fn driven(level: Level) -> TesterLevel
    ensures { result ≡ tester_level level }
{
    match level {
        Level::Dominant => TesterLevel::Dominant,
        Level::Recessive => TesterLevel::Recessive,
    }
}
