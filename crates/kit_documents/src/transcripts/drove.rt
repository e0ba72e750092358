//! The levels that a controller drove.
ghost use Rattle.std.specs.Prelude.{◌≡◌, ◌≤◌, codes, length, map, IfNone, IfOk, IfSome, IsErrOf, OnOk, OnSome};
ghost use Rattle.toml.specs.Data.{table};
ghost use Rattle.toml.specs.View.{table_view, view};
ghost use Rattle.kit_documents.specs.declared.field.KitField.{KitField as Wrong};
ghost use Rattle.document_values.specs.Demands.{AllMet, IsFirstUnmet};
ghost use Rattle.document_values.specs.Values.{named, IsRequired};
ghost use Rattle.kit_documents.specs.Lists.{IsArrayOf, SayStrings};
ghost use Rattle.kit_documents.specs.Transcripts.{drove_demands, drove_of, most_levels};

use crate::elements::ElementFault;
use crate::fault::KitFault;
use crate::field::TranscriptField;
use crate::strings::{MOST_STRINGS, read_strings};
use crate::tables::array_of;
use can_frame::Level;
use document_values::field;
use std::alloc::Global;
use toml::{Table, Value};

/// A transcript has at most this number of levels.
const MOST_LEVELS: usize = 100_000;

/// Reads the driven levels of the transcript with this number from its fields.
pub(crate) fn read_drove(
    alloc: Global,
    number: usize,
    fields: &Table,
) -> Result<Vec<Level>, KitFault>
    ensures said { IfOk result (λ levels. SayStrings (drove_of (table (table_view fields.now))) levels.items) }
    ensures few { IfOk result (λ levels. length levels.items ≤ most_levels) }
    ensures met { OnOk result (AllMet (drove_demands number (table (table_view fields.now)))) }
    ensures unmet { (wrong : Wrong) → IsErrOf result (KitFault.Field wrong) → IsFirstUnmet wrong (drove_demands number (table (table_view fields.now))) }
{
    let Some(values) = strings_in(fields) else {
        return Err(KitFault::in_transcript(number, TranscriptField::Drove));
    };
    // One level more than allowed is enough to show that there are too many.
    let levels = match read_strings(alloc, MOST_LEVELS + 1, values) {
        Ok(levels) => levels,
        Err(ElementFault::At(place)) => {
            return Err(KitFault::in_transcript(number, TranscriptField::Levels(place)));
        }
        Err(ElementFault::Memory) => return Err(KitFault::Memory),
    };
    if levels.len() > MOST_LEVELS {
        return Err(KitFault::in_transcript(number, TranscriptField::Drove));
    }
    Ok(levels)
}

/// The strings of the levels: at most 4096.
fn strings_in(fields: &Table) -> Option<&[Value]>
    ensures said { IfSome result (λ values. map view values.now ≡ drove_of (table (table_view fields.now))) }
    ensures met { OnSome result (IsRequired (IsArrayOf 0 4096) (named (codes "drove") (table (table_view fields.now)))) }
    ensures unmet { IfNone result (¬ IsRequired (IsArrayOf 0 4096) (named (codes "drove") (table (table_view fields.now)))) }
{
    array_of(field(fields, "drove")?, 0, MOST_STRINGS)
}
