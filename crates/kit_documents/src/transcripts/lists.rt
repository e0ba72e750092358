//! The lists of a transcript: events and counters, each with its time.
ghost use Rattle.std.specs.Prelude.{◌≡◌, IfOk, IsErrOf, OnOk};
ghost use Rattle.toml.specs.Data.{table};
ghost use Rattle.toml.specs.View.{table_view};
ghost use Rattle.kit_documents.specs.declared.field.KitField.{KitField as Wrong};
ghost use Rattle.document_values.specs.Demands.{AllMet, IsFirstUnmet};
ghost use Rattle.document_values.specs.Values.{elements, named, ArePaired};
ghost use Rattle.kit_documents.specs.Elements.{transcript_element_field, transcript_list_demands, transcript_list_field, transcript_list_name, SaysIfThere};

use crate::elements::{Element, ElementFault, read_elements};
use crate::fault::KitFault;
use crate::field::TranscriptField;
use crate::tables::array_of;
use document_values::field;
use std::alloc::Global;
use toml::Table;

/// A list has at most this number of elements.
const MOST_ELEMENTS: usize = 100_000;

/// All times are below this one. So a time may be after the last bit time of the longest case: an event there is
/// judged.
const TIME_END: u32 = 100_001;

/// The times of successive elements differ by at least this.
const APART: u8 = 1;

/// The lists of a transcript.
#[derive(Clone, Copy, Debug, PartialEq, Eq)]
pub(crate) enum TranscriptList {
    Events,
    /// The counters after each bit time that changed one.
    Counters,
}

impl TranscriptList {
    fn name(self) -> &'static str
        ensures { result.now ≡ transcript_list_name self }
    {
        match self {
            TranscriptList::Events => "events",
            TranscriptList::Counters => "counters",
        }
    }

    /// The list, as errors name it.
    fn field(self) -> TranscriptField
        ensures { result ≡ transcript_list_field self }
    {
        match self {
            TranscriptList::Events => TranscriptField::Events,
            TranscriptList::Counters => TranscriptField::Counters,
        }
    }

    /// The element with this number, as errors name it.
    fn element(self, place: usize) -> TranscriptField
        ensures { result ≡ transcript_element_field self place }
    {
        match self {
            TranscriptList::Events => TranscriptField::Event(place),
            TranscriptList::Counters => TranscriptField::Change(place),
        }
    }
}

/// Reads a list of the transcript with this number from its fields; `None` if it is left out.
pub(crate) fn read_list<T: Element<TranscriptList>>(
    alloc: Global,
    list: TranscriptList,
    number: usize,
    fields: &Table,
) -> Result<Option<Vec<T>>, KitFault>
    ensures said { IfOk result (λ read. SaysIfThere (λ told elements_said. ArePaired T.says (elements told) elements_said.items) (named (transcript_list_name list) (table (table_view fields.now))) read) }
    ensures met { OnOk result (AllMet (transcript_list_demands list T.says number (table (table_view fields.now)))) }
    ensures unmet { (wrong : Wrong) → IsErrOf result (KitFault.Field wrong) → IsFirstUnmet wrong (transcript_list_demands list T.says number (table (table_view fields.now))) }
{
    let Some(value) = field(fields, list.name()) else {
        return Ok(None);
    };
    let Some(values) = array_of(value, 0, MOST_ELEMENTS) else {
        return Err(KitFault::in_transcript(number, list.field()));
    };
    match read_elements(alloc, values, TIME_END, APART) {
        Ok(read) => Ok(Some(read)),
        Err(ElementFault::At(place)) => Err(KitFault::in_transcript(number, list.element(place))),
        Err(ElementFault::Memory) => Err(KitFault::Memory),
    }
}
