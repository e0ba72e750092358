//! The lists of a case whose elements have times.
ghost use Rattle.std.specs.Prelude.{◌≡◌, IfOk, IsErrOf, OnOk};
ghost use Rattle.toml.specs.Data.{table};
ghost use Rattle.toml.specs.View.{table_view};
ghost use Rattle.kit_documents.specs.declared.field.KitField.{KitField as Wrong};
ghost use Rattle.document_values.specs.Demands.{AllMet, IsFirstUnmet};
ghost use Rattle.document_values.specs.Values.{elements_in, named, ArePaired};
ghost use Rattle.kit_documents.specs.Lists.{apart as apart_of, case_element_field, case_list_demands, case_list_field, case_list_name, most_case_elements, SaysHold, SaysOffer, SaysTime};

use crate::elements::{Element, ElementFault, read_elements};
use crate::fault::KitFault;
use crate::field::CaseField;
use can_frame::Frame;
use can_terms::Timed;
use document_values::{elements_or_none, frame, number, two_of, whole_number};
use std::alloc::Global;
use toml::{Table, Value};

/// A controller is asked for at most this number of overload frames.
const MOST_WISHED: u64 = 2;

/// The lists of a case.
#[derive(Clone, Copy, Debug, PartialEq, Eq)]
pub(crate) enum CaseList {
    /// Frames to transmit.
    Offers,
    /// Requests for overload frames.
    Holds,
    /// Bit times in which the controller sees a recessive level, whatever it drives.
    Forced,
}

impl CaseList {
    fn name(self) -> &'static str
        ensures { result.now ≡ case_list_name self }
    {
        match self {
            CaseList::Offers => "offers",
            CaseList::Holds => "holds",
            CaseList::Forced => "forced",
        }
    }

    /// The list has at most this number of elements.
    fn most(self) -> usize
        ensures { result ≡ most_case_elements self }
    {
        match self {
            CaseList::Offers | CaseList::Holds => 256,
            CaseList::Forced => 4096,
        }
    }

    /// The times of successive elements differ by at least this.
    fn apart(self) -> u8
        ensures { result ≡ apart_of self }
    {
        match self {
            CaseList::Offers | CaseList::Holds => 0,
            CaseList::Forced => 1,
        }
    }

    /// The list, as errors name it.
    fn field(self) -> CaseField
        ensures { result ≡ case_list_field self }
    {
        match self {
            CaseList::Offers => CaseField::Offers,
            CaseList::Holds => CaseField::Holds,
            CaseList::Forced => CaseField::Forced,
        }
    }

    /// The element with this number, as errors name it.
    pub(crate) fn element(self, place: usize) -> CaseField
        ensures { result ≡ case_element_field self place }
    {
        match self {
            CaseList::Offers => CaseField::Offer(place),
            CaseList::Holds => CaseField::Hold(place),
            CaseList::Forced => CaseField::ForcedTime(place),
        }
    }
}

impl Element<CaseList> for Timed<Frame> {
    ghost says = { SaysOffer };

    fn in_value(value: &Value, time: u32) -> Option<Timed<Frame>> {
        let (first, text) = two_of(value)?;
        let _time = whole_number(first)?;
        let told = frame(text)?;
        Some(Timed { time, told })
    }
}

impl Element<CaseList> for Timed<u8> {
    ghost says = { SaysHold };

    fn in_value(value: &Value, time: u32) -> Option<Timed<u8>> {
        let (first, wished) = two_of(value)?;
        let _time = whole_number(first)?;
        let told = number(wished, MOST_WISHED)? as u8;
        Some(Timed { time, told })
    }
}

impl Element<CaseList> for u32 {
    ghost says = { SaysTime };

    fn in_value(value: &Value, time: u32) -> Option<u32> {
        let _time = whole_number(value)?;
        Some(time)
    }
}

/// Reads a list of the case with this number, which has `bits` bit times.
pub(crate) fn read_list<T: Element<CaseList>>(
    alloc: Global,
    list: CaseList,
    number: usize,
    bits: u32,
    fields: &Table,
) -> Result<Vec<T>, KitFault>
    ensures said { IfOk result (λ read. ArePaired T.says (elements_in (named (case_list_name list) (table (table_view fields.now)))) read.items) }
    ensures met { OnOk result (AllMet (case_list_demands list T.says number bits (table (table_view fields.now)))) }
    ensures unmet { (wrong : Wrong) → IsErrOf result (KitFault.Field wrong) → IsFirstUnmet wrong (case_list_demands list T.says number bits (table (table_view fields.now))) }
{
    let Some(values) = elements_or_none(fields, list.name()) else {
        return Err(KitFault::in_case(number, list.field()));
    };
    if values.len() > list.most() {
        return Err(KitFault::in_case(number, list.field()));
    }
    match read_elements(alloc, values, bits, list.apart()) {
        Ok(read) => Ok(read),
        Err(ElementFault::At(place)) => Err(KitFault::in_case(number, list.element(place))),
        Err(ElementFault::Memory) => Err(KitFault::Memory),
    }
}
