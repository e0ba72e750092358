//! The messages of a document.
ghost use Rattle.std.specs.Prelude.{◌≡◌, ◌<◌, ◌≤◌, codes, length, map, ℕ, IfNone, IfOk, IfSome, IsErrOf, OnOk, OnSome};
ghost use Rattle.toml.specs.Data.{table};
ghost use Rattle.toml.specs.View.{view, table_view};
ghost use Rattle.can_frame.specs.Parts.{Parts};
ghost use Rattle.can_plan_text.specs.declared.field.PlanField.{PlanField as Wrong};
ghost use Rattle.document_values.specs.Demands.{demands_on_each, AllMet, IsFirstUnmet};
ghost use Rattle.document_values.specs.Values.{named, ArePaired, IsNumber, IsRequired, IsUpTo};
ghost use Rattle.can_plan_text.specs.Times.{bits_down as bits_within};
ghost use Rattle.can_plan_text.specs.Plans.{message_fields_demands, message_demands, IsHead, IsHeadText, IsPeriod, IsPlanned, NamesHead, SaysFields, SaysMessage};

use crate::document::MOST_TIME;
use crate::fault::PlanFault;
use crate::field::MessageField;
use crate::name::Name;
use crate::names::name;
use crate::plan::Planned;
use crate::times::{bits_down, bits_up};
use arrayvec::ArrayVec;
use can_frame::Frame;
use can_longest::LongestWires;
use can_plan::{Message, longest_busy};
use document_values::{field, fields_of, has_only, number, number_or};
use std::alloc::Global;
use toml::{Table, Value};

/// The fields that a message may have.
const MESSAGE_FIELDS: [&str; 6] = ["frame", "dlc", "period", "jitter", "deadline", "name"];

/// The DLC of a message if it is left out.
const USUAL_DLC: u64 = 8;

/// The greatest DLC.
const MOST_DLC: u64 = 15;

/// The length of the longest frame text, in bytes.
const LONGEST_TEXT: usize = 32;

/// Returns the messages in these tables, one after another.
pub(crate) fn read_messages(
    alloc: Global,
    wires: &LongestWires,
    rate: u32,
    tables: &[Value],
) -> Result<Vec<Planned>, PlanFault>
    requires { rate ≤ 1000000 }
    ensures said { IfOk result (λ listed. ArePaired (SaysMessage rate) (map view tables.now) listed.items) }
    ensures met { OnOk result (AllMet (demands_on_each (message_demands rate) 0 (map view tables.now))) }
    ensures unmet { (wrong : Wrong) → IsErrOf result (PlanFault.Field wrong) → IsFirstUnmet wrong (demands_on_each (message_demands rate) 0 (map view tables.now)) }
{
    let mut listed = Vec::new(alloc);
    for (place, value) in tables.iter().enumerate() {
        listed.push(read_message(wires, place, rate, value)?)?;
    }
    Ok(listed)
}

/// Returns the message at this place, which has this table.
fn read_message(
    wires: &LongestWires,
    place: usize,
    rate: u32,
    value: &Value,
) -> Result<Planned, PlanFault>
    requires { rate ≤ 1000000 }
    ensures said { IfOk result (SaysMessage rate (view value.now)) }
    ensures met { OnOk result (AllMet (message_demands rate place (view value.now))) }
    ensures unmet { (wrong : Wrong) → IsErrOf result (PlanFault.Field wrong) → IsFirstUnmet wrong (message_demands rate place (view value.now)) }
{
    let fields = fields_of(value).ok_or(PlanFault::of_message(place, MessageField::Table))?;
    let said = read_fields(place, rate, fields)?;
    Ok(planned(wires, rate, &said))
}

/// The fields of a message. Times are as in the document.
#[derive(Clone, Copy)]
pub(crate) struct Fields {
    pub(crate) head: Frame,
    pub(crate) dlc: u8,
    pub(crate) period: u32,
    pub(crate) jitter: u32,
    pub(crate) deadline: u32,
    pub(crate) name: Option<Name>,
}

/// Reads the fields of the message at this place.
fn read_fields(place: usize, rate: u32, fields: &Table) -> Result<Fields, PlanFault>
    requires { rate ≤ 1000000 }
    ensures said { IfOk result (SaysFields (table (table_view fields.now))) }
    ensures periodic { IfOk result (λ said. 0 < bits_within rate said.period) }
    ensures dlc { IfOk result (λ said. said.dlc < 16) }
    ensures met { OnOk result (AllMet (message_fields_demands rate place (table (table_view fields.now)))) }
    ensures unmet { (wrong : Wrong) → IsErrOf result (PlanFault.Field wrong) → IsFirstUnmet wrong (message_fields_demands rate place (table (table_view fields.now))) }
{
    if !has_only(fields, &MESSAGE_FIELDS) {
        return Err(PlanFault::of_message(place, MessageField::Unknown));
    }
    let head = head(fields).ok_or(PlanFault::of_message(place, MessageField::Frame))?;
    let dlc = number_or(fields, "dlc", USUAL_DLC, MOST_DLC).ok_or(PlanFault::of_message(
        place,
        MessageField::Dlc,
    ))?;
    let period = period(rate, fields).ok_or(PlanFault::of_message(place, MessageField::Period))?;
    let jitter = number_or(fields, "jitter", 0, MOST_TIME).ok_or(PlanFault::of_message(
        place,
        MessageField::Jitter,
    ))?;
    let deadline = number_or(fields, "deadline", u64::from(period), MOST_TIME).ok_or(
        PlanFault::of_message(place, MessageField::Deadline),
    )?;
    let name = name(fields).ok_or(PlanFault::of_message(place, MessageField::Name))?;
    Ok(Fields {
        head,
        dlc: dlc as u8,
        period,
        jitter: jitter as u32,
        deadline: deadline as u32,
        name,
    })
}

/// Returns the frame with DLC 0 that has the identifier and the kind of the message.
fn head(fields: &Table) -> Option<Frame>
    ensures said { IfSome result (NamesHead (table (table_view fields.now))) }
    ensures met { OnSome result (IsRequired IsHead (named (codes "frame") (table (table_view fields.now)))) }
    ensures unmet { IfNone result (¬ IsRequired IsHead (named (codes "frame") (table (table_view fields.now)))) }
{
    head_of(field(fields, "frame")?.as_str()?.as_bytes())
}

/// Returns the frame with DLC 0 whose text is this one, with a space and `0` appended.
pub fn head_of(text: &[u8]) -> Option<Frame>
    ensures said { IfSome result (IsHeadText text.now) }
    ensures unmet { IfNone result (¬ ((f : Parts) × IsHeadText text.now f)) }
{
    let mut whole = ArrayVec::<u8, LONGEST_TEXT>::new();
    whole.try_extend_from_slice(text).ok()?;
    whole.try_extend_from_slice(b" 0").ok()?;
    Frame::from_text(&whole).ok()
}

/// Returns the period, which is at least one bit time.
fn period(rate: u32, fields: &Table) -> Option<u32>
    requires { rate ≤ 1000000 }
    ensures said { IfSome result (λ period. IsRequired (IsNumber period) (named (codes "period") (table (table_view fields.now)))) }
    ensures some { IfSome result (λ period. 0 < bits_within rate period) }
    ensures met { OnSome result (IsRequired (IsPeriod rate) (named (codes "period") (table (table_view fields.now)))) }
    ensures unmet { IfNone result (¬ IsRequired (IsPeriod rate) (named (codes "period") (table (table_view fields.now)))) }
{
    let said = number(field(fields, "period")?, MOST_TIME)? as u32;
    (bits_down(rate, said) > 0).then_some(said)
}

/// Returns the message with these fields, in whole bit times.
fn planned(wires: &LongestWires, rate: u32, said: &Fields) -> Planned
    requires slow { rate ≤ 1000000 }
    requires dlc { said.now.dlc < 16 }
    requires periodic { 0 < bits_within rate said.now.period }
    ensures { IsPlanned rate said.now result }
{
    Planned {
        head: said.head,
        dlc: said.dlc,
        message: Message {
            field: said.head.key(),
            longest: longest_busy(wires, said.head.id(), said.head.is_remote(), said.dlc),
            period: bits_down(rate, said.period),
            jitter: bits_up(rate, said.jitter),
        },
        deadline: bits_down(rate, said.deadline),
        name: said.name,
    }
}
