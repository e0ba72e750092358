//! The names of messages.
ghost use Rattle.std.specs.Prelude.{◌≡◌, ◌↔◌, ℕ, codes, length, IfNone, IfSome, IsErrOf, IsTrue, OnOk, OnSome};
ghost use Rattle.std.specs.List.{list_all, list_any};
ghost use Rattle.toml.specs.Data.{table};
ghost use Rattle.toml.specs.View.{table_view};
ghost use Rattle.document_values.specs.Values.{named, IsOptional};
ghost use Rattle.can_plan_text.specs.declared.field.PlanField.{PlanField as Wrong};
ghost use Rattle.can_plan_text.specs.Names.{name_bytes, is_name_byte as is_of_name, IsMessageName, IsNameValue, SaysName};
ghost use Rattle.can_plan_text.specs.Order.{is_named, is_one_name as are_one_name, HaveOwnNames, IsNamedAgain};

use crate::fault::PlanFault;
use crate::field::MessageField;
use crate::name::{LONGEST_NAME, Name};
use crate::plan::Planned;
use document_values::field;
use toml::Table;

/// Returns the name in the fields of a message, if they have one. `None`: the field is wrong.
pub(crate) fn name(fields: &Table) -> Option<Option<Name>>
    ensures said { IfSome result (SaysName (named (codes "name") (table (table_view fields.now)))) }
    ensures met { OnSome result (IsOptional IsNameValue (named (codes "name") (table (table_view fields.now)))) }
    ensures unmet { IfNone result (¬ IsOptional IsNameValue (named (codes "name") (table (table_view fields.now)))) }
{
    let Some(value) = field(fields, "name") else {
        return Some(None);
    };
    Some(Some(name_of(value.as_str()?)?))
}

/// Returns the name with this text, or `None` if it is not one.
fn name_of(text: &str) -> Option<Name>
    ensures said { IfSome result (λ name. name_bytes name ≡ text.now) }
    ensures met { OnSome result (IsMessageName text.now) }
    ensures unmet { IfNone result (¬ IsMessageName text.now) }
{
    if !is_name(text) {
        return None;
    }
    Some(Name::of(text.as_bytes()))
}

/// Returns whether a text is 1 to 64 printable characters of ASCII, none of them a quotation mark or a backslash.
fn is_name(text: &str) -> bool
    ensures { IsTrue result ↔ IsMessageName text.now }
{
    !text.is_empty() && text.len() <= LONGEST_NAME && are_of_names(text.as_bytes())
}

/// Returns whether all of these are such characters.
fn are_of_names(bytes: &[u8]) -> bool
    ensures { result ≡ list_all is_of_name bytes.now }
{
    bytes.iter().all(|byte| is_name_byte(*byte))
}

/// Returns whether this is such a character.
fn is_name_byte(byte: u8) -> bool
    ensures { result ≡ is_of_name byte }
{
    matches!(byte, b' '..=b'!' | b'#'..=b'[' | b']'..=b'~')
}

/// Refuses the first message that has the name of an earlier one.
pub(crate) fn refuse_same_names(listed: &[Planned]) -> Result<(), PlanFault>
    ensures apart { OnOk result (HaveOwnNames (length listed.now) listed.now) }
    ensures repeated { (wrong : Wrong) → IsErrOf result (PlanFault.Field wrong) → IsNamedAgain wrong listed.now }
{
    for (place, planned) in listed.iter().enumerate() {
        if is_named_before(&listed[..place], planned) {
            return Err(PlanFault::of_message(place, MessageField::RepeatedName));
        }
    }
    Ok(())
}

/// Returns whether one of these messages has the name of this one.
fn is_named_before(earlier: &[Planned], planned: &Planned) -> bool
    ensures { result ≡ list_any (λ other. are_one_name planned.now.name other.name) earlier.now }
{
    earlier.iter().any(|other| have_one_name(planned, other))
}

/// Returns whether both have a name, and the same.
fn have_one_name(planned: &Planned, other: &Planned) -> bool
    ensures { result ≡ are_one_name planned.now.name other.now.name }
{
    match &planned.name {
        Some(name) => has_name(other, name.as_bytes()),
        None => false,
    }
}

/// Returns whether a message has this name.
fn has_name(planned: &Planned, name: &[u8]) -> bool
    ensures { result ≡ is_named planned.now.name name.now }
{
    match &planned.name {
        Some(own) => own.as_bytes() == name,
        None => false,
    }
}
