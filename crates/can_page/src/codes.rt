//! The numbers of fields on the page.
ghost use Rattle.std.specs.Prelude.{◌≡◌};
ghost use Rattle.can_page.specs.Codes.{field_code as field_code_of};

use can_fields::Field;

/// Returns the number of a field.
pub(crate) fn field_code(field: Field) -> u8
    ensures { result ≡ field_code_of field }
{
    match field {
        Field::StartOfFrame => 0,
        Field::Identifier => 1,
        Field::RemoteOrSubstitute => 2,
        Field::RemoteRequest => 3,
        Field::SubstituteRequest => 4,
        Field::IdentifierExtension => 5,
        Field::ReservedOne => 6,
        Field::ReservedZero => 7,
        Field::DataLength => 8,
        Field::Data => 9,
        Field::CheckSequence => 10,
        Field::CheckDelimiter => 11,
        Field::AckSlot => 12,
        Field::AckDelimiter => 13,
        Field::EndOfFrame => 14,
    }
}
