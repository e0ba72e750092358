ghost use Rattle.std.specs.Prelude.{◌≡◌, ◌+◌, ◌≤◌, length};
ghost use Rattle.can_wire.specs.Layout.{dlc_of, extended_of, remote_of, rtr_place as rtr_place_of};
ghost use Rattle.can_frame.specs.Parts.{byte_count as byte_count_of};
ghost use Rattle.can_fields.specs.Fields.{field_at as field_at_of, field_from_rtr};

use can_code::{FrameBits, rtr_place};

/// A part of a frame, from the start of frame to the end of frame. (Bosch CAN 2.0 part B, section 3.2.1)
#[derive(Clone, Copy, Debug, Default, PartialEq, Eq)]
pub enum Field {
    /// The start of frame (SOF).
    #[default]
    StartOfFrame,
    /// The identifier: all of a standard one; of an extended one the eleven highest bits, and the others after the
    /// IDE bit.
    Identifier,
    /// The bit after the first eleven bits of the identifier, if the levels end before the IDE bit. Only the IDE
    /// bit shows whether it is the RTR or the SRR bit.
    RemoteOrSubstitute,
    /// The RTR bit.
    RemoteRequest,
    /// The SRR bit of an extended frame.
    SubstituteRequest,
    /// The IDE bit.
    IdentifierExtension,
    /// The reserved bit r1 of an extended frame.
    ReservedOne,
    /// The reserved bit r0.
    ReservedZero,
    /// The data length code.
    DataLength,
    /// The data bytes.
    Data,
    /// The CRC sequence.
    CheckSequence,
    /// The CRC delimiter.
    CheckDelimiter,
    /// The ACK slot.
    AckSlot,
    /// The ACK delimiter.
    AckDelimiter,
    /// The end of frame.
    EndOfFrame,
}

/// The place of the IDE bit.
const IDE_PLACE: usize = 13;

/// Returns the field of an unstuffed place, in the frame that begins with these levels. The start of frame has
/// place 0. (Bosch CAN 2.0 part B, section 3.2.1)
pub fn field_at<B: FrameBits>(bits: &B, place: usize) -> Field
    requires { place ≤ length (B.levels bits.now) }
    ensures { result ≡ field_at_of (B.levels bits.now) place }
{
    match place {
        0 => Field::StartOfFrame,
        1..=11 => Field::Identifier,
        12 => behind_identifier(bits),
        13 => Field::IdentifierExtension,
        _ => field_behind_ide(bits, place),
    }
}

/// The field at place 12.
fn behind_identifier<B: FrameBits>(bits: &B) -> Field
    ensures { result ≡ field_at_of (B.levels bits.now) 12 }
{
    if bits.len() <= IDE_PLACE {
        Field::RemoteOrSubstitute
    } else if bits.level_at(IDE_PLACE).is_recessive() {
        Field::SubstituteRequest
    } else {
        Field::RemoteRequest
    }
}

/// The field of a place after the IDE bit.
fn field_behind_ide<B: FrameBits>(bits: &B, place: usize) -> Field
    requires behind { 14 ≤ place }
    requires within { place ≤ length (B.levels bits.now) }
    ensures { result ≡ field_from_rtr (B.levels bits.now) (rtr_place_of (extended_of (B.levels bits.now))) place }
{
    let rtr = rtr_place(bits.level_at(IDE_PLACE).is_recessive());
    if place < rtr {
        Field::Identifier
    } else if place == rtr {
        Field::RemoteRequest
    } else if place == rtr + 1 {
        Field::ReservedOne
    } else if place == rtr + 2 {
        Field::ReservedZero
    } else if place < rtr + 7 {
        Field::DataLength
    } else if place < rtr + 7 + 8 * byte_count(bits, rtr) {
        Field::Data
    } else {
        Field::CheckSequence
    }
}

/// The number of data bytes of the frame whose RTR bit is at this place.
fn byte_count<B: FrameBits>(bits: &B, rtr: usize) -> usize
    requires place { rtr ≡ rtr_place_of (extended_of (B.levels bits.now)) }
    requires within { rtr + 7 ≤ length (B.levels bits.now) }
    ensures value { result ≡ byte_count_of (remote_of (B.levels bits.now)) (dlc_of (B.levels bits.now)) }
    ensures range { result ≤ 8 }
{
    if bits.level_at(rtr).is_recessive() {
        0
    } else {
        (bits.number_at(rtr + 3, 4) as usize).min(8)
    }
}
