//! The places of the unstuffed levels of a frame, counted from its start of frame. (Bosch CAN 2.0 part B,
//! section 3.2.1)
ghost use Rattle.std.specs.Prelude.{◌≡◌, ◌⊎◌, ◌↔◌, IsTrue, false, true};
ghost use Rattle.can_wire.specs.Layout.{data_place, rtr_place as rtr_place_of};

/// The number of identifier bits that follow the start of frame: all of a standard identifier, the eleven
/// highest of an extended one.
pub const IDENTIFIER_BITS: usize = 11;

/// The place of the RTR bit of a standard frame.
pub const STANDARD_RTR_PLACE: usize = 12;

/// The place of the SRR bit of an extended frame.
pub const SRR_PLACE: usize = 12;

/// The place of the IDE bit.
pub const IDE_PLACE: usize = 13;

/// The place of the low bits of an extended identifier, after the IDE bit.
pub const EXTENSION_PLACE: usize = 14;

/// The number of identifier bits after the IDE bit of an extended frame.
pub const EXTENSION_BITS: usize = 18;

/// The place of the RTR bit of an extended frame.
pub const EXTENDED_RTR_PLACE: usize = 32;

/// The place of the reserved bit r1 of an extended frame.
pub const R1_PLACE: usize = 33;

/// The distance from the RTR bit to the data.
pub const RTR_TO_DATA: usize = 7;

/// The place of the data of a standard frame.
const STANDARD_DATA_PLACE: usize = STANDARD_RTR_PLACE + RTR_TO_DATA;

/// The place of the data of an extended frame.
const EXTENDED_DATA_PLACE: usize = EXTENDED_RTR_PLACE + RTR_TO_DATA;

/// The number of bits of the data length code.
pub const DLC_BITS: usize = 4;

/// The number of bits of the CRC sequence.
pub const CHECK_BITS: usize = 15;

/// Returns the place of the RTR bit, the last bit of arbitration: 32 in an extended frame, 12 in a standard
/// one.
pub fn rtr_place(extended: bool) -> usize
    ensures { result ≡ rtr_place_of extended }
{
    if extended {
        EXTENDED_RTR_PLACE
    } else {
        STANDARD_RTR_PLACE
    }
}

/// Whether a DLC ends after this number of levels, in a standard or an extended frame. The length of a frame
/// cannot be known before.
#[inline]
pub fn ends_dlc(count: usize) -> bool
    ensures { IsTrue result ↔ ((count ≡ data_place false) ⊎ (count ≡ data_place true)) }
{
    count == STANDARD_DATA_PLACE || count == EXTENDED_DATA_PLACE
}
