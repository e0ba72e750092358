//! The CRC sequence of a number's levels, as the sum of what each byte adds at its place. (Bosch CAN 2.0 part B,
//! section 3.2.1)
ghost use Rattle.std.specs.Prelude.{◌≡◌, ◌^◌, ◌<◌};
ghost use Rattle.can_frame.specs.Levels.{bits_of};
ghost use Rattle.can_wire.specs.Crc.{crc_of};

use crate::crc_table::CRC_OF_PLACES;

/// The maximum number of bytes.
const PLACES: usize = 15;

/// The number of table entries for a place.
const BYTES: usize = 256;

/// The CRC sequence of the levels of a number, as a number of fifteen bits. Leading dominant levels do not change
/// it, so the number may have fewer levels.
pub(crate) fn crc_of_number(number: u128) -> u16
    requires { number < 2 ^ 120 }
    ensures range { result < 2 ^ 15 }
    ensures check { bits_of 15 result ≡ crc_of (bits_of 120 number) }
{
    let bytes = number.to_le_bytes();
    let mut check = 0;
    for place in 0..PLACES {
        check ^= CRC_OF_PLACES[BYTES * place + usize::from(bytes[place])];
    }
    check
}
