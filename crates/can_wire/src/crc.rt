ghost use Rattle.std.specs.Prelude.{◌≡◌, ◌<◌, ◌^◌, List};
ghost use Rattle.can_frame.specs.declared.level.Level.{Level as Bit};
ghost use Rattle.can_frame.specs.Levels.{bits_of};
ghost use Rattle.can_wire.specs.Crc.{IsCrc, crc_of};

use crate::crc_run::CrcRun;
use can_frame::Level;

/// Returns the CRC sequence of the levels. It is the fifteen bits that, appended to the levels,
/// make a list that the generator polynomial divides. Bit 14 of the result is sent first. (Bosch
/// CAN 2.0 part B, section 3.2.1)
pub fn crc15(levels: &[Level]) -> u16
    ensures range { result < 2 ^ 15 }
    ensures divides { IsCrc levels.now (bits_of 15 result) }
    ensures only { (c : List Bit) → IsCrc levels.now c → c ≡ bits_of 15 result }
    ensures computed { bits_of 15 result ≡ crc_of levels.now }
{
    let (octets, rest) = levels.as_chunks::<8>();
    let mut run = CrcRun::new();
    for octet in octets {
        run.push_octet(octet);
    }
    for level in rest {
        run.push(*level);
    }
    run.value()
}
