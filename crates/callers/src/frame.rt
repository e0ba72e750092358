//! How long a frame keeps the bus.
ghost use Rattle.std.specs.Prelude.{◌≡◌, ◌≤◌, ◌+◌, length};
ghost use Rattle.can_wire.specs.Wire.{wire};

use can_frame::Frame;
use can_wire::encode;

/// The number of levels of intermission after a frame. (Bosch CAN 2.0 part B, section 3.2.5)
const INTERMISSION: usize = 3;

/// The bit times for which a frame keeps the bus: its wire and its intermission.
pub fn bit_times(frame: &Frame) -> usize
    ensures exact { result ≡ length (wire frame.now) + 3 }
    ensures most { result ≤ 160 }
{
    encode(frame).len() + INTERMISSION
}
