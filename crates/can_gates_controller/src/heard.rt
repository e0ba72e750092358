//! The registers of what has been received of a frame.
ghost use Rattle.std.specs.Prelude.{◌≡◌, length};

use can_gates::Literal;
use can_gates_mac::Nibble;

/// What has been received of a frame so far.
#[derive(Clone, Copy)]
pub struct Heard {
    /// Whether each unstuffed bit is recessive, the start of frame first. Bits not yet received are 0.
    pub levels: [Literal; 103],
    /// How many unstuffed bits were received.
    pub count: [Literal; 7],
    /// Whether the last level is recessive, be it a stuff bit or not.
    pub last: Literal,
    /// How many equal levels in a row end with the last one.
    pub run: Nibble,
    /// The CRC of the unstuffed bits, its first bit first. After a whole frame with the right CRC sequence it is 0.
    pub check: [Literal; 15],
    ghost width: { length count ≡ 7 },
}
