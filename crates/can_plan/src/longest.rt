//! How long frames keep the bus.
ghost use Rattle.std.specs.Prelude.{◌<◌};
ghost use Rattle.can_plan.specs.FramesOf.{IsLongestBusy};

use can_frame::Id;
use can_longest::LongestWires;

/// The number of bit times of intermission after a frame. The longest time on the bus includes them, the wire does
/// not.
pub(crate) const INTERMISSION: u16 = 3;

/// The longest time for which a frame with this identifier, kind and DLC keeps the bus: its wire, and three bit times
/// of intermission. No such frame keeps it longer, and one keeps it this long.
pub fn longest_busy(wires: &LongestWires, id: Id, remote: bool, dlc: u8) -> u16
    requires { dlc < 16 }
    ensures longest { IsLongestBusy id remote dlc result }
    ensures some { 0 < result }
{
    wires.longest_wire(id, remote, dlc) + INTERMISSION
}
