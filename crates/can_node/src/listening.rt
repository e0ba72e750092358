ghost use Rattle.std.specs.Prelude.{ℕ, ◌≡◌};
ghost use Rattle.can_mac.specs.declared.phase.Phase.TheVariants.{Idle, Joining};
ghost use Rattle.can_node.specs.Listening.{Rested, Took};
ghost use Rattle.can_node.specs.Ports.{port_events, port_run};

use crate::port::Port;
use can_frame::Level;

/// Lets a port sample these levels, one per bit time, whatever it drives. What the port reports is then true of the
/// levels, whatever they are. Each frame that it received or sent is in the levels, if it was idle or joining at
/// first. From any state, the bus was at rest between an error, an overload flag or bus off and the next event of a
/// frame. (Bosch CAN 2.0 part B, sections 3.2 and 5)
pub fn listen<P: Port>(port: &mut P, seen: &[Level])
    ensures run { P.port port.new ≡ port_run (P.port port.old) seen.now }
    ensures rested { Rested seen.now (port_events (P.port port.old) seen.now) }
    ensures took_from_idle { (P.port port.old).mac.phase ≡ Idle
        → Took seen.now (port_events (P.port port.old) seen.now) }
    ensures took_from_joining { (row : ℕ) → (P.port port.old).mac.phase ≡ Joining row
        → Took seen.now (port_events (P.port port.old) seen.now) }
{
    for level in seen {
        let _ = port.sample(*level);
    }
}
