ghost use Rattle.std.specs.Prelude.{◌≡◌};
ghost use Rattle.can_node.specs.Ports.{port_drives, port_event, port_step};

use crate::port::Port;
use can_frame::Level;
use can_terms::Event;

/// What a port does in one bit time: the level that it drives, and its event.
type Answer = (Level, Option<Event>);

/// Two ports of any kinds sample one level. If they were in the same state, they drove the same level, report the
/// same event, and are in the same state afterwards. So ports in the same state stay alike, with equal logs and
/// counters, as long as they sample the same levels and get the same offers and overload requests.
pub fn sample_both<P: Port, Q: Port>(one: &mut P, other: &mut Q, seen: Level) -> (Answer, Answer)
    ensures first { P.port one.new ≡ port_step (P.port one.old) seen }
    ensures second { Q.port other.new ≡ port_step (Q.port other.old) seen }
    ensures first_answer { result.0 ≡ (port_drives (P.port one.old), port_event (P.port one.old) seen) }
    ensures second_answer { result.1 ≡ (port_drives (Q.port other.old), port_event (Q.port other.old) seen) }
    ensures answers { P.port one.old ≡ Q.port other.old → result.0 ≡ result.1 }
    ensures states { P.port one.old ≡ Q.port other.old → P.port one.new ≡ Q.port other.new }
{
    let one_drives = one.drive();
    let other_drives = other.drive();
    let one_tells = one.sample(seen);
    let other_tells = other.sample(seen);
    ((one_drives, one_tells), (other_drives, other_tells))
}
