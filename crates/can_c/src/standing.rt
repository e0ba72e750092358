ghost use Rattle.std.specs.Prelude.{◌≡◌, ◌≢◌, IfSome};
ghost use Rattle.can_c.specs.Calls.{port_status};
ghost use Rattle.can_c.specs.PlainStandings.{plain_standing};
ghost use Rattle.can_c.specs.Statuses.{done, status_code};

use crate::handle::{Handle, with_port};
use crate::status::Status;
use can_conform::phase_rule;
use can_mac::PackedMac;
use std::alloc::Global;

/// The protocol state of a port before a bit time, as plain fields.
#[repr(C)]
#[derive(Clone, Copy, Debug)]
pub struct PlainStanding {
    /// The number of its phase.
    pub phase: u8,
    /// The progress within the phase, 0 in phases of one bit: at most 118 unstuffed bits of a frame, at most 127 times
    /// eleven recessive levels during bus-off, and less in other phases.
    pub place: u8,
    /// 1 if it is the transmitter of the frame on the bus, otherwise 0.
    pub sender: u8,
    /// The number of the rule that decides in the phase.
    pub rule: u8,
}

/// Writes the phase of the port before the next bit time, and the rule that decides in it.
#[unsafe(no_mangle)]
pub extern "C" fn can_c_phase(
    alloc: Global,
    handle: &mut Handle,
    standing: &mut PlainStanding,
) -> u8
    ensures status { result ≡ status_code (port_status handle.old.held) }
    ensures standing { IfSome handle.old.held (λ p. standing.new ≡ plain_standing p.mac) }
    ensures unchanged { handle.new.held ≡ handle.old.held }
    ensures unwritten { result ≢ done → standing.new ≡ standing.old }
{
    with_port!(alloc, handle, |port| {
        *standing = PlainStanding::of(port.access());
        Status::Done
    })
}

impl PlainStanding {
    /// The plain fields of a controller's protocol state.
    fn of(access: &PackedMac) -> PlainStanding
        ensures { result ≡ plain_standing access.now }
    {
        PlainStanding {
            phase: access.phase().kind().code(),
            place: access.place(),
            sender: u8::from(access.role().is_sender()),
            rule: phase_rule(access.phase(), access.role()).code(),
        }
    }
}
