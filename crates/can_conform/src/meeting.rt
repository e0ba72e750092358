//! The reference, and one bit time of a controller that shares the bus with the tester.
ghost use Rattle.std.specs.Prelude.{◌≡◌, IfOk};
ghost use Rattle.can_node.specs.Ports.{port_drives};
ghost use Rattle.can_terms.specs.Cases.{seen_by};
ghost use Rattle.can_conform.specs.Runs.{counters_of as counters_of_port, ending_of as ending_of_port, met, sees, started, told_event};

use can_frame::Level;
use can_node::{PackedNode, Port};
use can_terms::{Counters, Ending, Event, Start, TesterLevel};
use std::alloc::{AllocError, Global};

/// The capacity of the reference's queue: a case of the kit offers at most 256 frames.
const QUEUE_ROOM: usize = 256;

/// What a controller does in one bit time.
#[derive(Clone, Copy, Debug)]
pub struct Meeting {
    /// The level that it drove.
    pub drove: Level,
    /// The level that it saw.
    pub seen: Level,
    /// The event of the bit time.
    pub event: Option<Event>,
}

/// Returns the reference before bit time 0: a new port with a queue for 256 frames, and a log without capacity. It
/// fails only if an allocation fails.
pub fn started_node(alloc: Global, start: Start) -> Result<PackedNode, AllocError>
    ensures { IfOk result (λ node. ⟦<PackedNode as Port>⟧.port node ≡ started start) }
{
    match start {
        Start::Idle => PackedNode::new(alloc, QUEUE_ROOM, 0),
        Start::Joining => PackedNode::joining(alloc, QUEUE_ROOM, 0),
    }
}

/// Passes one bit time of a port with this tester, after the frames and requests of that time.
pub fn meet<P: Port>(port: &mut P, tester: TesterLevel) -> Meeting
    ensures port { P.port port.new ≡ met tester (P.port port.old) }
    ensures drove { result.drove ≡ port_drives (P.port port.old) }
    ensures seen { result.seen ≡ sees tester (P.port port.old) }
    ensures event { result.event ≡ told_event tester (P.port port.old) }
{
    let drove = port.drive();
    let seen = tester.seen_by(drove);
    let event = port.sample(seen);
    Meeting { drove, seen, event }
}

/// Returns the error counters of a port.
pub fn counters_of<P: Port>(port: &P) -> Counters
    ensures { result ≡ counters_of_port (P.port port.now) }
{
    let (transmit, receive) = port.counters();
    Counters { transmit, receive }
}

/// Returns the state of fault confinement and the error counters of a port.
pub fn ending_of<P: Port>(port: &P) -> Ending
    ensures { result ≡ ending_of_port (P.port port.now) }
{
    Ending {
        state: port.state(),
        counters: counters_of(port),
    }
}
