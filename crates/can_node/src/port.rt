ghost use Rattle.std.specs.Prelude.{◌≡◌, ◌+◌, ◌<◌, ◌≤◌, ◌↔◌, length, take, IsTrue, IsFalse, IsOk, OnOk, OnErr, IfErr};
ghost use Rattle.can_fault.specs.Counters.{state_of};
ghost use Rattle.can_frame.specs.declared.level.Level.TheVariants.{Recessive};
ghost use Rattle.can_frame.specs.Parts.{IsFrame};
ghost use Rattle.can_mac.specs.Frames.{IsPoisedAs, with_intermission};
ghost use Rattle.can_wire.specs.Wire.{stuffed_part};
ghost use Rattle.can_mac.specs.Machine.{IsSilent};
ghost use Rattle.can_node.specs.Passing.{HasHeardFirst, IsAside, LetsPass};
ghost use Rattle.can_node.specs.Ports.{PortState, IsAtRest, IsPort, port_offered, port_drives, port_event, port_holding, port_run, port_step, waiting};

use crate::entry::Entry;
use can_fault::State;
use can_frame::{Frame, Level};
use can_mac::Poised;
use can_terms::Event;

/// A port of a bus, that is, a CAN node: a controller with a queue of frames to send and a log of the frames that it
/// sent and received.
pub trait Port {
    /// The state of the port, as contracts describe it.
    ghost port: { Self → PortState };

    /// The level that the port drives in this bit time. It depends on the port's state alone. A port that is joining,
    /// bus off or in a passive error flag drives recessive.
    fn drive(&self) -> Level
        ensures level { result ≡ port_drives (port self.now) }
        ensures silent { IsSilent (port self.now).mac.phase → result ≡ Recessive };

    /// Samples a level, and returns the event of the bit time.
    fn sample(&mut self, seen: Level) -> Option<Event>
        ensures port { port self.new ≡ port_step (port self.old) seen }
        ensures event { result ≡ port_event (port self.old) seen };

    /// Samples a level, and returns the level that the port drives in the next bit time. It is [`Port::sample`]
    /// followed by [`Port::drive`], for callers that need no event.
    fn turn(&mut self, seen: Level) -> Level
        ensures port { port self.new ≡ port_step (port self.old) seen }
        ensures level { result ≡ port_drives (port self.new) };

    /// Samples levels, one per bit time.
    fn turn_through(&mut self, levels: &[Level])
        ensures { port self.new ≡ port_run (port self.old) levels.now }
    {
        for level in levels {
            let _ = self.turn(*level);
        }
    }

    /// Whether the port is at rest: its controller is idle, and no frame waits. Then it drives recessive, and a
    /// recessive level does not change it (Bosch CAN 2.0 part B, section 3.2.5, bus idle). So a bus need not visit
    /// its ports while all of them are at rest.
    fn rests(&self) -> bool
        ensures idle { IsTrue result ↔ IsAtRest (port self.now) }
        ensures recessive { IsTrue result → port_drives (port self.now) ≡ Recessive }
        ensures unchanged { IsTrue result → port_step (port self.now) Recessive ≡ port self.now };

    /// Whether a whole frame may pass the port in one step. It may if the controller is idle or in suspend
    /// transmission, and no overload frame is requested. An idle port starts with its pending frame; in suspend
    /// transmission it starts with none. A port may return [`Poised::Not`] if it does not know; [`Node`](crate::Node)
    /// always knows.
    fn poised(&self) -> Poised
        ensures yes { IsPoisedAs result (port self.now).mac (waiting (port self.now).queue) }
    {
        Poised::Not
    }

    /// Samples the levels of a whole frame and its intermission. The frame may pass the port in one step, and the
    /// port starts with this frame, with one of lower priority, or with none.
    fn take_frame(&mut self, frame: &Frame, levels: &[Level])
        requires whole { IsFrame frame.now }
        requires levels { levels.now ≡ with_intermission frame.now }
        requires passes { LetsPass frame.now (port self.old) }
        ensures { port self.new ≡ port_run (port self.old) levels.now }
    {
        self.turn_through(levels);
    }

    /// Samples the first levels of a frame that may pass the port in one step, fewer than its stuffed part has. The
    /// leader is another port that has sampled the same levels, if it takes part in the frame. No call returns
    /// whether it has; a caller knows it of a port that it has given these levels after [`Port::poised`] let them
    /// pass.
    fn ride(&mut self, leader: &Self, frame: &Frame, levels: &[Level])
    where
        Self: Sized,
        requires whole { IsFrame frame.now }
        requires levels { levels.now ≡ take (length levels.now) (with_intermission frame.now) }
        requires some { 0 < length levels.now }
        requires within { length levels.now < length (stuffed_part frame.now) }
        requires passes { LetsPass frame.now (port self.old) }
        requires leader { HasHeardFirst frame.now (length levels.now) (port leader.now).mac.phase }
        ensures { port self.new ≡ port_run (port self.old) levels.now }
    {
        self.turn_through(levels);
    }

    /// Whether it takes no part in a frame that begins, whatever levels come: it is bus off, or error passive and
    /// still in an error frame. A port may return false if it does not know; [`Node`](crate::Node) always knows.
    /// (Bosch CAN 2.0 part B, sections 3.1.3 and 8)
    fn stands_aside(&self) -> bool
        ensures yes { IsTrue result → IsAside (port self.now) }
    {
        self.state() == State::BusOff
    }

    /// Whether its queue has space for `count` more frames. A port may return false if it does not know;
    /// [`Node`](crate::Node) always knows.
    fn has_room(&self, count: usize) -> bool
        ensures yes { IsTrue result → length (port self.now).queue + count ≤ (port self.now).queue_room }
    {
        false
    }

    /// Queues a frame after those that wait. A full queue returns the frame, and nothing changes.
    fn offer(&mut self, frame: Frame) -> Result<(), Frame>
        ensures fits { IsOk result ↔ (length (port self.old).queue < (port self.old).queue_room) }
        ensures taken { OnOk result (port self.new ≡ port_offered frame (port self.old)) }
        ensures back { IfErr result (λ refused. refused ≡ frame) }
        ensures unchanged { OnErr result (port self.new ≡ port self.old) };

    /// Requests `count` overload frames, 0 to 2, in place of an earlier request. It returns false, and changes
    /// nothing, if `count` is above 2.
    fn hold(&mut self, count: u8) -> bool
        ensures answer { IsTrue result ↔ (count ≤ 2) }
        ensures held { IsTrue result → port self.new ≡ port_holding count (port self.old) }
        ensures unchanged { IsFalse result → port self.new ≡ port self.old };

    /// The frames sent and received, the oldest first.
    fn log(&self) -> &[Entry]
        ensures { result.now ≡ (port self.now).log };

    /// The number of entries that did not fit the log. It stops at the highest `u32`.
    fn missed(&self) -> u32
        ensures { result ≡ (port self.now).missed };

    /// The transmit and the receive error counter.
    fn counters(&self) -> (u16, u16)
        ensures transmit { result.0 ≡ (port self.now).mac.counters.tec }
        ensures receive { result.1 ≡ (port self.now).mac.counters.rec };

    /// The state of fault confinement.
    fn state(&self) -> State
        ensures { result ≡ state_of (port self.now).mac.counters };

    /// Every port keeps its invariant: that of its controller, frames within their limits, and queue and log within
    /// their capacities.
    ghost valid: { (x : Self) → IsPort (port x) };
}
