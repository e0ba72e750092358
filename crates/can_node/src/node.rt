ghost use Rattle.std.specs.Prelude.{ℕ, ◌≡◌, ◌<◌, Some, IfOk, IsOk, IsTrue, IsFalse, Option, false, length, take};
ghost use Rattle.std.specs.Option.{option_copied};
ghost use Rattle.can_frame.specs.Arbitration.{Before, arbitration_field};
ghost use Rattle.can_frame.specs.Parts.{IsFrame, Parts};
ghost use Rattle.can_mac.specs.Frames.{GoesBehind, IsPoised, phase_at, receiving_in, with_intermission};
ghost use Rattle.can_mac.specs.State.{IsMac, is_off_phase};
ghost use Rattle.can_code.specs.Front.{FrontParts};
ghost use Rattle.can_wire.specs.Wire.{stuffed_part};
ghost use Rattle.can_node.specs.MacProps.{IsMac-prop};
ghost use Rattle.can_node.specs.Ports.{waiting};
ghost use Rattle.can_node.specs.Tournament.{frames_in};

use crate::entry::Entry;
use crate::log::Log;
use crate::port::Port;
use crate::queue::Queue;
use can_code::{CheckedBits, FrameBits, PlainBits, rtr_place};
use can_fault::State;
use can_frame::{Frame, Level};
use can_mac::{MediumAccess, Phase, Poised};
use can_terms::Event;
use std::alloc::{AllocError, Global};

/// A port that allocates all of its memory when it is made: no later call allocates, or fails because memory is
/// short. `B` holds the unstuffed levels of the frame on the bus.
#[derive(Drop)]
pub struct Node<B: FrameBits> {
    mac: MediumAccess<B>,
    queue: Queue,
    log: Log,
    ghost kept: { IsMac mac } by { IsMac-prop mac },
}

/// A port that holds the unstuffed levels one by one.
pub type PlainNode = Node<PlainBits>;

/// A port that holds the unstuffed levels in a register, with their running CRC sequence.
pub type PackedNode = Node<CheckedBits>;

impl<B: FrameBits> Node<B> {
    ghost use Rattle.can_mac.specs.State.{idle, joining};
    ghost use Rattle.can_node.specs.Ports.{fresh_port};

    /// An idle port on the bus, with capacity for `queue` waiting frames and `log` entries. It fails, and keeps
    /// nothing, only if an allocation fails or `queue` is more than 2^60.
    pub fn new(alloc: Global, queue: usize, log: usize) -> Result<Self, AllocError>
        ensures port { IfOk result (λ n. ⟦<Node<B> as Port>⟧.port n ≡ fresh_port idle queue log) }
        ensures no_rooms { queue ≡ 0 → log ≡ 0 → IsOk result }
    {
        Node::starting(MediumAccess::idle(), alloc, queue, log)
    }

    /// A port that waits for eleven recessive levels in a row before it takes part, with capacity as of
    /// [`Node::new`]. It fails as that does.
    pub fn joining(alloc: Global, queue: usize, log: usize) -> Result<Self, AllocError>
        ensures port { IfOk result (λ n. ⟦<Node<B> as Port>⟧.port n ≡ fresh_port joining queue log) }
        ensures no_rooms { queue ≡ 0 → log ≡ 0 → IsOk result }
    {
        Node::starting(MediumAccess::joining(), alloc, queue, log)
    }

    /// A copy of this port, with memory of its own. It fails, and keeps nothing, only if an allocation fails.
    pub fn copied(&self, alloc: Global) -> Result<Self, AllocError>
        ensures { IfOk result (λ n. ⟦<Node<B> as Port>⟧.port n ≡ ⟦<Node<B> as Port>⟧.port self.now) }
    {
        let queue = self.queue.copied(alloc)?;
        let log = self.log.copied(alloc)?;
        Ok(Node {
            mac: self.mac.copied(),
            queue,
            log,
        })
    }

    /// A port with this controller and an empty queue and log.
    fn starting(
        mac: MediumAccess<B>,
        alloc: Global,
        queue: usize,
        log: usize,
    ) -> Result<Self, AllocError>
        requires { IsMac mac }
        ensures port { IfOk result (λ n. ⟦<Node<B> as Port>⟧.port n ≡ fresh_port mac queue log) }
        ensures no_rooms { queue ≡ 0 → log ≡ 0 → IsOk result }
    {
        Ok(Node {
            mac,
            queue: Queue::with_room(alloc, queue)?,
            log: Log::with_room(alloc, log)?,
        })
    }
}

impl<B: FrameBits> Node<B> {
    ghost use Rattle.std.specs.Prelude.{if◌then◌else◌};
    ghost use Rattle.can_terms.specs.declared.event.Event.TheVariants.{Sent, Received};
    ghost use Rattle.can_node.specs.Passing.{LetsPass};
    ghost use Rattle.can_node.specs.Ports.{port_drives, port_noting, port_event, port_run, port_step};

    /// Samples a level that may cause an event.
    #[tactic(auto, unfolding(crate::specs::Ports::port_step))]
    #[inline(never)]
    fn take(&mut self, seen: Level) -> Option<Event>
        ensures port { ⟦<Node<B> as Port>⟧.port self.new ≡ port_step (⟦<Node<B> as Port>⟧.port self.old) seen }
        ensures event { result ≡ port_event (⟦<Node<B> as Port>⟧.port self.old) seen }
    {
        let event = self.mac.sample(self.queue.waiting(), seen);
        self.note(&event);
        event
    }

    /// Samples a level after which the port may drive dominant.
    #[tactic(auto, unfolding(crate::specs::Ports::port_step))]
    #[inline(never)]
    fn turn_apart(&mut self, seen: Level) -> Level
        ensures port { ⟦<Node<B> as Port>⟧.port self.new ≡ port_step (⟦<Node<B> as Port>⟧.port self.old) seen }
        ensures level { result ≡ port_drives (⟦<Node<B> as Port>⟧.port self.new) }
    {
        let _event = self.sample(seen);
        self.drive()
    }

    /// The medium access of its controller.
    pub fn access(&self) -> &MediumAccess<B>
        ensures { result.now ≡ (⟦<Node<B> as Port>⟧.port self.now).mac }
    {
        &self.mac
    }

    /// Samples one of many levels. A port that is bus off only counts it for recovery.
    #[tactic(auto, unfolding(crate::specs::Ports::port_step))]
    #[inline(always)]
    fn sample_in_passing(&mut self, seen: Level)
        ensures { ⟦<Node<B> as Port>⟧.port self.new ≡ port_step (⟦<Node<B> as Port>⟧.port self.old) seen }
    {
        if !self.mac.stays_off(seen) {
            let _ = self.sample(seen);
        }
    }

    /// The frame with which the port starts, if a whole frame may pass it in one step.
    fn next(&self) -> Option<&Frame>
        ensures { (next : Option Parts) → IsPoised self.now.mac (waiting (frames_in self.now.queue.slots.items)) next → option_copied result ≡ next }
    {
        match self.mac.phase() {
            Phase::Suspend { .. } => None,
            _ => self.queue.waiting(),
        }
    }

    /// Whether it receives the frame that `leader` also takes part in, and can no longer send a frame of its own: it
    /// starts with none, or the arbitration field of that has passed. (Bosch CAN 2.0 part B, section 3.1)
    fn has_lost(&self, leader: &Self, frame: &Frame) -> bool
        requires { LetsPass frame.now (⟦<Node<B> as Port>⟧.port self.now) }
        ensures part { IsTrue result → (front : FrontParts) × (leader.now.mac.phase ≡ Phase.StuffedPart front) }
        ensures lost { IsTrue result → (o : ℕ) → IsFrame frame.now → 0 < o → o < length (stuffed_part frame.now) → leader.now.mac.phase ≡ phase_at frame.now o →
            port_run (⟦<Node<B> as Port>⟧.port self.now) (take o (with_intermission frame.now)) ≡ record (⟦<Node<B> as Port>⟧.port self.now) { mac = receiving_in (phase_at frame.now o) self.now.mac } }
    {
        let Phase::StuffedPart(front) = leader.mac.phase() else {
            return false;
        };
        match self.next() {
            None => true,
            Some(own) if frame.key() == own.key() => false,
            Some(own) => front.len() > rtr_place(own.is_extended()),
        }
    }

    /// Updates queue and log after a frame that was sent or received.
    fn note_passed(&mut self, frame: &Frame, sent: bool)
        ensures { ⟦<Node<B> as Port>⟧.port self.new ≡ port_noting (Some (if sent then Sent frame.now else Received frame.now)) (⟦<Node<B> as Port>⟧.port self.old) }
    {
        if sent {
            self.note(&Some(Event::Sent(*frame)));
        } else {
            self.note(&Some(Event::Received(*frame)));
        }
    }

    /// Updates queue and log after an event.
    #[tactic(auto, using(crate::proofs::PortLemmas::port_logging_is))]
    fn note(&mut self, event: &Option<Event>)
        ensures { ⟦<Node<B> as Port>⟧.port self.new ≡ port_noting event.now (⟦<Node<B> as Port>⟧.port self.old) }
    {
        match event {
            Some(Event::Sent(frame)) => {
                self.queue.remove(frame);
                self.log.push(Entry {
                    frame: *frame,
                    sent: true,
                });
            }
            Some(Event::Received(frame)) => self.log.push(Entry {
                frame: *frame,
                sent: false,
            }),
            Some(
                Event::Lost | Event::Error(_) | Event::Overload | Event::WentOff | Event::Recovered,
            )
            | None => {}
        }
    }
}

impl<B: FrameBits> Port for Node<B> {
    ghost use Rattle.std.specs.Prelude.{◌+◌, ◌≤◌};
    ghost use Rattle.can_mac.specs.Frames.{IsPoisedAs};
    ghost use Rattle.can_node.specs.Passing.{IsAside};
    ghost use Rattle.can_node.specs.Tournament.{frames_in};

    ghost port = { λ n. record { mac = n.mac; queue = frames_in n.queue.slots.items; queue_room = n.queue.room; log = n.log.entries.items; log_room = n.log.room; missed = n.log.missed } };

    ghost valid = { λ n. record { mac = n.kept; queued = n.queue.are_frames; logged = n.log.are_frames; queue_fits = n.queue.fits; log_fits = n.log.fits; missed_fits = n.log.counted } };

    #[tactic(auto, unfolding(crate::specs::Ports::port_drives))]
    fn drive(&self) -> Level {
        self.mac.drive(self.queue.waiting())
    }

    #[tactic(auto, unfolding(crate::specs::Ports::port_step))]
    #[inline(always)]
    fn sample(&mut self, seen: Level) -> Option<Event> {
        // most levels cause no event, and then none is built
        if self.mac.takes_quietly(self.queue.waiting(), seen) {
            return None;
        }
        self.take(seen)
    }

    #[tactic(auto, unfolding(crate::specs::Ports::port_step, crate::specs::Ports::port_drives))]
    #[inline(always)]
    fn turn(&mut self, seen: Level) -> Level {
        // most ports receive a frame, and need not look for their pending one
        if self.mac.takes_silently(seen) {
            return Level::Recessive;
        }
        self.turn_apart(seen)
    }

    fn turn_through(&mut self, levels: &[Level]) {
        for level in levels {
            self.sample_in_passing(*level);
        }
    }

    #[tactic(auto, using(crate::proofs::PortLemmas::rests_recessive, crate::proofs::PortLemmas::rests_unchanged))]
    #[inline(always)]
    fn rests(&self) -> bool {
        matches!(self.mac.phase(), Phase::Idle) && self.queue.waiting().is_none()
    }

    #[inline]
    fn poised(&self) -> Poised
        ensures yes { IsPoisedAs result (⟦<Node<B> as Port>⟧.port self.now).mac (waiting (⟦<Node<B> as Port>⟧.port self.now).queue) }
        ensures no { result ≡ Poised.Not → (next : Option Parts) → IsPoised (⟦<Node<B> as Port>⟧.port self.now).mac (waiting (⟦<Node<B> as Port>⟧.port self.now).queue) next → ⊥ }
    {
        self.mac.poised(self.queue.waiting())
    }

    #[inline]
    fn take_frame(&mut self, frame: &Frame, _levels: &[Level]) {
        let sent = sends(self.next(), frame);
        self.mac.take_frame(frame, sent);
        self.note_passed(frame, sent);
    }

    #[inline]
    fn ride(&mut self, leader: &Self, frame: &Frame, levels: &[Level]) {
        if self.has_lost(leader, frame) {
            self.mac.hear_as(&leader.mac);
        } else {
            self.turn_through(levels);
        }
    }

    fn stands_aside(&self) -> bool
        ensures yes { IsTrue result → IsAside (⟦<Node<B> as Port>⟧.port self.now) }
        ensures no { IsFalse result → IsAside (⟦<Node<B> as Port>⟧.port self.now) → ⊥ }
    {
        self.state() == State::BusOff || self.mac.is_out_of_step()
    }

    fn has_room(&self, count: usize) -> bool
        ensures yes { IsTrue result → length (⟦<Node<B> as Port>⟧.port self.now).queue + count ≤ (⟦<Node<B> as Port>⟧.port self.now).queue_room }
        ensures no { IsFalse result → (⟦<Node<B> as Port>⟧.port self.now).queue_room < length (⟦<Node<B> as Port>⟧.port self.now).queue + count }
    {
        self.queue.has_room(count)
    }

    fn offer(&mut self, frame: Frame) -> Result<(), Frame> {
        self.queue.push(frame)
    }

    fn hold(&mut self, count: u8) -> bool {
        self.mac.hold(count)
    }

    fn log(&self) -> &[Entry] {
        self.log.entries()
    }

    fn missed(&self) -> u32 {
        self.log.missed()
    }

    fn counters(&self) -> (u16, u16) {
        (self.mac.confine().tec(), self.mac.confine().rec())
    }

    fn state(&self) -> State {
        self.mac.confine().state()
    }
}

/// Whether the frame that passes is the port's own. Otherwise it has higher priority, or the port starts with none.
fn sends(next: Option<&Frame>, frame: &Frame) -> bool
    requires { GoesBehind frame.now (option_copied next) }
    ensures own { IsTrue result → option_copied next.entry ≡ Some frame.now }
    ensures other { IsFalse result → (f : Parts) → option_copied next.entry ≡ Some f → Before (arbitration_field frame.now) (arbitration_field f) }
{
    match next {
        Some(own) => own.key() == frame.key(),
        None => false,
    }
}
