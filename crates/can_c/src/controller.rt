ghost use Rattle.std.specs.Prelude.{◌≡◌, ◌<◌, ◌≤◌, ◌↔◌, length, IfErr, IfOk, IsOk, IsTrue, IsFalse, OnErr, OnOk};
ghost use Rattle.can_fault.specs.Counters.{state_of};
ghost use Rattle.can_mac.specs.State.{idle as idle_state, joining as joining_state};
ghost use Rattle.can_node.specs.Ports.{fresh_port, port_offered, port_drives, port_event, port_holding, port_step};

use can_fault::State;
use can_frame::{Frame, Level};
use can_mac::PackedMac;
use can_node::{Entry, PackedNode, Port};
use can_terms::Event;
use std::alloc::{AllocError, Global};
use std::marker::Model;
use std::mem;

/// A port that keeps the unstuffed bits of a frame in a register, as one value: contracts see it as a `PortState`. Its
/// calls are those of [`Port`], with the same contracts.
#[derive(Drop)]
pub struct Controller {
    node: PackedNode,
}

impl Model for Controller {
    ghost use Rattle.can_node.specs.Ports.{PortState};

    ghost Value = { PortState };

    ghost view = { λ c. ⟦<PackedNode as Port>⟧.port c.node };
}

impl Controller {
    /// Returns a port that is on the bus and idle. Its transmit queue has space for `queue` frames, its log for `log`
    /// entries. It fails only if an allocation fails, and then keeps no memory.
    pub fn idle(alloc: Global, queue: usize, log: usize) -> Result<Controller, AllocError>
        ensures port { IfOk result (λ c. c ≡ fresh_port idle_state queue log) }
        ensures no_rooms { queue ≡ 0 → log ≡ 0 → IsOk result }
    {
        Ok(Controller {
            node: PackedNode::new(alloc, queue, log)?,
        })
    }

    /// Returns a port that begins with bus integration: it waits for eleven recessive levels in a row before it takes
    /// part. Otherwise it is as that of [`Controller::idle`].
    pub fn joining(alloc: Global, queue: usize, log: usize) -> Result<Controller, AllocError>
        ensures port { IfOk result (λ c. c ≡ fresh_port joining_state queue log) }
        ensures no_rooms { queue ≡ 0 → log ≡ 0 → IsOk result }
    {
        Ok(Controller {
            node: PackedNode::joining(alloc, queue, log)?,
        })
    }

    /// Returns a copy of the port, with memory of its own. It fails only if an allocation fails, and then keeps no
    /// memory.
    pub fn copied(&self, alloc: Global) -> Result<Controller, AllocError>
        ensures { IfOk result (λ c. c ≡ self.now) }
    {
        Ok(Controller {
            node: self.node.copied(alloc)?,
        })
    }

    /// Exchanges the states of this port and a port of a bus.
    pub fn swap(&mut self, node: &mut PackedNode)
        ensures own { self.new ≡ ⟦<PackedNode as Port>⟧.port node.old }
        ensures other { ⟦<PackedNode as Port>⟧.port node.new ≡ self.old }
    {
        mem::swap(&mut self.node, node);
    }

    /// Returns the medium access control of its controller.
    pub fn access(&self) -> &PackedMac
        ensures { result.now ≡ self.now.mac }
    {
        self.node.access()
    }

    /// Returns the level that it drives in this bit time.
    pub fn drive(&self) -> Level
        ensures { result ≡ port_drives self.now }
    {
        self.node.drive()
    }

    /// Samples a level, and returns the event of the bit time.
    pub fn sample(&mut self, seen: Level) -> Option<Event>
        ensures port { self.new ≡ port_step self.old seen }
        ensures event { result ≡ port_event self.old seen }
    {
        self.node.sample(seen)
    }

    /// Queues a frame at the end of the transmit queue. A full queue returns it, and nothing changes.
    pub fn offer(&mut self, frame: Frame) -> Result<(), Frame>
        ensures fits { IsOk result ↔ (length self.old.queue < self.old.queue_room) }
        ensures taken { OnOk result (self.new ≡ port_offered frame self.old) }
        ensures back { IfErr result (λ refused. refused ≡ frame) }
        ensures unchanged { OnErr result (self.new ≡ self.old) }
    {
        self.node.offer(frame)
    }

    /// Requests overload frames, 0 to 2, in place of an earlier request. With a count above 2 it returns false, and
    /// nothing changes.
    pub fn hold(&mut self, count: u8) -> bool
        ensures answer { IsTrue result ↔ (count ≤ 2) }
        ensures held { IsTrue result → self.new ≡ port_holding count self.old }
        ensures unchanged { IsFalse result → self.new ≡ self.old }
    {
        self.node.hold(count)
    }

    /// Returns the frames that were transmitted and received, the oldest first.
    pub fn log(&self) -> &[Entry]
        ensures { result.now ≡ self.now.log }
    {
        self.node.log()
    }

    /// Returns the number of entries for which the log had no capacity.
    pub fn missed(&self) -> u32
        ensures { result ≡ self.now.missed }
    {
        self.node.missed()
    }

    /// Returns the transmit and the receive error counter.
    pub fn counters(&self) -> (u16, u16)
        ensures transmit { result.0 ≡ self.now.mac.counters.tec }
        ensures receive { result.1 ≡ self.now.mac.counters.rec }
    {
        self.node.counters()
    }

    /// Returns the state of fault confinement.
    pub fn state(&self) -> State
        ensures { result ≡ state_of self.now.mac.counters }
    {
        self.node.state()
    }
}
