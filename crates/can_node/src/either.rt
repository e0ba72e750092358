ghost use Rattle.std.specs.Prelude.{◌≡◌, ◌+◌, ◌<◌, ◌≤◌, length, IsFalse, IsTrue, Option};
ghost use Rattle.can_frame.specs.Parts.{Parts};
ghost use Rattle.can_mac.specs.Frames.{IsPoised, IsPoisedAs};
ghost use Rattle.can_node.specs.Passing.{IsAside};
ghost use Rattle.can_node.specs.Ports.{waiting};
ghost use Rattle.can_node.specs.declared.either.EitherNode.TheVariants.{Plain, Packed};

use crate::entry::Entry;
use crate::node::{PackedNode, PlainNode};
use crate::port::Port;
use can_fault::State;
use can_frame::{Frame, Level};
use can_mac::Poised;
use can_terms::Event;

/// A port of one of the two kinds, with the outputs of the node in it.
#[derive(Drop)]
pub enum EitherNode {
    /// Holds the unstuffed levels one by one.
    Plain(PlainNode),
    /// Holds the unstuffed levels in a register.
    Packed(PackedNode),
}

impl Port for EitherNode {
    ghost port = { elim [ Plain n ↦ ⟦<PlainNode as Port>⟧.port n | Packed n ↦ ⟦<PackedNode as Port>⟧.port n ] };

    ghost valid = { elim [
      | Plain n ↦ record { mac = n.kept; queued = n.queue.are_frames; logged = n.log.are_frames; queue_fits = n.queue.fits; log_fits = n.log.fits; missed_fits = n.log.counted }
      | Packed n ↦ record { mac = n.kept; queued = n.queue.are_frames; logged = n.log.are_frames; queue_fits = n.queue.fits; log_fits = n.log.fits; missed_fits = n.log.counted }
    ] };

    fn drive(&self) -> Level {
        match self {
            EitherNode::Plain(node) => node.drive(),
            EitherNode::Packed(node) => node.drive(),
        }
    }

    fn sample(&mut self, seen: Level) -> Option<Event> {
        match self {
            EitherNode::Plain(node) => node.sample(seen),
            EitherNode::Packed(node) => node.sample(seen),
        }
    }

    #[inline(always)]
    fn turn(&mut self, seen: Level) -> Level {
        match self {
            EitherNode::Plain(node) => node.turn(seen),
            EitherNode::Packed(node) => node.turn(seen),
        }
    }

    #[inline(always)]
    fn rests(&self) -> bool {
        match self {
            EitherNode::Plain(node) => node.rests(),
            EitherNode::Packed(node) => node.rests(),
        }
    }

    fn turn_through(&mut self, levels: &[Level]) {
        match self {
            EitherNode::Plain(node) => node.turn_through(levels),
            EitherNode::Packed(node) => node.turn_through(levels),
        }
    }

    #[inline]
    fn poised(&self) -> Poised
        ensures yes { IsPoisedAs result (⟦<EitherNode as Port>⟧.port self.now).mac (waiting (⟦<EitherNode as Port>⟧.port self.now).queue) }
        ensures no { result ≡ Poised.Not → (next : Option Parts) → IsPoised (⟦<EitherNode as Port>⟧.port self.now).mac (waiting (⟦<EitherNode as Port>⟧.port self.now).queue) next → ⊥ }
    {
        match self {
            EitherNode::Plain(node) => node.poised(),
            EitherNode::Packed(node) => node.poised(),
        }
    }

    #[inline]
    fn take_frame(&mut self, frame: &Frame, levels: &[Level]) {
        match self {
            EitherNode::Plain(node) => node.take_frame(frame, levels),
            EitherNode::Packed(node) => node.take_frame(frame, levels),
        }
    }

    #[inline]
    fn ride(&mut self, leader: &Self, frame: &Frame, levels: &[Level]) {
        match self {
            EitherNode::Plain(node) => match leader {
                EitherNode::Plain(leader) => node.ride(leader, frame, levels),
                EitherNode::Packed(_) => node.turn_through(levels),
            },
            EitherNode::Packed(node) => match leader {
                EitherNode::Packed(leader) => node.ride(leader, frame, levels),
                EitherNode::Plain(_) => node.turn_through(levels),
            },
        }
    }

    fn stands_aside(&self) -> bool
        ensures yes { IsTrue result → IsAside (⟦<EitherNode as Port>⟧.port self.now) }
        ensures no { IsFalse result → IsAside (⟦<EitherNode as Port>⟧.port self.now) → ⊥ }
    {
        match self {
            EitherNode::Plain(node) => node.stands_aside(),
            EitherNode::Packed(node) => node.stands_aside(),
        }
    }

    fn has_room(&self, count: usize) -> bool
        ensures yes { IsTrue result → length (⟦<EitherNode as Port>⟧.port self.now).queue + count ≤ (⟦<EitherNode as Port>⟧.port self.now).queue_room }
        ensures no { IsFalse result → (⟦<EitherNode as Port>⟧.port self.now).queue_room < length (⟦<EitherNode as Port>⟧.port self.now).queue + count }
    {
        match self {
            EitherNode::Plain(node) => node.has_room(count),
            EitherNode::Packed(node) => node.has_room(count),
        }
    }

    fn offer(&mut self, frame: Frame) -> Result<(), Frame> {
        match self {
            EitherNode::Plain(node) => node.offer(frame),
            EitherNode::Packed(node) => node.offer(frame),
        }
    }

    fn hold(&mut self, count: u8) -> bool {
        match self {
            EitherNode::Plain(node) => node.hold(count),
            EitherNode::Packed(node) => node.hold(count),
        }
    }

    fn log(&self) -> &[Entry] {
        match self {
            EitherNode::Plain(node) => node.log(),
            EitherNode::Packed(node) => node.log(),
        }
    }

    fn missed(&self) -> u32 {
        match self {
            EitherNode::Plain(node) => node.missed(),
            EitherNode::Packed(node) => node.missed(),
        }
    }

    fn counters(&self) -> (u16, u16) {
        match self {
            EitherNode::Plain(node) => node.counters(),
            EitherNode::Packed(node) => node.counters(),
        }
    }

    fn state(&self) -> State {
        match self {
            EitherNode::Plain(node) => node.state(),
            EitherNode::Packed(node) => node.state(),
        }
    }
}
