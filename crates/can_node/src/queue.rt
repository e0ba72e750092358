ghost use Rattle.std.specs.Prelude.{◌≡◌, ◌≢◌, ◌<◌, ◌≤◌, ◌+◌, ◌*◌, ◌^◌, ◌↔◌, ◌++◌, ◌∷◌, ℕ, [], length, vec_capacity, MatchOption, IfErr, IfOk, IsOk, IsTrue, OnErr, OnOk, None, Some, get_or, set, slice_get};
ghost use Rattle.std.specs.Option.{option_copied};
ghost use Rattle.can_frame.specs.Parts.{Parts, IsFrame};
ghost use Rattle.can_node.specs.Ports.{earlier as earlier_by, waiting, without};
ghost use Rattle.can_node.specs.Tournament.{frames_in, IsPlayed};

mod entrant;
mod winners;

use crate::copying::copied_with_room;
use crate::queue::entrant::Entrant;
use crate::queue::winners::{Winners, frame_at};
use can_frame::Frame;
use std::alloc::{AllocError, Global};

/// The frames that wait to be sent, in the order in which they were offered.
///
/// Each has a slot of its own. A frame that leaves empties its slot. If no slot is left for an offer, the frames are
/// moved together. A tournament of the slots finds the frame with the highest priority. So an offer, and a frame that
/// leaves, take time logarithmic in the number of frames.
#[derive(Drop)]
pub struct Queue {
    /// In the order of the offers.
    slots: Vec<Option<Frame>>,
    winners: Winners,
    /// The pending frame, stored so that no bit time has to search for it.
    first: Option<Frame>,
    /// The number of frames that wait.
    count: usize,
    room: usize,
    ghost are_frames: { (n : ℕ) (f : Parts) → slice_get (frames_in slots.items) n ≡ Some f → IsFrame f },
    ghost counted: { count ≡ length (frames_in slots.items) },
    ghost fits: { length (frames_in slots.items) ≤ room },
    ghost few: { 2 * room ≤ 2 ^ 62 },
    ghost has_room: { (2 * room ≤ vec_capacity slots) × (2 * room ≤ vec_capacity winners.entrants) },
    ghost has_slots: { (length slots.items ≤ length winners.entrants.items) × (length winners.entrants.items ≤ 2 * room) },
    ghost played: { IsPlayed winners.entrants.items slots.items },
    ghost goes_first: { first ≡ waiting (frames_in slots.items) },
}

impl Queue {
    /// An empty queue with memory for `room` frames.
    pub fn with_room(alloc: Global, room: usize) -> Result<Queue, AllocError>
        ensures frames { IfOk result (λ q. frames_in q.slots.items ≡ []) }
        ensures room { IfOk result (λ q. q.room ≡ room) }
        ensures no_room { room ≡ 0 → IsOk result }
    {
        if room > MOST_FRAMES {
            return Err(AllocError);
        }
        Ok(Queue {
            slots: Vec::with_capacity(alloc, 2 * room)?,
            winners: Winners::with_room(alloc, 2 * room)?,
            first: None,
            count: 0,
            room,
        })
    }

    /// A copy of this queue, with memory of its own.
    pub fn copied(&self, alloc: Global) -> Result<Queue, AllocError>
        ensures frames { IfOk result (λ q. frames_in q.slots.items ≡ frames_in self.now.slots.items) }
        ensures room { IfOk result (λ q. q.room ≡ self.now.room) }
    {
        Ok(Queue {
            slots: copied_with_room(alloc, &self.slots, 2 * self.room)?,
            winners: self.winners.copied(alloc, 2 * self.room)?,
            first: self.first,
            count: self.count,
            room: self.room,
        })
    }

    /// The pending frame.
    pub fn waiting(&self) -> Option<&Frame>
        ensures { option_copied result ≡ waiting (frames_in self.now.slots.items) }
    {
        self.first.as_ref()
    }

    /// Whether `count` more frames fit.
    pub fn has_room(&self, count: usize) -> bool
        ensures { IsTrue result ↔ (length (frames_in self.now.slots.items) + count ≤ self.now.room) }
    {
        count <= self.room - self.count
    }

    /// Appends a frame. A full queue returns it.
    pub fn push(&mut self, frame: Frame) -> Result<(), Frame>
        ensures fits { IsOk result ↔ (length (frames_in self.old.slots.items) < self.old.room) }
        ensures taken { OnOk result (frames_in self.new.slots.items ≡ frames_in self.old.slots.items ++ frame ∷ []) }
        ensures back { IfErr result (λ refused. refused ≡ frame) }
        ensures unchanged { OnErr result (frames_in self.new.slots.items ≡ frames_in self.old.slots.items) }
        ensures room { self.new.room ≡ self.old.room }
    {
        if self.count == self.room {
            return Err(frame);
        }
        // reading the bytes of a frame shows the prover that it is within its limits
        let _ = frame.bytes();
        self.make_slot();
        let place = self.slots.len();
        self.slots.push_reserved(Some(frame));
        self.winners.replay(&self.slots, place);
        self.first = Some(first_with(self.first, frame));
        self.count += 1;
        Ok(())
    }

    /// Makes sure that a slot is free after the last one. If none is, it moves the frames to the front, with one more
    /// free slot after them than there are frames, so that this is rare.
    fn make_slot(&mut self)
        requires { length (frames_in self.old.slots.items) < self.old.room }
        ensures frames { frames_in self.new.slots.items ≡ frames_in self.old.slots.items }
        ensures room { self.new.room ≡ self.old.room }
        ensures slot { length self.new.slots.items < length self.new.winners.entrants.items }
    {
        if self.slots.len() < self.winners.width() {
            return;
        }
        self.slots.retain(|slot| slot.is_some());
        self.winners.restart(&self.slots, 2 * self.slots.len() + 1);
    }

    /// Takes out the first frame that has the arbitration field of this one.
    pub fn remove(&mut self, sent: &Frame)
        ensures frames { frames_in self.new.slots.items ≡ without sent.now (frames_in self.old.slots.items) }
        ensures room { self.new.room ≡ self.old.room }
    {
        let Some(place) = self.winners.first_of(&self.slots, sent.key(), 1) else {
            return;
        };
        empty(&mut self.slots, place);
        self.winners.replay(&self.slots, place);
        self.first = first_in(&self.slots, self.winners.first(&self.slots));
        self.count -= 1;
    }
}

/// Empties a slot. The last slot is removed, so that the next offer finds it free.
fn empty(slots: &mut Vec<Option<Frame>>, place: usize)
    requires { place < length slots.old.items }
    ensures frames { frames_in slots.new.items ≡ frames_in (set slots.old.items place None) }
    ensures others { (n : ℕ) → n ≢ place → get_or slots.new.items n None ≡ get_or slots.old.items n None }
    ensures fewer { length slots.new.items ≤ length slots.old.items }
    ensures capacity { vec_capacity slots.new ≡ vec_capacity slots.old }
{
    if place + 1 == slots.len() {
        slots.truncate(place);
    } else {
        slots[place] = None;
    }
}

/// A queue of more frames would need more memory than there can be.
const MOST_FRAMES: usize = 1 << 60;

/// The pending frame after this one has been appended.
fn first_with(first: Option<Frame>, frame: Frame) -> Frame
    ensures { MatchOption first (result ≡ frame) (λ f. result ≡ earlier_by f (Some frame)) }
{
    match first {
        Some(first) if frame.key() >= first.key() => first,
        _ => frame,
    }
}

/// The frame at the place of a winner.
fn first_in(slots: &[Option<Frame>], winner: Option<Entrant>) -> Option<Frame>
    ensures { MatchOption winner (result ≡ None) (λ e. result ≡ get_or slots.now e.place None) }
{
    frame_at(slots, winner?.place)
}
