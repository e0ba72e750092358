ghost use Rattle.std.specs.Prelude.{◌≡◌, ◌<◌, ◌≤◌, ◌+◌, ◌*◌, ◌^◌, [], get_or, length, set, vec_capacity, IfOk, IsOk, None};
ghost use Rattle.can_node.specs.Tournament.{FirstUnder, IsPlayed, IsPlayedBut, earlier_of, lower_of, winner_at};

use crate::copying::copied_with_room;
use crate::queue::entrant::{Entrant, earlier, is_same};
use can_frame::{Frame, Key};
use std::alloc::{AllocError, Global};
use std::cmp::Ordering;

/// The winners of a tournament of slots: at each node, the frame with the highest priority of those below it.
///
/// Nodes are numbered from 1. The children of node n are nodes 2 n and 2 n + 1. Nodes from the width on are the
/// slots, in their order.
#[derive(Drop)]
pub struct Winners {
    /// The winner at each node below the width. Place 0 is unused.
    entrants: Vec<Option<Entrant>>,
    ghost few: { length entrants.items ≤ 2 ^ 62 },
}

impl Winners {
    /// A tournament of no slots, with memory for `room` slots.
    pub fn with_room(alloc: Global, room: usize) -> Result<Winners, AllocError>
        ensures none { IfOk result (λ w. w.entrants.items ≡ []) }
        ensures room { IfOk result (λ w. room ≤ vec_capacity w.entrants) }
        ensures no_room { room ≡ 0 → IsOk result }
    {
        Ok(Winners {
            entrants: Vec::with_capacity(alloc, room)?,
        })
    }

    /// A copy of this tournament, with memory for `room` slots.
    pub fn copied(&self, alloc: Global, room: usize) -> Result<Winners, AllocError>
        ensures same { IfOk result (λ w. w.entrants.items ≡ self.now.entrants.items) }
        ensures room { IfOk result (λ w. room ≤ vec_capacity w.entrants) }
    {
        Ok(Winners {
            entrants: copied_with_room(alloc, &self.entrants, room)?,
        })
    }

    /// The number of slots for which there are nodes.
    pub fn width(&self) -> usize
        ensures { result ≡ length self.now.entrants.items }
    {
        self.entrants.len()
    }

    /// The winner of all slots.
    pub fn first(&self, slots: &[Option<Frame>]) -> Option<Entrant>
        ensures { result ≡ winner_at self.now.entrants.items slots.now 1 }
    {
        self.at(slots, 1)
    }

    /// The winner at a node.
    #[tactic(auto, unfolding(crate::specs::Tournament::winner_at))]
    #[inline(always)]
    fn at(&self, slots: &[Option<Frame>], node: usize) -> Option<Entrant>
        ensures { result ≡ winner_at self.now.entrants.items slots.now node }
    {
        if node < self.width() {
            return self.entrants[node];
        }
        let place = node - self.width();
        let frame = frame_at(slots, place)?;
        Some(Entrant {
            field: frame.key(),
            place,
        })
    }

    /// The winner of the two children of a node.
    #[inline(always)]
    fn below(&self, slots: &[Option<Frame>], node: usize) -> Option<Entrant>
        requires { node < length self.now.entrants.items }
        ensures { result ≡ earlier_of (winner_at self.now.entrants.items slots.now (2 * node)) (winner_at self.now.entrants.items slots.now (2 * node + 1)) }
    {
        earlier(self.at(slots, 2 * node), self.at(slots, 2 * node + 1))
    }

    /// Plays the nodes above a slot again, after its frame has changed.
    pub fn replay(&mut self, slots: &[Option<Frame>], place: usize)
        requires place { place < length self.old.entrants.items }
        requires others { IsPlayedBut (length self.old.entrants.items + place) self.old.entrants.items slots.now }
        ensures played { IsPlayed self.new.entrants.items slots.now }
        ensures width { length self.new.entrants.items ≡ length self.old.entrants.items }
        ensures capacity { vec_capacity self.new.entrants ≡ vec_capacity self.old.entrants }
    {
        let mut node = self.width() + place;
        while node > 1 {
            node /= 2;
            let winner = self.below(slots, node);
            if is_same(&winner, &self.entrants[node]) {
                return;
            }
            self.entrants[node] = winner;
        }
    }

    /// Plays all nodes again, for `width` slots.
    pub fn restart(&mut self, slots: &[Option<Frame>], width: usize)
        requires room { width ≤ vec_capacity self.old.entrants }
        requires few { width ≤ 2 ^ 62 }
        ensures played { IsPlayed self.new.entrants.items slots.now }
        ensures width { length self.new.entrants.items ≡ width }
        ensures capacity { vec_capacity self.old.entrants ≤ vec_capacity self.new.entrants }
    {
        // the capacity suffices, so no memory is allocated
        let _ = self.entrants.resize(width, None);
        let mut node = width;
        while node > 1 {
            node -= 1;
            self.entrants[node] = self.below(slots, node);
        }
    }

    /// The place of the first frame below a node that has this arbitration field. It descends only from nodes whose
    /// winner has a lower field.
    pub fn first_of(&self, slots: &[Option<Frame>], field: Key, node: usize) -> Option<usize>
        requires node { 1 ≤ node }
        requires slots { length slots.now ≤ length self.now.entrants.items }
        requires played { IsPlayed self.now.entrants.items slots.now }
        ensures { FirstUnder node (length self.now.entrants.items) slots.now field result }
    {
        let winner = self.at(slots, node)?;
        match field.cmp(&winner.field) {
            Ordering::Equal => Some(winner.place),
            Ordering::Greater if node < self.width() => {
                let left = self.first_of(slots, field, 2 * node);
                let right = self.first_of(slots, field, 2 * node + 1);
                lower(left, right)
            }
            _ => None,
        }
    }
}

/// The frame in a slot. There is none after the last slot.
pub fn frame_at(slots: &[Option<Frame>], place: usize) -> Option<Frame>
    ensures { result ≡ get_or slots.now place None }
{
    slots.get(place).copied().flatten()
}

/// The lower of two places, or the only one.
fn lower(left: Option<usize>, right: Option<usize>) -> Option<usize>
    ensures { result ≡ lower_of left right }
{
    match (left, right) {
        (Some(a), Some(b)) => Some(a.min(b)),
        (Some(_), None) => left,
        (None, _) => right,
    }
}
