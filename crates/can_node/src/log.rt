ghost use Rattle.std.specs.Prelude.{◌≡◌, ◌<◌, ◌≤◌, ◌+◌, ◌++◌, ◌∷◌, ℕ, [], length, min, vec_capacity, IfOk, IsOk, Some, slice_get};
ghost use Rattle.can_frame.specs.Parts.{IsFrame};
ghost use Rattle.can_node.specs.declared.entry.Entry.{Entry as Logged};
ghost use Rattle.can_node.specs.Ports.{missed_limit};

use crate::copying::copied_with_room;
use crate::entry::Entry;
use std::alloc::{AllocError, Global};

/// The log of sent and received frames, the oldest first.
#[derive(Drop)]
pub struct Log {
    entries: Vec<Entry>,
    room: usize,
    missed: u32,
    ghost are_frames: { (n : ℕ) (entry : Logged) → slice_get entries.items n ≡ Some entry → IsFrame entry.frame },
    ghost fits: { length entries.items ≤ room },
    ghost has_room: { room ≤ vec_capacity entries },
    ghost counted: { missed ≤ missed_limit },
}

impl Log {
    /// An empty log with capacity for `room` entries.
    pub fn with_room(alloc: Global, room: usize) -> Result<Log, AllocError>
        ensures entries { IfOk result (λ l. l.entries.items ≡ []) }
        ensures room { IfOk result (λ l. l.room ≡ room) }
        ensures missed { IfOk result (λ l. l.missed ≡ 0) }
        ensures no_room { room ≡ 0 → IsOk result }
    {
        Ok(Log {
            entries: Vec::with_capacity(alloc, room)?,
            room,
            missed: 0,
        })
    }

    /// A copy of this log, with memory of its own.
    pub fn copied(&self, alloc: Global) -> Result<Log, AllocError>
        ensures entries { IfOk result (λ l. l.entries.items ≡ self.now.entries.items) }
        ensures room { IfOk result (λ l. l.room ≡ self.now.room) }
        ensures missed { IfOk result (λ l. l.missed ≡ self.now.missed) }
    {
        Ok(Log {
            entries: copied_with_room(alloc, &self.entries, self.room)?,
            room: self.room,
            missed: self.missed,
        })
    }

    /// The entries, the oldest first.
    pub fn entries(&self) -> &[Entry]
        ensures { result.now ≡ self.now.entries.items }
    {
        &self.entries
    }

    /// The number of entries that did not fit. It stops at the highest `u32`.
    pub fn missed(&self) -> u32
        ensures { result ≡ self.now.missed }
    {
        self.missed
    }

    /// Appends an entry. If the log is full, the entry is counted as missed instead.
    pub fn push(&mut self, entry: Entry)
        ensures taken { length self.old.entries.items < self.old.room → self.new.entries.items ≡ self.old.entries.items ++ entry ∷ [] }
        ensures none_missed { length self.old.entries.items < self.old.room → self.new.missed ≡ self.old.missed }
        ensures full { self.old.room ≤ length self.old.entries.items → self.new.entries.items ≡ self.old.entries.items }
        ensures missed { self.old.room ≤ length self.old.entries.items → self.new.missed ≡ min (self.old.missed + 1) missed_limit }
        ensures room { self.new.room ≡ self.old.room }
    {
        // reading the bytes of a frame shows the prover that it is within its limits
        let _ = entry.frame.bytes();
        if self.entries.len() < self.room {
            self.entries.push_reserved(entry);
        } else {
            self.missed = self.missed.saturating_add(1);
        }
    }
}
