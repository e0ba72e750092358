//! An index of gates, by the signal of their left side.
use std::alloc::{AllocError, Global};

/// The gates of each left side's signal, the last first. It has no contract: the circuit compares the gate that it
/// finds. All its memory is allocated by `new`.
#[derive(Drop)]
pub(crate) struct Chains {
    /// For each signal, the number of the last gate with it, counted from 1, or 0.
    last: Vec<usize>,
    /// For each gate, the number of the previous gate in its chain, counted from 1, or 0.
    before: Vec<usize>,
}

impl Chains {
    /// An index with capacity for `room` gates, of signals up to and including `highest`.
    pub(crate) fn new(alloc: Global, highest: u32, room: u32) -> Result<Chains, AllocError> {
        Ok(Chains {
            last: Vec::with_capacity(alloc, highest as usize + 1)?,
            before: Vec::with_capacity(alloc, room as usize)?,
        })
    }

    /// The index of the last gate whose left side is of this signal.
    pub(crate) fn last(&self, signal: u32) -> Option<usize> {
        let count = self.last.get(signal as usize).copied()?;
        count.checked_sub(1)
    }

    /// The index of the previous gate in the chain of this one.
    pub(crate) fn before(&self, place: usize) -> Option<usize> {
        let count = self.before.get(place).copied()?;
        count.checked_sub(1)
    }

    /// Adds the next gate, whose left side is of this signal. Within the capacity this allocates no memory.
    pub(crate) fn add(&mut self, signal: u32) {
        let signal = signal as usize;
        for _ in self.last.len()..signal + 1 {
            let _ = self.last.push(0);
        }
        let before = self.last.get(signal).copied().unwrap_or(0);
        let _ = self.before.push(before);
        let count = self.before.len();
        if let Some(last) = self.last.get_mut(signal) {
            *last = count;
        }
    }
}
