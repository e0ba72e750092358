//! Transcripts: what a controller did in a case.
ghost use Rattle.std.specs.Prelude.{◌^◌, ◌-◌, ◌↔◌, IfSome, IsTrue};
ghost use Rattle.can_terms.specs.Cases.{AreRising, EndBefore, IsTold};

use crate::event::Event;
use crate::timed::Timed;
use can_fault::State;
use can_frame::Level;

/// The error counters of a controller.
#[derive(Clone, Copy, Debug, PartialEq, Eq)]
pub struct Counters {
    /// TEC, the transmit error counter.
    pub transmit: u16,
    /// REC, the receive error counter.
    pub receive: u16,
}

impl Counters {
    /// Those of a new controller.
    pub const NONE: Counters = Counters {
        transmit: 0,
        receive: 0,
    };
}

/// The state and the counters of a controller after the last bit time.
#[derive(Clone, Copy, Debug, PartialEq, Eq)]
pub struct Ending {
    pub state: State,
    pub counters: Counters,
}

/// What a controller did in a case. Parts that are `None` are not judged.
#[derive(Debug, Drop)]
pub struct Transcript {
    /// The level that it drove in each bit time.
    pub drove: Vec<Level>,
    /// The events that it reported, with strictly rising times.
    pub events: Option<Vec<Timed<Event>>>,
    /// Its counters after each bit time that changed one, with strictly rising times.
    pub counters: Option<Vec<Timed<Counters>>>,
    pub end: Option<Ending>,
}

impl Transcript {
    /// Returns whether the times rise strictly, and the times and the number of levels are below 2^32 - 1.
    /// A judge (can_conform) requires this.
    pub fn is_told(&self) -> bool
        ensures { IsTrue result ↔ IsTold self.now }
    {
        self.drove.len() < u32::MAX as usize && are_told(&self.events) && are_told(&self.counters)
    }
}

/// Whether times rise, if the list is there.
fn are_told<T>(list: &Option<Vec<Timed<T>>>) -> bool
    ensures rising { IsTrue result → IfSome list.now (λ list. AreRising list.items) }
    ensures end { IsTrue result → IfSome list.now (λ list. EndBefore list.items (2 ^ 32 - 1)) }
    ensures only { IfSome list.now (λ list. AreRising list.items) → IfSome list.now (λ list. EndBefore list.items (2 ^ 32 - 1)) → IsTrue result }
{
    match list {
        Some(list) => are_rising(list),
        None => true,
    }
}

/// Whether times rise strictly, each below 2^32 - 1.
fn are_rising<T>(list: &[Timed<T>]) -> bool
    ensures rising { IsTrue result → AreRising list.now }
    ensures end { IsTrue result → EndBefore list.now (2 ^ 32 - 1) }
    ensures only { AreRising list.now → EndBefore list.now (2 ^ 32 - 1) → IsTrue result }
{
    let mut least = 0;
    for told in list {
        if told.time < least || told.time == u32::MAX {
            return false;
        }
        least = told.time + 1;
    }
    true
}
