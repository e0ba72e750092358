use can_frame::Level;
use can_terms::{Counters, Event};

/// What the reference does in one bit time.
#[derive(Clone, Copy, Debug)]
pub struct Moment {
    /// The level that it drives, if the case has this bit time.
    pub drove: Option<Level>,
    pub event: Option<Event>,
    /// Its counters after the bit time.
    pub counters: Counters,
}
