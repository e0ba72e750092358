//! The bus line, bit time by bit time, for controllers of any kind.
ghost use Rattle.std.specs.Prelude.{◌≡◌, ◌<◌, ◌≤◌, ◌^◌, ◌-◌, ◌↔◌, IfSome, IsSome, IsTrue};
ghost use Rattle.std.specs.List.{list_any};
ghost use Rattle.can_bus.specs.Run.{hits_view as hits_view_of, hits_wire as hits_wire_of, inverted_if as inverted_if_of};
ghost use Rattle.can_bus.specs.Walks.{IsPassed};
ghost use Rattle.can_bus.specs.WireSteps.{IsWire, wire_attempt, wire_behind, wire_begun, wire_level, wire_step};

use crate::bus::inverted_if;
use crate::moment::{Attempt, attempt_now, rest_after};
use can_frame::{IDLE_ROW, Level};
use can_terms::Hit;
use std::marker::Model;

/// A bus line between two bit times: how many have passed, the latest attempt, and how many recessive levels were
/// last in a row. It has the levels of a bus, whatever controllers drive it.
#[derive(Clone, Copy, Debug)]
pub struct Wire {
    rest: u8,
    time: u64,
    latest: Option<Attempt>,
}

impl Model for Wire {
    ghost use Rattle.can_bus.specs.WireSteps.{IsWire, WireState};

    ghost Value = { WireState };

    ghost view = { λ a. record { rest = a.rest; time = a.time; latest = a.latest } };

    ghost invariant = { λ a. IsWire (record { rest = a.rest; time = a.time; latest = a.latest }) };

    ghost inverse = { λ v. record { rest = v.rest; time = v.time; latest = v.latest } };
}

/// A bit time of the bus line.
#[derive(Clone, Copy, Debug)]
pub struct Moment {
    /// The number of bit times before it.
    pub time: u64,
    /// The latest attempt in it.
    pub attempt: Option<Attempt>,
}

impl Moment {
    /// Whether the hit inverts the level of the bus line in this bit time.
    pub fn hits_wire(&self, hit: Hit) -> bool
        ensures { result ≡ hits_wire_of self.now.time self.now.attempt hit }
    {
        match hit {
            Hit::At(time) => time == self.time,
            Hit::In { attempt, offset } => match self.attempt {
                None => false,
                Some(latest) => latest.number == attempt && latest.offset == offset,
            },
            Hit::View { .. } => false,
        }
    }

    /// Whether one of these hits does.
    fn is_hit(&self, hits: &[Hit]) -> bool
        ensures { result ≡ list_any (hits_wire_of self.now.time self.now.attempt) hits.now }
    {
        hits.iter().any(|hit| self.hits_wire(*hit))
    }

    /// Whether the hit inverts what the node with this number samples in this bit time.
    pub fn hits_view(&self, number: usize, hit: Hit) -> bool
        ensures { result ≡ hits_view_of self.now.time number hit }
    {
        match hit {
            Hit::At(_) | Hit::In { .. } => false,
            Hit::View { time, node } => time == self.time && node == number,
        }
    }
}

impl Wire {
    /// A bus line before its first bit time. It counts as recessive for eleven bit times.
    pub fn new() -> Wire
        ensures { result ≡ wire_begun 11 }
    {
        Wire {
            rest: IDLE_ROW,
            time: 0,
            latest: None,
        }
    }

    /// A bus line that had `rest` recessive levels last, at most eleven, in bit time `time`, with the latest attempt
    /// of the bit time before. It returns `None` if no bus line can reach this state: an attempt cannot have lasted
    /// longer than the bus line, and each began in a bit time of its own.
    pub fn at(rest: u8, time: u64, latest: Option<Attempt>) -> Option<Wire>
        ensures made { IsSome result ↔ IsWire (record { rest = rest; time = time; latest = latest }) }
        ensures wire { IfSome result (λ wire. wire ≡ record { rest = rest; time = time; latest = latest }) }
    {
        if rest > IDLE_ROW || !has_come(latest, time) {
            return None;
        }
        Some(Wire { rest, time, latest })
    }

    /// The number of recessive levels last in a row, counted up to eleven.
    pub fn rest(&self) -> u8
        ensures value { result ≡ self.now.rest }
        ensures range { result ≤ 11 }
    {
        self.rest
    }

    /// The number of bit times that have passed.
    pub fn time(&self) -> u64
        ensures { result ≡ self.now.time }
    {
        self.time
    }

    /// The latest attempt, as of the bit time before.
    pub fn latest(&self) -> Option<Attempt>
        ensures value { result ≡ self.now.latest }
        ensures range { IsWire self.now }
    {
        self.latest
    }

    /// The next bit time, if this level is driven in it.
    pub fn moment(&self, driven: Level) -> Moment
        requires time { self.now.time < 2 ^ 64 - 1 }
        ensures { result ≡ record { time = self.now.time; attempt = wire_attempt self.now driven } }
    {
        Moment {
            time: self.time,
            attempt: attempt_now(self.latest, self.rest, driven),
        }
    }

    /// Runs one bit time, in which this level is driven, and inverted if `hit`. Returns the level of the bus line.
    pub fn pass(&mut self, driven: Level, hit: bool) -> Level
        requires time { self.old.time < 2 ^ 64 - 1 }
        ensures level { result ≡ inverted_if_of hit driven }
        ensures after { self.new ≡ wire_behind self.old driven (inverted_if_of hit driven) }
    {
        let level = inverted_if(hit, driven);
        self.latest = attempt_now(self.latest, self.rest, driven);
        self.rest = rest_after(self.rest, level);
        self.time += 1;
        level
    }

    /// Runs one bit time, in which this level is driven, and returns the level of the bus line: the opposite one if a
    /// hit falls on it. The hits may be in any order, and others in each bit time. Its work is proportional to them;
    /// it allocates no memory.
    pub fn level(&mut self, driven: Level, hits: &[Hit]) -> Level
        requires time { self.old.time < 2 ^ 64 - 1 }
        ensures level { result ≡ wire_level hits.now self.old driven }
        ensures after { self.new ≡ wire_step hits.now self.old driven }
    {
        let hit = self.moment(driven).is_hit(hits);
        self.pass(driven, hit)
    }
}

/// Whether a bus line can have had this latest attempt by this time.
fn has_come(latest: Option<Attempt>, time: u64) -> bool
    ensures { IsTrue result ↔ IsPassed latest time }
{
    match latest {
        None => true,
        Some(Attempt { number, offset }) => number < time && offset < time - number,
    }
}
