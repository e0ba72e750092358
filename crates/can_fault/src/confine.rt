ghost use Rattle.std.specs.Prelude.{◌≡◌, ◌≢◌, ◌+◌, ◌<◌, ◌≤◌, [], ◌∷◌, min, ◌↔◌, IfSome, OnSome, IsTrue, IsFalse};
ghost use Rattle.can_fault.specs.Recovery.{after_levels, ends_bus_off, EndsBehind, EndsBusOff, recovered, StaysBusOff};
ghost use Rattle.can_fault.specs.Counters.{counted, fresh, IsConfine, rec_after_reception, state_of};

use crate::cause::Cause;
use crate::state::State;
use can_frame::{IDLE_ROW, Level};
use std::marker::Model;

/// A node is error passive if a counter is at least 128.
const PASSIVE_FROM: u16 = 128;

/// A node is bus off if its TEC is at least 256.
const BUS_OFF_FROM: u16 = 256;

/// The maximum of REC.
const HIGHEST_REC: u16 = 255;

/// The number of occurrences of eleven recessive levels that end bus off.
const OCCURRENCES: u8 = 128;

/// The error counters of a node, and its progress in recovery from bus off. (Bosch CAN 2.0 part B, section 8)
#[derive(Clone, Copy, Debug, Default, PartialEq, Eq)]
pub struct Confine {
    tec: u16,
    rec: u16,
    /// Occurrences of eleven recessive levels since the node became bus off.
    occurrences: u8,
    /// Recessive levels in a row since the last occurrence.
    row: u8,
}

impl Model for Confine {
    ghost use Rattle.can_fault.specs.Counters.{ConfineParts, IsConfine};

    ghost Value = { ConfineParts };

    ghost view = { λ a. record { tec = a.tec; rec = a.rec; occurrences = a.occurrences; row = a.row } };

    ghost invariant = { λ a. IsConfine (record { tec = a.tec; rec = a.rec; occurrences = a.occurrences; row = a.row }) };

    ghost inverse = { λ v. record { tec = v.tec; rec = v.rec; occurrences = v.occurrences; row = v.row } };
}

impl Confine {
    /// Returns the counters of a node that has counted no error.
    pub fn new() -> Self
        ensures { result ≡ fresh }
    {
        Confine {
            tec: 0,
            rec: 0,
            occurrences: 0,
            row: 0,
        }
    }

    /// TEC, the transmit error counter, 0 to 263.
    pub fn tec(&self) -> u16
        ensures value { result ≡ self.now.tec }
        ensures range { result < 264 }
    {
        self.tec
    }

    /// REC, the receive error counter, 0 to 255.
    pub fn rec(&self) -> u16
        ensures value { result ≡ self.now.rec }
        ensures range { result < 256 }
    {
        self.rec
    }

    /// The number of occurrences of eleven recessive levels since the node became bus off, 0 to 127. It is 0
    /// in any other state.
    pub fn occurrences(&self) -> u8
        ensures value { result ≡ self.now.occurrences }
        ensures range { result < 128 }
    {
        self.occurrences
    }

    /// Returns the state that follows from the counters.
    pub fn state(&self) -> State
        ensures value { result ≡ state_of self.now }
        ensures active { (result ≡ State.Active) ↔ ((self.now.tec ≤ 127) × (self.now.rec ≤ 127)) }
        ensures bus_off { (result ≡ State.BusOff) ↔ (256 ≤ self.now.tec) }
        ensures kept { IsConfine self.now }
    {
        if self.tec >= BUS_OFF_FROM {
            State::BusOff
        } else if self.tec >= PASSIVE_FROM || self.rec >= PASSIVE_FROM {
            State::Passive
        } else {
            State::Active
        }
    }

    /// Changes the counters for this cause (section 8). Nothing changes while the node is bus off.
    pub fn apply(&mut self, cause: Cause)
        ensures { self.new ≡ counted cause self.old }
    {
        if self.state() == State::BusOff {
            return;
        }
        match cause {
            Cause::ReceiverError => self.rec = raised(self.rec, 1),
            Cause::ReceiverFlagBit | Cause::ReceiverFirstDominant | Cause::ReceiverDominantRun => {
                self.rec = raised(self.rec, 8);
            }
            Cause::SenderError
            | Cause::SenderFlagBit
            | Cause::SenderDominantRun
            | Cause::PassiveUnacknowledged => self.tec += 8,
            Cause::FrameSent => self.tec = self.tec.saturating_sub(1),
            Cause::FrameReceived => self.rec = lowered(self.rec),
        }
    }

    /// Takes one level while the node is bus off, and returns whether bus off ends with it. Then both counters
    /// become 0, and the node is error active. In any other state nothing changes.
    pub fn recover(&mut self, level: Level) -> bool
        ensures value { result ≡ ends_bus_off level self.old }
        ensures after { self.new ≡ recovered level self.old }
        ensures ended { state_of self.old ≡ State.BusOff → (IsTrue result ↔ EndsBusOff self.old (level ∷ [])) }
        ensures waiting { state_of self.old ≡ State.BusOff → IsFalse result → self.new ≡ after_levels self.old (level ∷ []) }
    {
        if self.state() != State::BusOff {
            return false;
        }
        match level {
            Level::Dominant => self.row = 0,
            Level::Recessive => self.row += 1,
        }
        if self.row == IDLE_ROW {
            self.row = 0;
            self.occurrences += 1;
        }
        let ended = self.occurrences == OCCURRENCES;
        if ended {
            *self = Confine::new();
        }
        ended
    }

    /// Takes levels while the node is bus off, and returns after how many of them bus off ends. Then both
    /// counters are 0, and the node is error active. Returns `None` if bus off does not end with any of them.
    /// In any other state it returns `None`, and nothing changes.
    pub fn recover_over(&mut self, levels: &[Level]) -> Option<usize>
        ensures ended { IfSome result (EndsBehind self.old levels.now) }
        ensures cleared { OnSome result (self.new ≡ fresh) }
        ensures waiting { result ≡ None → state_of self.old ≡ State.BusOff → StaysBusOff self.old levels.now × (self.new ≡ after_levels self.old levels.now) }
        ensures other_states { state_of self.old ≢ State.BusOff → (result ≡ None) × (self.new ≡ self.old) }
    {
        if self.state() != State::BusOff {
            return None;
        }
        for (index, level) in levels.iter().enumerate() {
            if self.recover(*level) {
                return Some(index + 1);
            }
        }
        None
    }
}

/// REC after an increase.
fn raised(rec: u16, errors: u16) -> u16
    ensures { result ≡ min (rec + errors) 255 }
{
    rec.saturating_add(errors).min(HIGHEST_REC)
}

/// REC after a successful reception.
fn lowered(rec: u16) -> u16
    ensures { result ≡ rec_after_reception rec }
{
    if rec >= PASSIVE_FROM {
        PASSIVE_FROM - 1
    } else {
        rec.saturating_sub(1)
    }
}
