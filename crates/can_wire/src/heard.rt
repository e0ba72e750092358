ghost use Rattle.std.specs.Prelude.{◌≡◌, ◌⊎◌, ◌↔◌, IsNone, IfSome, IsTrue, false};
ghost use Rattle.std.proofs.Common.{rules};
ghost use Rattle.std.specs.Cmp.Rules.{comparing};
ghost use Rattle.can_frame.specs.declared.level.Level.TheVariants.{Dominant, Recessive};
ghost use Rattle.can_wire.specs.Heard.{IsHeard, same_heard, sent};

use can_frame::{Frame, Level};
use std::marker::Model;

/// The SRR bit as it is sent.
pub(crate) const SUBSTITUTE_REMOTE_REQUEST: Level = Level::Recessive;

/// The reserved bits r1 and r0 as they are sent.
pub(crate) const RESERVED: Level = Level::Dominant;

/// Each of the seven levels of the end of frame as it is sent.
pub(crate) const END_OF_FRAME: Level = Level::Recessive;

/// A frame as received: the frame itself, and the levels that a receiver accepts at either value.
/// (Bosch CAN 2.0 part B, sections 3.2.1 and 5)
///
/// A standard frame has no SRR and no r1. They count as recessive and dominant, the values that
/// they are sent with in an extended frame. Two values are equal exactly if all their getters
/// agree.
#[derive(Clone, Copy, Debug)]
pub struct Heard {
    frame: Frame,
    srr: Level,
    r1: Level,
    r0: Level,
    acked: bool,
    last: Level,
}

impl Model for Heard {
    ghost use Rattle.std.specs.Prelude.{◌≡◌, false};
    ghost use Rattle.can_frame.specs.declared.level.Level.TheVariants.{Dominant, Recessive};
    ghost use Rattle.can_wire.specs.Heard.{HeardParts};

    ghost Value = { HeardParts };

    ghost view = { λ a. record { frame = a.frame; srr = a.srr; r1 = a.r1; r0 = a.r0; acked = a.acked; last = a.last } };

    ghost invariant = { λ a. (a.frame.id.extended ≡ false → a.srr ≡ Recessive) × (a.frame.id.extended ≡ false → a.r1 ≡ Dominant) };

    ghost inverse = { λ h. record { frame = h.frame; srr = h.srr; r1 = h.r1; r0 = h.r0; acked = h.acked; last = h.last } };
}

impl PartialEq for Heard {
    ghost eq = { same_heard };

    ghost laws = { Prim.search (comparing, rules) depth 9 };

    fn eq(&self, other: &Heard) -> bool
        ensures test { result ≡ same_heard self.now other.now }
        ensures equal { IsTrue result ↔ (self.now ≡ other.now) }
    {
        self.frame == other.frame
            && self.srr == other.srr
            && self.r1 == other.r1
            && self.r0 == other.r0
            && self.acked == other.acked
            && self.last == other.last
    }
}

impl Eq for Heard {
    ghost laws = { Prim.search (comparing, rules) depth 9 };
}

impl Heard {
    /// Returns the frame as received with these parts. `None` if a standard frame would have a
    /// dominant SRR or a recessive r1.
    pub fn new(
        frame: Frame,
        srr: Level,
        r1: Level,
        r0: Level,
        acked: bool,
        last: Level,
    ) -> Option<Heard>
        ensures none { IsNone result ↔ ((frame.id.extended ≡ false) × ((srr ≡ Dominant) ⊎ (r1 ≡ Recessive))) }
        ensures some { IfSome result (λ h. h ≡ record { frame = frame; srr = srr; r1 = r1; r0 = r0; acked = acked; last = last }) }
    {
        if !frame.is_extended() && (!srr.is_recessive() || r1.is_recessive()) {
            return None;
        }
        Some(Heard {
            frame,
            srr,
            r1,
            r0,
            acked,
            last,
        })
    }

    /// Returns the frame as received if every level has the value that it is sent with, and a
    /// receiver acknowledges.
    pub fn sent(frame: Frame) -> Heard
        ensures { result ≡ sent frame }
    {
        Heard {
            frame,
            srr: SUBSTITUTE_REMOTE_REQUEST,
            r1: RESERVED,
            r0: RESERVED,
            acked: true,
            last: END_OF_FRAME,
        }
    }

    /// Returns the frame as received if every level has the value that it is sent with, and no
    /// receiver acknowledges.
    pub fn unacknowledged(frame: Frame) -> Heard
        ensures { result ≡ record (sent frame) { acked = false } }
    {
        Heard {
            acked: false,
            ..Heard::sent(frame)
        }
    }

    /// The frame.
    pub fn frame(&self) -> Frame
        ensures value { result ≡ self.now.frame }
        ensures whole { IsHeard self.now }
    {
        let frame = self.frame;
        // gives callers that the frame is within its limits
        let _ = frame.bytes();
        frame
    }

    /// The SRR bit. It is recessive in a standard frame, which has none.
    pub fn srr(&self) -> Level
        ensures { result ≡ self.now.srr }
    {
        self.srr
    }

    /// The reserved bit r1. It is dominant in a standard frame, which has none.
    pub fn r1(&self) -> Level
        ensures { result ≡ self.now.r1 }
    {
        self.r1
    }

    /// The reserved bit r0.
    pub fn r0(&self) -> Level
        ensures { result ≡ self.now.r0 }
    {
        self.r0
    }

    /// Whether a receiver has acknowledged the frame: the ACK slot is dominant.
    pub fn acked(&self) -> bool
        ensures { result ≡ self.now.acked }
    {
        self.acked
    }

    /// The last level of the end of frame.
    pub fn last(&self) -> Level
        ensures { result ≡ self.now.last }
    {
        self.last
    }
}
