ghost use Rattle.std.specs.Prelude.{◌≡◌};
ghost use Rattle.can_frame.specs.Parts.{IsFrame};
ghost use Rattle.can_code.specs.Sending.{sent_level};

use crate::reading::frame;
use can_frame::{Frame, Level};
use can_wire::{FrameBits, Heard, PackedBits, head_and_crc};
use std::marker::Model;

/// The unstuffed levels of a frame that is being transmitted. They are computed once, and also determine the
/// frame. (Bosch CAN 2.0 part B, section 3.2.1)
#[derive(Clone, Copy, Debug)]
pub struct Sending {
    levels: PackedBits,
}

impl Model for Sending {
    ghost use Rattle.std.specs.Prelude.{◌≡◌};
    ghost use Rattle.std.proofs.Common.{ap};
    ghost use Rattle.can_frame.specs.Parts.{Parts, IsFrame};
    ghost use Rattle.can_wire.specs.Layout.{frame_of};
    ghost use Rattle.can_wire.specs.Wire.{unstuffed};

    ghost Value = { Parts };

    ghost view = { λ a. frame_of a.levels };

    ghost invariant = { λ a. IsFrame (frame_of a.levels) × (unstuffed (frame_of a.levels) ≡ a.levels) };

    ghost inverse = { λ frame. record { levels = unstuffed frame } };

    ghost inverse_ok = { λ a is. ap (λ u. record { levels = u }) is.1 };
}

impl Sending {
    /// Returns the unstuffed levels of this frame as it is sent.
    pub fn new(frame: &Frame) -> Sending
        ensures { result ≡ frame.now }
    {
        Sending {
            levels: head_and_crc(&Heard::sent(*frame)),
        }
    }

    /// The frame.
    pub fn frame(&self) -> Frame
        ensures value { result ≡ self.now }
        ensures whole { IsFrame self.now }
    {
        frame(&self.levels)
    }

    /// Returns the unstuffed level at a place. The start of frame is at place 0. All places after the CRC
    /// sequence count as dominant.
    #[inline]
    pub fn level_at(&self, place: usize) -> Level
        ensures { result ≡ sent_level self.now place }
    {
        if place < self.levels.len() {
            self.levels.level_at(place)
        } else {
            Level::Dominant
        }
    }
}
