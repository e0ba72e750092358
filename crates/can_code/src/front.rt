ghost use Rattle.std.specs.Prelude.{◌≡◌, ◌≢◌, ◌<◌, ◌≤◌, ◌↔◌, ◌∷◌, [], length, take, IsTrue, IsErr, OnOk, OnErr};
ghost use Rattle.can_wire.specs.Crc.{IsCrc};
ghost use Rattle.can_wire.specs.Layout.{check_of, extended_of, frame_of, head_of, heard_of};
ghost use Rattle.can_code.specs.Digits.{HearsDigits};
ghost use Rattle.can_code.specs.Front.{IsFront, first_front, heard_level, is_stuff_error, next_place as next_place_of};

use crate::reading::{frame, frame_len, heard, is_extended};
use crate::run::Run;
use crate::unstuffing::{NUMBER_BITS, room_behind, unstuff};
use can_frame::{Frame, Level};
use can_wire::places::ends_dlc;
use can_wire::{FrameBits, Heard};
use std::marker::Model;
use thiserror::Error;

/// What the next level of a frame is.
#[derive(Clone, Copy, Debug, PartialEq, Eq)]
pub enum Place {
    /// A stuff bit.
    StuffBit,
    /// A level of the frame, from the start of frame to the end of its CRC sequence.
    Bit,
    /// The CRC delimiter: the stuffed part has ended.
    CrcDelimiter,
}

/// A stuff error: a stuff bit has the level of the bit before it.
#[derive(Clone, Copy, Debug, PartialEq, Eq, Error)]
#[error("a stuff place repeats the level before it")]
pub struct StuffError;

/// What has been received of a frame, from its start of frame on.
#[derive(Drop)]
pub struct Front<B: FrameBits> {
    bits: B,
    /// The run that the last level ends.
    run: Run,
    /// The number of unstuffed levels of the frame, once they determine it.
    length: Option<usize>,
}

impl<B: FrameBits> Model for Front<B> {
    ghost use Rattle.can_code.specs.Reading.{TellsLength};
    ghost use Rattle.can_code.specs.Front.{FrontParts, IsFront};

    ghost Value = { FrontParts };

    ghost view = { λ a. record { unstuffed = B.levels a.bits; last = a.run.last; run = a.run.run } };

    ghost invariant = { λ a. let u = B.levels a.bits in
        IsFront (record { unstuffed = u; last = a.run.last; run = a.run.run }) × TellsLength u a.length };
}

impl<B: FrameBits> Front<B> {
    /// Returns the front of a frame of which only the start of frame has been received.
    pub fn begin() -> Self
        ensures { result ≡ first_front }
    {
        Front {
            bits: B::start(),
            run: Run::begin(Level::Dominant),
            length: None,
        }
    }

    /// Returns what the next level is. The stuffed part has ended if the unstuffed levels have their whole
    /// CRC sequence and no stuff bit is due.
    #[inline(always)]
    pub fn next_place(&self) -> Place
        ensures place { result ≡ next_place_of self.now }
        ensures whole { IsFront self.now }
    {
        if self.run.is_longest() {
            Place::StuffBit
        } else if self.length == Some(self.bits.len()) {
            Place::CrcDelimiter
        } else {
            Place::Bit
        }
    }

    /// Takes one level of the stuffed part. On a stuff error the front stays unchanged.
    #[inline(always)]
    pub fn hear(&mut self, level: Level) -> Result<(), StuffError>
        requires { next_place_of self.old ≢ Place.CrcDelimiter }
        ensures error { IsErr result ↔ IsTrue (is_stuff_error self.old level) }
        ensures ok { OnOk result (self.new ≡ heard_level self.old level) }
        ensures unchanged { OnErr result (self.new ≡ self.old) }
    {
        if self.run.is_longest() {
            if level == self.run.level() {
                return Err(StuffError);
            }
            self.run = Run::begin(level);
        } else {
            self.bits.push(level);
            self.run = self.run.and(level);
            if self.length.is_none() && ends_dlc(self.bits.len()) {
                self.length = frame_len(&self.bits);
            }
        }
        Ok(())
    }

    /// Takes levels of the stuffed part from the front of these digits, and returns how many. The effect is
    /// that of [`hear`](Front::hear) for each of them. It ends with the stuffed part, and stops before:
    ///
    /// - a level that completes a wrong CRC sequence;
    /// - a stuff bit with the level of the bit before it;
    /// - a byte that is not a digit.
    ///
    /// It may stop earlier.
    #[inline]
    pub fn hear_run(&mut self, digits: &[u8]) -> usize
        requires { next_place_of self.old ≢ Place.CrcDelimiter }
        ensures within { result ≤ length digits.now }
        ensures heard { HearsDigits self.old self.new (take result digits.now) }
        ensures agrees { next_place_of self.new ≡ Place.CrcDelimiter → IsCrc (head_of self.new.unstuffed) (check_of self.new.unstuffed) }
    {
        let taken = self.hear_parts(digits);
        taken + self.hear_last(&digits[taken..])
    }

    /// Takes levels, at most to the last but one of the CRC sequence.
    #[inline]
    fn hear_parts(&mut self, digits: &[u8]) -> usize
        requires { next_place_of self.old ≢ Place.CrcDelimiter }
        ensures within { result ≤ length digits.now }
        ensures heard { HearsDigits self.old self.new (take result digits.now) }
        ensures going { next_place_of self.new ≢ Place.CrcDelimiter }
    {
        let mut taken = 0;
        while taken < digits.len() {
            let more = self.hear_part(&digits[taken..]);
            if more == 0 {
                return taken;
            }
            taken += more;
        }
        taken
    }

    /// Takes levels as long as one number has space for their unstuffed levels.
    #[inline]
    fn hear_part(&mut self, digits: &[u8]) -> usize
        requires { next_place_of self.old ≢ Place.CrcDelimiter }
        ensures within { result ≤ length digits.now }
        ensures heard { HearsDigits self.old self.new (take result digits.now) }
        ensures going { next_place_of self.new ≢ Place.CrcDelimiter }
    {
        let room = room_behind(self.bits.len(), self.length);
        if room == 0 {
            return 0;
        }
        // except if this space is all that is left
        let waits = self.length.is_none() || room == NUMBER_BITS;
        let heard = unstuff(digits, room, waits, self.run);
        if heard.taken == 0 {
            return 0;
        }
        self.bits.append(heard.number, heard.len);
        self.run = heard.behind;
        if self.length.is_none() {
            self.length = frame_len(&self.bits);
        }
        heard.taken
    }

    /// Takes the last level of the CRC sequence if it is next and completes the right one. Returns how many
    /// levels it took.
    #[inline]
    fn hear_last(&mut self, digits: &[u8]) -> usize
        requires { next_place_of self.old ≢ Place.CrcDelimiter }
        ensures within { result ≤ length digits.now }
        ensures heard { HearsDigits self.old self.new (take result digits.now) }
        ensures agrees { next_place_of self.new ≡ Place.CrcDelimiter → IsCrc (head_of self.new.unstuffed) (check_of self.new.unstuffed) }
    {
        if self.run.is_longest() || self.length != Some(self.bits.len() + 1) || digits.is_empty() {
            return 0;
        }
        match Level::from_digit(digits[0]) {
            Some(level) if self.bits.agrees_with(level) && self.hear(level).is_ok() => 1,
            _ => 0,
        }
    }

    /// Returns a copy.
    pub fn copied(&self) -> Self
        ensures { result ≡ self.now }
    {
        Front {
            bits: levels_copied(&self.bits),
            run: self.run,
            length: self.length,
        }
    }

    /// The number of unstuffed levels that have been received.
    pub fn len(&self) -> usize
        ensures { result ≡ length self.now.unstuffed }
    {
        self.bits.len()
    }

    /// The last level, which may be a stuff bit.
    pub fn last(&self) -> Level
        ensures { result ≡ self.now.last }
    {
        self.run.level()
    }

    /// Whether the IDE bit, which has been received, is that of an extended frame.
    pub fn is_extended(&self) -> bool
        requires { 13 < length self.now.unstuffed }
        ensures { result ≡ extended_of self.now.unstuffed }
    {
        is_extended(&self.bits)
    }

    /// Whether the received CRC sequence is that of the levels before it.
    pub fn check_agrees(&self) -> bool
        requires { next_place_of self.now ≡ Place.CrcDelimiter }
        ensures { IsTrue result ↔ IsCrc (head_of self.now.unstuffed) (check_of self.now.unstuffed) }
    {
        self.bits.check_agrees()
    }

    /// The frame.
    pub fn frame(&self) -> Frame
        requires { next_place_of self.now ≡ Place.CrcDelimiter }
        ensures { result ≡ frame_of self.now.unstuffed }
    {
        frame(&self.bits)
    }

    /// Returns the frame as received, from the stuffed part and two levels after it: whether a receiver has
    /// acknowledged, and the last level of the end of frame.
    pub fn heard(&self, acked: bool, last: Level) -> Heard
        requires { next_place_of self.now ≡ Place.CrcDelimiter }
        ensures { result ≡ heard_of self.now.unstuffed acked last }
    {
        heard(&self.bits, acked, last)
    }
}

/// A copy of unstuffed levels, made from two numbers, which contain all levels after the start of frame.
fn levels_copied<B: FrameBits>(bits: &B) -> B
    requires start { take 1 (B.levels bits.now) ≡ Level.Dominant ∷ [] }
    requires longest { length (B.levels bits.now) ≤ 118 }
    ensures { B.levels result ≡ B.levels bits.now }
{
    let behind = bits.len().saturating_sub(1);
    let first = behind.min(NUMBER_BITS);
    let rest = behind - first;
    let mut copy = B::start();
    copy.append(bits.number_at(1, first), first);
    copy.append(bits.number_at(1 + first, rest), rest);
    copy
}
