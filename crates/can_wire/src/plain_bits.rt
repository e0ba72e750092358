ghost use Rattle.std.specs.Prelude.{◌≡◌, ◌+◌, ◌/◌, ◌%◌, ◌^◌, ◌<◌, ◌≤◌, ◌++◌, length};
ghost use Rattle.arrayvec.specs.ArrayVec.{array_vec_len};
ghost use Rattle.can_frame.specs.Levels.{bits_of, level_of, number_from};

use crate::crc::crc15;
use crate::frame_bits::{FrameBits, START_OF_FRAME};
use arrayvec::ArrayVec;
use can_frame::Level;
use std::marker::Model;

/// Space for the unstuffed levels of the longest frame, including its CRC sequence.
type Unstuffed = ArrayVec<Level, 118>;

/// The unstuffed levels of a frame, one by one.
#[derive(Debug, Drop)]
pub struct PlainBits {
    levels: Unstuffed,
}

impl Model for PlainBits {
    ghost use Rattle.std.specs.Prelude.{List};
    ghost use Rattle.can_frame.specs.declared.level.Level.{Level};

    ghost Value = { List Level };

    ghost view = { λ a. a.levels.items };
}

impl PlainBits {
    /// The levels.
    pub fn as_slice(&self) -> &[Level]
        ensures { result.now ≡ self.now }
    {
        &self.levels
    }
}

impl FrameBits for PlainBits {
    ghost levels = { λ u. u };

    fn start() -> Self {
        let mut levels = ArrayVec::new();
        levels.push(START_OF_FRAME);
        PlainBits { levels }
    }

    fn push(&mut self, level: Level) {
        self.levels.push(level);
    }

    fn append(&mut self, number: u64, count: usize) {
        push_bits(&mut self.levels, number, count as u32);
    }

    fn len(&self) -> usize {
        self.levels.len()
    }

    fn level_at(&self, place: usize) -> Level {
        self.levels[place]
    }

    fn number_at(&self, place: usize, count: usize) -> u64 {
        number(&self.levels[place..place + count])
    }

    fn check(&self) -> u16 {
        crc15(&self.levels)
    }

    fn check_agrees(&self) -> bool {
        let (head, check) = self.levels.split_at(self.levels.len() - 15);
        number(check) == u64::from(crc15(head))
    }

    fn agrees_with(&self, level: Level) -> bool {
        let (head, check) = self.levels.split_at(self.levels.len() - 14);
        2 * number(check) + u64::from(level.is_recessive()) == u64::from(crc15(head))
    }
}

/// The number whose bits are the levels, the highest bit first.
fn number(levels: &[Level]) -> u64
    requires { length levels.now ≤ 64 }
    ensures { result ≡ number_from 0 levels.now }
{
    let mut value = 0;
    for level in levels {
        value = 2 * value + u64::from(level.is_recessive());
    }
    value
}

/// Appends the lowest bits of a number, the highest first.
fn push_bits(levels: &mut Unstuffed, value: u64, count: u32)
    requires room { array_vec_len levels.old + count ≤ 118 }
    requires width { count ≤ 64 }
    ensures items { levels.new.items ≡ levels.old.items ++ bits_of count value }
    ensures len { array_vec_len levels.new ≡ array_vec_len levels.old + count }
{
    for place in (0..count).rev() {
        levels.push(bit(value, place));
    }
}

/// One bit of a number. Bit 0 is the lowest.
fn bit(value: u64, place: u32) -> Level
    requires { place < 64 }
    ensures { result ≡ level_of (value / 2 ^ place % 2) }
{
    Level::from_bool((value >> place) & 1 == 1)
}
