ghost use Rattle.std.specs.Prelude.{◌≡◌, ◌≤◌, ◌<◌, ◌^◌, length};
ghost use Rattle.can_frame.specs.Levels.{bits_of};

use crate::crc_places::crc_of_number;
use crate::frame_bits::{FrameBits, START_OF_FRAME};
use crate::two_words::TwoWords;
use can_frame::Level;
use std::marker::Model;

/// The unstuffed levels of a frame in the highest bits of a register, the first level highest, so that each place has
/// a fixed bit. Dominant bits follow them, so that equal levels have equal registers. The CRC sequence is computed on
/// request.
#[derive(Clone, Copy, Debug)]
pub struct PackedBits {
    register: TwoWords,
    count: u8,
}

impl Model for PackedBits {
    ghost use Rattle.std.specs.Prelude.{◌≡◌, ◌≤◌, ◌<◌, ◌-◌, ◌^◌, ◌++◌, List, length, take, drop, replicate};
    ghost use Rattle.std.proofs.Common.{ap, ◌∙◌};
    ghost use Rattle.can_frame.specs.declared.level.Level.{Level};
    ghost use Rattle.can_frame.specs.declared.level.Level.TheVariants.{Dominant};
    ghost use Rattle.can_frame.specs.Levels.{bits_of, number_from};
    ghost use Rattle.can_wire.specs.PackedNumbers.{length-highest, number_from-highest};

    ghost Value = { List Level };

    ghost view = { λ a. take a.count (bits_of 128 a.register) };

    ghost invariant = { λ a. (1 ≤ a.count) × (a.count ≤ 118) × (a.register < 2 ^ 128) × (drop a.count (bits_of 128 a.register) ≡ replicate (128 - a.count) Dominant) };

    ghost inverse = { λ u. record { register = number_from 0 (u ++ replicate (128 - length u) Dominant); count = length u } };

    ghost inverse_ok = { λ a is.
        ap (λ n. record { register = number_from 0 (take a.count (bits_of 128 a.register) ++ replicate (128 - n) Dominant); count = n }) (length-highest a.count a.register is.1)
        ∙ ap (λ r. record { register = r; count = a.count }) (number_from-highest a.count a.register is.2 is.3) };
}

impl PackedBits {
    /// The levels as the lowest bits of a number, the first level highest.
    #[inline]
    fn number(&self) -> u128
        ensures few { length self.now ≤ 118 }
        ensures small { result < 2 ^ length self.now }
        ensures levels { bits_of (length self.now) result ≡ self.now }
    {
        self.register.number() >> (128 - self.count)
    }
}

impl FrameBits for PackedBits {
    ghost levels = { λ u. u };

    fn start() -> Self {
        let first = u128::from(START_OF_FRAME.is_recessive());
        PackedBits {
            register: TwoWords::new(first << 127),
            count: 1,
        }
    }

    #[inline]
    fn push(&mut self, level: Level) {
        let added = u128::from(level.is_recessive()) << (127 - self.count);
        self.register = TwoWords::new(self.register.number() + added);
        self.count += 1;
    }

    #[inline]
    fn append(&mut self, number: u64, count: usize) {
        let added = u128::from(number) << (128 - usize::from(self.count) - count);
        self.register = TwoWords::new(self.register.number() + added);
        self.count += count as u8;
    }

    #[inline]
    fn len(&self) -> usize {
        usize::from(self.count)
    }

    #[inline]
    fn level_at(&self, place: usize) -> Level {
        Level::from_bool((self.register.number() >> (127 - place)) % 2 == 1)
    }

    #[inline]
    fn number_at(&self, place: usize, count: usize) -> u64 {
        // by one place first, since the whole shift may be by 128
        let upper = (self.register.number() >> 1) >> (127 - place - count);
        (upper % (1 << count)) as u64
    }

    #[inline]
    fn check(&self) -> u16 {
        crc_of_number(self.number())
    }

    /// Levels that end with their own CRC sequence have the CRC sequence 0: the generator divides them.
    #[inline]
    fn check_agrees(&self) -> bool {
        self.check() == 0
    }

    #[inline]
    fn agrees_with(&self, level: Level) -> bool {
        crc_of_number(2 * self.number() + u128::from(level.is_recessive())) == 0
    }
}
