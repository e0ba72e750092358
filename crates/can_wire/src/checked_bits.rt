use crate::crc_run::CrcRun;
use crate::frame_bits::{FrameBits, START_OF_FRAME};
use crate::two_words::TwoWords;
use can_frame::Level;
use std::marker::Model;

/// The unstuffed levels of a frame in a register, the last level as its lowest bit, with their running CRC sequence.
/// Each new level shifts both by one place, so the end of a frame costs no more than any other level.
#[derive(Debug, Drop)]
pub struct CheckedBits {
    register: TwoWords,
    run: CrcRun,
    count: u8,
}

impl Model for CheckedBits {
    ghost use Rattle.std.specs.Prelude.{◌≤◌, ◌<◌, ◌^◌, List};
    ghost use Rattle.can_frame.specs.declared.level.Level.{Level};
    ghost use Rattle.can_frame.specs.Levels.{bits_of};
    ghost use Rattle.can_wire.specs.Crc.{IsCrc};

    ghost Value = { List Level };

    ghost view = { λ a. bits_of a.count a.register };

    ghost invariant = { λ a. (1 ≤ a.count) × (a.count ≤ 118) × (a.register < 2 ^ a.count) × IsCrc (bits_of a.count a.register) (bits_of 15 a.run) };
}

impl FrameBits for CheckedBits {
    ghost levels = { λ u. u };

    fn start() -> Self {
        let mut run = CrcRun::new();
        run.push(START_OF_FRAME);
        CheckedBits {
            register: TwoWords::new(u128::from(START_OF_FRAME.is_recessive())),
            run,
            count: 1,
        }
    }

    #[inline]
    fn push(&mut self, level: Level) {
        let moved = 2 * self.register.number();
        self.register = TwoWords::new(moved + u128::from(level.is_recessive()));
        self.run.push(level);
        self.count += 1;
    }

    #[inline]
    fn append(&mut self, number: u64, count: usize) {
        let moved = self.register.number() << count;
        self.register = TwoWords::new(moved + u128::from(number));
        self.run.append(number, count);
        self.count += count as u8;
    }

    #[inline]
    fn len(&self) -> usize {
        usize::from(self.count)
    }

    #[inline]
    fn level_at(&self, place: usize) -> Level {
        let behind = self.len() - 1 - place;
        Level::from_bool((self.register.number() >> behind) % 2 == 1)
    }

    #[inline]
    fn number_at(&self, place: usize, count: usize) -> u64 {
        let behind = self.len() - place - count;
        ((self.register.number() >> behind) % (1 << count)) as u64
    }

    #[inline]
    fn check(&self) -> u16 {
        self.run.value()
    }

    /// Levels that end with their own CRC sequence have the CRC sequence 0: the generator divides them.
    #[inline]
    fn check_agrees(&self) -> bool {
        self.run.value() == 0
    }

    #[inline]
    fn agrees_with(&self, level: Level) -> bool {
        let mut run = self.run;
        run.push(level);
        run.value() == 0
    }
}
