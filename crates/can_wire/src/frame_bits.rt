ghost use Rattle.std.specs.Prelude.{◌≡◌, ◌+◌, ◌^◌, ◌<◌, ◌≤◌, ◌++◌, ◌∷◌, [], ◌↔◌, List, length, IsTrue};
ghost use Rattle.can_frame.specs.declared.level.Level.{Level as Bit};
ghost use Rattle.can_frame.specs.declared.level.Level.TheVariants.{Dominant};
ghost use Rattle.can_frame.specs.Levels.{bits_of, number_from};
ghost use Rattle.can_wire.specs.Crc.{IsCrc, crc_of};
ghost use Rattle.can_wire.specs.Layout.{level_at, levels_at, check_of, head_of};

use can_frame::Level;

/// The start of frame (SOF).
pub(crate) const START_OF_FRAME: Level = Level::Dominant;

/// The unstuffed levels of a frame that have been received or laid out so far, the start of frame
/// first.
pub trait FrameBits: Drop {
    /// The levels.
    ghost levels: { Self → List Bit };

    /// The start of frame alone.
    fn start() -> Self
        ensures { levels result ≡ Dominant ∷ [] };

    /// Appends a level. The longest frame has 118.
    fn push(&mut self, level: Level)
        requires { length (levels self.old) < 118 }
        ensures { levels self.new ≡ levels self.old ++ level ∷ [] };

    /// Appends the levels of the `count` lowest bits of a number that has no others, the highest first.
    fn append(&mut self, number: u64, count: usize)
        requires room { length (levels self.old) + count ≤ 118 }
        requires width { count ≤ 64 }
        requires small { number < 2 ^ count }
        ensures { levels self.new ≡ levels self.old ++ bits_of count number };

    /// The number of levels.
    fn len(&self) -> usize
        ensures { result ≡ length (levels self.now) };

    /// The level at a place.
    fn level_at(&self, place: usize) -> Level
        requires { place < length (levels self.now) }
        ensures { result ≡ level_at (levels self.now) place };

    /// Returns the number whose bits are the `count` levels from `place` on, the highest bit first.
    fn number_at(&self, place: usize, count: usize) -> u64
        requires within { place + count ≤ length (levels self.now) }
        requires width { count ≤ 64 }
        ensures { result ≡ number_from 0 (levels_at (levels self.now) place count) };

    /// Returns the CRC sequence of the levels, as a number of fifteen bits. Bit 14 is sent first.
    fn check(&self) -> u16
        ensures range { result < 2 ^ 15 }
        ensures computed { bits_of 15 result ≡ crc_of (levels self.now) };

    /// Whether the last fifteen levels are the CRC sequence of those before them.
    fn check_agrees(&self) -> bool
        requires { 15 ≤ length (levels self.now) }
        ensures { IsTrue result ↔ IsCrc (head_of (levels self.now)) (check_of (levels self.now)) };

    /// Whether the last fifteen levels, `level` appended, are the CRC sequence of those before them.
    fn agrees_with(&self, level: Level) -> bool
        requires { 14 ≤ length (levels self.now) }
        ensures { let more = levels self.now ++ level ∷ [] in IsTrue result ↔ IsCrc (head_of more) (check_of more) };
}
