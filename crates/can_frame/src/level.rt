ghost use Rattle.std.specs.Prelude.{◌≡◌, ◌≢◌, MatchOption};
ghost use Rattle.can_frame.specs.declared.level.Level.{Level as Bit};
ghost use Rattle.can_frame.specs.Levels.{are_level_codes, digit_of, is_level_code, is_recessive, level_code, level_from, level_of, opposite};

/// The number of recessive levels in a row that show that no frame is on the bus. A data or remote frame ends
/// with them: ACK delimiter, end of frame and intermission (1 + 7 + 3). So does an error or overload frame:
/// delimiter and intermission (8 + 3). (Bosch CAN 2.0 part B, sections 3.2.1 and 3.2.3 to 3.2.5; section 8
/// counts such rows while a node is bus off)
pub const IDLE_ROW: u8 = 11;

/// The bit value on the bus, or that one node drives, in one bit time (Bosch CAN 2.0 part B, section 2).
/// Dominant is the lesser level: it is the bit 0, and overrides recessive.
#[derive(Clone, Copy, Debug, Default, PartialEq, Eq, PartialOrd, Ord)]
pub enum Level {
    /// The bit 0.
    #[default]
    Dominant,
    /// The bit 1.
    Recessive,
}

impl Level {
    /// Whether this level is recessive.
    pub fn is_recessive(self) -> bool
        ensures { result ≡ is_recessive self }
    {
        self == Level::Recessive
    }

    /// Returns recessive if `recessive` is true, otherwise dominant.
    pub fn from_bool(recessive: bool) -> Level
        ensures { result ≡ level_from recessive }
    {
        if recessive {
            Level::Recessive
        } else {
            Level::Dominant
        }
    }

    /// Returns the other level.
    pub fn opposite(self) -> Level
        ensures { result ≡ opposite self }
    {
        match self {
            Level::Dominant => Level::Recessive,
            Level::Recessive => Level::Dominant,
        }
    }

    /// The bit value as a number: 0 for dominant, 1 for recessive.
    pub fn code(self) -> u8
        ensures { result ≡ level_code self }
    {
        match self {
            Level::Dominant => 0,
            Level::Recessive => 1,
        }
    }

    /// Returns the level with this number: 0 is dominant, any other number recessive.
    #[tactic(auto, using(crate::proofs::LevelTests::recessive_above))]
    pub fn from_code(code: u8) -> Level
        ensures { result ≡ level_of code }
    {
        if code == 0 {
            Level::Dominant
        } else {
            Level::Recessive
        }
    }

    /// Whether this is the number of a level: 0 or 1.
    pub fn is_code(code: u8) -> bool
        ensures { result ≡ is_level_code code }
    {
        code < 2
    }

    /// Whether each of these numbers is 0 or 1.
    pub fn are_codes(codes: &[u8]) -> bool
        ensures { result ≡ are_level_codes codes.now }
    {
        codes.iter().all(|code| Level::is_code(*code))
    }

    /// The digit of this level: `0` for dominant, `1` for recessive.
    pub fn digit(self) -> u8
        ensures { result ≡ digit_of self }
    {
        match self {
            Level::Dominant => b'0',
            Level::Recessive => b'1',
        }
    }

    /// Returns the level with this digit, or `None` if the byte is neither `0` nor `1`.
    #[inline]
    pub fn from_digit(byte: u8) -> Option<Level>
        ensures { MatchOption result ((level : Bit) → digit_of level ≢ byte) (λ level. digit_of level ≡ byte) }
    {
        // no branch on the level, since it could not be predicted
        let bit = byte.wrapping_sub(b'0');
        if bit <= 1 {
            Some(Level::from_bool(bit == 1))
        } else {
            None
        }
    }
}
