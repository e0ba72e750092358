ghost use Rattle.std.specs.Prelude.{◌≡◌};
ghost use Rattle.can_terms.specs.Codes.{phase_code};
ghost use Rattle.can_terms.specs.Words.{has_place, phase_word};

/// The phase of a controller. How far it has got in the phase is its place; docs/NAMES.md says what that counts.
/// (Bosch CAN 2.0 part B, sections 3.2 and 8)
#[derive(Clone, Copy, Debug, PartialEq, Eq)]
pub enum PhaseKind {
    Idle,
    /// Bus integration: after eleven recessive levels the bus is idle.
    Joining,
    /// From the start of frame to the end of the CRC sequence.
    StuffedPart,
    CrcDelimiter,
    AckSlot,
    AckDelimiter,
    EndOfFrame,
    /// An active error flag.
    ErrorFlag,
    /// A passive error flag.
    PassiveFlag,
    OverloadFlag,
    /// After a flag, before the first recessive level.
    AfterFlag,
    /// The error delimiter or overload delimiter after a flag.
    Delimiter,
    Intermission,
    /// Suspend transmission.
    Suspend,
    BusOff,
}

impl PhaseKind {
    /// The number of the phase, 0 to 14. (docs/NAMES.md)
    pub fn code(self) -> u8
        ensures { result ≡ phase_code self }
    {
        match self {
            PhaseKind::Idle => 0,
            PhaseKind::Joining => 1,
            PhaseKind::StuffedPart => 2,
            PhaseKind::CrcDelimiter => 3,
            PhaseKind::AckSlot => 4,
            PhaseKind::AckDelimiter => 5,
            PhaseKind::EndOfFrame => 6,
            PhaseKind::ErrorFlag => 7,
            PhaseKind::PassiveFlag => 8,
            PhaseKind::OverloadFlag => 9,
            PhaseKind::AfterFlag => 10,
            PhaseKind::Delimiter => 11,
            PhaseKind::Intermission => 12,
            PhaseKind::Suspend => 13,
            PhaseKind::BusOff => 14,
        }
    }

    /// The word for the phase: `end-of-frame`. (docs/NAMES.md)
    pub fn word(self) -> &'static str
        ensures { result.now ≡ phase_word self }
    {
        match self {
            PhaseKind::Idle => "idle",
            PhaseKind::Joining => "joining",
            PhaseKind::StuffedPart => "stuffed-part",
            PhaseKind::CrcDelimiter => "crc-delimiter",
            PhaseKind::AckSlot => "ack-slot",
            PhaseKind::AckDelimiter => "ack-delimiter",
            PhaseKind::EndOfFrame => "end-of-frame",
            PhaseKind::ErrorFlag => "error-flag",
            PhaseKind::PassiveFlag => "passive-flag",
            PhaseKind::OverloadFlag => "overload-flag",
            PhaseKind::AfterFlag => "after-flag",
            PhaseKind::Delimiter => "delimiter",
            PhaseKind::Intermission => "intermission",
            PhaseKind::Suspend => "suspend",
            PhaseKind::BusOff => "bus-off",
        }
    }

    /// Whether the phase has a place: not if it has one level, nor if the bus is idle.
    pub fn has_place(self) -> bool
        ensures { result ≡ has_place self }
    {
        !matches!(
            self,
            PhaseKind::Idle | PhaseKind::CrcDelimiter | PhaseKind::AckSlot | PhaseKind::AckDelimiter
        )
    }
}
