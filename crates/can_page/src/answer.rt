ghost use Rattle.std.specs.Prelude.{◌≡◌};
ghost use Rattle.can_page.specs.Answers.{answer_code, text_answer};

use can_frame::TextFaultKind;

/// The status that a call returns, as a number.
#[derive(Clone, Copy, Debug, PartialEq, Eq)]
pub enum Answer {
    /// The call has done what it promises.
    Done,
    /// The output buffer is too small.
    NoRoom,
    /// A byte of a trace, or a number, is not a level.
    BadLevel,
    /// The identifier is out of range for the kind of frame.
    BadIdentifier,
    /// The DLC is above 15.
    BadDlc,
    /// The number of data bytes is not the one that the DLC requires.
    BadCount,
    /// The text is not a valid scenario.
    BadScenario,
    /// The scenario has no port with this number.
    NoPort,
    /// Memory ran out.
    NoMemory,
    /// The text is not a valid network.
    BadPlan,
    /// No message of the network has this name.
    NoMessage,
    /// The kind letter of a frame text is wrong.
    LetterFault,
    /// The identifier of a frame text is wrong.
    IdentifierFault,
    /// A frame text has neither `D` nor `R` in their place.
    DirectionFault,
    /// The DLC of a frame text is wrong.
    DlcFault,
    /// The data of a frame text are wrong.
    DataFault,
    /// Bytes follow a frame text.
    TrailingFault,
    /// No scenario is long enough for the worst case of the message.
    TooLong,
}

impl Answer {
    /// Returns the number of this status.
    pub fn code(self) -> u8
        ensures { result ≡ answer_code self }
    {
        match self {
            Answer::Done => 0,
            Answer::NoRoom => 1,
            Answer::BadLevel => 2,
            Answer::BadIdentifier => 3,
            Answer::BadDlc => 4,
            Answer::BadCount => 5,
            Answer::BadScenario => 6,
            Answer::NoPort => 7,
            Answer::NoMemory => 8,
            Answer::BadPlan => 9,
            Answer::NoMessage => 10,
            Answer::LetterFault => 11,
            Answer::IdentifierFault => 12,
            Answer::DirectionFault => 13,
            Answer::DlcFault => 14,
            Answer::DataFault => 15,
            Answer::TrailingFault => 16,
            Answer::TooLong => 17,
        }
    }

    /// Returns the status for a fault of a frame text.
    pub(crate) fn of_text(kind: TextFaultKind) -> Answer
        ensures { result ≡ text_answer kind }
    {
        match kind {
            TextFaultKind::KindLetter => Answer::LetterFault,
            TextFaultKind::Identifier => Answer::IdentifierFault,
            TextFaultKind::DataOrRemote => Answer::DirectionFault,
            TextFaultKind::Dlc => Answer::DlcFault,
            TextFaultKind::Data => Answer::DataFault,
            TextFaultKind::Trailing => Answer::TrailingFault,
        }
    }
}
