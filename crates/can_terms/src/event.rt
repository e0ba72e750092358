ghost use Rattle.std.specs.Prelude.{◌≡◌};
ghost use Rattle.can_terms.specs.Codes.{code_of_kind, error_code, event_code, event_kind, kind_code, kind_of_event};
ghost use Rattle.can_terms.specs.Words.{error_word, kind_word};

use can_frame::Frame;

/// The kind of error that a controller detects. (Bosch CAN 2.0 part B, section 7.1)
#[derive(Clone, Copy, Debug, PartialEq, Eq)]
pub enum ErrorKind {
    /// A bit on the bus differs from the one that the controller sent.
    Bit,
    /// The level in the place of a stuff bit equals the five before it.
    Stuff,
    /// The CRC sequence is not the one computed from the levels before it.
    Crc,
    /// A bit of fixed form has the wrong level.
    Form,
    /// No receiver acknowledges.
    Ack,
}

/// The event that a controller reports in a bit time. There is at most one.
#[derive(Clone, Copy, Debug, PartialEq, Eq)]
pub enum Event {
    /// A frame was sent: its end of frame is complete.
    Sent(Frame),
    /// A frame was received: the last but one level of its end of frame was recessive.
    Received(Frame),
    /// Arbitration was lost. The controller continues as a receiver of the frame.
    Lost,
    /// An error was detected. An error flag starts with the next bit time.
    Error(ErrorKind),
    /// An overload flag starts with the next bit time.
    Overload,
    /// The controller is bus off from the next bit time on.
    WentOff,
    /// Bus off has ended.
    Recovered,
}

/// An [`Event`] without its frame.
#[derive(Clone, Copy, Debug, PartialEq, Eq)]
pub enum EventKind {
    Sent,
    Received,
    Lost,
    Error(ErrorKind),
    Overload,
    WentOff,
    Recovered,
}

impl ErrorKind {
    /// The number of the event that reports an error of this kind, 4 to 8. (docs/NAMES.md)
    pub fn code(self) -> u8
        ensures { result ≡ error_code self }
    {
        match self {
            ErrorKind::Bit => 4,
            ErrorKind::Stuff => 5,
            ErrorKind::Crc => 6,
            ErrorKind::Form => 7,
            ErrorKind::Ack => 8,
        }
    }

    /// The event that reports an error of this kind, in words: `bit error`.
    pub fn word(self) -> &'static str
        ensures { result.now ≡ error_word self }
    {
        match self {
            ErrorKind::Bit => "bit error",
            ErrorKind::Stuff => "stuff error",
            ErrorKind::Crc => "crc error",
            ErrorKind::Form => "form error",
            ErrorKind::Ack => "ack error",
        }
    }
}

impl Event {
    /// The event without its frame.
    pub fn kind(&self) -> EventKind
        ensures { result ≡ event_kind self.now }
    {
        match self {
            Event::Sent(_) => EventKind::Sent,
            Event::Received(_) => EventKind::Received,
            Event::Lost => EventKind::Lost,
            Event::Error(kind) => EventKind::Error(*kind),
            Event::Overload => EventKind::Overload,
            Event::WentOff => EventKind::WentOff,
            Event::Recovered => EventKind::Recovered,
        }
    }

    /// The event of a bit time, if there is one, without its frame.
    pub fn kind_of(event: &Option<Event>) -> Option<EventKind>
        ensures { result ≡ kind_of_event event.now }
    {
        match event {
            None => None,
            Some(event) => Some(event.kind()),
        }
    }

    /// The number of the event of a bit time, 0 if there is none. (docs/NAMES.md)
    pub fn code_of(event: &Option<Event>) -> u8
        ensures { result ≡ event_code event.now }
    {
        EventKind::code_of(Event::kind_of(event))
    }
}

impl EventKind {
    /// The number of this kind, 1 to 11. (docs/NAMES.md)
    pub fn code(self) -> u8
        ensures { result ≡ kind_code self }
    {
        match self {
            EventKind::Sent => 1,
            EventKind::Received => 2,
            EventKind::Lost => 3,
            EventKind::Error(kind) => kind.code(),
            EventKind::Overload => 9,
            EventKind::WentOff => 10,
            EventKind::Recovered => 11,
        }
    }

    /// The number of the event of a bit time, 0 if there is none. (docs/NAMES.md)
    pub fn code_of(kind: Option<EventKind>) -> u8
        ensures { result ≡ code_of_kind kind }
    {
        match kind {
            None => 0,
            Some(kind) => kind.code(),
        }
    }

    /// The word for this kind: `sent`, `bit error`, `went off`. (docs/NAMES.md)
    pub fn word(self) -> &'static str
        ensures { result.now ≡ kind_word self }
    {
        match self {
            EventKind::Sent => "sent",
            EventKind::Received => "received",
            EventKind::Lost => "lost",
            EventKind::Error(kind) => kind.word(),
            EventKind::Overload => "overload",
            EventKind::WentOff => "went off",
            EventKind::Recovered => "recovered",
        }
    }
}
