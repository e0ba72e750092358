ghost use Rattle.std.specs.Prelude.{◌≡◌};
ghost use Rattle.can_mac.specs.Moves.{error_cause, flag_bit_cause, form_kind};
ghost use Rattle.can_mac.specs.State.{is_sender, phase_kind};

use can_code::Sending;
use can_fault::Cause;
use can_frame::{Frame, Level};
use can_terms::{ErrorKind, PhaseKind};

/// The frame that the stuffed part encodes, once it is complete.
#[derive(Clone, Copy, Debug)]
pub struct Reading {
    /// The frame.
    pub frame: Frame,
    /// Whether its CRC sequence is the one computed from the levels before it.
    pub agrees: bool,
}

/// The phase of a controller. `F` is what it has received of a frame during the stuffed part. A place counts the
/// levels before the next one, from 0.
///
/// ```text
/// Joining --eleven recessive--> Idle --SOF--> StuffedPart
///
/// StuffedPart --> CrcDelimiter --> AckSlot --> AckDelimiter --> EndOfFrame --> Intermission --> Idle
///
/// Intermission --SOF in its third bit--> StuffedPart
/// Intermission --error passive, and was the transmitter--> Suspend --eight recessive--> Idle
/// Suspend --SOF--> StuffedPart
///
/// Idle, StuffedPart to EndOfFrame, ErrorFlag, OverloadFlag, Delimiter --error--> ErrorFlag or PassiveFlag
/// EndOfFrame, Delimiter --last level dominant, or an overload frame of its own--> OverloadFlag
/// Intermission --dominant in its first or second bit--> OverloadFlag
/// ErrorFlag, PassiveFlag, OverloadFlag --six levels--> AfterFlag --recessive--> Delimiter --> Intermission
///
/// a count makes TEC 256 or more --> BusOff --128 times eleven recessive--> Idle
/// ```
#[derive(Debug, Drop)]
pub enum Phase<F> {
    /// Joining (bus integration): `row` recessive levels in a row so far, 0 to 10.
    Joining {
        row: u8,
    },
    /// On the bus, between frames.
    Idle,
    /// From the start of frame to the end of the CRC sequence.
    StuffedPart(F),
    /// The next level is the CRC delimiter.
    CrcDelimiter(Reading),
    /// The next level is the ACK slot.
    AckSlot(Reading),
    /// The next level is the ACK delimiter.
    AckDelimiter(Reading),
    /// The next level is one of the seven of the end of frame, 0 to 6.
    EndOfFrame {
        reading: Reading,
        place: u8,
    },
    /// An active error flag, 0 to 5.
    ErrorFlag {
        place: u8,
    },
    /// A passive error flag: the last level, and how many levels of the flag in a row equal it, 0 to 5.
    /// `unacknowledged`: the error was a missing acknowledgment that has not been counted yet.
    PassiveFlag {
        last: Level,
        run: u8,
        unacknowledged: bool,
    },
    /// An overload flag, 0 to 5.
    OverloadFlag {
        place: u8,
    },
    /// After a flag, before the first recessive level. `first`: the next level is the first after an error flag.
    /// `dominant`: the number of dominant levels after the flag, modulo eight.
    AfterFlag {
        first: bool,
        dominant: u8,
    },
    /// The delimiter after a flag, 1 to 7: its first level has been sampled.
    Delimiter {
        place: u8,
    },
    /// Intermission, 0 to 2.
    Intermission {
        place: u8,
    },
    /// Suspend transmission: an error passive controller waits after its own frame, 0 to 7.
    Suspend {
        place: u8,
    },
    /// Bus off.
    BusOff,
}

/// Whether a controller is the transmitter or a receiver of the frame on the bus. It is a receiver while it is
/// joining, idle or bus off. A transmitter keeps its role until intermission and suspend transmission are over,
/// unless it loses arbitration or goes bus off.
#[derive(Clone, Copy, Debug)]
pub enum Role {
    Receiver,
    /// The transmitter of this frame.
    Sender(Sending),
}

/// The overload frames that a controller is asked to send.
#[derive(Clone, Copy, Debug)]
pub struct Overloads {
    /// The number still requested, 0 to 2.
    pub pending: u8,
    /// The number started since the last frame began, 0 to 2.
    pub used: u8,
}

impl<F> Phase<F> {
    /// The phase without its contents.
    pub fn kind(&self) -> PhaseKind
        ensures { result ≡ phase_kind self.now }
    {
        match self {
            Phase::Joining { .. } => PhaseKind::Joining,
            Phase::Idle => PhaseKind::Idle,
            Phase::StuffedPart(_) => PhaseKind::StuffedPart,
            Phase::CrcDelimiter(_) => PhaseKind::CrcDelimiter,
            Phase::AckSlot(_) => PhaseKind::AckSlot,
            Phase::AckDelimiter(_) => PhaseKind::AckDelimiter,
            Phase::EndOfFrame { .. } => PhaseKind::EndOfFrame,
            Phase::ErrorFlag { .. } => PhaseKind::ErrorFlag,
            Phase::PassiveFlag { .. } => PhaseKind::PassiveFlag,
            Phase::OverloadFlag { .. } => PhaseKind::OverloadFlag,
            Phase::AfterFlag { .. } => PhaseKind::AfterFlag,
            Phase::Delimiter { .. } => PhaseKind::Delimiter,
            Phase::Intermission { .. } => PhaseKind::Intermission,
            Phase::Suspend { .. } => PhaseKind::Suspend,
            Phase::BusOff => PhaseKind::BusOff,
        }
    }
}

impl Role {
    /// Whether this is the transmitter of the frame on the bus.
    pub fn is_sender(&self) -> bool
        ensures { result ≡ is_sender self.now }
    {
        matches!(self, Role::Sender(_))
    }

    /// The cause of an error in a frame or in a delimiter.
    pub(crate) fn error_cause(&self) -> Cause
        ensures { result ≡ error_cause self.now }
    {
        match self {
            Role::Receiver => Cause::ReceiverError,
            Role::Sender(_) => Cause::SenderError,
        }
    }

    /// The cause of a bit error in an own flag.
    pub(crate) fn flag_bit_cause(&self) -> Cause
        ensures { result ≡ flag_bit_cause self.now }
    {
        match self {
            Role::Receiver => Cause::ReceiverFlagBit,
            Role::Sender(_) => Cause::SenderFlagBit,
        }
    }

    /// The kind of error if a bit of fixed form has the wrong level: for the transmitter a bit error, for a receiver
    /// a form error.
    pub(crate) fn form_kind(&self) -> ErrorKind
        ensures { result ≡ form_kind self.now }
    {
        match self {
            Role::Receiver => ErrorKind::Form,
            Role::Sender(_) => ErrorKind::Bit,
        }
    }
}
