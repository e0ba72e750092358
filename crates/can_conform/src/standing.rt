//! The state of the reference before a bit time: its phase, its role in the frame, and the rule of docs/ACCESS.md that
//! decides in the phase.
ghost use Rattle.std.specs.Prelude.{◌≡◌};
ghost use Rattle.can_conform.specs.Standings.{error_rule as error_rule_of, overload_rule as overload_rule_of, phase_rule as phase_rule_of, rule_after as rule_after_of, rule_code, stuffed_rule as stuffed_rule_of};

use can_code::{FrameBits, Front, Place, rtr_place};
use can_frame::Level;
use can_mac::{MediumAccess, Phase, Role};
use can_terms::{ErrorKind, Event, PhaseKind, Timed};

/// A rule of docs/ACCESS.md.
#[derive(Clone, Copy, Debug, PartialEq, Eq)]
pub enum Rule {
    Joining,
    StartOfFrame,
    KeptFrame,
    Intermission,
    SuspendTransmission,
    BusOff,
    Arbitration,
    StuffPlaces,
    FixedForm,
    Acknowledgement,
    RefusedCrcSequence,
    DominantLastLevel,
    ErrorFlags,
    ErrorInAnOwnFlag,
    AfterAFlag,
    Delimiter,
    OverloadFlags,
    OwnOverloadFrames,
}

/// The state of the reference before a bit time.
#[derive(Clone, Copy, Debug)]
pub struct Standing {
    pub phase: PhaseKind,
    /// How far it has got in the phase, at most 127. (docs/NAMES.md)
    pub place: u8,
    /// Whether it is the transmitter of the frame on the bus.
    pub is_sender: bool,
    pub rule: Rule,
    /// Its last event before that bit time, if there was one.
    pub since: Option<Timed<Event>>,
}

impl Rule {
    /// The number of the rule, as in bindings/riddlesage.h: 0 to 17, in the order of this enumeration.
    pub fn code(self) -> u8
        ensures { result ≡ rule_code self }
    {
        match self {
            Rule::Joining => 0,
            Rule::StartOfFrame => 1,
            Rule::KeptFrame => 2,
            Rule::Intermission => 3,
            Rule::SuspendTransmission => 4,
            Rule::BusOff => 5,
            Rule::Arbitration => 6,
            Rule::StuffPlaces => 7,
            Rule::FixedForm => 8,
            Rule::Acknowledgement => 9,
            Rule::RefusedCrcSequence => 10,
            Rule::DominantLastLevel => 11,
            Rule::ErrorFlags => 12,
            Rule::ErrorInAnOwnFlag => 13,
            Rule::AfterAFlag => 14,
            Rule::Delimiter => 15,
            Rule::OverloadFlags => 16,
            Rule::OwnOverloadFrames => 17,
        }
    }
}

/// Returns the rule that decides in a phase, for a controller with this role.
pub fn phase_rule<B: FrameBits>(phase: &Phase<Front<B>>, role: &Role) -> Rule
    ensures { result ≡ phase_rule_of phase.now role.now }
{
    match phase {
        Phase::Joining { .. } => Rule::Joining,
        Phase::Idle => Rule::StartOfFrame,
        Phase::StuffedPart(front) => stuffed_rule(front, role),
        Phase::AckSlot(_) => Rule::Acknowledgement,
        Phase::CrcDelimiter(_) | Phase::AckDelimiter(_) | Phase::EndOfFrame { .. } => {
            Rule::FixedForm
        }
        Phase::ErrorFlag { .. } | Phase::PassiveFlag { .. } => Rule::ErrorFlags,
        Phase::OverloadFlag { .. } => Rule::OverloadFlags,
        Phase::AfterFlag { .. } => Rule::AfterAFlag,
        Phase::Delimiter { .. } => Rule::Delimiter,
        Phase::Intermission { .. } => Rule::Intermission,
        Phase::Suspend { .. } => Rule::SuspendTransmission,
        Phase::BusOff => Rule::BusOff,
    }
}

/// The rule between start of frame and CRC sequence. For a receiver, and at a stuff bit, it is that of stuff places.
/// For a transmitter it is arbitration up to and including its RTR bit, and after that the frame that it keeps.
fn stuffed_rule<B: FrameBits>(front: &Front<B>, role: &Role) -> Rule
    ensures { result ≡ stuffed_rule_of front.now role.now }
{
    match role {
        Role::Receiver => Rule::StuffPlaces,
        Role::Sender(_) if front.next_place() == Place::StuffBit => Rule::StuffPlaces,
        Role::Sender(sending) if front.len() <= rtr_place(sending.frame().is_extended()) => {
            Rule::Arbitration
        }
        Role::Sender(_) => Rule::KeptFrame,
    }
}

/// The rule by which an error in this phase starts an error flag.
fn error_rule(phase: PhaseKind, kind: ErrorKind) -> Rule
    ensures { result ≡ error_rule_of phase kind }
{
    match phase {
        PhaseKind::Joining => Rule::Joining,
        PhaseKind::Idle => Rule::StartOfFrame,
        PhaseKind::StuffedPart if kind == ErrorKind::Stuff => Rule::StuffPlaces,
        PhaseKind::StuffedPart => Rule::Arbitration,
        PhaseKind::AckSlot => Rule::Acknowledgement,
        PhaseKind::AckDelimiter if kind == ErrorKind::Crc => Rule::RefusedCrcSequence,
        PhaseKind::CrcDelimiter | PhaseKind::AckDelimiter | PhaseKind::EndOfFrame => {
            Rule::FixedForm
        }
        PhaseKind::ErrorFlag | PhaseKind::OverloadFlag => Rule::ErrorInAnOwnFlag,
        PhaseKind::PassiveFlag => Rule::ErrorFlags,
        PhaseKind::AfterFlag => Rule::AfterAFlag,
        PhaseKind::Delimiter => Rule::Delimiter,
        PhaseKind::Intermission => Rule::Intermission,
        PhaseKind::Suspend => Rule::SuspendTransmission,
        PhaseKind::BusOff => Rule::BusOff,
    }
}

/// The rule by which this level in this phase starts an overload flag.
fn overload_rule(phase: PhaseKind, seen: Level) -> Rule
    ensures { result ≡ overload_rule_of phase seen }
{
    match (phase, seen) {
        (PhaseKind::EndOfFrame, Level::Dominant) => Rule::DominantLastLevel,
        (PhaseKind::Delimiter, Level::Dominant) => Rule::Delimiter,
        (PhaseKind::EndOfFrame | PhaseKind::Delimiter, Level::Recessive) => {
            Rule::OwnOverloadFrames
        }
        (PhaseKind::Intermission, _) => Rule::Intermission,
        _ => Rule::OverloadFlags,
    }
}

/// The rule for the next bit time of a controller that had this event: for the first level of a flag, the rule that
/// started it. The controller was in this phase before, and saw this level.
pub(crate) fn rule_after<B: FrameBits>(
    event: &Option<Event>,
    phase: PhaseKind,
    seen: Level,
    next: &MediumAccess<B>,
) -> Rule
    ensures { result ≡ rule_after_of event.now phase seen next.now }
{
    match event {
        Some(Event::Error(kind)) => error_rule(phase, *kind),
        Some(Event::Overload) => overload_rule(phase, seen),
        _ => phase_rule(next.phase(), next.role()),
    }
}
