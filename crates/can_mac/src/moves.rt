//! The transition of each phase: one function for each definition of `specs/Moves.antt`, with its cases in the same
//! order. Most levels are taken by the fast paths of `shortcuts` before that.

pub(crate) mod between_frames;
pub(crate) mod flags;
pub(crate) mod frame_end;
pub(crate) mod shortcuts;
pub(crate) mod stuffed_part;

ghost use Rattle.std.specs.Prelude.{◌≡◌, ◌≢◌, Option, false};
ghost use Rattle.std.specs.Option.{option_copied};
ghost use Rattle.can_code.specs.Front.{FrontParts};
ghost use Rattle.can_mac.specs.State.{IsPhase};
ghost use Rattle.can_mac.specs.Moves.{begins_frame, enters_intermission, errs, errs_by, errs_in_flag, flag, goes, is_held_back, move, overload, phase_after, move_keeping, tells};
ghost use Rattle.can_mac.specs.declared.phase.Phase.TheVariants.{StuffedPart};

use crate::phase::{Overloads, Phase, Role};
use between_frames::{idle, intermission, joining, suspend};
use can_code::{FrameBits, Front};
use can_fault::Cause;
use can_frame::{Frame, Level};
use can_terms::{ErrorKind, Event};
use flags::{after_flag, delimiter, error_flag, overload_flag, passive_flag};
use frame_end::{ack_delimiter, ack_slot, crc_delimiter, end_of_frame};
use std::marker::Model;
use stuffed_part::stuffed_part;

/// A frame of which only the start of frame has been received.
#[derive(Drop)]
pub struct NewFrame;

impl Model for NewFrame {
    ghost use Rattle.can_code.specs.Front.{FrontParts, first_front};

    ghost Value = { FrontParts };

    ghost view = { λ a. first_front };
}

/// What a transition reads of a controller besides its phase.
#[derive(Clone, Copy)]
pub struct Stance {
    /// Whether the controller is error passive.
    pub passive: bool,
    /// Transmitter or receiver of the frame on the bus.
    pub role: Role,
    /// Its own overload frames.
    pub overloads: Overloads,
}

/// A transition of a controller.
#[derive(Drop)]
pub struct Move<P> {
    /// The next phase.
    pub phase: P,
    /// Transmitter or receiver from now on.
    pub role: Role,
    /// Its own overload frames from now on.
    pub overloads: Overloads,
    /// The cause that is counted.
    pub cause: Option<Cause>,
    /// The event that is reported.
    pub event: Option<Event>,
}

/// At most this many overload frames can be requested, and started between two frames. (Bosch CAN 2.0 part B, section
/// 3.2.4)
pub(crate) const MOST_OVERLOADS: u8 = 2;

/// A transition to a phase. If a frame begins, only its start of frame has been received.
pub(crate) type Entering = Move<Phase<NewFrame>>;

/// A transition within the stuffed part or out of it. It has no phase if the stuffed part continues.
pub(crate) type Hearing = Move<Option<Phase<NewFrame>>>;

impl Stance {
    /// Only the phase changes.
    pub(crate) fn goes(&self, phase: Phase<NewFrame>) -> Entering
        ensures { result ≡ goes self.now phase }
    {
        Move {
            phase,
            role: self.role,
            overloads: self.overloads,
            cause: None,
            event: None,
        }
    }

    /// The phase changes, and this event is reported.
    pub(crate) fn tells(&self, phase: Phase<NewFrame>, event: Event) -> Entering
        ensures { result ≡ tells self.now phase event }
    {
        Move {
            event: Some(event),
            ..self.goes(phase)
        }
    }

    /// An overload flag starts.
    pub(crate) fn overload(&self) -> Entering
        ensures { result ≡ overload self.now }
    {
        self.tells(Phase::OverloadFlag { place: 0 }, Event::Overload)
    }

    /// A frame begins.
    pub(crate) fn begins(&self, role: Role) -> Entering
        ensures { result ≡ begins_frame self.now role }
    {
        Move {
            phase: Phase::StuffedPart(NewFrame),
            role,
            overloads: Overloads {
                pending: self.overloads.pending,
                used: 0,
            },
            cause: None,
            event: None,
        }
    }

    /// The phase of the error flag that starts.
    fn flag(&self, unacknowledged: bool) -> Phase<NewFrame>
        ensures { result ≡ flag self.now.passive unacknowledged }
    {
        if self.passive {
            Phase::PassiveFlag {
                last: Level::Recessive,
                run: 0,
                unacknowledged,
            }
        } else {
            Phase::ErrorFlag { place: 0 }
        }
    }

    /// An error with this cause.
    pub(crate) fn errs_by(
        &self,
        cause: Option<Cause>,
        unacknowledged: bool,
        kind: ErrorKind,
    ) -> Entering
        ensures { result ≡ errs_by cause unacknowledged self.now kind }
    {
        Move {
            phase: self.flag(unacknowledged),
            role: self.role,
            overloads: self.overloads,
            cause,
            event: Some(Event::Error(kind)),
        }
    }

    /// An error in a frame or in a delimiter.
    pub(crate) fn errs(&self, kind: ErrorKind) -> Entering
        ensures { result ≡ errs self.now kind }
    {
        self.errs_by(Some(self.role.error_cause()), false, kind)
    }

    /// A bit error in an own active error flag or overload flag.
    pub(crate) fn errs_in_flag(&self) -> Entering
        ensures { result ≡ errs_in_flag self.now }
    {
        self.errs_by(Some(self.role.flag_bit_cause()), false, ErrorKind::Bit)
    }

    /// Intermission begins, or the flag of a requested overload frame at a receiver.
    pub(crate) fn enters_intermission(&self) -> Entering
        ensures { result ≡ enters_intermission self.now self.now.role }
    {
        let Overloads { pending, used } = self.overloads;
        match &self.role {
            Role::Receiver if pending > 0 && used < MOST_OVERLOADS => Move {
                overloads: Overloads {
                    pending: pending - 1,
                    used: used + 1,
                },
                ..self.overload()
            },
            _ => self.goes(Phase::Intermission { place: 0 }),
        }
    }

    /// The controller becomes idle.
    pub(crate) fn rests(&self) -> Entering
        ensures { result ≡ goes (record self.now { role = Role.Receiver }) Phase.Idle }
    {
        let receiver = Stance {
            role: Role::Receiver,
            passive: self.passive,
            overloads: self.overloads,
        };
        receiver.goes(Phase::Idle)
    }

    /// Whether it is an error passive controller that was the transmitter.
    pub(crate) fn is_held_back(&self) -> bool
        ensures { result ≡ is_held_back self.now self.now.role }
    {
        match &self.role {
            Role::Receiver => false,
            Role::Sender(_) => self.passive,
        }
    }
}

impl Phase<NewFrame> {
    /// The same phase, with the front of a frame that begins.
    pub(crate) fn entered<B: FrameBits>(self) -> Phase<Front<B>>
        ensures { result ≡ self }
    {
        match self {
            Phase::Joining { row } => Phase::Joining { row },
            Phase::Idle => Phase::Idle,
            Phase::StuffedPart(_) => Phase::StuffedPart(Front::begin()),
            Phase::CrcDelimiter(reading) => Phase::CrcDelimiter(reading),
            Phase::AckSlot(reading) => Phase::AckSlot(reading),
            Phase::AckDelimiter(reading) => Phase::AckDelimiter(reading),
            Phase::EndOfFrame { reading, place } => Phase::EndOfFrame { reading, place },
            Phase::ErrorFlag { place } => Phase::ErrorFlag { place },
            Phase::PassiveFlag {
                last,
                run,
                unacknowledged,
            } => Phase::PassiveFlag {
                last,
                run,
                unacknowledged,
            },
            Phase::OverloadFlag { place } => Phase::OverloadFlag { place },
            Phase::AfterFlag { first, dominant } => Phase::AfterFlag { first, dominant },
            Phase::Delimiter { place } => Phase::Delimiter { place },
            Phase::Intermission { place } => Phase::Intermission { place },
            Phase::Suspend { place } => Phase::Suspend { place },
            Phase::BusOff => Phase::BusOff,
        }
    }
}

/// Enters a phase, if there is one.
pub(crate) fn enter<B: FrameBits>(phase: &mut Phase<Front<B>>, next: Option<Phase<NewFrame>>)
    ensures { phase.new ≡ phase_after phase.old next }
{
    if let Some(next) = next {
        *phase = next.entered();
    }
}

/// The transition of any phase. The front of a frame is updated in place.
pub(crate) fn next_move<B: FrameBits>(
    stance: &Stance,
    phase: &mut Phase<Front<B>>,
    waiting: Option<&Frame>,
    seen: Level,
) -> Hearing
    requires { IsPhase phase.old }
    ensures { move_keeping phase.new result ≡ move stance.now phase.old (option_copied waiting.entry) seen }
{
    match phase {
        Phase::StuffedPart(front) => stuffed_part(stance, front, seen),
        _ => move_outside(stance, phase, waiting, seen).leaves(),
    }
}

/// The transition of a phase outside of the stuffed part. It is a function of its own so that each transition is
/// built in place.
fn move_outside<B: FrameBits>(
    stance: &Stance,
    phase: &Phase<Front<B>>,
    waiting: Option<&Frame>,
    seen: Level,
) -> Entering
    requires phase { IsPhase phase.now }
    requires outside { (front : FrontParts) → phase.now ≢ StuffedPart front }
    ensures { result ≡ move stance.now phase.now (option_copied waiting.entry) seen }
{
    match phase {
        Phase::Joining { row } => joining(stance, *row, seen),
        Phase::Idle => idle(stance, waiting, seen),
        Phase::StuffedPart(_) => unreachable!(),
        Phase::CrcDelimiter(reading) => crc_delimiter(stance, reading, seen),
        Phase::AckSlot(reading) => ack_slot(stance, reading, seen),
        Phase::AckDelimiter(reading) => ack_delimiter(stance, reading, seen),
        Phase::EndOfFrame { reading, place } => end_of_frame(stance, reading, *place, seen),
        Phase::ErrorFlag { place } => error_flag(stance, *place, seen),
        Phase::PassiveFlag {
            last,
            run,
            unacknowledged,
        } => passive_flag(stance, *last, *run, *unacknowledged, seen),
        Phase::OverloadFlag { place } => overload_flag(stance, *place, seen),
        Phase::AfterFlag { first, dominant } => after_flag(stance, *first, *dominant, seen),
        Phase::Delimiter { place } => delimiter(stance, *place, seen),
        Phase::Intermission { place } => intermission(stance, *place, waiting, seen),
        Phase::Suspend { place } => suspend(stance, *place, seen),
        Phase::BusOff => stance.goes(Phase::BusOff),
    }
}

impl Entering {
    /// This transition as one out of the stuffed part.
    pub(crate) fn leaves(self) -> Hearing
        ensures { result ≡ record { phase = Some self.phase; role = self.role; overloads = self.overloads; cause = self.cause; event = self.event } }
    {
        Move {
            phase: Some(self.phase),
            role: self.role,
            overloads: self.overloads,
            cause: self.cause,
            event: self.event,
        }
    }
}
