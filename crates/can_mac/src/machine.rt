ghost use Rattle.std.specs.Prelude.{◌≡◌, ◌≢◌, ◌≤◌, ◌↔◌, length, true, false, IfSome, IsNone, IsTrue, IsFalse, Option, None};
ghost use Rattle.std.specs.Option.{option_copied};
ghost use Rattle.can_code.specs.Front.{FrontParts};
ghost use Rattle.can_frame.specs.Parts.{Parts};
ghost use Rattle.can_fault.specs.Counters.{counted, is_bus_off, is_passive as is_passive_by};
ghost use Rattle.can_mac.specs.State.{idle as idle_state, IsMac, IsPhase, IsFrameOrNone, is_off_phase, joining as joining_state, place_of, starting};
ghost use Rattle.can_mac.specs.Frames.{IsBehindError, IsOutOfStep, IsPoised, IsPoisedAs, behind_frame, receiving_in};
ghost use Rattle.can_mac.specs.Moves.{move, move_keeping};
ghost use Rattle.can_mac.specs.Quick.{is_quiet_level, is_silent_level, stays_off};
ghost use Rattle.can_mac.specs.Machine.{holding, IsSilent, mac_drives, mac_step, off_step, on_step, stance as stance_of, step_counting};

use crate::copying::phase_copied;
use crate::driving::level_of_phase;
use crate::moves::MOST_OVERLOADS;
use crate::moves::flags::LAST_OF_DELIMITER;
use crate::moves::shortcuts::{goes_on_quietly, goes_on_silently, hears_on_silently};
use crate::phase::{Overloads, Phase, Role};
use crate::poised::Poised;
use crate::step::{is_passive, make_in_place, make_move};
use can_code::{CheckedBits, FrameBits, Front, PlainBits, Sending};
use can_fault::{Cause, Confine, State};
use can_frame::{Frame, Level};
use can_terms::Event;
use std::marker::Model;

/// With this many occurrences of eleven recessive levels, the next one ends bus off.
const LAST_OCCURRENCE: u8 = 127;

/// The medium access of a controller, bit time by bit time. (Bosch CAN 2.0 part B, sections 3.2 and 7)
///
/// `B` holds the unstuffed levels of the frame on the bus. No call allocates memory, and none depends on how long the
/// controller has run.
#[derive(Drop)]
pub struct MediumAccess<B: FrameBits> {
    phase: Phase<Front<B>>,
    role: Role,
    overloads: Overloads,
    confine: Confine,
}

/// The medium access of a controller that holds the unstuffed levels one by one.
pub type Mac = MediumAccess<PlainBits>;

/// The medium access of a controller that holds the unstuffed levels in a register, with their running CRC sequence.
pub type PackedMac = MediumAccess<CheckedBits>;

impl<B: FrameBits> Model for MediumAccess<B> {
    ghost use Rattle.can_mac.specs.State.{IsMac, MacState};

    ghost Value = { MacState };

    ghost view = { λ a. record { phase = a.phase; role = a.role; overloads = a.overloads; counters = a.confine } };

    ghost invariant = { λ a. IsMac (record { phase = a.phase; role = a.role; overloads = a.overloads; counters = a.confine }) };
}

impl<B: FrameBits> MediumAccess<B> {
    /// An idle controller, on the bus, with all counts 0.
    pub fn idle() -> Self
        ensures { result ≡ idle_state }
    {
        MediumAccess::starting(Phase::Idle)
    }

    /// A controller that waits for eleven recessive levels in a row before it takes part (bus integration), with all
    /// counts 0.
    pub fn joining() -> Self
        ensures { result ≡ joining_state }
    {
        MediumAccess::starting(Phase::Joining { row: 0 })
    }

    /// A receiver in this phase, with all counts 0.
    fn starting(phase: Phase<Front<B>>) -> Self
        requires kept { IsPhase phase }
        requires on_bus { is_off_phase phase ≡ false }
        ensures { result ≡ starting phase }
    {
        MediumAccess {
            phase,
            role: Role::Receiver,
            overloads: Overloads {
                pending: 0,
                used: 0,
            },
            confine: Confine::new(),
        }
    }

    /// A copy of this controller.
    pub fn copied(&self) -> Self
        ensures { result ≡ self.now }
    {
        MediumAccess {
            phase: phase_copied(&self.phase),
            role: self.role,
            overloads: self.overloads,
            confine: self.confine,
        }
    }

    /// The level that the controller drives in the next bit time, with this pending frame.
    #[tactic(auto, using(crate::proofs::DriveLemmas::longest_part, crate::proofs::DriveLemmas::silent_drives), unfolding(crate::specs::Machine::mac_drives))]
    pub fn drive(&self, waiting: Option<&Frame>) -> Level
        ensures level { result ≡ mac_drives self.now (option_copied waiting.entry) }
        ensures silent { IsSilent self.now.phase → result ≡ Level.Recessive }
        ensures kept { IsMac self.now }
        ensures longest { (front : FrontParts) → self.now.phase ≡ Phase.StuffedPart front → length front.unstuffed ≤ 118 }
    {
        level_of_phase(&self.phase, &self.role, waiting)
    }

    /// How far the controller has got in its phase: levels, without stuff bits; during bus-off, sequences of eleven
    /// recessive levels; 0 in a phase of one level, and when idle. (docs/NAMES.md)
    pub fn place(&self) -> u8
        ensures { result ≡ place_of self.now }
    {
        match &self.phase {
            Phase::Idle | Phase::CrcDelimiter(_) | Phase::AckSlot(_) | Phase::AckDelimiter(_) => 0,
            Phase::Joining { row } => *row,
            Phase::StuffedPart(front) => front.len() as u8,
            Phase::EndOfFrame { place, .. }
            | Phase::ErrorFlag { place }
            | Phase::OverloadFlag { place }
            | Phase::Delimiter { place }
            | Phase::Intermission { place }
            | Phase::Suspend { place } => *place,
            Phase::PassiveFlag { run, .. } => *run,
            Phase::AfterFlag { dominant, .. } => *dominant,
            Phase::BusOff => self.confine.occurrences(),
        }
    }

    /// Takes the level of the bus in this bit time, and returns the event, if there is one. The controller drove what
    /// [`MediumAccess::drive`] returns for the same pending frame. Ports call [`MediumAccess::takes_quietly`] first,
    /// which takes most levels faster.
    #[tactic(auto, unfolding(crate::specs::Machine::mac_step))]
    pub fn sample(&mut self, waiting: Option<&Frame>, seen: Level) -> Option<Event>
        ensures state { self.new ≡ (mac_step self.old (option_copied waiting.entry) seen).0 }
        ensures event { result ≡ (mac_step self.old (option_copied waiting.entry) seen).1 }
        ensures kept { IsMac self.new }
    {
        match self.phase {
            Phase::BusOff => self.wait_for_recovery(seen),
            _ => self.take_part(waiting, seen),
        }
    }

    /// Takes a quiet level, and returns true. On any other level it returns false and changes nothing;
    /// [`MediumAccess::sample`] takes that level.
    ///
    /// A level is quiet if it causes no event and changes only the phase. Most levels in frames, flags, delimiters
    /// and intermission are quiet; `specs/Quick.antt` lists them. A caller that tries this first needs no event.
    #[tactic(auto, unfolding(crate::specs::Machine::mac_step))]
    #[inline(always)]
    pub fn takes_quietly(&mut self, waiting: Option<&Frame>, seen: Level) -> bool
        ensures exactly { result ≡ is_quiet_level self.old.role self.old.phase (option_copied waiting.entry) seen }
        ensures taken { IsTrue result → mac_step self.old (option_copied waiting.entry) seen ≡ (self.new, None) }
        ensures unchanged { IsFalse result → self.new ≡ self.old }
        ensures kept { IsMac self.new }
    {
        within_limits(waiting);
        goes_on_quietly(&self.role, &mut self.phase, waiting, seen)
    }

    /// Takes a silent level, and returns true. On any other level it returns false and changes nothing.
    ///
    /// A level is silent if, with any pending frame, it causes no event and the controller drives recessive next. For
    /// a receiver most levels are silent, and it need not look for the pending frame; `specs/Quick.antt` lists them.
    #[tactic(auto, unfolding(crate::specs::Machine::mac_step, crate::specs::Machine::mac_drives))]
    #[inline(always)]
    pub fn takes_silently(&mut self, seen: Level) -> bool
        ensures exactly { result ≡ is_silent_level self.old seen }
        ensures taken { IsTrue result → (waiting : Option Parts) → mac_step self.old waiting seen ≡ (self.new, None) }
        ensures recessive { IsTrue result → (waiting : Option Parts) → mac_drives self.new waiting ≡ Level.Recessive }
        ensures unchanged { IsFalse result → self.new ≡ self.old }
        ensures kept { IsMac self.new }
    {
        if let Phase::StuffedPart(_) = self.phase {
            return hears_on_silently(&self.role, &mut self.phase, seen);
        }
        self.takes_silently_outside(seen)
    }

    /// Takes a silent level outside of the stuffed part. It is not inlined: most levels are in the stuffed part.
    #[tactic(auto, unfolding(crate::specs::Machine::mac_step, crate::specs::Machine::mac_drives))]
    #[inline(never)]
    fn takes_silently_outside(&mut self, seen: Level) -> bool
        requires { (front : FrontParts) → self.old.phase ≢ Phase.StuffedPart front }
        ensures exactly { result ≡ is_silent_level self.old seen }
        ensures taken { IsTrue result → (waiting : Option Parts) → mac_step self.old waiting seen ≡ (self.new, None) }
        ensures recessive { IsTrue result → (waiting : Option Parts) → mac_drives self.new waiting ≡ Level.Recessive }
        ensures unchanged { IsFalse result → self.new ≡ self.old }
        ensures kept { IsMac self.new }
    {
        self.stays_off(seen) || goes_on_silently(&mut self.phase, seen)
    }

    /// Takes a level during bus off, and returns true, unless only one occurrence of eleven recessive levels is
    /// missing until bus off ends. In that case, and if the controller is not bus off, it returns false and changes
    /// nothing; [`MediumAccess::sample`] takes the level.
    #[tactic(auto, unfolding(crate::specs::Machine::mac_step, crate::specs::Machine::mac_drives))]
    #[inline(always)]
    pub fn stays_off(&mut self, seen: Level) -> bool
        ensures exactly { result ≡ stays_off self.old }
        ensures taken { IsTrue result → (waiting : Option Parts) → mac_step self.old waiting seen ≡ (self.new, None) }
        ensures recessive { IsTrue result → (waiting : Option Parts) → mac_drives self.new waiting ≡ Level.Recessive }
        ensures unchanged { IsFalse result → self.new ≡ self.old }
        ensures kept { IsMac self.new }
    {
        match self.phase {
            Phase::BusOff if self.confine.occurrences() < LAST_OCCURRENCE => {
                let _ = self.confine.recover(seen);
                true
            }
            _ => false,
        }
    }

    /// Whether a whole frame may pass the controller in one step, given its pending frame. It may if the controller
    /// is idle or in suspend transmission, and no overload frame is requested. An idle controller starts with its
    /// pending frame; in suspend transmission it starts with none. (Bosch CAN 2.0 part B, sections 3.2.5 and 8)
    #[inline]
    pub fn poised(&self, waiting: Option<&Frame>) -> Poised
        ensures yes { IsPoisedAs result self.now (option_copied waiting.entry) }
        ensures no { result ≡ Poised.Not → (next : Option Parts) → IsPoised self.now (option_copied waiting.entry) next → ⊥ }
    {
        if self.overloads.pending != 0 {
            return Poised::Not;
        }
        match (&self.phase, waiting) {
            (Phase::Idle, Some(frame)) => Poised::ToSend(*frame),
            (Phase::Idle, None) | (Phase::Suspend { .. }, _) => Poised::ToReceive,
            _ => Poised::Not,
        }
    }

    /// Sends or receives a whole frame in one step, from its start of frame to the end of intermission.
    /// [`MediumAccess::poised`] says when this is allowed. The frame is counted, and an error passive transmitter
    /// enters suspend transmission. (Bosch CAN 2.0 part B, section 8)
    #[inline]
    pub fn take_frame(&mut self, frame: &Frame, sent: bool)
        requires { is_bus_off self.old.counters ≡ false }
        ensures { self.new ≡ behind_frame frame.now sent self.old }
    {
        self.phase = Phase::Idle;
        self.role = Role::Receiver;
        self.overloads.used = 0;
        if !sent {
            self.confine.apply(Cause::FrameReceived);
            return;
        }
        self.confine.apply(Cause::FrameSent);
        if is_passive(&self.confine) {
            self.phase = Phase::Suspend { place: 0 };
            self.role = Role::Sender(Sending::new(frame));
        }
    }

    /// Makes it a receiver of the frame that `leader` is in, in the same phase. Its own counters and requested
    /// overload frames stay.
    pub fn hear_as(&mut self, leader: &Self)
        requires on_bus { is_bus_off self.old.counters ≡ false }
        requires leader { is_off_phase leader.now.phase ≡ false }
        ensures { self.new ≡ receiving_in leader.now.phase self.old }
    {
        self.phase = phase_copied(&leader.phase);
        self.role = Role::Receiver;
        self.overloads.used = 0;
    }

    /// Whether it is an error passive receiver that is still in an error frame when another controller's frame
    /// begins. Such a controller drives recessive until the end of the intermission after that frame. (Bosch CAN 2.0
    /// part B, sections 3.1.3 and 8)
    pub fn is_out_of_step(&self) -> bool
        ensures yes { IsTrue result → IsOutOfStep self.now }
        ensures no { IsFalse result → IsOutOfStep self.now → ⊥ }
    {
        if self.overloads.pending != 0 || self.confine.state() != State::Passive {
            return false;
        }
        match self.role {
            Role::Receiver => is_behind_error(&self.phase),
            Role::Sender(_) => false,
        }
    }

    /// Requests `count` overload frames, in place of those requested before. It returns false, and changes nothing,
    /// if `count` is more than two.
    pub fn hold(&mut self, count: u8) -> bool
        ensures fits { IsTrue result ↔ (count ≤ 2) }
        ensures held { IsTrue result → self.new ≡ holding count self.old }
        ensures unchanged { IsFalse result → self.new ≡ self.old }
    {
        if count > MOST_OVERLOADS {
            return false;
        }
        self.overloads.pending = count;
        true
    }

    /// Its error counters.
    pub fn confine(&self) -> &Confine
        ensures { result.now ≡ self.now.counters }
    {
        &self.confine
    }

    /// Its phase, before the next level.
    pub fn phase(&self) -> &Phase<Front<B>>
        ensures { result.now ≡ self.now.phase }
    {
        &self.phase
    }

    /// Whether it is the transmitter or a receiver of the frame on the bus.
    pub fn role(&self) -> &Role
        ensures { result.now ≡ self.now.role }
    {
        &self.role
    }

    /// During bus off each level counts for recovery.
    fn wait_for_recovery(&mut self, seen: Level) -> Option<Event>
        requires { is_off_phase self.old.phase ≡ true }
        ensures state { self.new ≡ (off_step self.old seen).0 }
        ensures event { result ≡ (off_step self.old seen).1 }
        ensures kept { IsMac self.new }
    {
        if self.confine.recover(seen) {
            self.phase = Phase::Idle;
            return Some(Event::Recovered);
        }
        None
    }

    /// Takes a level at a controller that is not bus off.
    #[tactic(auto, unfolding(crate::specs::Machine::mac_step))]
    fn take_part(&mut self, waiting: Option<&Frame>, seen: Level) -> Option<Event>
        requires { is_off_phase self.old.phase ≡ false }
        ensures state { self.new ≡ (on_step self.old (move (stance_of self.old) self.old.phase (option_copied waiting.entry) seen)).0 }
        ensures event { result ≡ (on_step self.old (move (stance_of self.old) self.old.phase (option_copied waiting.entry) seen)).1 }
        ensures kept { IsMac self.new }
    {
        within_limits(waiting);
        let made = make_in_place(
            &mut self.phase,
            &mut self.role,
            &mut self.overloads,
            &mut self.confine,
            waiting,
            seen,
        );
        if let Some(event) = made {
            return event;
        }
        make_move(
            &mut self.phase,
            &mut self.role,
            &mut self.overloads,
            &mut self.confine,
            waiting,
            seen,
        )
    }
}

/// A pending frame is within its limits, by the invariant of [`Frame`].
fn within_limits(waiting: Option<&Frame>)
    ensures { IsFrameOrNone (option_copied waiting.entry) }
{
    if let Some(frame) = waiting {
        let _ = frame.bytes();
    }
}

/// Whether a controller in this phase is in an error frame and drives recessive, even if a frame begins.
fn is_behind_error<B: FrameBits>(phase: &Phase<Front<B>>) -> bool
    ensures yes { IsTrue result → IsBehindError phase.now }
    ensures no { IsFalse result → IsBehindError phase.now → ⊥ }
{
    match phase {
        Phase::PassiveFlag { unacknowledged, .. } => !*unacknowledged,
        Phase::AfterFlag { .. } => true,
        Phase::Delimiter { place } => *place < LAST_OF_DELIMITER,
        _ => false,
    }
}
