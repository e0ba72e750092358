//! The fast paths for most levels, in the order in which they are tried. Each takes its levels in place, without the
//! memory of a [`Move`](crate::moves::Move). On any other level it changes nothing, and the next one is tried. (Bosch
//! CAN 2.0 part B, sections 3.2 and 5)
//!
//! - silently ([`hears_on_silently`], [`goes_on_silently`]): only the phase changes, and the controller drives
//!   recessive next, with any pending frame
//! - quietly ([`goes_on_quietly`]): only the phase changes
//! - in place ([`move_in_place`]): a transition of a frame without errors
//!
//! `next_move` of `moves.rt` takes all other levels. docs/ARCHITECTURE.md says who calls these paths, and
//! docs/DECISIONS.md what each saves.

ghost use Rattle.std.specs.Prelude.{ℕ, Bool, ◌≡◌, ◌≢◌, IfSome, IsFalse, IsNone, IsTrue, Option, None, Some, false};
ghost use Rattle.std.specs.Option.{option_copied};
ghost use Rattle.can_code.specs.Front.{FrontParts, first_front, is_stuff_error, next_place as next_place_of};
ghost use Rattle.can_frame.specs.declared.level.Level.{Level as Bit};
ghost use Rattle.can_frame.specs.Parts.{Parts};
ghost use Rattle.can_mac.specs.Machine.{phase_drives};
ghost use Rattle.can_mac.specs.State.{IsPhase, is_off_phase};
ghost use Rattle.can_mac.specs.Moves.{goes, hears, move, next_role, part_phase, stuffed_part_move};
ghost use Rattle.can_mac.specs.Quick.{counts_on, is_heard, is_quiet_level, is_received};
ghost use Rattle.can_mac.specs.declared.moves.Stance.{Stance as Standing};
ghost use Rattle.can_mac.specs.declared.phase.Phase.TheVariants.{AckDelimiter, AckSlot, AfterFlag, CrcDelimiter, EndOfFrame, ErrorFlag, Intermission, OverloadFlag, PassiveFlag, StuffedPart};
ghost use Rattle.can_mac.specs.declared.phase.Reading.{Reading as ReadingParts};
ghost use Rattle.can_mac.specs.declared.phase.Role.{Role as Part};

use crate::moves::between_frames::{
    LAST_OF_INTERMISSION, LAST_OF_JOINING, LAST_OF_SUSPEND, role_in_next,
};
use crate::moves::enter;
use crate::moves::flags::{LAST_OF_DELIMITER, LAST_OF_FLAG, PASSIVE_FLAG_LENGTH};
use crate::moves::frame_end::{LAST_OF_FRAME, is_refused};
use crate::moves::stuffed_part::{end_of_part, is_in_arbitration, is_in_order};
use crate::phase::{Overloads, Phase, Role};
use can_code::{FrameBits, Front, Place};
use can_fault::Cause;
use can_frame::{Frame, Level};
use can_terms::Event;

/// Takes a level that changes only the phase, in place, and returns true. On any other level it returns false and
/// changes nothing.
#[inline(always)]
pub(crate) fn goes_on_quietly<B: FrameBits>(
    role: &Role,
    phase: &mut Phase<Front<B>>,
    waiting: Option<&Frame>,
    seen: Level,
) -> bool
    requires { IsPhase phase.old }
    ensures exactly { result ≡ is_quiet_level role.now phase.old (option_copied waiting.entry) seen }
    ensures on { IsTrue result → (s : Standing) → s.role ≡ role.now → move s phase.old (option_copied waiting.entry) seen ≡ goes s phase.new }
    ensures on_bus { IsTrue result → is_off_phase phase.old ≡ false }
    ensures unchanged { IsFalse result → phase.new ≡ phase.old }
{
    match phase {
        Phase::StuffedPart(_) => hears_on(role, phase, seen),
        _ => goes_on_quietly_outside(role, phase, waiting, seen),
    }
}

/// Quietly, in the stuffed part, with any pending frame.
#[inline(always)]
fn hears_on<B: FrameBits>(role: &Role, phase: &mut Phase<Front<B>>, seen: Level) -> bool
    requires { IsPhase phase.old }
    ensures exactly { (front : FrontParts) → phase.old ≡ StuffedPart front → result ≡ is_heard role.now front seen }
    ensures on { IsTrue result → (s : Standing) (waiting : Option Parts) → s.role ≡ role.now → move s phase.old waiting seen ≡ goes s phase.new }
    ensures silent { IsTrue result → (waiting : Option Parts) → phase_drives phase.new Role.Receiver waiting ≡ Level.Recessive }
    ensures on_bus { IsTrue result → is_off_phase phase.old ≡ false }
    ensures unchanged { IsFalse result → phase.new ≡ phase.old }
{
    let Phase::StuffedPart(front) = phase else {
        return false;
    };
    if !is_in_order(role, front, seen) {
        return false;
    }
    let _ = front.hear(seen);
    if front.next_place() == Place::CrcDelimiter {
        end_part(phase);
    }
    true
}

/// Silently, in the stuffed part: only at a receiver, which drives recessive next.
#[inline(always)]
pub(crate) fn hears_on_silently<B: FrameBits>(
    role: &Role,
    phase: &mut Phase<Front<B>>,
    seen: Level,
) -> bool
    requires { IsPhase phase.old }
    ensures exactly { (front : FrontParts) → phase.old ≡ StuffedPart front → result ≡ is_received role.now front seen }
    ensures on { IsTrue result → (s : Standing) (waiting : Option Parts) → s.role ≡ role.now → move s phase.old waiting seen ≡ goes s phase.new }
    ensures silent { IsTrue result → (waiting : Option Parts) → phase_drives phase.new role.now waiting ≡ Level.Recessive }
    ensures on_bus { IsTrue result → is_off_phase phase.old ≡ false }
    ensures unchanged { IsFalse result → phase.new ≡ phase.old }
{
    match role {
        Role::Receiver => hears_on(role, phase, seen),
        Role::Sender(_) => false,
    }
}

/// Takes a level outside of the stuffed part that changes only the phase, and after which the controller drives
/// recessive with any pending frame, and returns true. Such levels are in the end of frame, passive error flags,
/// delimiters, intermission, suspend transmission and joining, or directly follow a flag. On any other level it
/// returns false and changes nothing.
#[inline(always)]
pub(crate) fn goes_on_silently<B: FrameBits>(phase: &mut Phase<Front<B>>, seen: Level) -> bool
    requires { IsPhase phase.old }
    ensures exactly { result ≡ counts_on phase.old seen }
    ensures on { IsTrue result → (s : Standing) (waiting : Option Parts) → move s phase.old waiting seen ≡ goes s phase.new }
    ensures silent { IsTrue result → (role : Part) (waiting : Option Parts) → phase_drives phase.new role waiting ≡ Level.Recessive }
    ensures on_bus { IsTrue result → is_off_phase phase.old ≡ false }
    ensures unchanged { IsFalse result → phase.new ≡ phase.old }
{
    match phase {
        Phase::PassiveFlag { .. } => goes_on_in_passive_flag(phase, seen),
        Phase::AfterFlag { .. } => goes_on_behind_flag(phase, seen),
        _ => goes_on_counting(phase, seen),
    }
}

/// Silently, in a passive error flag: a level that counts nothing. (Bosch CAN 2.0 part B, section 3.2.3)
#[inline(always)]
fn goes_on_in_passive_flag<B: FrameBits>(phase: &mut Phase<Front<B>>, seen: Level) -> bool
    requires { IsPhase phase.old }
    ensures exactly { (last : Bit) (run : ℕ) (unacknowledged : Bool) → phase.old ≡ PassiveFlag last run unacknowledged → result ≡ counts_on phase.old seen }
    ensures on { IsTrue result → (s : Standing) (waiting : Option Parts) → move s phase.old waiting seen ≡ goes s phase.new }
    ensures silent { IsTrue result → (role : Part) (waiting : Option Parts) → phase_drives phase.new role waiting ≡ Level.Recessive }
    ensures on_bus { IsTrue result → is_off_phase phase.old ≡ false }
    ensures unchanged { IsFalse result → phase.new ≡ phase.old }
{
    let Phase::PassiveFlag {
        last,
        run,
        unacknowledged,
    } = phase
    else {
        return false;
    };
    if *unacknowledged && !seen.is_recessive() {
        return false;
    }
    let row = if seen == *last { *run + 1 } else { 1 };
    if row < PASSIVE_FLAG_LENGTH {
        *last = seen;
        *run = row;
    } else {
        *phase = Phase::AfterFlag {
            first: true,
            dominant: 0,
        };
    }
    true
}

/// Silently, with the first recessive level after a flag.
#[inline(always)]
fn goes_on_behind_flag<B: FrameBits>(phase: &mut Phase<Front<B>>, seen: Level) -> bool
    requires { IsPhase phase.old }
    ensures exactly { (first : Bool) (dominant : ℕ) → phase.old ≡ AfterFlag first dominant → result ≡ counts_on phase.old seen }
    ensures on { IsTrue result → (s : Standing) (waiting : Option Parts) → move s phase.old waiting seen ≡ goes s phase.new }
    ensures silent { IsTrue result → (role : Part) (waiting : Option Parts) → phase_drives phase.new role waiting ≡ Level.Recessive }
    ensures on_bus { IsTrue result → is_off_phase phase.old ≡ false }
    ensures unchanged { IsFalse result → phase.new ≡ phase.old }
{
    match (&*phase, seen) {
        (Phase::AfterFlag { .. }, Level::Recessive) => {
            *phase = Phase::Delimiter { place: 1 };
            true
        }
        _ => false,
    }
}

/// Silently, in a phase that counts its levels.
#[inline(always)]
fn goes_on_counting<B: FrameBits>(phase: &mut Phase<Front<B>>, seen: Level) -> bool
    requires { IsPhase phase.old }
    ensures exactly { ((last : Bit) (run : ℕ) (unacknowledged : Bool) → phase.old ≢ PassiveFlag last run unacknowledged) → ((first : Bool) (dominant : ℕ) → phase.old ≢ AfterFlag first dominant) → result ≡ counts_on phase.old seen }
    ensures on { IsTrue result → (s : Standing) (waiting : Option Parts) → move s phase.old waiting seen ≡ goes s phase.new }
    ensures silent { IsTrue result → (role : Part) (waiting : Option Parts) → phase_drives phase.new role waiting ≡ Level.Recessive }
    ensures on_bus { IsTrue result → is_off_phase phase.old ≡ false }
    ensures unchanged { IsFalse result → phase.new ≡ phase.old }
{
    match (phase, seen) {
        (Phase::EndOfFrame { place, .. }, Level::Recessive) if *place < LAST_OF_FRAME - 1 => {
            *place += 1;
            true
        }
        (Phase::Intermission { place }, Level::Recessive) if *place < LAST_OF_INTERMISSION => {
            *place += 1;
            true
        }
        (Phase::Delimiter { place }, Level::Recessive) if *place < LAST_OF_DELIMITER => {
            *place += 1;
            true
        }
        (Phase::Suspend { place }, Level::Recessive) if *place < LAST_OF_SUSPEND => {
            *place += 1;
            true
        }
        (Phase::Joining { row }, Level::Dominant) => {
            *row = 0;
            true
        }
        (Phase::Joining { row }, Level::Recessive) if *row < LAST_OF_JOINING => {
            *row += 1;
            true
        }
        _ => false,
    }
}

/// Quietly, outside of the stuffed part. It is not inlined: most levels are in the stuffed part.
#[inline(never)]
fn goes_on_quietly_outside<B: FrameBits>(
    role: &Role,
    phase: &mut Phase<Front<B>>,
    waiting: Option<&Frame>,
    seen: Level,
) -> bool
    requires phase { IsPhase phase.old }
    requires outside { (front : FrontParts) → phase.old ≢ StuffedPart front }
    ensures exactly { result ≡ is_quiet_level role.now phase.old (option_copied waiting.entry) seen }
    ensures on { IsTrue result → (s : Standing) → s.role ≡ role.now → move s phase.old (option_copied waiting.entry) seen ≡ goes s phase.new }
    ensures on_bus { IsTrue result → is_off_phase phase.old ≡ false }
    ensures unchanged { IsFalse result → phase.new ≡ phase.old }
{
    match phase {
        Phase::Idle => waiting.is_none() && seen.is_recessive(),
        Phase::CrcDelimiter(_) if seen.is_recessive() => {
            pass_delimiter(phase);
            true
        }
        Phase::AckDelimiter(reading) if seen.is_recessive() && !is_refused(role, reading) => {
            pass_delimiter(phase);
            true
        }
        Phase::ErrorFlag { .. } | Phase::OverloadFlag { .. } => goes_on_in_flag(phase, seen),
        Phase::EndOfFrame { .. }
        | Phase::PassiveFlag { .. }
        | Phase::AfterFlag { .. }
        | Phase::Intermission { .. }
        | Phase::Delimiter { .. }
        | Phase::Suspend { .. }
        | Phase::Joining { .. } => goes_on_silently(phase, seen),
        _ => false,
    }
}

/// Quietly, in an active error flag or overload flag.
#[inline(always)]
fn goes_on_in_flag<B: FrameBits>(phase: &mut Phase<Front<B>>, seen: Level) -> bool
    requires { IsPhase phase.old }
    ensures error { (role : Part) (waiting : Option Parts) (place : ℕ) → phase.old ≡ ErrorFlag place → result ≡ is_quiet_level role phase.old waiting seen }
    ensures overload { (role : Part) (waiting : Option Parts) (place : ℕ) → phase.old ≡ OverloadFlag place → result ≡ is_quiet_level role phase.old waiting seen }
    ensures on { IsTrue result → (s : Standing) (waiting : Option Parts) → move s phase.old waiting seen ≡ goes s phase.new }
    ensures on_bus { IsTrue result → is_off_phase phase.old ≡ false }
    ensures unchanged { IsFalse result → phase.new ≡ phase.old }
{
    match (phase, seen) {
        (Phase::ErrorFlag { place }, Level::Dominant) if *place < LAST_OF_FLAG => {
            *place += 1;
            true
        }
        (Phase::OverloadFlag { place }, Level::Dominant) if *place < LAST_OF_FLAG => {
            *place += 1;
            true
        }
        _ => false,
    }
}

/// Leaves the stuffed part of a frame, if it has ended.
#[inline(never)]
fn end_part<B: FrameBits>(phase: &mut Phase<Front<B>>)
    ensures { (front : FrontParts) → phase.old ≡ StuffedPart front → phase.new ≡ part_phase front }
{
    if let Phase::StuffedPart(front) = phase {
        let next = end_of_part(front);
        enter(phase, next);
    }
}

/// Passes the CRC delimiter or the ACK delimiter. It is not inlined, because a new phase takes memory.
#[inline(never)]
fn pass_delimiter<B: FrameBits>(phase: &mut Phase<Front<B>>)
    ensures check { (r : ReadingParts) → phase.old ≡ CrcDelimiter r → phase.new ≡ AckSlot r }
    ensures acknowledgement { (r : ReadingParts) → phase.old ≡ AckDelimiter r → phase.new ≡ EndOfFrame r 0 }
{
    match phase {
        Phase::CrcDelimiter(reading) => *phase = Phase::AckSlot(*reading),
        Phase::AckDelimiter(reading) => {
            *phase = Phase::EndOfFrame {
                reading: *reading,
                place: 0,
            };
        }
        _ => {}
    }
}

/// The cause and the event of a transition that is made in place.
#[derive(Drop)]
pub(crate) struct Outcome {
    pub(crate) cause: Option<Cause>,
    pub(crate) event: Option<Event>,
}

impl Outcome {
    /// No cause and no event.
    fn quiet() -> Outcome
        ensures { result ≡ record { cause = None; event = None } }
    {
        Outcome {
            cause: None,
            event: None,
        }
    }
}

/// Makes a transition of a frame without errors in place. On any other level nothing changes.
#[tactic(auto, using(crate::proofs::Landing::idle_begins))]
pub(crate) fn move_in_place<B: FrameBits>(
    passive: bool,
    phase: &mut Phase<Front<B>>,
    role: &mut Role,
    overloads: &mut Overloads,
    waiting: Option<&Frame>,
    seen: Level,
) -> Option<Outcome>
    requires { IsPhase phase.old }
    ensures made { IfSome result (λ outcome. record { phase = phase.new; role = role.new; overloads = overloads.new; cause = outcome.cause; event = outcome.event }
        ≡ move (record { passive = passive; role = role.old; overloads = overloads.old }) phase.old (option_copied waiting.entry) seen) }
    ensures same_phase { IsNone result → phase.new ≡ phase.old }
    ensures same_role { IsNone result → role.new ≡ role.old }
    ensures same_overloads { IsNone result → overloads.new ≡ overloads.old }
{
    match (&*phase, seen) {
        (Phase::Idle, Level::Dominant) => Some(begin(phase, role, overloads, waiting)),
        (Phase::Intermission { place }, _) if *place == LAST_OF_INTERMISSION => {
            end_intermission(passive, phase, role, overloads, waiting, seen)
        }
        (Phase::StuffedPart(_), Level::Dominant) => lose(phase, role),
        (Phase::AckSlot(_), Level::Dominant) => pass_slot(phase, role),
        (Phase::EndOfFrame { .. }, Level::Recessive) => end_frame(phase, role, overloads),
        _ => None,
    }
}

/// A frame begins. A controller with a pending frame is its transmitter.
fn begin<B: FrameBits>(
    phase: &mut Phase<Front<B>>,
    role: &mut Role,
    overloads: &mut Overloads,
    waiting: Option<&Frame>,
) -> Outcome
    ensures phase { phase.new ≡ StuffedPart first_front }
    ensures role { role.new ≡ next_role false (option_copied waiting.entry) }
    ensures overloads { overloads.new ≡ record { pending = overloads.old.pending; used = 0 } }
    ensures quiet { result ≡ record { cause = None; event = None } }
{
    *phase = Phase::StuffedPart(Front::begin());
    *role = role_in_next(false, waiting);
    overloads.used = 0;
    Outcome::quiet()
}

/// The last level of intermission, at a controller that need not suspend transmission: it becomes idle, or a frame
/// begins.
fn end_intermission<B: FrameBits>(
    passive: bool,
    phase: &mut Phase<Front<B>>,
    role: &mut Role,
    overloads: &mut Overloads,
    waiting: Option<&Frame>,
    seen: Level,
) -> Option<Outcome>
    requires { phase.old ≡ Intermission 2 }
    ensures made { IfSome result (λ outcome. record { phase = phase.new; role = role.new; overloads = overloads.new; cause = outcome.cause; event = outcome.event }
        ≡ move (record { passive = passive; role = role.old; overloads = overloads.old }) phase.old (option_copied waiting.entry) seen) }
    ensures same_phase { IsNone result → phase.new ≡ phase.old }
    ensures same_role { IsNone result → role.new ≡ role.old }
    ensures same_overloads { IsNone result → overloads.new ≡ overloads.old }
{
    match (&*role, seen) {
        (Role::Sender(_), _) if passive => None,
        (_, Level::Dominant) => Some(begin(phase, role, overloads, waiting)),
        (_, Level::Recessive) => {
            *phase = Phase::Idle;
            *role = Role::Receiver;
            Some(Outcome::quiet())
        }
    }
}

/// Whether it is a transmitter that a dominant level makes lose arbitration: it sends a recessive bit, up to and
/// including its RTR bit.
fn loses<B: FrameBits>(role: &Role, front: &Front<B>) -> bool
    requires { next_place_of front.now ≢ Place.CrcDelimiter }
    ensures lost { IsTrue result → (s : Standing) → s.role ≡ role.now →
        stuffed_part_move s front.now Level.Dominant ≡ record (hears s front.now Level.Dominant) { role = Role.Receiver; event = Some Event.Lost } }
    ensures no_stuff_error { IsTrue result → is_stuff_error front.now Level.Dominant ≡ false }
{
    match (role, front.next_place()) {
        (Role::Sender(sending), Place::Bit) => {
            let sent = sending.level_at(front.len());
            match sent {
                Level::Dominant => false,
                Level::Recessive => is_in_arbitration(sending, front.len()),
            }
        }
        _ => false,
    }
}

/// A transmitter that loses arbitration takes the level as a receiver.
fn lose<B: FrameBits>(phase: &mut Phase<Front<B>>, role: &mut Role) -> Option<Outcome>
    requires { IsPhase phase.old }
    ensures made { IfSome result (λ outcome. (s : Standing) (waiting : Option Parts) → s.role ≡ role.old →
        record { phase = phase.new; role = role.new; overloads = s.overloads; cause = outcome.cause; event = outcome.event } ≡ move s phase.old waiting Level.Dominant) }
    ensures same_phase { IsNone result → phase.new ≡ phase.old }
    ensures same_role { IsNone result → role.new ≡ role.old }
{
    let Phase::StuffedPart(front) = phase else {
        return None;
    };
    if !loses(role, front) {
        return None;
    }
    let _ = front.hear(Level::Dominant);
    if front.next_place() == Place::CrcDelimiter {
        end_part(phase);
    }
    *role = Role::Receiver;
    Some(Outcome {
        cause: None,
        event: Some(Event::Lost),
    })
}

/// A dominant ACK slot, at the transmitter or at a receiver that found the CRC sequence right.
fn pass_slot<B: FrameBits>(phase: &mut Phase<Front<B>>, role: &Role) -> Option<Outcome>
    ensures made { IfSome result (λ outcome. (s : Standing) (waiting : Option Parts) → s.role ≡ role.now →
        record { phase = phase.new; role = s.role; overloads = s.overloads; cause = outcome.cause; event = outcome.event } ≡ move s phase.old waiting Level.Dominant) }
    ensures same_phase { IsNone result → phase.new ≡ phase.old }
{
    let Phase::AckSlot(reading) = phase else {
        return None;
    };
    let cause = match role {
        Role::Receiver if !reading.agrees => return None,
        Role::Receiver => Some(Cause::FrameReceived),
        Role::Sender(_) => None,
    };
    *phase = Phase::AckDelimiter(*reading);
    Some(Outcome { cause, event: None })
}

/// The level of the end of frame that makes the frame valid; and its last level, if no overload frame is requested.
fn end_frame<B: FrameBits>(
    phase: &mut Phase<Front<B>>,
    role: &Role,
    overloads: &Overloads,
) -> Option<Outcome>
    ensures made { IfSome result (λ outcome. (s : Standing) (waiting : Option Parts) → s.role ≡ role.now → s.overloads ≡ overloads.now →
        record { phase = phase.new; role = s.role; overloads = s.overloads; cause = outcome.cause; event = outcome.event } ≡ move s phase.old waiting Level.Recessive) }
    ensures same_phase { IsNone result → phase.new ≡ phase.old }
{
    let Phase::EndOfFrame { reading, place } = phase else {
        return None;
    };
    match role {
        Role::Receiver if *place == LAST_OF_FRAME - 1 => {
            *place = LAST_OF_FRAME;
            Some(Outcome {
                cause: None,
                event: Some(Event::Received(reading.frame)),
            })
        }
        Role::Receiver if *place == LAST_OF_FRAME && overloads.pending == 0 => {
            *phase = Phase::Intermission { place: 0 };
            Some(Outcome::quiet())
        }
        Role::Sender(sending) if *place == LAST_OF_FRAME => {
            *phase = Phase::Intermission { place: 0 };
            Some(Outcome {
                cause: Some(Cause::FrameSent),
                event: Some(Event::Sent(sending.frame())),
            })
        }
        _ => None,
    }
}
