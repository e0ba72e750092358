//! The stuffed part of a frame, received in place. (Bosch CAN 2.0 part B, sections 2, 6, 7.1 and 8)

ghost use Rattle.std.specs.Prelude.{◌≡◌, ◌≢◌, List, length, if◌then◌else◌, false, IsTrue};
ghost use Rattle.can_frame.specs.declared.level.Level.{Level as Bit};
ghost use Rattle.can_code.specs.Front.{FrontParts, is_stuff_error, next_place as next_place_of};
ghost use Rattle.can_mac.specs.Moves.{hears, in_arbitration, part_phase, phase_after, move_keeping, sent_bit_move, stuff_error_move, stuffed_part_move};
ghost use Rattle.can_mac.specs.Quick.{is_heard};
ghost use Rattle.can_mac.specs.declared.moves.Stance.{Stance as Standing};
ghost use Rattle.can_mac.specs.declared.phase.Phase.TheVariants.{StuffedPart};

use crate::moves::{Entering, Hearing, Move, NewFrame, Stance};
use crate::phase::{Phase, Reading, Role};
use can_code::{FrameBits, Front, Place, Sending, rtr_place};
use can_frame::Level;
use can_terms::{ErrorKind, Event};

/// A level of the stuffed part.
pub(crate) fn stuffed_part<B: FrameBits>(
    stance: &Stance,
    front: &mut Front<B>,
    seen: Level,
) -> Hearing
    requires { next_place_of front.old ≢ Place.CrcDelimiter }
    ensures { move_keeping (StuffedPart front.new) result ≡ stuffed_part_move stance.now front.old seen }
{
    match (&stance.role, front.next_place()) {
        (Role::Sender(sending), Place::Bit) => {
            let sent = sending.level_at(front.len());
            sent_bit(stance, sending, sent, front, seen)
        }
        _ => hear(stance, front, seen),
    }
}

/// Whether a level of the stuffed part causes no error and no loss of arbitration.
#[inline(always)]
pub(crate) fn is_in_order<B: FrameBits>(role: &Role, front: &Front<B>, seen: Level) -> bool
    requires { next_place_of front.now ≢ Place.CrcDelimiter }
    ensures exactly { result ≡ is_heard role.now front.now seen }
    ensures heard { IsTrue result → (s : Standing) → s.role ≡ role.now → stuffed_part_move s front.now seen ≡ hears s front.now seen }
    ensures no_stuff_error { IsTrue result → is_stuff_error front.now seen ≡ false }
{
    match (role, front.next_place()) {
        (_, Place::StuffBit) => seen != front.last(),
        (Role::Receiver, Place::Bit | Place::CrcDelimiter) => true,
        (Role::Sender(sending), Place::Bit | Place::CrcDelimiter) => {
            seen == sending.level_at(front.len())
        }
    }
}

/// Receives a level, which may be a stuff error.
fn hear<B: FrameBits>(stance: &Stance, front: &mut Front<B>, seen: Level) -> Hearing
    requires { next_place_of front.old ≢ Place.CrcDelimiter }
    ensures { move_keeping (StuffedPart front.new) result ≡ (if is_stuff_error front.old seen then stuff_error_move stance.now front.old seen else hears stance.now front.old seen) }
{
    if front.hear(seen).is_err() {
        return stuff_error(stance, front.len(), seen).leaves();
    }
    Move {
        phase: end_of_part(front),
        role: stance.role,
        overloads: stance.overloads,
        cause: None,
        event: None,
    }
}

/// The next phase with the frame as received, if the stuffed part has ended.
pub(crate) fn end_of_part<B: FrameBits>(front: &Front<B>) -> Option<Phase<NewFrame>>
    ensures { phase_after (StuffedPart front.now) result ≡ part_phase front.now }
{
    match front.next_place() {
        Place::StuffBit | Place::Bit => None,
        Place::CrcDelimiter => Some(Phase::CrcDelimiter(Reading {
            frame: front.frame(),
            agrees: front.check_agrees(),
        })),
    }
}

/// A stuff error. It counts nothing if, in arbitration, a transmitter sent a recessive stuff bit and sees dominant.
fn stuff_error(stance: &Stance, place: usize, seen: Level) -> Entering
    ensures { (front : FrontParts) → length front.unstuffed ≡ place → result ≡ stuff_error_move stance.now front seen }
{
    match (&stance.role, seen) {
        (Role::Sender(sending), Level::Dominant) if is_in_arbitration(sending, place) => {
            stance.errs_by(None, false, ErrorKind::Stuff)
        }
        _ => stance.errs(ErrorKind::Stuff),
    }
}

/// Whether the unstuffed level at this place is before or at the RTR bit: identifier, RTR, and in an extended frame
/// SRR and IDE.
pub(crate) fn is_in_arbitration(sending: &Sending, place: usize) -> bool
    ensures { (u : List Bit) → length u ≡ place → result ≡ in_arbitration sending.now u }
{
    // decoding the frame is slow, and most places don't need it
    place <= rtr_place(false) || place <= rtr_place(true) && sending.frame().is_extended()
}

/// A bit of its frame that a transmitter sent, and the level that it sees. If it sent recessive and sees dominant, up
/// to and including its RTR bit, it loses arbitration.
fn sent_bit<B: FrameBits>(
    stance: &Stance,
    sending: &Sending,
    sent: Level,
    front: &mut Front<B>,
    seen: Level,
) -> Hearing
    requires { next_place_of front.old ≡ Place.Bit }
    ensures { move_keeping (StuffedPart front.new) result ≡ sent_bit_move stance.now sending.now front.old sent seen }
{
    match (sent, seen) {
        (Level::Dominant, Level::Dominant) | (Level::Recessive, Level::Recessive) => {
            hear(stance, front, seen)
        }
        (Level::Recessive, Level::Dominant) if is_in_arbitration(sending, front.len()) => Move {
            role: Role::Receiver,
            event: Some(Event::Lost),
            ..hear(stance, front, seen)
        },
        _ => stance.errs(ErrorKind::Bit).leaves(),
    }
}
