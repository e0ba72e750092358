//! The end of a frame, from the CRC delimiter on. (Bosch CAN 2.0 part B, sections 3.2.1, 5 and 7)

ghost use Rattle.std.specs.Prelude.{◌≡◌};
ghost use Rattle.can_mac.specs.Moves.{ack_delimiter_move, ack_slot_move, crc_delimiter_move, end_of_frame_move, receiver_end_move, refuses, sender_end_move, unacknowledged_move};

use crate::moves::{Entering, Move, Stance};
use crate::phase::{Phase, Reading, Role};
use can_code::Sending;
use can_fault::Cause;
use can_frame::Level;
use can_terms::{ErrorKind, Event};

/// The last place of the end of frame.
pub(crate) const LAST_OF_FRAME: u8 = 6;

/// The CRC delimiter.
pub(crate) fn crc_delimiter(stance: &Stance, reading: &Reading, seen: Level) -> Entering
    ensures { result ≡ crc_delimiter_move stance.now reading.now seen }
{
    match seen {
        Level::Recessive => stance.goes(Phase::AckSlot(*reading)),
        Level::Dominant => stance.errs(stance.role.form_kind()),
    }
}

/// A transmitter without acknowledgment. If it is error passive, nothing is counted yet.
fn unacknowledged(stance: &Stance) -> Entering
    ensures { result ≡ unacknowledged_move stance.now }
{
    if stance.passive {
        stance.errs_by(None, true, ErrorKind::Ack)
    } else {
        stance.errs(ErrorKind::Ack)
    }
}

/// The ACK slot. A receiver that found the CRC sequence right drives dominant; any other controller drives recessive.
pub(crate) fn ack_slot(stance: &Stance, reading: &Reading, seen: Level) -> Entering
    ensures { result ≡ ack_slot_move stance.now stance.now.role reading.now seen }
{
    let passed = stance.goes(Phase::AckDelimiter(*reading));
    match (&stance.role, seen) {
        (Role::Sender(_), Level::Dominant) => passed,
        (Role::Sender(_), Level::Recessive) => unacknowledged(stance),
        (Role::Receiver, Level::Dominant) if reading.agrees => Move {
            cause: Some(Cause::FrameReceived),
            ..passed
        },
        (Role::Receiver, Level::Recessive) if reading.agrees => stance.errs(ErrorKind::Bit),
        (Role::Receiver, _) => passed,
    }
}

/// Whether it is a receiver that found the CRC sequence wrong.
pub(crate) fn is_refused(role: &Role, reading: &Reading) -> bool
    ensures { result ≡ refuses role.now reading.now }
{
    match role {
        Role::Receiver => !reading.agrees,
        Role::Sender(_) => false,
    }
}

/// The ACK delimiter.
pub(crate) fn ack_delimiter(stance: &Stance, reading: &Reading, seen: Level) -> Entering
    ensures { result ≡ ack_delimiter_move stance.now reading.now seen }
{
    match seen {
        Level::Dominant => stance.errs(stance.role.form_kind()),
        Level::Recessive if is_refused(&stance.role, reading) => stance.errs(ErrorKind::Crc),
        Level::Recessive => stance.goes(Phase::EndOfFrame {
            reading: *reading,
            place: 0,
        }),
    }
}

/// The end of frame. For the transmitter a frame is valid if no level of it is dominant; for a receiver, if none
/// before the last is.
pub(crate) fn end_of_frame(stance: &Stance, reading: &Reading, place: u8, seen: Level) -> Entering
    ensures { result ≡ end_of_frame_move stance.now stance.now.role reading.now place seen }
{
    match &stance.role {
        Role::Sender(sending) => sender_end(stance, sending, reading, place, seen),
        Role::Receiver => receiver_end(stance, reading, place, seen),
    }
}

/// The end of frame, for the transmitter.
fn sender_end(
    stance: &Stance,
    sending: &Sending,
    reading: &Reading,
    place: u8,
    seen: Level,
) -> Entering
    ensures { result ≡ sender_end_move stance.now sending.now reading.now place seen }
{
    match seen {
        Level::Dominant => stance.errs(ErrorKind::Bit),
        Level::Recessive if place < LAST_OF_FRAME => stance.goes(Phase::EndOfFrame {
            reading: *reading,
            place: place + 1,
        }),
        Level::Recessive => Move {
            cause: Some(Cause::FrameSent),
            event: Some(Event::Sent(sending.frame())),
            ..stance.enters_intermission()
        },
    }
}

/// The end of frame, for a receiver.
fn receiver_end(stance: &Stance, reading: &Reading, place: u8, seen: Level) -> Entering
    ensures { result ≡ receiver_end_move stance.now reading.now place seen }
{
    match seen {
        Level::Dominant if place < LAST_OF_FRAME => stance.errs(ErrorKind::Form),
        Level::Dominant => stance.overload(),
        Level::Recessive if place < LAST_OF_FRAME - 1 => stance.goes(Phase::EndOfFrame {
            reading: *reading,
            place: place + 1,
        }),
        Level::Recessive if place < LAST_OF_FRAME => {
            let last = Phase::EndOfFrame {
                reading: *reading,
                place: LAST_OF_FRAME,
            };
            stance.tells(last, Event::Received(reading.frame))
        }
        Level::Recessive => stance.enters_intermission(),
    }
}
