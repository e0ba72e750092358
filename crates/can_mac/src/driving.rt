//! What a controller drives. (Bosch CAN 2.0 part B, sections 3.2.1 and 6)

ghost use Rattle.std.specs.Prelude.{◌≡◌};
ghost use Rattle.std.specs.Option.{option_copied};
ghost use Rattle.can_mac.specs.Machine.{part_drives, phase_drives, slot_drives};

use crate::phase::{Phase, Reading, Role};
use can_code::{FrameBits, Front, Place};
use can_frame::{Frame, Level};

/// What a controller drives in this phase, with this pending frame.
#[inline(always)]
pub(crate) fn level_of_phase<B: FrameBits>(
    phase: &Phase<Front<B>>,
    role: &Role,
    waiting: Option<&Frame>,
) -> Level
    ensures { result ≡ phase_drives phase.now role.now (option_copied waiting.entry) }
{
    match phase {
        Phase::Idle if waiting.is_some() => Level::Dominant,
        Phase::StuffedPart(front) => level_of_part(role, front),
        Phase::AckSlot(reading) => level_of_slot(role, reading),
        Phase::ErrorFlag { .. } | Phase::OverloadFlag { .. } => Level::Dominant,
        Phase::Joining { .. }
        | Phase::Idle
        | Phase::CrcDelimiter(_)
        | Phase::AckDelimiter(_)
        | Phase::EndOfFrame { .. }
        | Phase::PassiveFlag { .. }
        | Phase::AfterFlag { .. }
        | Phase::Delimiter { .. }
        | Phase::Intermission { .. }
        | Phase::Suspend { .. }
        | Phase::BusOff => Level::Recessive,
    }
}

/// In the stuffed part a transmitter drives the next level of its frame, or a stuff bit.
fn level_of_part<B: FrameBits>(role: &Role, front: &Front<B>) -> Level
    ensures { result ≡ part_drives role.now front.now }
{
    match role {
        Role::Receiver => Level::Recessive,
        Role::Sender(_) if front.next_place() == Place::StuffBit => front.last().opposite(),
        Role::Sender(sending) => sending.level_at(front.len()),
    }
}

/// In the ACK slot a receiver drives dominant if it found the CRC sequence right.
fn level_of_slot(role: &Role, reading: &Reading) -> Level
    ensures { result ≡ slot_drives role.now reading.now.agrees }
{
    match role {
        Role::Receiver if reading.agrees => Level::Dominant,
        Role::Receiver | Role::Sender(_) => Level::Recessive,
    }
}
