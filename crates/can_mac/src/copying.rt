ghost use Rattle.std.specs.Prelude.{◌≡◌};

use crate::phase::Phase;
use can_code::{FrameBits, Front};

/// A copy of this phase.
pub(crate) fn phase_copied<B: FrameBits>(phase: &Phase<Front<B>>) -> Phase<Front<B>>
    ensures { result ≡ phase.now }
{
    match phase {
        Phase::Joining { row } => Phase::Joining { row: *row },
        Phase::Idle => Phase::Idle,
        Phase::StuffedPart(front) => Phase::StuffedPart(front.copied()),
        Phase::CrcDelimiter(reading) => Phase::CrcDelimiter(*reading),
        Phase::AckSlot(reading) => Phase::AckSlot(*reading),
        Phase::AckDelimiter(reading) => Phase::AckDelimiter(*reading),
        Phase::EndOfFrame { reading, place } => Phase::EndOfFrame {
            reading: *reading,
            place: *place,
        },
        Phase::ErrorFlag { place } => Phase::ErrorFlag { place: *place },
        Phase::PassiveFlag {
            last,
            run,
            unacknowledged,
        } => Phase::PassiveFlag {
            last: *last,
            run: *run,
            unacknowledged: *unacknowledged,
        },
        Phase::OverloadFlag { place } => Phase::OverloadFlag { place: *place },
        Phase::AfterFlag { first, dominant } => Phase::AfterFlag {
            first: *first,
            dominant: *dominant,
        },
        Phase::Delimiter { place } => Phase::Delimiter { place: *place },
        Phase::Intermission { place } => Phase::Intermission { place: *place },
        Phase::Suspend { place } => Phase::Suspend { place: *place },
        Phase::BusOff => Phase::BusOff,
    }
}
