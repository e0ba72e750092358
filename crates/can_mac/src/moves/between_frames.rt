//! Joining, idle, intermission and suspend transmission. (Bosch CAN 2.0 part B, section 3.2.5)

ghost use Rattle.std.specs.Prelude.{◌≡◌, ◌<◌};
ghost use Rattle.std.specs.Option.{option_copied};
ghost use Rattle.can_mac.specs.Moves.{idle_move, intermission_move, joining_move, next_role, suspend_move};

use crate::moves::{Entering, Stance};
use crate::phase::{Phase, Role};
use can_code::Sending;
use can_frame::{Frame, IDLE_ROW, Level};
use can_terms::ErrorKind;

/// After this many recessive levels in a row, the next one ends joining.
pub(crate) const LAST_OF_JOINING: u8 = IDLE_ROW - 1;

/// The last place of intermission.
pub(crate) const LAST_OF_INTERMISSION: u8 = 2;

/// The last place of suspend transmission.
pub(crate) const LAST_OF_SUSPEND: u8 = 7;

/// Joining (bus integration).
pub(crate) fn joining(stance: &Stance, row: u8, seen: Level) -> Entering
    ensures { result ≡ joining_move stance.now row seen }
{
    match seen {
        Level::Dominant => stance.goes(Phase::Joining { row: 0 }),
        Level::Recessive if row < LAST_OF_JOINING => stance.goes(Phase::Joining { row: row + 1 }),
        Level::Recessive => stance.goes(Phase::Idle),
    }
}

/// Idle.
pub(crate) fn idle(stance: &Stance, waiting: Option<&Frame>, seen: Level) -> Entering
    ensures { result ≡ idle_move stance.now (option_copied waiting.entry) seen }
{
    match (waiting, seen) {
        (None, Level::Dominant) => stance.begins(Role::Receiver),
        (None, Level::Recessive) => stance.goes(Phase::Idle),
        (Some(frame), Level::Dominant) => stance.begins(Role::Sender(Sending::new(frame))),
        // the dominant level that it drives as start of frame is not on the bus
        (Some(frame), Level::Recessive) => {
            let sender = Stance {
                role: Role::Sender(Sending::new(frame)),
                passive: stance.passive,
                overloads: stance.overloads,
            };
            sender.errs(ErrorKind::Bit)
        }
    }
}

/// Transmitter or receiver of a frame that begins in the last bit of intermission.
pub(crate) fn role_in_next(held_back: bool, waiting: Option<&Frame>) -> Role
    ensures { result ≡ next_role held_back (option_copied waiting.entry) }
{
    match waiting {
        Some(frame) if !held_back => Role::Sender(Sending::new(frame)),
        _ => Role::Receiver,
    }
}

/// Intermission.
pub(crate) fn intermission(
    stance: &Stance,
    place: u8,
    waiting: Option<&Frame>,
    seen: Level,
) -> Entering
    ensures { result ≡ intermission_move stance.now place (option_copied waiting.entry) seen }
{
    let held_back = stance.is_held_back();
    match seen {
        Level::Dominant if place < LAST_OF_INTERMISSION => stance.overload(),
        Level::Dominant => stance.begins(role_in_next(held_back, waiting)),
        Level::Recessive if place < LAST_OF_INTERMISSION => {
            stance.goes(Phase::Intermission { place: place + 1 })
        }
        Level::Recessive if held_back => stance.goes(Phase::Suspend { place: 0 }),
        Level::Recessive => stance.rests(),
    }
}

/// Suspend transmission.
pub(crate) fn suspend(stance: &Stance, place: u8, seen: Level) -> Entering
    ensures { result ≡ suspend_move stance.now place seen }
{
    match seen {
        Level::Dominant => stance.begins(Role::Receiver),
        Level::Recessive if place < LAST_OF_SUSPEND => {
            stance.goes(Phase::Suspend { place: place + 1 })
        }
        Level::Recessive => stance.rests(),
    }
}
