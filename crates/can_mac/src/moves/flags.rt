//! Error flags, overload flags and their delimiters. (Bosch CAN 2.0 part B, sections 3.2.3, 3.2.4 and 8)

ghost use Rattle.std.specs.Prelude.{◌≡◌, ◌<◌};
ghost use Rattle.can_mac.specs.Moves.{after_flag_move, delimiter_move, dominant_cause, error_flag_move, overload_flag_move, passive_flag_move};

use crate::moves::{Entering, Move, Stance};
use crate::phase::{Phase, Role};
use can_fault::Cause;
use can_frame::Level;
use can_terms::ErrorKind;

/// The last place of a flag.
pub(crate) const LAST_OF_FLAG: u8 = 5;

/// The number of equal levels in a row that complete a passive error flag.
pub(crate) const PASSIVE_FLAG_LENGTH: u8 = 6;

/// After this many dominant levels after a flag, the next one is counted.
const LAST_OF_DOMINANT_RUN: u8 = 7;

/// The last place of a delimiter.
pub(crate) const LAST_OF_DELIMITER: u8 = 7;

/// An active error flag.
pub(crate) fn error_flag(stance: &Stance, place: u8, seen: Level) -> Entering
    ensures { result ≡ error_flag_move stance.now place seen }
{
    match seen {
        Level::Dominant if place < LAST_OF_FLAG => {
            stance.goes(Phase::ErrorFlag { place: place + 1 })
        }
        Level::Dominant => stance.goes(Phase::AfterFlag {
            first: true,
            dominant: 0,
        }),
        Level::Recessive => stance.errs_in_flag(),
    }
}

/// An overload flag.
pub(crate) fn overload_flag(stance: &Stance, place: u8, seen: Level) -> Entering
    ensures { result ≡ overload_flag_move stance.now place seen }
{
    match seen {
        Level::Dominant if place < LAST_OF_FLAG => {
            stance.goes(Phase::OverloadFlag { place: place + 1 })
        }
        Level::Dominant => stance.goes(Phase::AfterFlag {
            first: false,
            dominant: 0,
        }),
        Level::Recessive => stance.errs_in_flag(),
    }
}

/// A passive error flag.
pub(crate) fn passive_flag(
    stance: &Stance,
    last: Level,
    run: u8,
    unacknowledged: bool,
    seen: Level,
) -> Entering
    requires { run < 6 }
    ensures { result ≡ passive_flag_move stance.now last run unacknowledged seen }
{
    let run = if seen == last { run + 1 } else { 1 };
    let still_unacknowledged = unacknowledged && seen.is_recessive();
    let phase = if run < PASSIVE_FLAG_LENGTH {
        Phase::PassiveFlag {
            last: seen,
            run,
            unacknowledged: still_unacknowledged,
        }
    } else {
        Phase::AfterFlag {
            first: true,
            dominant: 0,
        }
    };
    let cause = if unacknowledged && !seen.is_recessive() {
        Some(Cause::PassiveUnacknowledged)
    } else {
        None
    };
    Move {
        cause,
        ..stance.goes(phase)
    }
}

/// The cause of a dominant level after a flag.
fn cause_of_dominant(role: &Role, first: bool, dominant: u8) -> Option<Cause>
    ensures { result ≡ dominant_cause role.now first dominant }
{
    match role {
        Role::Receiver if first => Some(Cause::ReceiverFirstDominant),
        _ if dominant < LAST_OF_DOMINANT_RUN => None,
        Role::Receiver => Some(Cause::ReceiverDominantRun),
        Role::Sender(_) => Some(Cause::SenderDominantRun),
    }
}

/// After a flag, before the first recessive level.
pub(crate) fn after_flag(stance: &Stance, first: bool, dominant: u8, seen: Level) -> Entering
    ensures { result ≡ after_flag_move stance.now first dominant seen }
{
    match seen {
        Level::Recessive => stance.goes(Phase::Delimiter { place: 1 }),
        Level::Dominant => {
            let phase = Phase::AfterFlag {
                first: false,
                dominant: if dominant < LAST_OF_DOMINANT_RUN {
                    dominant + 1
                } else {
                    0
                },
            };
            Move {
                cause: cause_of_dominant(&stance.role, first, dominant),
                ..stance.goes(phase)
            }
        }
    }
}

/// The delimiter after a flag.
pub(crate) fn delimiter(stance: &Stance, place: u8, seen: Level) -> Entering
    ensures { result ≡ delimiter_move stance.now place seen }
{
    match seen {
        Level::Dominant if place < LAST_OF_DELIMITER => stance.errs(ErrorKind::Form),
        Level::Dominant => stance.overload(),
        Level::Recessive if place < LAST_OF_DELIMITER => {
            stance.goes(Phase::Delimiter { place: place + 1 })
        }
        Level::Recessive => stance.enters_intermission(),
    }
}
