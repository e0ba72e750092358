ghost use Rattle.std.specs.Prelude.{◌≡◌, ◌-◌, ◌^◌, if◌then◌else◌, Some};
ghost use Rattle.can_bus.specs.Run.{aged as aged_of, begins_attempt as begins_of, following as following_of, rest_after as rest_after_of};
ghost use Rattle.can_bus.specs.Walks.{IsPassed};

use can_frame::{IDLE_ROW, Level};

/// A transmission attempt: its number in a call, counted from 0, and how many bit times ago it began.
#[derive(Clone, Copy, Debug, PartialEq, Eq)]
pub struct Attempt {
    pub number: u64,
    pub offset: u64,
}

/// The attempt that begins after this one.
pub(crate) fn following(latest: Option<Attempt>) -> Attempt
    requires { IsPassed latest (2 ^ 64 - 1) }
    ensures { result ≡ following_of latest }
{
    let number = match latest {
        None => 0,
        Some(attempt) => attempt.number + 1,
    };
    Attempt { number, offset: 0 }
}

/// The attempt one bit time later.
fn aged(latest: Option<Attempt>) -> Option<Attempt>
    requires { IsPassed latest (2 ^ 64 - 1) }
    ensures { result ≡ aged_of latest }
{
    match latest {
        None => None,
        Some(Attempt { number, offset }) => Some(Attempt {
            number,
            offset: offset + 1,
        }),
    }
}

/// Whether an attempt begins at this wired level, after `rest` recessive recorded ones.
fn begins(rest: u8, wired: Level) -> bool
    ensures { result ≡ begins_of rest wired }
{
    match wired {
        Level::Dominant => rest == IDLE_ROW,
        Level::Recessive => false,
    }
}

/// The latest attempt, in a bit time with this wired level.
pub(crate) fn attempt_now(latest: Option<Attempt>, rest: u8, wired: Level) -> Option<Attempt>
    requires { IsPassed latest (2 ^ 64 - 1) }
    ensures { result ≡ (if begins_of rest wired then Some (following_of latest) else aged_of latest) }
{
    if begins(rest, wired) {
        Some(following(latest))
    } else {
        aged(latest)
    }
}

/// The number of recessive levels recorded last, including this one, counted up to eleven.
pub(crate) fn rest_after(rest: u8, level: Level) -> u8
    ensures { result ≡ rest_after_of rest level }
{
    match level {
        Level::Dominant => 0,
        Level::Recessive => if rest < IDLE_ROW { rest + 1 } else { IDLE_ROW },
    }
}
