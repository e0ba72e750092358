//! Times of a document as whole bit times, and bit times as microseconds.
ghost use Rattle.std.specs.Prelude.{◌≡◌, ◌^◌, ◌<◌, ◌≤◌};
ghost use Rattle.can_plan_text.specs.Times.{bits_down as bits_within, bits_up as bits_around, time_down as time_within, time_up as time_around};

/// The number of microseconds in a second. At no bit rate up to and including this number does a time have more bit
/// times than microseconds.
const SECOND: u64 = 1_000_000;

/// Returns this time in whole bit times, rounded down. If the rate is 0, the time is in bit times.
pub(crate) fn bits_down(rate: u32, time: u32) -> u32
    requires { rate ≤ 1000000 }
    ensures { result ≡ bits_within rate time }
{
    if rate == 0 {
        time
    } else {
        (u64::from(time) * u64::from(rate) / SECOND) as u32
    }
}

/// Returns this time in whole bit times, rounded up. If the rate is 0, the time is in bit times.
pub(crate) fn bits_up(rate: u32, time: u32) -> u32
    requires { rate ≤ 1000000 }
    ensures { result ≡ bits_around rate time }
{
    if rate == 0 {
        time
    } else {
        ((u64::from(time) * u64::from(rate) + SECOND - 1) / SECOND) as u32
    }
}

/// Returns these bit times in whole microseconds, rounded down.
pub(crate) fn time_down(rate: u32, bits: u64) -> u64
    requires some { 0 < rate }
    requires short { bits < 2 ^ 34 }
    ensures { result ≡ time_within rate bits }
{
    bits * SECOND / u64::from(rate)
}

/// Returns these bit times in whole microseconds, rounded up.
pub(crate) fn time_up(rate: u32, bits: u64) -> u64
    requires some { 0 < rate }
    requires short { bits < 2 ^ 34 }
    ensures { result ≡ time_around rate bits }
{
    let rate = u64::from(rate);
    (bits * SECOND + rate - 1) / rate
}
