//! Levels as numbers, for callers in other languages than Rust.
ghost use Rattle.std.specs.Prelude.{◌≡◌, ◌≤◌, false, true, drop, length, map, take, MatchOption};
ghost use Rattle.can_frame.specs.Levels.{are_level_codes, level_code, levels_of_codes};

use crate::stuff_steps::LONGEST_WIRE;
use arrayvec::ArrayVec;
use can_frame::Level;

/// Returns the levels of the first 157 numbers (no frame has more), or `None` if one of these is
/// neither 0 nor 1.
pub fn front_of_codes(codes: &[u8]) -> Option<ArrayVec<Level, 157>>
    ensures { MatchOption result (are_level_codes (take 157 codes.now) ≡ false)
        (λ levels. (are_level_codes (take 157 codes.now) ≡ true) × (levels.items ≡ levels_of_codes (take 157 codes.now))) }
{
    let front = &codes[..LONGEST_WIRE.min(codes.len())];
    if Level::are_codes(front) {
        Some(levels_in(front))
    } else {
        None
    }
}

/// The levels of at most 157 numbers.
fn levels_in(codes: &[u8]) -> ArrayVec<Level, 157>
    requires { length codes.now ≤ 157 }
    ensures { result.items ≡ levels_of_codes codes.now }
{
    let mut levels = ArrayVec::new();
    for code in codes {
        levels.push(Level::from_code(*code));
    }
    levels
}

/// Writes the numbers of levels to the front of `codes`, and leaves what follows unchanged.
pub fn write_codes(levels: &[Level], codes: &mut [u8])
    requires { length levels.now ≤ length codes.old }
    ensures front { take (length levels.now) codes.new ≡ map level_code levels.now }
    ensures behind { drop (length levels.now) codes.new ≡ drop (length levels.now) codes.old }
{
    for place in 0..levels.len() {
        codes[place] = levels[place].code();
    }
}
