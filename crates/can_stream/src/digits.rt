//! Levels as digits.
ghost use Rattle.std.specs.Prelude.{◌≡◌, length, map};
ghost use Rattle.can_frame.specs.Levels.{digit_of};

use can_frame::Level;

/// Writes the digit of each level.
pub fn write_digits(levels: &[Level], digits: &mut [u8])
    requires { length digits.old ≡ length levels.now }
    ensures { digits.new ≡ map digit_of levels.now }
{
    for (place, level) in levels.iter().enumerate() {
        digits[place] = level.digit();
    }
}
