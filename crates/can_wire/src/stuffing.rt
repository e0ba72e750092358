ghost use Rattle.std.specs.Prelude.{◌≡◌, ◌+◌, ◌<◌, ◌≤◌, ◌++◌, List, length};
ghost use Rattle.can_frame.specs.declared.level.Level.{Level as Bit};
ghost use Rattle.can_wire.specs.Stuffing.{Stuffs, stuffed as stuffed_of, run_after as run_after_of};

use arrayvec::ArrayVec;
use can_frame::Level;

/// The number of equal levels in a row after which a stuff bit follows.
pub const LONGEST_RUN: u8 = 5;

/// Returns the levels with their stuff bits. After five equal levels, stuff bits included, a bit of
/// the other level is inserted. (Bosch CAN 2.0 part B, section 6)
pub fn stuff(levels: &[Level]) -> ArrayVec<Level, 147>
    requires { length levels.now ≤ 118 }
    ensures stuffs { Stuffs levels.now result.items }
    ensures only { (b : List Bit) → Stuffs levels.now b → b ≡ result.items }
    ensures computed { result.items ≡ stuffed_of levels.now }
{
    let mut stuffed = ArrayVec::new();
    let mut last = Level::Dominant;
    let mut run = 0;
    for level in levels {
        run = run_after(last, run, *level);
        last = *level;
        stuffed.push(last);
        if run == LONGEST_RUN {
            last = last.opposite();
            run = 1;
            stuffed.push(last);
        }
    }
    stuffed
}

/// The length of the run that `level` ends, after a run of `last` of length `run`.
pub fn run_after(last: Level, run: u8, level: Level) -> u8
    requires { run < 5 }
    ensures { result ≡ run_after_of last run level }
{
    if level == last { run + 1 } else { 1 }
}
