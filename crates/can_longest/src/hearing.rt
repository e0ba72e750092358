//! Levels one after another, with their stuff bits.
ghost use Rattle.std.specs.Prelude.{◌≡◌, ◌+◌, ◌*◌, ◌<◌, ◌≤◌, ◌++◌, List, length};
ghost use Rattle.can_frame.specs.declared.level.Level.{Level as Bit};
ghost use Rattle.can_frame.specs.Levels.{bits_of};
ghost use Rattle.can_wire.specs.Stuffing.{stuffed_from};
ghost use Rattle.can_longest.specs.ToCome.{next_last, next_run, wire_levels};

use can_frame::Level;
use can_wire::{LONGEST_RUN, run_after};

/// The last level, its run, and the number of levels so far.
#[derive(Clone, Copy)]
pub(crate) struct Heard {
    /// The last level.
    pub(crate) last: Level,
    /// The length of the run that it ends; 0 if there is no level.
    pub(crate) run: u8,
    /// The number of levels, stuff bits included.
    pub(crate) levels: u16,
}

impl Heard {
    /// No levels. The start of frame, which is dominant, begins a run.
    pub(crate) const NONE: Heard = Heard {
        last: Level::Dominant,
        run: 0,
        levels: 0,
    };
}

/// Takes one more level, with its stuff bit.
#[inline]
pub(crate) fn hear(heard: Heard, level: Level) -> Heard
    requires short { heard.run < 5 }
    requires room { heard.levels < 1000 }
    ensures levels { result.levels ≡ heard.levels + wire_levels heard.last heard.run level }
    ensures last { result.last ≡ next_last heard.last heard.run level }
    ensures run { result.run ≡ next_run heard.last heard.run level }
    ensures some { 1 ≤ result.run }
    ensures short { result.run < 5 }
    ensures few { result.levels ≤ heard.levels + 2 }
{
    let run = run_after(heard.last, heard.run, level);
    if run == LONGEST_RUN {
        Heard {
            last: level.opposite(),
            run: 1,
            levels: heard.levels + 2,
        }
    } else {
        Heard {
            last: level,
            run,
            levels: heard.levels + 1,
        }
    }
}

/// Takes the lowest bits of a number, the highest first.
pub(crate) fn hear_bits(before: Heard, number: u64, count: usize) -> Heard
    requires few { count ≤ 39 }
    requires short { before.run < 5 }
    requires room { before.levels ≤ 206 }
    ensures behind { (rest : List Bit) → before.levels + length (stuffed_from before.last before.run (bits_of count number ++ rest)) ≡ result.levels + length (stuffed_from result.last result.run rest) }
    ensures some { 1 ≤ count → 1 ≤ result.run }
    ensures short { result.run < 5 }
    ensures few { result.levels ≤ before.levels + 2 * count }
{
    let mut heard = before;
    let mut left = count;
    while left > 0 {
        left -= 1;
        let level = Level::from_code(((number >> left) % 2) as u8);
        heard = hear(heard, level);
    }
    heard
}
