//! Lays out levels with their stuff bits, eight a step. (Bosch CAN 2.0 part B, section 6)

mod tables;

ghost use Rattle.std.specs.Prelude.{◌≡◌, ◌+◌, ◌*◌, ◌^◌, ◌<◌, ◌≤◌, ◌∷◌, ◌++◌, [], List, length, take};
ghost use Rattle.can_frame.specs.declared.level.Level.{Level as Bit};
ghost use Rattle.can_frame.specs.Levels.{bits_of};
ghost use Rattle.can_wire.specs.StuffSteps.{LaysOut, Steps, entry_of, last_of, run_of};
ghost use Rattle.can_wire.specs.Stuffing.{stuffed_from};

use crate::stuffing::{LONGEST_RUN, run_after};
use can_frame::Level;
use tables::{FIVE, FIVE_LEVELS, STUFFED_OCTETS};

/// The number of levels that a step takes.
pub(crate) const STEP_LEVELS: usize = 8;

/// The maximum number of levels that a step lays out.
pub(crate) const MOST_STEPPED: usize = 10;

/// The number of possible run lengths after a stuffed list.
const RUNS: u16 = 4;

/// The number of entries in a row of the table.
const OCTETS: usize = 256;

/// The number of levels of the longest frame on the bus.
pub const LONGEST_WIRE: usize = 157;

/// Eight levels with their stuff bits.
#[derive(Clone, Copy)]
pub(crate) struct StuffStep {
    /// A number of ten bits whose highest bits are these levels, the first level highest.
    pub(crate) number: u16,
    /// The number of levels.
    pub(crate) len: usize,
    /// The row of the table for the next levels.
    pub(crate) row: u16,
}

/// The eight levels of a byte with their stuff bits, from this row of the table.
#[inline]
pub(crate) fn stuff_step(row: u16, octet: u8) -> StuffStep
    requires { row < 8 }
    ensures step { Steps row (bits_of 8 octet) result }
    ensures number { result.number < 2 ^ 10 }
    ensures few { result.len ≤ 10 }
    ensures row { result.row < 8 }
{
    let entry = entry(row, octet);
    StuffStep {
        number: entry % 1024,
        len: STEP_LEVELS + usize::from(entry / 1024 % 4),
        row: entry / 4096,
    }
}

/// The table entry in this row for the eight levels of a byte.
#[inline]
fn entry(row: u16, octet: u8) -> u16
    requires { row < 8 }
    ensures { result ≡ entry_of (last_of row) (run_of row) (bits_of 8 octet) }
{
    STUFFED_OCTETS[OCTETS * usize::from(row) + usize::from(octet)]
}

/// The row of the table for the levels after a run of this level and length.
pub(crate) fn row_of(last: Level, run: u8) -> u16
    requires some { 1 ≤ run }
    requires short { run < 5 }
    ensures last { last_of result ≡ last }
    ensures run { run_of result ≡ run }
    ensures small { result < 8 }
{
    RUNS * u16::from(last.is_recessive()) + u16::from(run) - 1
}

/// How many levels have been laid out with their stuff bits.
#[derive(Clone, Copy)]
pub(crate) struct Stuffing {
    /// The number of levels.
    pub(crate) len: usize,
    /// The row of the table for the next levels.
    row: u16,
}

impl Stuffing {
    /// Lays out the first level.
    pub(crate) fn begin(levels: &mut [Level; LONGEST_WIRE], first: Level) -> Stuffing
        ensures { LaysOut levels.new result (first ∷ []) }
    {
        levels[0] = first;
        Stuffing {
            len: 1,
            row: row_of(first, 1),
        }
    }

    /// Lays out another level, and the stuff bit after it if one is due.
    #[inline]
    pub(crate) fn push(&mut self, levels: &mut [Level; LONGEST_WIRE], level: Level)
        requires small { self.old.row < 8 }
        requires room { self.old.len + 2 ≤ LONGEST_WIRE }
        ensures { (u : List Bit) → LaysOut levels.old self.old u → LaysOut levels.new self.new (u ++ level ∷ []) }
    {
        let last = Level::from_bool(self.row / RUNS == 1);
        let run = run_after(last, (self.row % RUNS) as u8 + 1, level);
        levels[self.len] = level;
        self.len += 1;
        if run == LONGEST_RUN {
            levels[self.len] = level.opposite();
            self.len += 1;
            self.row = row_of(level.opposite(), 1);
        } else {
            self.row = row_of(level, run);
        }
    }

    /// Lays out the eight levels of another byte, the highest bit first.
    #[inline]
    pub(crate) fn push_octet(&mut self, levels: &mut [Level; LONGEST_WIRE], octet: u8)
        requires small { self.old.row < 8 }
        requires room { self.old.len + MOST_STEPPED ≤ LONGEST_WIRE }
        ensures { (u : List Bit) → LaysOut levels.old self.old u → LaysOut levels.new self.new (u ++ bits_of 8 octet) }
    {
        let step = stuff_step(self.row, octet);
        put_ten(levels, self.len, step.number);
        self.len += step.len;
        self.row = step.row;
    }
}

/// Writes the levels of a number's ten bits from a place on, the highest first.
#[inline]
fn put_ten(levels: &mut [Level; LONGEST_WIRE], place: usize, number: u16)
    requires room { place + MOST_STEPPED ≤ LONGEST_WIRE }
    requires small { number < 2 ^ 10 }
    ensures { take (place + MOST_STEPPED) levels.new ≡ take place levels.old ++ bits_of MOST_STEPPED number }
{
    let (first, second) = (five_levels(number / 32), five_levels(number % 32));
    levels[place..place + FIVE].copy_from_slice(&first);
    levels[place + FIVE..place + MOST_STEPPED].copy_from_slice(&second);
}

/// The levels of a number's five bits, the highest first. They are a copy, which the compiler knows not to overlap
/// the target.
#[inline]
fn five_levels(number: u16) -> [Level; FIVE]
    requires { number < 2 ^ 5 }
    ensures { result ≡ bits_of FIVE number }
{
    FIVE_LEVELS[usize::from(number)]
}
