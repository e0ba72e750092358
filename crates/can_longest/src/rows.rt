//! The rows of the table: the maximum number of levels that follow, by the number of data levels.
ghost use Rattle.std.specs.Prelude.{◌≡◌, ◌+◌, ◌*◌, ◌^◌, ◌<◌, ◌≤◌, IfOk, List, ℕ, length, max, suc};
ghost use Rattle.can_frame.specs.declared.level.Level.{Level as Bit};
ghost use Rattle.can_frame.specs.declared.level.Level.TheVariants.{Dominant};
ghost use Rattle.can_frame.specs.Levels.{bits_of};
ghost use Rattle.can_wire.specs.Stuffing.{stuffed_from};
ghost use Rattle.can_longest.specs.ToCome.{IsAhead, IsRow, most as most_of};

use crate::hearing::{Heard, hear_bits};
use crate::sums::added;
use can_frame::Level;
use std::alloc::{AllocError, Global};

/// The number of bits of a CRC sequence.
const CHECK_BITS: usize = 15;

/// The number of CRC sequences.
const CHECKS: u16 = 0x8000;

/// The CRC sequence whose levels are all recessive.
const ALL_RECESSIVE: u16 = 0x7fff;

/// The maximum number of levels that follow one, two, three and four dominant levels.
#[derive(Clone, Copy)]
pub(crate) struct Ahead {
    one: u8,
    two: u8,
    three: u8,
    four: u8,
}

impl Ahead {
    /// The maximum number that follow a run of this length.
    #[inline]
    fn behind(self, run: u8) -> u8
        requires some { 1 ≤ run }
        requires short { run < 5 }
        ensures { (k : ℕ) (check : List Bit) → IsAhead k check self → result ≡ most_of k Dominant run check }
    {
        match run {
            1 => self.one,
            2 => self.two,
            3 => self.three,
            _ => self.four,
        }
    }
}

/// A row of the table.
#[derive(Drop)]
pub(crate) struct Row {
    /// The sum of two CRC sequences that are opposite at each place, after opposite data.
    turned: u16,
    /// The maximum number of levels that follow, by the CRC sequence that the frame has if only dominant data follow.
    ahead: Vec<Ahead>,
}

impl Row {
    /// The maximum number of levels that follow these.
    pub(crate) fn most(&self, heard: Heard, check: u16) -> u8
        requires turned { self.now.turned < 2 ^ 15 }
        requires full { length self.now.ahead.items ≡ 2 ^ 15 }
        requires some { 1 ≤ heard.run }
        requires short { heard.run < 5 }
        requires range { check < 2 ^ 15 }
        ensures { (k : ℕ) → IsRow k self.now → result ≡ most_of k heard.last heard.run (bits_of 15 check) }
    {
        let place = self.place(heard.last, check);
        self.ahead[usize::from(place)].behind(heard.run)
    }

    /// The CRC sequence with which the same number of levels follows dominant levels as with `check` follows levels
    /// like the last.
    #[inline]
    fn place(&self, last: Level, check: u16) -> u16
        requires turned { self.now.turned < 2 ^ 15 }
        requires range { check < 2 ^ 15 }
        ensures range { result < 2 ^ 15 }
        ensures same { (k run : ℕ) → IsRow k self.now → most_of k last run (bits_of 15 check) ≡ most_of k Dominant run (bits_of 15 result) }
    {
        if last.is_recessive() {
            check ^ self.turned
        } else {
            check
        }
    }
}

/// The row for no more data.
pub(crate) fn last_row(alloc: Global) -> Result<Row, AllocError>
    ensures { IfOk result (IsRow 0) }
{
    let mut ahead = Vec::with_capacity(alloc, usize::from(CHECKS))?;
    for check in 0..CHECKS {
        ahead.push(Ahead {
            one: check_levels(1, check),
            two: check_levels(2, check),
            three: check_levels(3, check),
            four: check_levels(4, check),
        })?;
    }
    Ok(Row {
        turned: ALL_RECESSIVE,
        ahead,
    })
}

/// The number of levels of a CRC sequence with its stuff bits, after a run of `run` dominant levels.
fn check_levels(run: u8, check: u16) -> u8
    requires short { run < 5 }
    requires range { check < 2 ^ 15 }
    ensures { result ≡ length (stuffed_from Dominant run (bits_of 15 check)) }
{
    let before = Heard {
        last: Level::Dominant,
        run,
        levels: 0,
    };
    hear_bits(before, u64::from(check), CHECK_BITS).levels as u8
}

/// The row for one more level of data.
pub(crate) fn row_before(alloc: Global, bits: usize, later: &Row) -> Result<Row, AllocError>
    requires row { IsRow bits later.now }
    requires few { bits < 64 }
    ensures { IfOk result (IsRow (suc bits)) }
{
    let turned = later.turned ^ added(1, 1, bits);
    let mut ahead = Vec::with_capacity(alloc, usize::from(CHECKS))?;
    for check in 0..CHECKS {
        let dominant = later.ahead[usize::from(check)];
        let fifth = later.ahead[usize::from(check ^ later.turned)].one;
        let recessive = later.ahead[usize::from(check ^ turned)].one;
        ahead.push(with_level(dominant, fifth, recessive))?;
    }
    Ok(Row { turned, ahead })
}

/// The maximum number of levels if one more level comes. `dominant` are the entries after it, if it is dominant and not
/// the fifth; `fifth` is the entry after it and its stuff bit, if it is the fifth; `recessive` is the entry after it,
/// if it is recessive.
#[inline]
fn with_level(dominant: Ahead, fifth: u8, recessive: u8) -> Ahead
    requires two { dominant.two < 200 }
    requires three { dominant.three < 200 }
    requires four { dominant.four < 200 }
    requires fifth { fifth < 200 }
    requires recessive { recessive < 200 }
    ensures one { result.one ≡ max dominant.two recessive + 1 }
    ensures two { result.two ≡ max dominant.three recessive + 1 }
    ensures three { result.three ≡ max dominant.four recessive + 1 }
    ensures four { result.four ≡ max (fifth + 2) (recessive + 1) }
{
    Ahead {
        one: dominant.two.max(recessive) + 1,
        two: dominant.three.max(recessive) + 1,
        three: dominant.four.max(recessive) + 1,
        four: (fifth + 2).max(recessive + 1),
    }
}

/// The row for one more byte of data.
pub(crate) fn byte_before(alloc: Global, bytes: usize, later: &Row) -> Result<Row, AllocError>
    requires row { IsRow (8 * bytes) later.now }
    requires few { bytes < 8 }
    ensures { IfOk result (IsRow (8 * (bytes + 1))) }
{
    let mut row = row_before(alloc, 8 * bytes, later)?;
    for bit in 1..8 {
        row = row_before(alloc, 8 * bytes + bit, &row)?;
    }
    Ok(row)
}
