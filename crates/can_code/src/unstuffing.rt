ghost use Rattle.std.specs.Prelude.{◌≡◌, ◌+◌, ◌^◌, ◌<◌, ◌≤◌, ℕ, IfSome, List, drop, length};
ghost use Rattle.can_frame.specs.declared.level.Level.{Level as Bit};
ghost use Rattle.can_code.specs.Digits.{BeginWith};
ghost use Rattle.can_code.specs.Reading.{TellsLength};
ghost use Rattle.can_code.specs.Steps.{RunParts, run_at};
ghost use Rattle.can_code.specs.Unstuffing.{IsOpenFor, Unstuffs, as_run};

use crate::digits::{BLOCK, levels_of};
use crate::run::Run;
use crate::steps::{STEP_LEVELS, take_step};
use can_frame::Level;

/// The number of unstuffed levels that determine the length of a standard frame: all before its data.
const STANDARD_HEADER: usize = 19;

/// The minimum number of unstuffed levels of a frame.
const SHORTEST: usize = 34;

/// The minimum number of unstuffed levels of an extended frame.
const SHORTEST_EXTENDED: usize = 54;

/// The number of unstuffed levels that one number takes.
pub(crate) const NUMBER_BITS: usize = 64;

/// Levels of a stuffed part, without their stuff bits.
#[derive(Clone, Copy)]
pub(crate) struct UnstuffedRun {
    /// The unstuffed levels as the bits of a number, the first level highest.
    pub(crate) number: u64,
    /// The number of unstuffed levels.
    pub(crate) len: usize,
    /// The run that the last level ends, which may be a stuff bit.
    pub(crate) behind: Run,
    /// How many levels were taken, stuff bits included.
    pub(crate) taken: usize,
}

impl UnstuffedRun {
    /// No levels so far, after this run.
    #[inline]
    fn begin(before: Run) -> UnstuffedRun
        ensures { result ≡ record { number = 0; len = 0; behind = before; taken = 0 } }
    {
        UnstuffedRun {
            number: 0,
            len: 0,
            behind: before,
            taken: 0,
        }
    }
}

/// How many unstuffed levels may follow `len` of them before the CRC sequence is whole, as far as they determine the
/// frame's length. If there are many and they do not determine it, the frame is extended.
#[inline]
pub(crate) fn room_behind(len: usize, told: Option<usize>) -> usize
    ensures bound { result ≤ 64 }
    ensures room { (u : List Bit) → len ≡ length u → TellsLength u told → 0 < result → IsOpenFor u result }
{
    let end = match told {
        Some(length) => length.saturating_sub(1),
        None if len < STANDARD_HEADER => SHORTEST - 1,
        None => SHORTEST_EXTENDED - 1,
    };
    end.saturating_sub(len).min(NUMBER_BITS)
}

/// Takes levels from the front of these digits, after a run, until one of these is true:
///
/// - there are `room` unstuffed levels;
/// - a byte is not a digit;
/// - a stuff bit has the level of the bit before it.
///
/// It may stop earlier, but takes some if it can. If it `waits`, it leaves the space after whole blocks to the next
/// call, which may have space for a block again.
#[inline]
pub(crate) fn unstuff(digits: &[u8], room: usize, waits: bool, before: Run) -> UnstuffedRun
    requires wide { room ≤ 64 }
    requires some { 1 ≤ before.run }
    requires short { before.run ≤ 5 }
    ensures { Unstuffs digits.now room before result }
{
    let quick = unstuff_steps(digits, room, waits, before);
    if quick.taken > 0 {
        quick
    } else {
        unstuff_levels(digits, room, before)
    }
}

/// Takes up to eight levels a step. It stops if no block of bytes is left.
#[inline]
fn unstuff_steps(digits: &[u8], room: usize, waits: bool, before: Run) -> UnstuffedRun
    requires wide { room ≤ 64 }
    ensures { Unstuffs digits.now room before result }
{
    let now = unstuff_rows(digits, room, waits, before.row());
    UnstuffedRun {
        number: now.number,
        len: now.len,
        behind: Run::at(now.row),
        taken: now.taken,
    }
}

/// Levels that steps have taken.
#[derive(Clone, Copy)]
struct StepRun {
    /// The unstuffed levels as a number.
    number: u64,
    /// The number of unstuffed levels.
    len: usize,
    /// The row of the step table for the following levels.
    row: u8,
    /// How many levels were taken, stuff bits included.
    taken: usize,
}

impl StepRun {
    /// No levels so far, at this row.
    #[inline]
    fn begin(row: u8) -> StepRun
        ensures { result ≡ record { number = 0; len = 0; row = row; taken = 0 } }
    {
        StepRun {
            number: 0,
            len: 0,
            row,
            taken: 0,
        }
    }
}

/// These levels followed by `count` more, the lowest bits of a number, the lowest first. Returns `None` if a stuff bit
/// has the level of the bit before it.
#[inline]
fn step_behind(now: StepRun, levels: u64, count: usize) -> Option<StepRun>
    requires row { now.row < 10 }
    requires small { now.number < 2 ^ now.len }
    requires few { count ≤ 8 }
    requires fits { now.len + count ≤ 64 }
    requires within { now.taken + count < 2 ^ 64 }
    ensures row { IfSome result (λ next. next.row < 10) }
    ensures few { IfSome result (λ next. next.len ≤ now.len + count) }
    ensures all { IfSome result (λ next. next.taken ≡ now.taken + count) }
    ensures taken { IfSome result (λ next. (digits : List ℕ) (room : ℕ) (before : RunParts)
        → Unstuffs digits room before (as_run now) → BeginWith (drop now.taken digits) count levels → now.len + count ≤ room → room ≤ 64
        → Unstuffs digits room before (as_run next)) }
{
    let Some(step) = take_step(now.row, levels, count) else {
        return None;
    };
    Some(StepRun {
        number: (now.number << step.len) + u64::from(step.number),
        len: now.len + usize::from(step.len),
        row: step.row,
        taken: now.taken + count,
    })
}

/// Takes up to eight levels a step, from row to row of the step table.
#[inline]
fn unstuff_rows(digits: &[u8], room: usize, waits: bool, row: u8) -> StepRun
    requires wide { room ≤ 64 }
    requires row { row < 10 }
    ensures row { result.row < 10 }
    ensures taken { Unstuffs digits.now room (run_at row) (as_run result) }
{
    let mut now = unstuff_blocks(digits, room, row);
    if waits && now.taken > 0 {
        return now;
    }
    while now.len < room {
        let Some(block) = digits[now.taken..].first_chunk::<BLOCK>() else {
            return now;
        };
        let levels = levels_of(block);
        let count = levels.count.min(STEP_LEVELS).min(room - now.len);
        if count == 0 {
            return now;
        }
        let Some(next) = step_behind(now, levels.number, count) else {
            return now;
        };
        now = next;
    }
    now
}

/// Takes whole blocks, two steps in each. It stops if a block has a byte that is not a digit, or if there may be no
/// space for all of its levels.
#[inline]
fn unstuff_blocks(digits: &[u8], room: usize, row: u8) -> StepRun
    requires wide { room ≤ 64 }
    requires row { row < 10 }
    ensures row { result.row < 10 }
    ensures taken { Unstuffs digits.now room (run_at row) (as_run result) }
{
    let mut now = StepRun::begin(row);
    while now.len + BLOCK <= room {
        let Some(block) = digits[now.taken..].first_chunk::<BLOCK>() else {
            return now;
        };
        let levels = levels_of(block);
        if levels.count < BLOCK {
            return now;
        }
        let Some(first) = step_behind(now, levels.number, STEP_LEVELS) else {
            return now;
        };
        let Some(second) = step_behind(first, levels.number >> STEP_LEVELS, STEP_LEVELS) else {
            return first;
        };
        now = second;
    }
    now
}

/// Takes level by level.
fn unstuff_levels(digits: &[u8], room: usize, before: Run) -> UnstuffedRun
    requires wide { room ≤ 64 }
    requires some { 1 ≤ before.run }
    requires short { before.run ≤ 5 }
    ensures { Unstuffs digits.now room before result }
{
    let mut now = UnstuffedRun::begin(before);
    while now.len < room && now.taken < digits.len() {
        let Some(level) = Level::from_digit(digits[now.taken]) else {
            return now;
        };
        if now.behind.is_longest() {
            if level == now.behind.level() {
                return now;
            }
            now.behind = Run::begin(level);
        } else {
            now.number = 2 * now.number + u64::from(level.is_recessive());
            now.len += 1;
            now.behind = now.behind.and(level);
        }
        now.taken += 1;
    }
    now
}
