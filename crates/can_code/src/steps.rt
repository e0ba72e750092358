mod table;

ghost use Rattle.std.specs.Prelude.{◌≡◌, ◌≤◌, ◌<◌};
ghost use Rattle.can_code.specs.Digits.{levels_up};
ghost use Rattle.can_code.specs.Steps.{begun, step_entry, in_table, row_last, row_run, steps_on};

use table::STEPS;

/// The maximum number of levels that a step takes.
pub(crate) const STEP_LEVELS: usize = 8;

/// The number of rows of the table.
const ROWS: usize = 10;

/// The entry for levels with a wrong stuff bit.
const NO_STEP: u16 = 0xffff;

/// Levels of a stuffed part that were taken at once, without their stuff bits.
#[derive(Clone, Copy)]
pub(crate) struct TableStep {
    /// The unstuffed levels as the bits of a number, the first level highest.
    pub(crate) number: u8,
    /// The number of unstuffed levels.
    pub(crate) len: u8,
    /// The row of the table for the following levels.
    pub(crate) row: u8,
}

/// Takes the `count` lowest bits of a number as levels, the lowest first, from this row of the table. Returns
/// `None` if a stuff bit has the level of the bit before it.
#[inline]
pub(crate) fn take_step(row: u8, levels: u64, count: usize) -> Option<TableStep>
    requires row { row < 10 }
    requires few { count ≤ 8 }
    ensures { result ≡ in_table (steps_on (begun (row_last row) (row_run row)) (levels_up count levels)) }
{
    let entry = entry(row, levels, count);
    if entry == NO_STEP {
        return None;
    }
    Some(TableStep {
        number: (entry % 256) as u8,
        len: (entry / 256 % 16) as u8,
        row: (entry / 4096) as u8,
    })
}

/// The table entry for these levels. A bit above them marks their number.
#[inline]
fn entry(row: u8, levels: u64, count: usize) -> u16
    requires row { row < 10 }
    requires few { count ≤ 8 }
    ensures { result ≡ step_entry (steps_on (begun (row_last row) (row_run row)) (levels_up count levels)) }
{
    let column = (1 << count) + levels % (1 << count);
    STEPS[ROWS * column as usize + usize::from(row)]
}
