//! Reads levels from text.
ghost use Rattle.std.specs.Prelude.{ℕ, ◌≡◌, ◌≢◌, ◌<◌, ◌≤◌, ◌^◌, List, decimal, false, length, map, replicate, true, IfOk, MatchOption};
ghost use Rattle.can_frame.specs.declared.level.Level.{Level as LevelSaid};
ghost use Rattle.can_frame.specs.Levels.{digit_of};
ghost use Rattle.kit_documents.specs.LevelTexts.{longest_run, AddsLevels, IsRunToken, SaysLevels, SaysPiece};

use can_frame::Level;
use itoa::Buffer;
use std::alloc::AllocError;

/// A token `L*N` has at most this number of levels.
const LONGEST_RUN: u32 = 100_000;

/// Appends the levels of a text until there are `most`, and returns whether it is a text of levels, with at least one.
/// Further levels are read, but not kept.
pub fn read_levels(levels: &mut Vec<Level>, most: usize, text: &str) -> Result<bool, AllocError>
    requires { length levels.old.items ≤ most }
    ensures said { IfOk result (λ said. said ≡ true → AddsLevels (SaysLevels text.now) most levels.old.items levels.new.items) }
    ensures none { IfOk result (λ said. said ≡ false → (read : List LevelSaid) → ¬ SaysLevels text.now read) }
    ensures few { IfOk result (λ said. length levels.new.items ≤ most) }
{
    let mut some = false;
    for piece in text.split(' ') {
        if !read_piece(levels, most, piece)? {
            return Ok(false);
        }
        some = some || !piece.is_empty();
    }
    Ok(some)
}

/// Appends the levels of a piece between two spaces, until there are `most`. Returns whether it is one of levels.
fn read_piece(levels: &mut Vec<Level>, most: usize, piece: &str) -> Result<bool, AllocError>
    requires { length levels.old.items ≤ most }
    ensures said { IfOk result (λ said. said ≡ true → AddsLevels (SaysPiece piece.now) most levels.old.items levels.new.items) }
    ensures none { IfOk result (λ said. said ≡ false → (read : List LevelSaid) → ¬ SaysPiece piece.now read) }
    ensures few { IfOk result (λ said. length levels.new.items ≤ most) }
{
    let Some((level, count)) = run_in(piece) else {
        return read_digits(levels, most, piece.as_bytes());
    };
    let room = most - levels.len();
    for _ in 0..room.min(count as usize) {
        levels.push(level)?;
    }
    Ok(true)
}

/// Appends the levels with these digits, until there are `most`. Returns whether all are digits of levels.
fn read_digits(levels: &mut Vec<Level>, most: usize, digits: &[u8]) -> Result<bool, AllocError>
    requires { length levels.old.items ≤ most }
    ensures said { IfOk result (λ said. said ≡ true → AddsLevels (λ read. digits.now ≡ map digit_of read) most levels.old.items levels.new.items) }
    ensures none { IfOk result (λ said. said ≡ false → (read : List LevelSaid) → digits.now ≢ map digit_of read) }
    ensures few { IfOk result (λ said. length levels.new.items ≤ most) }
{
    for digit in digits {
        let Some(level) = Level::from_digit(*digit) else {
            return Ok(false);
        };
        if levels.len() < most {
            levels.push(level)?;
        }
    }
    Ok(true)
}

/// The level of a token `L*N`, and N.
fn run_in(piece: &str) -> Option<(Level, u32)>
    ensures { MatchOption result ((levels : List LevelSaid) → ¬ IsRunToken piece.now levels) (λ run. IsRunToken piece.now (replicate run.1 run.0)) }
{
    let (digit, count) = piece.split_once('*')?;
    match digit.as_bytes() {
        [digit] => Some((Level::from_digit(*digit)?, count_in(count)?)),
        _ => None,
    }
}

/// The number of a token, from 1 to 100000.
fn count_in(digits: &str) -> Option<u32>
    ensures { MatchOption result ((n : ℕ) → 0 < n → n ≤ longest_run → digits.now ≢ decimal n) (λ n. (0 < n) × (n ≤ longest_run) × (digits.now ≡ decimal n)) }
{
    let count = number_in(digits)?;
    if count == 0 {
        return None;
    }
    if LONGEST_RUN < count {
        return None;
    }
    Some(count)
}

/// The number with these digits, with neither a sign nor a leading zero.
fn number_in(digits: &str) -> Option<u32>
    ensures { MatchOption result ((n : ℕ) → n < 2 ^ 32 → digits.now ≢ decimal n) (λ n. (n < 2 ^ 32) × (digits.now ≡ decimal n)) }
{
    match digits.parse::<u32>() {
        Ok(number) => {
            if Buffer::new().format(number) == digits {
                return Some(number);
            }
            None
        }
        Err(_) => None,
    }
}
