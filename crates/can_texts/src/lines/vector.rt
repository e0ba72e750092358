//! A line of a frame's text and levels, and whether the levels are the frame's.
ghost use Rattle.std.specs.Prelude.{◌≡◌, ℕ, ◌≤◌, ◌<◌, ◌++◌, List, length, take, IfOk, IfErr, IsErrOf, OnOk};
ghost use Rattle.can_frame.specs.Parts.{IsFrame};
ghost use Rattle.can_frame.specs.Text.{frame_text};
ghost use Rattle.can_frame.specs.declared.level.Level.{Level as Bit};
ghost use Rattle.can_frame.specs.Levels.{digit_of};
ghost use Rattle.can_texts.specs.Checked.{mark, passed_by, ComparesDigits, IsBadAs, IsBadLevelByte, IsBadVectorLine, IsCommonFront, IsFirstBadDigit, IsFramePart, IsLevels, IsVectorVerdict};

use can_frame::{Frame, Level, TextFault, TextFaultKind};
use can_wire::{DIGITS_ROOM, LONGEST_WIRE, driven_digits};
use memchr::memchr;

/// The maximum number of levels of a line.
const MOST_LEVELS: usize = LONGEST_WIRE;

/// The verdict on a line of a frame's text and levels.
#[derive(Clone, Copy)]
pub(crate) enum Verdict {
    /// The levels are those that the frame's transmitter drives.
    Agrees,
    /// They are not. This is the first place at which they differ, or the shorter length.
    DiffersAt(usize),
}

impl Verdict {
    /// 1 if the line passes, otherwise 0.
    pub(crate) fn passed(self) -> u64
        ensures { result ≡ passed_by self }
    {
        match self {
            Verdict::Agrees => 1,
            Verdict::DiffersAt(_) => 0,
        }
    }
}

/// Why a line has no verdict.
#[derive(Clone, Copy)]
pub(crate) enum BadLine {
    /// It does not begin with a frame text and ` = `.
    Frame(TextFault),
    /// The byte at this place of the line is not a digit of a level, or follows 157 levels.
    Byte(usize),
}

/// Compares the levels of the line with those that the transmitter of its frame drives.
pub(crate) fn judge(line: &[u8]) -> Result<Verdict, BadLine>
    ensures ok { IfOk result (IsVectorVerdict line.now) }
    ensures err { IfErr result (IsBadAs line.now) }
    ensures byte { (place : ℕ) → IsBadLevelByte line.now place → IsErrOf result (BadLine.Byte place) }
{
    match read_opening(line) {
        Ok(opening) => match judge_digits(&line[opening.start..], &opening.frame) {
            Ok(verdict) => Ok(verdict),
            Err(place) => Err(BadLine::Byte(opening.start + place)),
        },
        Err(fault) => Err(BadLine::Frame(fault)),
    }
}

/// Compares the levels with these digits with those that the transmitter of the frame drives. If a byte is not a
/// digit of a level, or is one too many, returns the place of the first such byte.
fn judge_digits(digits: &[u8], frame: &Frame) -> Result<Verdict, usize>
    ensures ok { IfOk result (ComparesDigits digits.now frame.now) }
    ensures err { IfErr result (IsFirstBadDigit digits.now) }
{
    let mut buffer = [0; DIGITS_ROOM];
    let (start, end) = driven_digits(frame, &mut buffer);
    let driven = &buffer[start..end];
    if digits == driven {
        return Ok(Verdict::Agrees);
    }
    check_digits(digits)?;
    let place = common_length(digits, driven);
    Ok(Verdict::DiffersAt(place))
}

/// The beginning of a line.
#[derive(Drop)]
struct Opening {
    /// The frame of its text.
    frame: Frame,
    /// The place of the first level.
    start: usize,
}

/// Reads a frame text and ` = ` from the front of the line.
fn read_opening(line: &[u8]) -> Result<Opening, TextFault>
    ensures within { IfOk result (λ opening. opening.start ≤ length line.now) }
    ensures frame { IfOk result (λ opening. IsFrame opening.frame) }
    ensures text { IfOk result (λ opening. take opening.start line.now ≡ frame_text opening.frame ++ mark) }
    ensures err { IfErr result (λ fault. IsBadVectorLine fault line.now) }
{
    let length = frame_length(line);
    let frame = Frame::from_text(&line[..length])?;
    if length == line.len() {
        return Err(TextFault {
            kind: TextFaultKind::Trailing,
            place: length,
        });
    }
    Ok(Opening {
        frame,
        start: length + 3,
    })
}

/// The number of bytes before the first ` = `, or of all bytes if there is none.
fn frame_length(line: &[u8]) -> usize
    ensures within { result ≤ length line.now }
    ensures part { IsFramePart line.now (take result line.now) }
{
    // no ` = ` ends before the first `=`
    let equals = memchr(b'=', line).unwrap_or(line.len());
    for place in equals.saturating_sub(1)..line.len() {
        if line[place..].starts_with(b" = ") {
            return place;
        }
    }
    line.len()
}

/// Checks that these are the digits of levels. Otherwise returns the place of the first byte that is not, or is
/// one too many.
fn check_digits(digits: &[u8]) -> Result<(), usize>
    ensures ok { OnOk result ((levels : List Bit) × IsLevels digits.now levels) }
    ensures err { IfErr result (IsFirstBadDigit digits.now) }
{
    for (place, digit) in digits.iter().enumerate() {
        match Level::from_digit(*digit) {
            Some(_) if place < MOST_LEVELS => {}
            _ => return Err(place),
        }
    }
    Ok(())
}

/// The length of the longest common prefix.
fn common_length(digits: &[u8], others: &[u8]) -> usize
    ensures { IsCommonFront digits.now others.now result }
{
    let shorter = digits.len().min(others.len());
    for place in 0..shorter {
        if digits[place] != others[place] {
            return place;
        }
    }
    shorter
}
