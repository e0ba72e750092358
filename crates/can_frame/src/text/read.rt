//! Reads the parts of a frame's text. Each function that `text.rt` calls reads one part from its
//! first byte on. It returns the part's value and the place of the next part, or the place at which
//! the text leaves all spellings of the part.
ghost use Rattle.std.specs.Prelude.{◌≡◌, ◌<◌, ◌≤◌, ◌+◌, ◌-◌, ◌*◌, ◌^◌, ℕ, length, drop, IfOk, IfErr, IfSome, IfNone, slice_index};
ghost use Rattle.hex.specs.Hex.{encode_lower, lower_digits, IsBytes};
ghost use Rattle.can_frame.specs.Ident.{IsIdent};
ghost use Rattle.can_frame.specs.Parts.{byte_count};
ghost use Rattle.can_frame.specs.Text.{hex_digits, decimal_digits, blank};
ghost use Rattle.can_frame.specs.TextParts.{letter_spelling, identifier_spelling, dlc_spelling, IsDigit, IsLetter, IsHexNumber, IsIdentifier, IsDecimal, IsDlc, IsData, LeavesPart, MostDigits, StandsAt};

use crate::id::Id;
use crate::text::{TextFault, TextFaultKind};
use arrayvec::ArrayVec;

/// The greatest data length code.
const HIGHEST_DLC: u32 = 15;

/// Reads one of two letters and a space: whether it is the second letter.
pub(super) fn letter(
    text: &[u8],
    start: usize,
    first: u8,
    second: u8,
    kind: TextFaultKind,
) -> Result<(bool, usize), TextFault>
    requires { start ≤ length text.now }
    ensures read { IfOk result
        (λ r. StandsAt (letter_spelling first second r.0) text.now start r.1) }
    ensures fault { IfErr result (LeavesPart kind (IsLetter first second) text.now start) }
{
    let Some(&byte) = text.get(start) else {
        return Err(TextFault { kind, place: start });
    };
    if byte != first && byte != second {
        return Err(TextFault { kind, place: start });
    }
    let next = pass_blank(text, start + 1, kind)?;
    Ok((byte == second, next))
}

/// Reads the identifier and its space.
pub(super) fn identifier(
    text: &[u8],
    start: usize,
    is_extended: bool,
) -> Result<(Id, usize), TextFault>
    requires { start ≤ length text.now }
    ensures kind { IfOk result (λ r. r.0.extended ≡ is_extended) }
    ensures range { IfOk result (λ r. IsIdent r.0) }
    ensures read { IfOk result
        (λ r. StandsAt (identifier_spelling is_extended r.0.raw) text.now start r.1) }
    ensures fault { IfErr result
        (LeavesPart TextFaultKind.Identifier (IsIdentifier is_extended) text.now start) }
{
    let kind = TextFaultKind::Identifier;
    let (id, end) = if is_extended {
        let raw = number(text, start, 8, 2, kind)?;
        (Id::extended(raw), start + 8)
    } else {
        let raw = number(text, start, 3, 8, kind)?;
        (Id::standard(raw as u16), start + 3)
    };
    let next = pass_blank(text, end, kind)?;
    Ok((id.unwrap(), next))
}

/// Reads the DLC, and its space if data bytes follow.
pub(super) fn data_length_code(
    text: &[u8],
    start: usize,
    is_remote: bool,
) -> Result<(u8, usize), TextFault>
    requires { start ≤ length text.now }
    ensures range { IfOk result (λ r. r.0 < 16) }
    ensures read { IfOk result (λ r. StandsAt (dlc_spelling is_remote r.0) text.now start r.1) }
    ensures most { IfOk result (λ r. MostDigits r.0 (drop start text.now)) }
    ensures fault { IfErr result (LeavesPart TextFaultKind.Dlc (IsDlc is_remote) text.now start) }
{
    let (dlc, end) = decimal(text, start)?;
    if byte_count(is_remote, dlc) == 0 {
        return Ok((dlc, end));
    }
    let next = pass_blank(text, end, TextFaultKind::Dlc)?;
    Ok((dlc, next))
}

/// The number of data bytes of a frame.
pub(super) fn byte_count(is_remote: bool, dlc: u8) -> usize
    ensures { result ≡ byte_count is_remote dlc }
{
    if is_remote {
        0
    } else {
        usize::from(dlc).min(8)
    }
}

/// Reads `count` data bytes, at most 8, of two hexadecimal digits each.
pub(super) fn data(
    text: &[u8],
    start: usize,
    count: usize,
) -> Result<(ArrayVec<u8, 8>, usize), TextFault>
    requires within { start ≤ length text.now }
    requires few { count ≤ 8 }
    ensures count { IfOk result (λ r. length r.0.items ≡ count) }
    ensures range { IfOk result (λ r. IsBytes r.0.items) }
    ensures read { IfOk result (λ r. StandsAt (encode_lower r.0.items) text.now start r.1) }
    ensures fault { IfErr result (LeavesPart TextFaultKind.Data (IsData count) text.now start) }
{
    let mut bytes = ArrayVec::new();
    let mut place = start;
    for _ in 0..count {
        let byte = number(text, place, 2, 16, TextFaultKind::Data)?;
        bytes.push(byte as u8);
        place += 2;
    }
    Ok((bytes, place))
}

/// Reads `count` hexadecimal digits, the first of them below a limit.
fn number(
    text: &[u8],
    start: usize,
    count: usize,
    limit: u32,
    kind: TextFaultKind,
) -> Result<u32, TextFault>
    requires within { start ≤ length text.now }
    requires some { 0 < count }
    requires few { count ≤ 8 }
    requires digit { 0 < limit }
    requires base { limit ≤ 16 }
    ensures range { IfOk result (λ n. n < limit * 16 ^ (count - 1)) }
    ensures read { IfOk result (λ n. StandsAt (hex_digits count n) text.now start (start + count)) }
    ensures fault { IfErr result (LeavesPart kind (IsHexNumber count limit) text.now start) }
{
    let mut number = digit(text, start, limit, kind)?;
    for place in start + 1..start + count {
        number = 16 * number + digit(text, place, 16, kind)?;
    }
    Ok(number)
}

/// Reads one hexadecimal digit below a limit.
fn digit(text: &[u8], place: usize, limit: u32, kind: TextFaultKind) -> Result<u32, TextFault>
    requires within { place ≤ length text.now }
    requires some { 0 < limit }
    requires base { limit ≤ 16 }
    ensures range { IfOk result (λ d. d < limit) }
    ensures read { IfOk result (λ d. StandsAt (hex_digits 1 d) text.now place (place + 1)) }
    ensures fault { IfErr result (LeavesPart kind (IsHexNumber 1 limit) text.now place) }
{
    match digit_at(text, place) {
        Some(digit) if digit < limit => Ok(digit),
        _ => Err(TextFault { kind, place }),
    }
}

/// The value of the lower-case hexadecimal digit at this place, if there is one.
fn digit_at(text: &[u8], place: usize) -> Option<u32>
    ensures some { IfSome result
        (λ d. (place < length text.now) × IsDigit d (slice_index text.now place)) }
    ensures none { IfNone result
        ((d : ℕ) → place < length text.now → IsDigit d (slice_index text.now place) → ⊥) }
{
    // a table, since a branch on digit or letter could not be predicted
    let number = NUMBER_OF_DIGIT[usize::from(*text.get(place)?)];
    if number < 16 {
        Some(u32::from(number))
    } else {
        None
    }
}

/// Reads a DLC in decimal: its value and where its digits end. It takes the longest prefix that is a
/// DLC.
fn decimal(text: &[u8], start: usize) -> Result<(u8, usize), TextFault>
    requires { start ≤ length text.now }
    ensures range { IfOk result (λ r. r.0 < 16) }
    ensures read { IfOk result (λ r. StandsAt (decimal_digits r.0) text.now start r.1) }
    ensures most { IfOk result (λ r. MostDigits r.0 (drop start text.now)) }
    ensures fault { IfErr result (LeavesPart TextFaultKind.Dlc IsDecimal text.now start) }
{
    let first = digit(text, start, 10, TextFaultKind::Dlc)?;
    match digit_at(text, start + 1) {
        Some(second) if first == 1 && 10 + second <= HIGHEST_DLC => {
            Ok((10 + second as u8, start + 2))
        }
        _ => Ok((first as u8, start + 1)),
    }
}

/// Returns the place after a space.
fn pass_blank(text: &[u8], place: usize, kind: TextFaultKind) -> Result<usize, TextFault>
    requires { place ≤ length text.now }
    ensures read { IfOk result (StandsAt blank text.now place) }
    ensures fault { IfErr result (LeavesPart kind (λ w. blank ≡ w) text.now place) }
{
    match text.get(place) {
        Some(b' ') => Ok(place + 1),
        _ => Err(TextFault { kind, place }),
    }
}

/// The value of each byte as a lower-case hexadecimal digit, or 255 if it is none.
static NUMBER_OF_DIGIT: [u8; 256] = [
    255, 255, 255, 255, 255, 255, 255, 255, 255, 255, 255, 255, 255, 255, 255, 255, 255, 255, 255,
    255, 255, 255, 255, 255, 255, 255, 255, 255, 255, 255, 255, 255, 255, 255, 255, 255, 255, 255,
    255, 255, 255, 255, 255, 255, 255, 255, 255, 255, 0, 1, 2, 3, 4, 5, 6, 7, 8, 9, 255, 255, 255,
    255, 255, 255, 255, 255, 255, 255, 255, 255, 255, 255, 255, 255, 255, 255, 255, 255, 255, 255,
    255, 255, 255, 255, 255, 255, 255, 255, 255, 255, 255, 255, 255, 255, 255, 255, 255, 10, 11,
    12, 13, 14, 15, 255, 255, 255, 255, 255, 255, 255, 255, 255, 255, 255, 255, 255, 255, 255, 255,
    255, 255, 255, 255, 255, 255, 255, 255, 255, 255, 255, 255, 255, 255, 255, 255, 255, 255, 255,
    255, 255, 255, 255, 255, 255, 255, 255, 255, 255, 255, 255, 255, 255, 255, 255, 255, 255, 255,
    255, 255, 255, 255, 255, 255, 255, 255, 255, 255, 255, 255, 255, 255, 255, 255, 255, 255, 255,
    255, 255, 255, 255, 255, 255, 255, 255, 255, 255, 255, 255, 255, 255, 255, 255, 255, 255, 255,
    255, 255, 255, 255, 255, 255, 255, 255, 255, 255, 255, 255, 255, 255, 255, 255, 255, 255, 255,
    255, 255, 255, 255, 255, 255, 255, 255, 255, 255, 255, 255, 255, 255, 255, 255, 255, 255, 255,
    255, 255, 255, 255, 255, 255, 255, 255, 255, 255, 255, 255, 255, 255, 255, 255, 255, 255, 255,
    255, 255, 255, 255,
];
