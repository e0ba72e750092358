//! The commands in the lines of a runner.
ghost use Rattle.std.specs.Prelude.{◌≡◌, ◌≢◌, ◌↔◌, ◌<◌, ℕ, List, ◌++◌, map, codes, IsTrue, MatchOption};
ghost use Rattle.std.specs.List.{list_all};
ghost use Rattle.can_terms.specs.declared.script.Start.{Start as StartSaid};
ghost use Rattle.can_terms.specs.declared.script.TesterLevel.{TesterLevel as TesterSaid};
ghost use Rattle.can_frame.specs.Parts.{Parts};
ghost use Rattle.canhold_commands.specs.Commands.{is_tester_digit, start_part, tester_of as tester_by, IsCaseLine, IsHoldLine, IsOfferLine, IsPlayLine};

use can_frame::Frame;
use can_terms::{Start, TesterLevel};
use kit_documents::LONGEST_NAME;

/// A line plays at most this number of bit times.
pub(crate) const MOST_LEVELS: usize = 4096;

/// What follows this word, if the line begins with it.
fn behind<'a>(line: &'a [u8], word: &[u8]) -> Option<&'a [u8]>
    ensures { MatchOption result ((rest : List ℕ) → line.now ≢ word.now ++ rest) (λ rest. line.now ≡ word.now ++ rest.now) }
{
    line.strip_prefix(word)
}

/// The name in a line that is `case NAME` with this ending.
fn name_before<'a>(line: &'a [u8], ending: &[u8]) -> Option<&'a [u8]>
    ensures { MatchOption result ((name : List ℕ) → line.now ≢ codes "case " ++ (name ++ ending.now)) (λ name. line.now ≡ codes "case " ++ (name.now ++ ending.now)) }
{
    behind(line, b"case ")?.strip_suffix(ending)
}

/// Whether the line is `case NAME` with this ending, and the name is short enough.
fn is_case(line: &[u8], ending: &[u8]) -> bool
    ensures { IsTrue result ↔ IsCaseLine line.now ending.now }
{
    let Some(name) = name_before(line, ending) else {
        return false;
    };
    name.len() <= LONGEST_NAME
}

/// The start of the case that the line begins.
pub(crate) fn start_in(line: &[u8]) -> Option<Start>
    ensures { MatchOption result ((start : StartSaid) → IsCaseLine line.now (start_part start) → ⊥) (λ start. IsCaseLine line.now (start_part start)) }
{
    if is_case(line, b" idle") {
        return Some(Start::Idle);
    }
    if is_case(line, b" joining") {
        return Some(Start::Joining);
    }
    None
}

/// The frame that the line offers.
pub(crate) fn frame_in(line: &[u8]) -> Option<Frame>
    ensures { MatchOption result ((f : Parts) → IsOfferLine line.now f → ⊥) (IsOfferLine line.now) }
{
    Frame::from_text(behind(line, b"offer ")?).ok()
}

/// The number of overload frames that the line requests.
pub(crate) fn wish_in(line: &[u8]) -> Option<u8>
    ensures { MatchOption result ((n : ℕ) → IsHoldLine line.now n → ⊥) (IsHoldLine line.now) }
{
    match behind(line, b"hold ")? {
        [digit @ b'0'..=b'2'] => Some(digit - b'0'),
        _ => None,
    }
}

/// The digits of the bit times that the line plays.
#[tactic(auto, using(crate::proofs::CommandLines::play_empty, crate::proofs::CommandLines::play_long))]
pub(crate) fn digits_in(line: &[u8]) -> Option<&[u8]>
    ensures { MatchOption result ((levels : List TesterSaid) → IsPlayLine line.now levels → ⊥) (λ digits. IsPlayLine line.now (map tester_by digits.now)) }
{
    let digits = behind(line, b"play ")?;
    if digits.is_empty() {
        return None;
    }
    if digits.len() > MOST_LEVELS {
        return None;
    }
    if !are_digits(digits) {
        return None;
    }
    Some(digits)
}

/// Whether each byte is a digit for the tester.
fn are_digits(bytes: &[u8]) -> bool
    ensures { result ≡ list_all is_tester_digit bytes.now }
{
    bytes
        .iter()
        .all(|byte| *byte == b'0' || *byte == b'1' || *byte == b'f')
}

/// What the tester does for a digit.
pub(crate) fn tester_of(digit: u8) -> TesterLevel
    ensures { result ≡ tester_by digit }
{
    match digit {
        b'0' => TesterLevel::Dominant,
        b'1' => TesterLevel::Recessive,
        _ => TesterLevel::Forced,
    }
}
