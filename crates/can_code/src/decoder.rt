ghost use Rattle.std.specs.Prelude.{◌≡◌, ◌+◌, ◌<◌, ◌≤◌, ◌∷◌, ◌++◌, [], Bool, Option, Some, None, Result, Ok, List, length, take, IfErr, IfSome};
ghost use Rattle.can_frame.specs.declared.level.Level.{Level as Bit};
ghost use Rattle.can_frame.specs.declared.level.Level.TheVariants.{Dominant};
ghost use Rattle.can_wire.specs.Heard.{HeardParts, Spells};
ghost use Rattle.can_code.specs.CodeFaults.{IsCodeFault};
ghost use Rattle.can_code.specs.Decoder.{HasHeard};
ghost use Rattle.can_code.specs.Digits.{DecodesDigits, HearsTail};
ghost use Rattle.can_code.specs.Front.{next_place};

use crate::digits::{BLOCK, levels_of};
use crate::fault::CodeFaultKind;
use crate::front::{Front, Place};
use can_frame::Level;
use can_wire::{FrameBits, Heard};
use std::marker::Model;

/// The place of the ACK slot in the ten levels after the stuffed part: after the CRC delimiter.
const ACK_SLOT: usize = 1;

/// The place of the last level of the end of frame in these ten: after CRC delimiter, ACK slot, ACK delimiter,
/// and six levels of the end of frame.
const LAST_LEVEL: usize = 9;

/// The nine levels of a tail before its last one if the ACK slot is dominant. The first level is the lowest bit.
const TAIL: u64 = 0b1_1111_1101;

/// These nine levels if the ACK slot is recessive.
const UNACKNOWLEDGED_TAIL: u64 = 0b1_1111_1111;

/// A frame that is decoded level by level, from its start of frame on. (Bosch CAN 2.0 part B, sections 3.2.1 and
/// 6)
///
/// The ACK slot, the reserved bits, SRR and the last level of the end of frame are accepted at either value.
#[derive(Drop)]
pub struct Decoder<B: FrameBits> {
    front: Front<B>,
    /// How many levels have been received after the stuffed part, 0 to 9.
    behind: usize,
    acked: bool,
}

impl<B: FrameBits> Model for Decoder<B> {
    ghost use Rattle.std.specs.Prelude.{◌<◌, take};
    ghost use Rattle.can_frame.specs.declared.level.Level.TheVariants.{Recessive};
    ghost use Rattle.can_wire.specs.Wire.{tail};
    ghost use Rattle.can_wire.specs.Heard.{ack_slot};
    ghost use Rattle.can_code.specs.Decoder.{DecoderParts};

    ghost Value = { DecoderParts };

    ghost view = { λ a. record { front = a.front; behind = take a.behind (tail (ack_slot a.acked) Recessive) } };

    ghost invariant = { λ a. a.behind < 10 };
}

impl<B: FrameBits> Decoder<B> {
    /// Returns a decoder that has received the start of frame.
    pub fn begin() -> Self
        ensures { HasHeard result (Dominant ∷ []) }
    {
        Decoder {
            front: Front::begin(),
            behind: 0,
            acked: false,
        }
    }

    /// Takes one more level, and returns whether the frame continues, is complete or has a fault.
    ///
    /// - `Ok(None)`: the frame continues.
    /// - `Ok(Some(heard))`: the level was the last one of this frame.
    /// - `Err(kind)`: the level shows a fault of this kind.
    ///
    /// After the last level and after a fault nothing is promised of further calls.
    #[inline]
    pub fn hear(&mut self, level: Level) -> Result<Option<Heard>, CodeFaultKind>
        ensures more { result ≡ Ok None → (l : List Bit) → HasHeard self.old l → HasHeard self.new (l ++ level ∷ []) }
        ensures heard { (h : HeardParts) (l : List Bit) → result ≡ Ok (Some h) → HasHeard self.old l → Spells h (l ++ level ∷ []) }
        ensures fault { IfErr result (λ kind. (l rest : List Bit) → HasHeard self.old l → IsCodeFault (l ++ level ∷ rest) (record { kind = kind; place = length l })) }
    {
        if self.front.next_place() != Place::CrcDelimiter {
            if self.front.hear(level).is_err() {
                return Err(CodeFaultKind::Stuff);
            }
            if self.front.next_place() == Place::CrcDelimiter && !self.front.check_agrees() {
                return Err(CodeFaultKind::Crc);
            }
            return Ok(None);
        }
        match self.behind {
            ACK_SLOT => self.acked = !level.is_recessive(),
            LAST_LEVEL => return Ok(Some(self.front.heard(self.acked, level))),
            _ if level.is_recessive() => {}
            _ => return Err(CodeFaultKind::Form),
        }
        self.behind += 1;
        Ok(None)
    }

    /// Takes levels from the front of these digits as long as the frame continues, and returns how many. The
    /// effect is that of [`hear`](Decoder::hear) for each of them. It stops before a level that ends the frame
    /// or shows a fault, and at a byte that is not a digit. It may stop earlier.
    #[inline]
    pub fn hear_run(&mut self, digits: &[u8]) -> usize
        ensures within { result ≤ length digits.now }
        ensures heard { DecodesDigits self.old self.new (take result digits.now) }
    {
        let front = self.hear_front(digits);
        front + self.hear_behind(&digits[front..])
    }

    /// Takes levels of the stuffed part only.
    #[inline]
    fn hear_front(&mut self, digits: &[u8]) -> usize
        ensures within { result ≤ length digits.now }
        ensures heard { DecodesDigits self.old self.new (take result digits.now) }
    {
        if self.front.next_place() == Place::CrcDelimiter {
            return 0;
        }
        self.front.hear_run(digits)
    }

    /// Takes levels after the stuffed part only.
    #[inline]
    fn hear_behind(&mut self, digits: &[u8]) -> usize
        ensures within { result ≤ length digits.now }
        ensures heard { DecodesDigits self.old self.new (take result digits.now) }
    {
        if self.front.next_place() != Place::CrcDelimiter {
            return 0;
        }
        let heard = tail_of(digits, self.behind, self.acked);
        self.behind += heard.taken;
        self.acked = heard.acked;
        heard.taken
    }
}

/// Levels of a tail.
#[derive(Clone, Copy)]
struct TailRun {
    /// How many levels were taken.
    taken: usize,
    /// Whether the ACK slot, one of these levels or of those before, was dominant.
    acked: bool,
}

/// Takes levels of a tail, except its last one, from the front of these digits. `behind` levels of the tail came
/// before.
#[inline]
fn tail_of(digits: &[u8], behind: usize, acked: bool) -> TailRun
    requires { behind < 10 }
    ensures within { result.taken ≤ length digits.now }
    ensures few { behind + result.taken < 10 }
    ensures tail { HearsTail behind acked (behind + result.taken) result.acked (take result.taken digits.now) }
{
    match whole_tail(digits) {
        Some(acked) if behind == 0 => TailRun {
            taken: LAST_LEVEL,
            acked,
        },
        _ => tail_levels(digits, behind, acked),
    }
}

/// If these digits begin with a whole tail except its last level: whether its ACK slot is dominant.
#[inline]
fn whole_tail(digits: &[u8]) -> Option<bool>
    ensures within { IfSome result (λ acked. 9 ≤ length digits.now) }
    ensures tail { IfSome result (λ acked. (before : Bool) → HearsTail 0 before 9 acked (take 9 digits.now)) }
{
    let Some(block) = digits.first_chunk::<BLOCK>() else {
        return None;
    };
    let levels = levels_of(block);
    if levels.count < LAST_LEVEL {
        return None;
    }
    match levels.number % (1 << LAST_LEVEL) {
        TAIL => Some(true),
        UNACKNOWLEDGED_TAIL => Some(false),
        _ => None,
    }
}

/// Takes levels of a tail, except its last one, level by level.
fn tail_levels(digits: &[u8], behind: usize, acked: bool) -> TailRun
    requires { behind < 10 }
    ensures within { result.taken ≤ length digits.now }
    ensures few { behind + result.taken < 10 }
    ensures tail { HearsTail behind acked (behind + result.taken) result.acked (take result.taken digits.now) }
{
    let mut now = TailRun { taken: 0, acked };
    while now.taken < digits.len() && behind + now.taken < LAST_LEVEL {
        let Some(level) = Level::from_digit(digits[now.taken]) else {
            return now;
        };
        if behind + now.taken == ACK_SLOT {
            now.acked = !level.is_recessive();
        } else if !level.is_recessive() {
            return now;
        }
        now.taken += 1;
    }
    now
}
