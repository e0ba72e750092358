ghost use Rattle.std.specs.Prelude.{◌≡◌, ◌+◌, ◌<◌, ◌≤◌, ◌++◌, false, length, take};
ghost use Rattle.arrayvec.specs.ArrayVec.{array_vec_len};
ghost use Rattle.can_code.specs.Front.{first_front};
ghost use Rattle.can_fields.specs.Marks.{heard_to, marks_behind, marks_of, tail_marks};

use crate::field::{Field, field_at};
use arrayvec::ArrayVec;
use can_code::{FrameBits, Front, PackedBits, Place, PlainBits};
use can_frame::Level;

/// The maximum number of levels of a frame: an extended one with eight bytes and all possible stuff bits.
pub const MOST_LEVELS: usize = 157;

/// The field of a level of a frame, and whether it is a stuff bit.
#[derive(Clone, Copy, Debug, Default, PartialEq, Eq)]
pub struct Mark {
    /// The field of the level. A stuff bit has that of the level before it.
    pub field: Field,
    /// Whether it is a stuff bit.
    pub stuffed: bool,
}

/// The fields of the ten levels after the stuffed part.
const TAIL: [Field; 10] = [
    Field::CheckDelimiter,
    Field::AckSlot,
    Field::AckDelimiter,
    Field::EndOfFrame,
    Field::EndOfFrame,
    Field::EndOfFrame,
    Field::EndOfFrame,
    Field::EndOfFrame,
    Field::EndOfFrame,
    Field::EndOfFrame,
];

/// Returns the mark of each level, from a start of frame on. There are none for levels after the end of frame or
/// after a wrong stuff bit, and none at all if the first level is recessive. (Bosch CAN 2.0 part B, sections 3.2.1
/// and 6)
pub fn marks(levels: &[Level]) -> ArrayVec<Mark, 157>
    requires { length levels.now ≤ 157 }
    ensures { result.items ≡ marks_of levels.now }
{
    let mut marks = ArrayVec::new();
    let Some((first, rest)) = levels.split_first() else {
        return marks;
    };
    if first.is_recessive() {
        return marks;
    }
    marks.push(bit(Field::StartOfFrame));
    push_marks(&mut marks, &unstuffed(rest), rest);
    marks
}

/// The mark of a level that is not a stuff bit.
fn bit(field: Field) -> Mark
    ensures { result ≡ record { field = field; stuffed = false } }
{
    Mark {
        field,
        stuffed: false,
    }
}

/// The unstuffed levels of a start of frame and the levels after it, as far as a receiver takes them.
fn unstuffed(rest: &[Level]) -> PlainBits
    ensures { result ≡ (heard_to first_front rest.now).unstuffed }
{
    let mut front = Front::<PackedBits>::begin();
    let mut bits = PlainBits::start();
    for level in rest {
        let place = front.next_place();
        if place == Place::CrcDelimiter || front.hear(*level).is_err() {
            return bits;
        }
        if place == Place::Bit {
            bits.push(*level);
        }
    }
    bits
}

/// Appends the marks of the levels after a start of frame.
fn push_marks(marks: &mut ArrayVec<Mark, 157>, bits: &PlainBits, rest: &[Level])
    requires room { array_vec_len marks.old + length rest.now ≤ 157 }
    requires bits { bits.now ≡ (heard_to first_front rest.now).unstuffed }
    ensures { marks.new.items ≡ marks.old.items ++ marks_behind (heard_to first_front rest.now).unstuffed first_front rest.now }
{
    let mut front = Front::<PackedBits>::begin();
    for (index, level) in rest.iter().enumerate() {
        match front.next_place() {
            Place::CrcDelimiter => {
                push_tail(marks, rest.len() - index);
                return;
            }
            Place::StuffBit => marks.push(Mark {
                field: field_at(bits, front.len() - 1),
                stuffed: true,
            }),
            Place::Bit => marks.push(bit(field_at(bits, front.len()))),
        }
        if front.hear(*level).is_err() {
            return;
        }
    }
}

/// Appends the marks of `count` levels after the stuffed part, at most ten.
fn push_tail(marks: &mut ArrayVec<Mark, 157>, count: usize)
    requires { array_vec_len marks.old + count ≤ 157 }
    ensures { marks.new.items ≡ marks.old.items ++ take count tail_marks }
{
    for place in 0..count.min(TAIL.len()) {
        marks.push(bit(TAIL[place]));
    }
}
