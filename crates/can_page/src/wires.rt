ghost use Rattle.std.specs.Prelude.{◌≡◌, ◌≢◌, ◌<◌, ◌≤◌, ◌↔◌, ◌⊎◌, false, true, length, take};
ghost use Rattle.can_fields.specs.Marks.{marks_of};
ghost use Rattle.can_page.specs.Answers.{all_done, bad_level, no_room};
ghost use Rattle.can_frame.specs.Levels.{are_level_codes, levels_of_codes};
ghost use Rattle.can_page.specs.Codes.{field_codes, stuff_codes};

use crate::answer::Answer;
use crate::codes::field_code;
use can_fields::{MOST_LEVELS, Mark, marks};
use can_wire::front_of_codes;

/// Writes, for each of the first 157 levels, the number of its field and whether it is a stuff bit, and the number of
/// these levels. No frame has more than 157 levels, and numbers after them are not read.
///
/// `fields` and `stuffed` need space for 157 levels each, even if there are fewer. This is tested first. The numbers of
/// levels are 0, dominant, and 1, recessive; if one of the first 157 is not a level, the call returns this. A call that
/// is refused writes nothing.
#[unsafe(no_mangle)]
pub extern "C" fn page_marks(
    levels: &[u8],
    fields: &mut [u8],
    stuffed: &mut [u8],
    count: &mut usize,
) -> u8
    ensures fields { result ≡ all_done → take count.new fields.new ≡ field_codes (marks_of (levels_of_codes (take 157 levels.now))) }
    ensures stuffed { result ≡ all_done → take count.new stuffed.new ≡ stuff_codes (marks_of (levels_of_codes (take 157 levels.now))) }
    ensures count { result ≡ all_done → count.new ≡ length (marks_of (levels_of_codes (take 157 levels.now))) }
    ensures bad { (result ≡ bad_level) ↔ ((157 ≤ length fields.old) × (157 ≤ length stuffed.old) × (are_level_codes (take 157 levels.now) ≡ false)) }
    ensures taken { 157 ≤ length fields.old → 157 ≤ length stuffed.old → are_level_codes (take 157 levels.now) ≡ true → result ≡ all_done }
    ensures answers { (result ≡ all_done) ⊎ (result ≡ no_room) ⊎ (result ≡ bad_level) }
    ensures room { (result ≡ no_room) ↔ ((length fields.old < 157) ⊎ (length stuffed.old < 157)) }
    ensures unwritten { result ≢ all_done → (fields.new ≡ fields.old) × (stuffed.new ≡ stuffed.old) × (count.new ≡ count.old) }
{
    if fields.len() < MOST_LEVELS || stuffed.len() < MOST_LEVELS {
        return Answer::NoRoom.code();
    }
    let Some(front) = front_of_codes(levels) else {
        return Answer::BadLevel.code();
    };
    let found = marks(&front);
    write_fields(&found, fields);
    write_stuffed(&found, stuffed);
    *count = found.len();
    Answer::Done.code()
}

/// Writes the numbers of the fields over the first elements.
fn write_fields(marks: &[Mark], fields: &mut [u8])
    requires { length marks.now ≤ length fields.old }
    ensures { take (length marks.now) fields.new ≡ field_codes marks.now }
{
    for place in 0..marks.len() {
        fields[place] = field_code(marks[place].field);
    }
}

/// Writes which levels are stuff bits over the first elements.
fn write_stuffed(marks: &[Mark], stuffed: &mut [u8])
    requires { length marks.now ≤ length stuffed.old }
    ensures { take (length marks.now) stuffed.new ≡ stuff_codes marks.now }
{
    for place in 0..marks.len() {
        stuffed[place] = u8::from(marks[place].stuffed);
    }
}
