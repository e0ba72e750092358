ghost use Rattle.std.specs.Prelude.{◌≡◌, ◌≢◌, ◌^◌, ◌<◌, ◌≤◌, ◌↔◌, ◌⊎◌, [], false, true, length, take, option_to_list, IfOk, IfSome, OnErr, OnOk, Some};
ghost use Rattle.can_texts.specs.Decoded.{DecodesAll, DecodesToBadByte};
ghost use Rattle.can_texts.specs.TraceText.{IsFirstBadTraceByte, IsTraceText, is_trace_byte, levels_in, levels_of_byte};
ghost use Rattle.can_page.specs.Answers.{bad_level, all_done, no_room};
ghost use Rattle.can_page.specs.Codes.{level_codes, trace_text};
ghost use Rattle.can_page.specs.Lines.{is_overfull, written_lines};

use crate::answer::Answer;
use crate::levels::Levels;
use crate::lines::Lines;
use crate::text::Text;
use can_frame::Level;
use can_stream::{Sink, Source, TraceFault};
use can_texts::decode_stream;

/// Decodes a trace: writes a line for each of its frames and faults to `out`.
///
/// - 0: these are all lines.
/// - `BadLevel`: a byte may not appear in a trace. Its place in the text is written to `place`; the lines are those of
///   the levels before it.
/// - `NoRoom`: `out` is full.
#[unsafe(no_mangle)]
pub extern "C" fn page_decode(text: &[u8], out: &mut Lines, place: &mut u64) -> u8
    ensures whole { result ≡ all_done → DecodesAll text.now (written_lines out.new) }
    ensures bad { result ≡ bad_level → DecodesToBadByte place.new text.now (written_lines out.new) }
    ensures answers { (result ≡ all_done) ⊎ (result ≡ bad_level) ⊎ (result ≡ no_room) }
    ensures room { length text.now ≤ 2 ^ 63 → result ≡ no_room → is_overfull out.new ≡ true }
{
    out.clear();
    decode_onto(&mut Text::new(text), out, place).code()
}

/// Decodes levels as [`page_decode`] decodes a trace. Each level is one byte, 0 for dominant and 1 for recessive; any
/// other byte is a bad one.
#[unsafe(no_mangle)]
pub extern "C" fn page_decode_levels(levels: &[u8], out: &mut Lines, place: &mut u64) -> u8
    ensures whole { result ≡ all_done → DecodesAll (trace_text levels.now) (written_lines out.new) }
    ensures bad { result ≡ bad_level → DecodesToBadByte place.new (trace_text levels.now) (written_lines out.new) }
    ensures answers { (result ≡ all_done) ⊎ (result ≡ bad_level) ⊎ (result ≡ no_room) }
    ensures room { length levels.now ≤ 2 ^ 63 → result ≡ no_room → is_overfull out.new ≡ true }
{
    out.clear();
    decode_onto(&mut Levels::new(levels), out, place).code()
}

/// Does this for any source and any sink, which must be empty.
pub(crate) fn decode_onto<R: Source, W: Sink>(trace: &mut R, out: &mut W, place: &mut u64) -> Answer
    requires source_unfailed { R.has_failed trace.old ≡ false }
    requires unended { R.has_ended trace.old ≡ false }
    requires unfailed { W.has_failed out.old ≡ false }
    requires empty { W.contents out.old ≡ Some [] }
    ensures whole { result ≡ Answer.Done →
        IfSome (R.remaining trace.old) (λ text. IfSome (W.contents out.new) (λ lines. DecodesAll text lines)) }
    ensures bad { result ≡ Answer.BadLevel →
        IfSome (R.remaining trace.old) (λ text. IfSome (W.contents out.new) (λ lines. DecodesToBadByte place.new text lines)) }
    ensures answers { (result ≡ Answer.Done) ⊎ (result ≡ Answer.BadLevel) ⊎ (result ≡ Answer.NoRoom) }
    ensures room { result ≡ Answer.NoRoom → R.has_failed trace.new ≡ false →
        IfSome (R.remaining trace.old) (λ text. length text ≤ 2 ^ 63 → W.has_failed out.new ≡ true) }
{
    match decode_stream(trace, out) {
        Ok(()) => Answer::Done,
        Err(TraceFault::BadByte { place: bad }) => {
            *place = bad;
            Answer::BadLevel
        }
        Err(_) => Answer::NoRoom,
    }
}

/// Writes the levels of a trace, one byte each, and their number.
///
/// `levels` needs space for one level for each byte of the text, also for those that are skipped. This is tested first;
/// if there is too little space, the call writes only the number 0. If a byte may not appear in a trace, the call
/// writes the levels before it, and its place in the text to `place`.
#[unsafe(no_mangle)]
pub extern "C" fn page_levels(
    text: &[u8],
    levels: &mut [u8],
    count: &mut usize,
    place: &mut usize,
) -> u8
    ensures levels { result ≡ all_done → take count.new levels.new ≡ level_codes (levels_in text.now) }
    ensures text { result ≡ all_done → IsTraceText text.now }
    ensures taken { IsTraceText text.now → length text.now ≤ length levels.old → result ≡ all_done }
    ensures bad { result ≡ bad_level → IsFirstBadTraceByte text.now place.new }
    ensures before { result ≡ bad_level → take count.new levels.new ≡ level_codes (levels_in (take place.new text.now)) }
    ensures within { count.new ≤ length levels.old }
    ensures answers { (result ≡ all_done) ⊎ (result ≡ bad_level) ⊎ (result ≡ no_room) }
    ensures room { (result ≡ no_room) ↔ (length levels.old < length text.now) }
    ensures unwritten { result ≡ no_room → (levels.new ≡ levels.old) × (count.new ≡ 0) }
    ensures unplaced { result ≢ bad_level → place.new ≡ place.old }
{
    *count = 0;
    if levels.len() < text.len() {
        return Answer::NoRoom.code();
    }
    let mut written = 0;
    for (index, byte) in text.iter().enumerate() {
        match read_byte(*byte) {
            Ok(None) => {}
            Ok(Some(level)) => {
                levels[written] = level.code();
                written += 1;
            }
            Err(BadByte) => {
                *place = index;
                *count = written;
                return Answer::BadLevel.code();
            }
        }
    }
    *count = written;
    Answer::Done.code()
}

/// A byte that trace text may not contain.
#[derive(Drop)]
struct BadByte;

/// Returns the level of a byte of trace text if it is a digit. Spaces and line ends have none.
fn read_byte(byte: u8) -> Result<Option<Level>, BadByte>
    ensures may_stand { OnOk result (is_trace_byte byte ≡ true) }
    ensures levels { IfOk result (λ level. levels_of_byte byte ≡ option_to_list level) }
    ensures bad { OnErr result (is_trace_byte byte ≡ false) }
{
    match byte {
        b'0' => Ok(Some(Level::Dominant)),
        b'1' => Ok(Some(Level::Recessive)),
        b' ' | b'\n' | b'\r' => Ok(None),
        _ => Err(BadByte),
    }
}
