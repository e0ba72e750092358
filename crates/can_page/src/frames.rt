ghost use Rattle.std.specs.Prelude.{◌≡◌, ◌≢◌, ◌<◌, ◌≤◌, ◌↔◌, ◌⊎◌, length, take, IfErr, IfOk, IfSome, IsNone, OnOk};
ghost use Rattle.can_frame.specs.Ident.{ident_count};
ghost use Rattle.can_frame.specs.Parts.{Parts, IsFrame, byte_count};
ghost use Rattle.can_frame.specs.Text.{frame_text, IsTextFault};
ghost use Rattle.can_frame.specs.declared.text.TextFault.{TextFault as Fault};
ghost use Rattle.can_wire.specs.Wire.{driven};
ghost use Rattle.can_page.specs.Answers.{answer_code, IsTextAnswer, all_done, bad_count, bad_dlc, bad_identifier, no_room, text_answer};
ghost use Rattle.can_page.specs.Calls.{IsRefusal, parts_of};
ghost use Rattle.can_page.specs.Codes.{level_codes};

use crate::answer::Answer;
use can_code::encode;
use can_fields::MOST_LEVELS;
use can_frame::{Frame, Id};
use can_wire::write_codes;

/// Encodes the frame with this text: writes the levels that its transmitter drives, one byte each, and their number.
///
/// - `levels` needs space for 157 levels, whatever the text: no frame has more. This is tested first.
/// - If the bytes are not a frame text, the call returns the part that is wrong, and writes its place to `place`.
///
/// A call that is refused writes nothing else.
#[unsafe(no_mangle)]
pub extern "C" fn page_encode(
    text: &[u8],
    levels: &mut [u8],
    count: &mut usize,
    place: &mut usize,
) -> u8
    ensures levels { result ≡ all_done → (f : Parts) × (IsFrame f × (frame_text f ≡ text.now) × (take count.new levels.new ≡ level_codes (driven f))) }
    ensures within { result ≡ all_done → count.new ≤ length levels.old }
    ensures taken { (f : Parts) → IsFrame f → frame_text f ≡ text.now → 157 ≤ length levels.old → result ≡ all_done }
    ensures fault { result ≢ all_done → result ≢ no_room → (fault : Fault) × (IsTextFault text.now fault × (result ≡ answer_code (text_answer fault.kind)) × (place.new ≡ fault.place)) }
    ensures answers { (result ≡ all_done) ⊎ (result ≡ no_room) ⊎ IsTextAnswer result }
    ensures room { (result ≡ no_room) ↔ (length levels.old < 157) }
    ensures unwritten { result ≢ all_done → (levels.new ≡ levels.old) × (count.new ≡ count.old) }
    ensures unplaced { (result ≡ all_done) ⊎ (result ≡ no_room) → place.new ≡ place.old }
{
    if levels.len() < MOST_LEVELS {
        return Answer::NoRoom.code();
    }
    match Frame::from_text(text) {
        Ok(frame) => {
            let wire = encode(&frame);
            write_codes(wire.as_slice(), levels);
            *count = wire.len();
            Answer::Done.code()
        }
        Err(fault) => {
            *place = fault.place;
            Answer::of_text(fault.kind).code()
        }
    }
}

/// Writes the text of the frame with these parts, and the number of its bytes. A remote frame has no data bytes, and
/// none are accepted for it.
///
/// Tested in this order: the identifier, the DLC, the number of data bytes, and whether `text` has space for the text
/// of the frame (at most 32 bytes). The call returns the first test that fails. A call that is refused writes nothing.
#[unsafe(no_mangle)]
pub extern "C" fn page_frame_text(
    identifier: u32,
    extended: bool,
    remote: bool,
    dlc: u8,
    bytes: &[u8],
    text: &mut [u8],
    count: &mut usize,
) -> u8
    ensures text { result ≡ all_done → take count.new text.new ≡ frame_text (parts_of identifier extended remote dlc bytes.now) }
    ensures within { result ≡ all_done → count.new ≤ length text.old }
    ensures whole { result ≡ all_done → IsFrame (parts_of identifier extended remote dlc bytes.now) }
    ensures taken { IsFrame (parts_of identifier extended remote dlc bytes.now) → 32 ≤ length text.old → result ≡ all_done }
    ensures identifier { (result ≡ bad_identifier) ↔ (ident_count extended ≤ identifier) }
    ensures dlc { (result ≡ bad_dlc) ↔ ((identifier < ident_count extended) × (15 < dlc)) }
    ensures count { (result ≡ bad_count) ↔ ((identifier < ident_count extended) × (dlc ≤ 15) × (length bytes.now ≢ byte_count remote dlc)) }
    ensures room { (result ≡ no_room) ↔ (IsFrame (parts_of identifier extended remote dlc bytes.now)
        × (length text.old < length (frame_text (parts_of identifier extended remote dlc bytes.now)))) }
    ensures answers { (result ≡ all_done) ⊎ (result ≡ no_room) ⊎ (result ≡ bad_identifier) ⊎ (result ≡ bad_dlc) ⊎ (result ≡ bad_count) }
    ensures unwritten { result ≢ all_done → (text.new ≡ text.old) × (count.new ≡ count.old) }
{
    match frame_of(identifier, extended, remote, dlc, bytes) {
        Ok(frame) => {
            let line = frame.to_text();
            let line = line.as_bytes();
            if text.len() < line.len() {
                return Answer::NoRoom.code();
            }
            text[..line.len()].copy_from_slice(line);
            *count = line.len();
            Answer::Done.code()
        }
        Err(answer) => answer.code(),
    }
}

/// Returns the frame with these parts, or the first reason why they are not those of a frame.
fn frame_of(
    identifier: u32,
    extended: bool,
    remote: bool,
    dlc: u8,
    bytes: &[u8],
) -> Result<Frame, Answer>
    ensures frame { IfOk result (λ f. f ≡ parts_of identifier extended remote dlc bytes.now) }
    ensures made { OnOk result (identifier < ident_count extended) }
    ensures few { OnOk result (dlc ≤ 15) }
    ensures counted { OnOk result (length bytes.now ≡ byte_count remote dlc) }
    ensures refused { IfErr result (λ why. IsRefusal why (parts_of identifier extended remote dlc bytes.now)) }
{
    let Some(id) = id_of(identifier, extended) else {
        return Err(Answer::BadIdentifier);
    };
    if dlc > 15 {
        return Err(Answer::BadDlc);
    }
    if remote {
        if !bytes.is_empty() {
            return Err(Answer::BadCount);
        }
        return Frame::remote(id, dlc).map_err(|_| Answer::BadDlc);
    }
    Frame::data(id, dlc, bytes).map_err(|_| Answer::BadCount)
}

/// Returns the identifier with this number and format, or `None` if it is out of range.
fn id_of(identifier: u32, extended: bool) -> Option<Id>
    ensures none { IsNone result → ident_count extended ≤ identifier }
    ensures within { IfSome result (λ id. identifier < ident_count extended) }
    ensures id { IfSome result (λ id. id ≡ record { raw = identifier; extended = extended }) }
{
    if extended {
        return Id::extended(identifier);
    }
    if identifier < 0x800 {
        return Id::standard(identifier as u16);
    }
    None
}
