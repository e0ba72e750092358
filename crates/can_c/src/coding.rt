ghost use Rattle.std.specs.Prelude.{◌≡◌, ◌≢◌, ◌≤◌, ◌++◌, true, false, length, map, take, drop, List};
ghost use Rattle.can_frame.specs.declared.level.Level.{Level as Bit};
ghost use Rattle.can_code.specs.CodeFaults.{IsCodeFault};
ghost use Rattle.can_code.specs.declared.fault.CodeFault.{CodeFault as Fault};
ghost use Rattle.can_wire.specs.Heard.{HeardParts, Spells};
ghost use Rattle.can_wire.specs.Wire.{driven};
ghost use Rattle.can_c.specs.Calls.{encode_status};
ghost use Rattle.can_frame.specs.Levels.{are_level_codes, level_code, levels_of_codes};
ghost use Rattle.can_c.specs.PlainFrames.{frame_of_plain, plain_heard};
ghost use Rattle.can_c.specs.Statuses.{done, levels_status, status_code};

use crate::plain::{PlainFrame, PlainHeard};
use crate::status::Status;
use can_code::{decode, encode};
use can_wire::{front_of_codes, write_codes};

/// Writes the levels that the transmitter of a frame drives, and their number. There is one level for each bit time,
/// from the start of frame to the end of frame. Later elements of `levels` stay as they are. If the call is refused,
/// nothing is written.
#[tactic(auto, using(crate::proofs::StatusLemmas::done_only, crate::proofs::StatusLemmas::not_done))]
#[unsafe(no_mangle)]
pub extern "C" fn can_c_encode(frame: &PlainFrame, levels: &mut [u8], count: &mut usize) -> u8
    ensures status { result ≡ status_code (encode_status frame.now levels.old) }
    ensures count { result ≡ done → count.new ≡ length (driven (frame_of_plain frame.now)) }
    ensures levels { result ≡ done → take count.new levels.new ≡ map level_code (driven (frame_of_plain frame.now)) }
    ensures behind { result ≡ done → drop count.new levels.new ≡ drop count.new levels.old }
    ensures unwritten { result ≢ done → (levels.new ≡ levels.old) × (count.new ≡ count.old) }
{
    match frame.frame() {
        Err(why) => why.code(),
        Ok(frame) => {
            let wire = encode(&frame);
            if levels.len() < wire.len() {
                return Status::NoRoom.code();
            }
            write_codes(wire.as_slice(), levels);
            *count = wire.len();
            Status::Done.code()
        }
    }
}

/// Decodes the frame with which the levels begin: writes the frame as received, and how many levels it has. If the
/// levels begin with no frame, the status is the first fault, and `place` is how many levels come before the first
/// wrong one. The call reads only the first 157 levels: no frame has more, and later ones change neither the frame nor
/// the fault. If one of these is neither 0 nor 1, the call is refused, and nothing is written.
#[tactic(auto, using(crate::proofs::StatusLemmas::fault_not_done))]
#[unsafe(no_mangle)]
pub extern "C" fn can_c_decode(levels: &[u8], heard: &mut PlainHeard, place: &mut usize) -> u8
    ensures bad { are_level_codes (take 157 levels.now) ≡ false → result ≡ status_code Status.BadLevel }
    ensures found { result ≡ done → (h : HeardParts) × (Spells h (take place.new (levels_of_codes levels.now)) × (heard.new ≡ plain_heard h)) }
    ensures within { result ≡ done → place.new ≤ length levels.now }
    ensures only { are_level_codes (take 157 levels.now) ≡ true → (h : HeardParts) (w rest : List Bit) → Spells h w → w ++ rest ≡ levels_of_codes levels.now → (result ≡ done) × (heard.new ≡ plain_heard h) × (place.new ≡ length w) }
    ensures fault { are_level_codes (take 157 levels.now) ≡ true → result ≢ done → (f : Fault) × (IsCodeFault (levels_of_codes levels.now) f × (result ≡ status_code (levels_status f.kind)) × (place.new ≡ f.place)) }
    ensures unheard { result ≢ done → heard.new ≡ heard.old }
    ensures unplaced { are_level_codes (take 157 levels.now) ≡ false → place.new ≡ place.old }
{
    let Some(front) = front_of_codes(levels) else {
        return Status::BadLevel.code();
    };
    match decode(front.as_slice()) {
        Ok((found, count)) => {
            *heard = PlainHeard::of(&found);
            *place = count;
            Status::Done.code()
        }
        Err(fault) => {
            *place = fault.place;
            Status::of_fault(fault.kind).code()
        }
    }
}
