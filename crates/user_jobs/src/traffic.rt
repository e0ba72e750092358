//! Frames, and their wires.
ghost use Rattle.std.specs.Prelude.{◌<◌, ◌≤◌, ◌^◌, length, IfOk};

use crate::random::Random;
use crate::text::Text;
use can_frame::{Frame, Id};
use can_wire::encode;
use std::alloc::{AllocError, Global};

/// The greatest number of ports.
pub const MOST_PORTS: u32 = 64;

/// How many levels of a wire come after the ACK slot.
const BEHIND_SLOT: usize = 8;

/// Returns a data or remote frame that only the port with this number sends.
pub fn frame_of(random: &mut Random, node: u32) -> Option<Frame>
    requires { node < 64 }
{
    let id = if random.is_one_in(2) {
        Id::extended((random.below(1 << 23) << 6) + node)?
    } else {
        Id::standard(((random.below(1 << 5) << 6) + node) as u16)?
    };
    frame_with(random, id)
}

/// Returns a frame with this identifier.
pub fn frame_with(random: &mut Random, id: Id) -> Option<Frame> {
    if random.is_one_in(16) {
        return Frame::remote(id, random.below(9) as u8).ok();
    }
    let bytes = random.next().to_be_bytes();
    let count = random.below(9) as usize;
    Frame::data(id, count as u8, &bytes[..count]).ok()
}

/// Appends the text of a frame that only the port with this number sends.
pub fn push_frame(text: &mut Text, random: &mut Random, node: u32)
    requires { node < 64 }
{
    if let Some(frame) = frame_of(random, node) {
        text.push(frame.to_text().as_str());
    }
}

/// Appends an offer of a frame that only the port with this number sends, at a random time before `bits`.
pub fn push_offer(text: &mut Text, random: &mut Random, node: u32, bits: u32)
    requires { node < 64 }
{
    text.push("[");
    text.push_number(random.below(bits.max(1)));
    text.push(", \"");
    push_frame(text, random, node);
    text.push("\"],\n");
}

/// Returns the digits of a frame's wire with a dominant ACK slot.
pub fn wire_of(alloc: Global, frame: &Frame) -> Result<Vec<u8>, AllocError> {
    let mut digits = Vec::new(alloc);
    let levels = encode(frame);
    for level in levels.as_slice() {
        digits.push(level.digit())?;
    }
    let slot = digits.len().saturating_sub(BEHIND_SLOT + 1);
    if slot < digits.len() {
        digits[slot] = b'0';
    }
    Ok(digits)
}
