ghost use Rattle.std.specs.Prelude.{◌≡◌, ◌+◌, ◌*◌, ◌/◌, ◌^◌, ◌<◌, ◌≤◌, [], ◌∷◌, ◌++◌, length};
ghost use Rattle.std.specs.List.{flat_map};
ghost use Rattle.can_frame.specs.declared.level.Level.TheVariants.{Dominant, Recessive};
ghost use Rattle.can_frame.specs.Levels.{level_from, bits_of};
ghost use Rattle.can_wire.specs.Crc.{crc_of};
ghost use Rattle.can_wire.specs.Heard.{IsHeard, heard_head};
ghost use Rattle.can_wire.specs.Wire.{data_field};

use crate::frame_bits::FrameBits;
use crate::heard::Heard;
use crate::places::{CHECK_BITS, DLC_BITS, EXTENSION_BITS, IDENTIFIER_BITS};
use can_frame::{Frame, Level};

/// The IDE bit of a standard frame.
const STANDARD_FORMAT: Level = Level::Dominant;

/// The IDE bit of an extended frame.
const EXTENDED_FORMAT: Level = Level::Recessive;

/// Returns the unstuffed levels of a frame as received, from the start of frame on, CRC sequence
/// included.
pub fn head_and_crc<B: FrameBits>(heard: &Heard) -> B
    ensures levels { B.levels result ≡ heard_head heard.now ++ crc_of (heard_head heard.now) }
    ensures whole { IsHeard heard.now }
{
    let mut levels: B = head(heard);
    let check = levels.check();
    push_bits(&mut levels, u32::from(check), CHECK_BITS);
    levels
}

/// Returns the unstuffed levels of a frame as received, from the start of frame to the data.
pub fn head<B: FrameBits>(heard: &Heard) -> B
    ensures levels { B.levels result ≡ heard_head heard.now }
    ensures room { length (B.levels result) ≤ 103 }
    ensures whole { IsHeard heard.now }
{
    let frame = heard.frame();
    let mut levels = B::start();
    if frame.is_extended() {
        push_extended_format(&mut levels, heard);
    } else {
        push_standard_format(&mut levels, heard);
    }
    let r0 = heard.r0();
    levels.push(r0);
    push_data_field(&mut levels, &frame);
    levels
}

/// Appends the levels between the start of frame and r0 in a standard frame: identifier, RTR and
/// IDE.
fn push_standard_format<B: FrameBits>(levels: &mut B, heard: &Heard)
    requires { length (B.levels levels.old) ≤ 1 }
    ensures levels { let frame = heard.now.frame in
        B.levels levels.new ≡ B.levels levels.old ++ (bits_of 11 frame.id.raw ++ level_from frame.remote ∷ Dominant ∷ []) }
    ensures room { length (B.levels levels.new) ≤ 34 }
{
    let frame = heard.frame();
    push_bits(levels, frame.id().raw(), IDENTIFIER_BITS);
    levels.push(remote_request(&frame));
    levels.push(STANDARD_FORMAT);
}

/// Appends the levels between the start of frame and r0 in an extended frame: the identifier with
/// SRR and IDE after its eleven highest bits, RTR and r1.
fn push_extended_format<B: FrameBits>(levels: &mut B, heard: &Heard)
    requires { length (B.levels levels.old) ≤ 1 }
    ensures levels { let frame = heard.now.frame in
        B.levels levels.new ≡ B.levels levels.old
        ++ (bits_of 11 (frame.id.raw / 2 ^ 18) ++ heard.now.srr ∷ Recessive ∷ (bits_of 18 frame.id.raw ++ level_from frame.remote ∷ heard.now.r1 ∷ [])) }
    ensures room { length (B.levels levels.new) ≤ 34 }
{
    let frame = heard.frame();
    let number = frame.id().raw();
    push_bits(levels, number >> EXTENSION_BITS, IDENTIFIER_BITS);
    levels.push(heard.srr());
    levels.push(EXTENDED_FORMAT);
    push_bits(levels, number, EXTENSION_BITS);
    levels.push(remote_request(&frame));
    levels.push(heard.r1());
}

/// The RTR bit: recessive in a remote frame.
fn remote_request(frame: &Frame) -> Level
    ensures { result ≡ level_from frame.now.remote }
{
    Level::from_bool(frame.is_remote())
}

/// Appends the DLC and the data bytes.
fn push_data_field<B: FrameBits>(levels: &mut B, frame: &Frame)
    requires { length (B.levels levels.old) ≤ 35 }
    ensures levels { B.levels levels.new ≡ B.levels levels.old ++ data_field frame.now }
    ensures room { length (B.levels levels.new) ≤ 103 }
{
    push_bits(levels, u32::from(frame.dlc()), DLC_BITS);
    push_bytes(levels, frame.bytes());
}

/// Appends the bits of each byte, the highest first.
fn push_bytes<B: FrameBits>(levels: &mut B, bytes: &[u8])
    requires { length (B.levels levels.old) + 8 * length bytes.now ≤ 118 }
    ensures levels { B.levels levels.new ≡ B.levels levels.old ++ flat_map (bits_of 8) bytes.now }
    ensures len { length (B.levels levels.new) ≡ length (B.levels levels.old) + 8 * length bytes.now }
{
    for byte in bytes {
        push_bits(levels, u32::from(*byte), 8);
    }
}

/// Appends the lowest bits of a number, the highest first.
fn push_bits<B: FrameBits>(levels: &mut B, value: u32, count: usize)
    requires room { length (B.levels levels.old) + count ≤ 118 }
    requires width { count < 32 }
    ensures levels { B.levels levels.new ≡ B.levels levels.old ++ bits_of count value }
    ensures len { length (B.levels levels.new) ≡ length (B.levels levels.old) + count }
{
    levels.append(u64::from(value % (1 << count)), count);
}
