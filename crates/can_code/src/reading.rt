ghost use Rattle.std.specs.Prelude.{◌≡◌, ◌+◌, ◌-◌, ◌*◌, ◌^◌, ◌<◌, ◌≤◌, drop, length, if◌then◌else◌};
ghost use Rattle.std.specs.Int.{to_be_bytes, w64};
ghost use Rattle.can_frame.specs.declared.level.Level.TheVariants.{Dominant, Recessive};
ghost use Rattle.can_frame.specs.Levels.{number_from};
ghost use Rattle.can_frame.specs.Parts.{byte_count as byte_count_of};
ghost use Rattle.can_wire.specs.Layout.{dlc_of, extended_of, frame_of, heard_of, identifier_of, level_at, remote_of};
ghost use Rattle.can_code.specs.Reading.{HasControl, HasData, TellsLength, bytes_of};

use can_frame::{Frame, Id, Level};
use can_wire::places::{
    EXTENSION_BITS, EXTENSION_PLACE, IDE_PLACE, R1_PLACE, RTR_TO_DATA, SRR_PLACE, rtr_place,
};
use can_wire::{FrameBits, Heard};

/// The number of unstuffed levels of the frame that begins with these, if they determine it. It is not
/// inlined, since it is called only once or twice a frame.
#[inline(never)]
pub(crate) fn frame_len<B: FrameBits>(bits: &B) -> Option<usize>
    ensures { TellsLength (B.levels bits.now) result }
{
    if bits.len() <= IDE_PLACE {
        return None;
    }
    let data_place = rtr_place(is_extended(bits)) + RTR_TO_DATA;
    if bits.len() < data_place {
        return None;
    }
    Some(data_place + 8 * byte_count(bits) + 15)
}

/// Whether the IDE bit is that of an extended frame.
pub(crate) fn is_extended<B: FrameBits>(bits: &B) -> bool
    requires { 13 < length (B.levels bits.now) }
    ensures { result ≡ extended_of (B.levels bits.now) }
{
    bits.level_at(IDE_PLACE).is_recessive()
}

/// The number of data bytes of the frame.
fn byte_count<B: FrameBits>(bits: &B) -> usize
    requires { HasControl (B.levels bits.now) }
    ensures value { result ≡ byte_count_of (remote_of (B.levels bits.now)) (dlc_of (B.levels bits.now)) }
    ensures range { result ≤ 8 }
{
    if is_remote(bits) {
        0
    } else {
        usize::from(dlc(bits)).min(8)
    }
}

/// Whether the RTR bit is that of a remote frame.
fn is_remote<B: FrameBits>(bits: &B) -> bool
    requires { HasControl (B.levels bits.now) }
    ensures { result ≡ remote_of (B.levels bits.now) }
{
    bits.level_at(rtr_place(is_extended(bits))).is_recessive()
}

/// The data length code.
fn dlc<B: FrameBits>(bits: &B) -> u8
    requires { HasControl (B.levels bits.now) }
    ensures value { result ≡ dlc_of (B.levels bits.now) }
    ensures range { result < 16 }
{
    bits.number_at(rtr_place(is_extended(bits)) + 3, 4) as u8
}

/// The frame as received whose unstuffed levels are these, of a whole frame.
pub(crate) fn heard<B: FrameBits>(bits: &B, acked: bool, last: Level) -> Heard
    requires { HasData (B.levels bits.now) }
    ensures { result ≡ heard_of (B.levels bits.now) acked last }
{
    let r0 = bits.level_at(rtr_place(is_extended(bits)) + 2);
    Heard::new(frame(bits), srr(bits), r1(bits), r0, acked, last).unwrap()
}

/// The SRR bit. A standard frame has none; it counts as recessive.
fn srr<B: FrameBits>(bits: &B) -> Level
    requires { HasControl (B.levels bits.now) }
    ensures { result ≡ (if extended_of (B.levels bits.now) then level_at (B.levels bits.now) 12 else Recessive) }
{
    if is_extended(bits) {
        bits.level_at(SRR_PLACE)
    } else {
        Level::Recessive
    }
}

/// The reserved bit r1. A standard frame has none; it counts as dominant.
fn r1<B: FrameBits>(bits: &B) -> Level
    requires { HasControl (B.levels bits.now) }
    ensures { result ≡ (if extended_of (B.levels bits.now) then level_at (B.levels bits.now) 33 else Dominant) }
{
    if is_extended(bits) {
        bits.level_at(R1_PLACE)
    } else {
        Level::Dominant
    }
}

/// The frame whose unstuffed levels are these.
pub(crate) fn frame<B: FrameBits>(bits: &B) -> Frame
    requires { HasData (B.levels bits.now) }
    ensures { result ≡ frame_of (B.levels bits.now) }
{
    let id = identifier(bits);
    let dlc = dlc(bits);
    if is_remote(bits) {
        Frame::remote(id, dlc).unwrap()
    } else {
        Frame::data_of_number(id, dlc, data_number(bits))
    }
}

/// The identifier.
fn identifier<B: FrameBits>(bits: &B) -> Id
    requires { HasControl (B.levels bits.now) }
    ensures { result ≡ record { raw = number_from 0 (identifier_of (B.levels bits.now)); extended = extended_of (B.levels bits.now) } }
{
    let base = bits.number_at(1, 11) as u32;
    if is_extended(bits) {
        let extension = bits.number_at(EXTENSION_PLACE, EXTENSION_BITS) as u32;
        Id::extended((base << EXTENSION_BITS) | extension).unwrap()
    } else {
        Id::standard(base as u16).unwrap()
    }
}

/// The data bytes as one number, the first of them highest.
fn data_number<B: FrameBits>(bits: &B) -> u64
    requires { HasData (B.levels bits.now) }
    ensures small { let u = B.levels bits.now in result < 2 ^ (8 * byte_count_of (remote_of u) (dlc_of u)) }
    ensures bytes { let u = B.levels bits.now in drop (8 - byte_count_of (remote_of u) (dlc_of u)) (to_be_bytes w64 result) ≡ bytes_of u }
{
    let data_place = rtr_place(is_extended(bits)) + RTR_TO_DATA;
    bits.number_at(data_place, 8 * byte_count(bits))
}
