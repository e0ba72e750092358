//! Kits: cases for which transcripts are expected and judged, and a session line by line.
ghost use Rattle.std.specs.Prelude.{◌<◌, ◌≤◌, IfOk};

use crate::commands::{Program, answered};
use crate::digest::Digest;
use crate::random::Random;
use crate::text::Text;
use crate::traffic::{frame_of, push_frame, wire_of};
use std::alloc::{AllocError, Global};

/// The greatest number of cases of a document.
const MOST_CASES: u32 = 4096;

/// The greatest number of bit times of a case.
const MOST_BITS: u32 = 100_000;

/// Runs `canhold expect` and `judge` on a kit of many cases and on one of a few long ones, and `canhold play` on a
/// session.
pub fn hold(
    alloc: Global,
    random: &mut Random,
    size: u32,
    digest: &mut Digest,
) -> Result<(), AllocError>
    requires { size ≤ 1000 }
{
    hold_kit(alloc, random, 100 * size, 2, digest)?;
    hold_kit(alloc, random, size.div_ceil(4), 600, digest)?;
    let session = session(alloc, random, 600 * size)?;
    answered(alloc, Program::Canhold, "play", session.as_bytes(), digest)?;
    Ok(())
}

/// Runs `canhold expect` on a kit, and `canhold judge` on the transcripts with some changed.
fn hold_kit(
    alloc: Global,
    random: &mut Random,
    cases: u32,
    frames: u32,
    digest: &mut Digest,
) -> Result<(), AllocError> {
    let mut text = Text::new(alloc);
    for case in 0..cases.min(MOST_CASES) {
        push_case(alloc, &mut text, random, case, frames)?;
    }
    let kit = text.finished()?;
    let mut told = answered(alloc, Program::Canhold, "expect", kit.as_bytes(), digest)?;
    mistake_some(random, &mut told);
    answered(alloc, Program::Canhold, "judge", &told, digest)?;
    Ok(())
}

/// Appends a case in which the tester sends at most this many frames, some with an inverted level. The controller may
/// have frames to send too.
fn push_case(
    alloc: Global,
    text: &mut Text,
    random: &mut Random,
    case: u32,
    frames: u32,
) -> Result<(), AllocError> {
    let mut tester = Text::new(alloc);
    let mut bits: u32 = 0;
    for _ in 0..frames {
        if bits > MOST_BITS - 300 {
            break;
        }
        bits += push_frame_levels(alloc, &mut tester, random)?;
    }
    push_head(text, case, bits);
    text.push(tester.finished()?.as_str());
    text.push("]\noffers = [\n");
    let mut time: u32 = random.below(50);
    for _ in 0..frames.min(4) / 2 {
        if time < bits {
            text.push("[");
            text.push_number(time);
            text.push(", \"");
            push_frame(text, random, 63);
            text.push("\"],\n");
        }
        time = time.saturating_add(random.below(300));
    }
    text.push("]\n");
    Ok(())
}

/// Appends the first lines of the case with this number.
fn push_head(text: &mut Text, case: u32, bits: u32) {
    text.push("[[case]]\nversion = 1\nname = \"traffic-");
    text.push_number(case.wrapping_mul(2654435761) % 1_000_000_007);
    text.push("-");
    text.push_number(case);
    text.push("\"\nfamily = \"traffic\"\nstart = \"idle\"\nbits = ");
    text.push_number(bits);
    text.push("\ntester = [\n");
}

/// Appends the levels of a frame, with idle ones before and after, as a string, and returns how many they are.
fn push_frame_levels(
    alloc: Global,
    tester: &mut Text,
    random: &mut Random,
) -> Result<u32, AllocError>
    ensures { IfOk result (λ count. count ≤ 300) }
{
    let node = random.below(60);
    let Some(frame) = frame_of(random, node) else {
        return Ok(0);
    };
    let mut digits = wire_of(alloc, &frame)?;
    if random.is_one_in(3) {
        let place = random.below(150) as usize;
        if place < digits.len() {
            digits[place] ^= 1;
        }
    }
    let before = 12 + random.below(20);
    let behind = 14 + random.below(40);
    let shown = digits.len().min(200);
    tester.push("\"1*");
    tester.push_number(before);
    tester.push(" ");
    tester.push_digits(&digits[..shown]);
    tester.push(" 1*");
    tester.push_number(behind);
    tester.push("\",\n");
    Ok(before + behind + shown as u32)
}

/// Changes some of the reported errors to another kind.
fn mistake_some(random: &mut Random, told: &mut [u8]) {
    for place in 0..told.len() {
        let is_mistaken = told.len() - place >= 9
            && told[place] == b'b'
            && told[place..].starts_with(b"bit error")
            && random.is_one_in(12);
        if is_mistaken {
            told[place..place + 3].copy_from_slice(b"ack");
        }
    }
}

/// Returns a session with this many lines that play levels.
fn session(alloc: Global, random: &mut Random, lines: u32) -> Result<String, AllocError> {
    let mut text = Text::new(alloc);
    for line in 0..lines {
        if line % 16 == 0 {
            text.push("end\ncase session-");
            text.push_number(line);
            text.push(" idle\n");
        }
        if random.is_one_in(3) {
            text.push("offer ");
            push_frame(&mut text, random, 63);
            text.push("\n");
        }
        push_played(alloc, &mut text, random)?;
    }
    text.push("quit\n");
    text.finished()
}

/// Appends a line that plays the levels of a frame, or of none.
fn push_played(alloc: Global, text: &mut Text, random: &mut Random) -> Result<(), AllocError> {
    text.push("play 111111111111");
    let node = random.below(60);
    if let Some(frame) = frame_of(random, node) {
        let mut digits = wire_of(alloc, &frame)?;
        if random.is_one_in(4) {
            let place = random.below(100) as usize;
            if place < digits.len() {
                digits[place] ^= 1;
            }
        }
        text.push_digits(&digits);
    }
    text.push("1111111111111111111111111111111111111111\n");
    Ok(())
}
