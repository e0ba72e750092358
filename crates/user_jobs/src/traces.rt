//! Traces to decode, and lines of frames and vectors.
ghost use Rattle.std.specs.Prelude.{◌<◌, ◌≤◌};

use crate::commands::{Program, answered};
use crate::digest::Digest;
use crate::random::Random;
use crate::traffic::{frame_of, wire_of};
use std::alloc::{AllocError, Global};

/// How many frames, lines or vectors a text is composed from.
const POOL: u32 = 4096;

/// How many levels a line has.
const LINE: usize = 64;

/// Pieces from which a text is composed.
type Pool = Vec<Vec<u8>>;

/// The form of a trace.
#[derive(Clone, Copy)]
enum Form {
    /// Frames, one after another.
    Busy,
    /// Frames, one after another, with line ends.
    Lines,
    /// Frames, one after another, with some inverted levels.
    Wrong,
    /// Frames, one after another, with a space after each level.
    Apart,
    /// Frames with long idle times between them.
    Idle,
}

/// Decodes traces, encodes lines of frames, and checks vectors.
pub fn read(
    alloc: Global,
    random: &mut Random,
    size: u32,
    digest: &mut Digest,
) -> Result<(), AllocError>
    requires { size ≤ 1000 }
{
    let levels = 400_000 * size as usize;
    decode_traces(alloc, random, levels, digest)?;
    let noise = noise(alloc, random, levels / 8)?;
    answer(alloc, "decode", &noise, digest)?;
    let texts = texts_pool(alloc, random)?;
    answer_lines(
        alloc,
        random,
        "encode",
        &texts,
        12 * 8_000 * size as usize,
        digest,
    )?;
    let vectors = vectors_pool(alloc, random)?;
    answer_lines(
        alloc,
        random,
        "check",
        &vectors,
        120 * 6_000 * size as usize,
        digest,
    )
}

/// Decodes traces of this many levels.
fn decode_traces(
    alloc: Global,
    random: &mut Random,
    levels: usize,
    digest: &mut Digest,
) -> Result<(), AllocError> {
    let frames = frames_pool(alloc, random)?;
    for form in [
        Form::Busy,
        Form::Lines,
        Form::Wrong,
        Form::Apart,
        Form::Idle,
    ] {
        let trace = trace_of(alloc, random, form, &frames, levels)?;
        answer(alloc, "decode", &trace, digest)?;
    }
    Ok(())
}

/// Returns a trace of this form with at least this many levels, or a sixteenth of them if spaces separate them.
fn trace_of(
    alloc: Global,
    random: &mut Random,
    form: Form,
    frames: &[Vec<u8>],
    levels: usize,
) -> Result<Vec<u8>, AllocError> {
    match form {
        Form::Busy => text_of(alloc, random, frames, levels),
        Form::Lines => with_ends(alloc, &text_of(alloc, random, frames, levels)?),
        Form::Wrong => {
            let mut wrong = text_of(alloc, random, frames, levels)?;
            invert_some(random, &mut wrong, 200);
            Ok(wrong)
        }
        Form::Apart => with_blanks(alloc, &text_of(alloc, random, frames, levels / 16)?),
        Form::Idle => idle_text(alloc, random, frames, levels),
    }
}

/// Runs `canbit` on lines with at least `least` bytes.
fn answer_lines(
    alloc: Global,
    random: &mut Random,
    subcommand: &str,
    pool: &[Vec<u8>],
    least: usize,
    digest: &mut Digest,
) -> Result<(), AllocError> {
    let lines = text_of(alloc, random, pool, least)?;
    answer(alloc, subcommand, &lines, digest)
}

/// Runs `canbit` on a text.
fn answer(
    alloc: Global,
    subcommand: &str,
    text: &[u8],
    digest: &mut Digest,
) -> Result<(), AllocError> {
    answered(alloc, Program::Canbit, subcommand, text, digest)?;
    Ok(())
}

/// Returns the digits of frames, each with intermission after it.
fn frames_pool(alloc: Global, random: &mut Random) -> Result<Pool, AllocError> {
    let mut pool = Vec::new(alloc);
    for _ in 0..POOL {
        let node = random.below(64);
        if let Some(frame) = frame_of(random, node) {
            let mut digits = wire_of(alloc, &frame)?;
            digits.extend_from_slice(b"111")?;
            pool.push(digits)?;
        }
    }
    Ok(pool)
}

/// Returns lines of frame texts.
fn texts_pool(alloc: Global, random: &mut Random) -> Result<Pool, AllocError> {
    let mut pool = Vec::new(alloc);
    for _ in 0..POOL {
        let node = random.below(64);
        if let Some(frame) = frame_of(random, node) {
            let mut line = frame.to_text().as_bytes().to_vec(alloc)?;
            line.push(b'\n')?;
            pool.push(line)?;
        }
    }
    Ok(pool)
}

/// Returns lines of vectors, some with a wrong level.
fn vectors_pool(alloc: Global, random: &mut Random) -> Result<Pool, AllocError> {
    let mut pool = Vec::new(alloc);
    for _ in 0..POOL {
        let node = random.below(64);
        if let Some(frame) = frame_of(random, node) {
            let mut line = frame.to_text().as_bytes().to_vec(alloc)?;
            line.extend_from_slice(b" = ")?;
            for level in can_wire::encode(&frame).as_slice() {
                line.push(level.digit())?;
            }
            if random.is_one_in(32) {
                invert_last(&mut line);
            }
            line.push(b'\n')?;
            pool.push(line)?;
        }
    }
    Ok(pool)
}

/// Makes the last level of a line, which is recessive, dominant.
fn invert_last(line: &mut Vec<u8>) {
    let last = line.len().saturating_sub(1);
    if last < line.len() {
        line[last] = b'0';
    }
}

/// Returns pieces in random order, with at least `least` bytes.
fn text_of(
    alloc: Global,
    random: &mut Random,
    pool: &[Vec<u8>],
    least: usize,
) -> Result<Vec<u8>, AllocError> {
    let mut text = Vec::with_capacity(alloc, least.min(1 << 30))?;
    for _ in 0..least {
        if text.len() >= least {
            break;
        }
        let place = random.below(POOL) as usize;
        if let Some(piece) = pool.get(place) {
            text.extend_from_slice(piece)?;
        }
    }
    Ok(text)
}

/// Returns the text with a line end after every [`LINE`] levels.
fn with_ends(alloc: Global, text: &[u8]) -> Result<Vec<u8>, AllocError> {
    let mut lines = Vec::new(alloc);
    for line in text.chunks(LINE) {
        lines.extend_from_slice(line)?;
        lines.push(b'\n')?;
    }
    Ok(lines)
}

/// Returns the text with a space after each level.
fn with_blanks(alloc: Global, text: &[u8]) -> Result<Vec<u8>, AllocError> {
    let mut apart = Vec::new(alloc);
    for digit in text {
        apart.push(*digit)?;
        apart.push(b' ')?;
    }
    Ok(apart)
}

/// Inverts one of `gap` levels on average.
fn invert_some(random: &mut Random, text: &mut [u8], gap: u32) {
    let mut until = random.below(gap.clamp(1, 1_000_000) * 2);
    for digit in text.iter_mut() {
        if until == 0 {
            until = 1 + random.below(gap.clamp(1, 1_000_000) * 2);
            *digit ^= 1;
        }
        until -= 1;
    }
}

/// Returns at least `least` levels, most of them recessive ones between frames.
fn idle_text(
    alloc: Global,
    random: &mut Random,
    pool: &[Vec<u8>],
    least: usize,
) -> Result<Vec<u8>, AllocError> {
    let mut text = Vec::with_capacity(alloc, least.min(1 << 30))?;
    for _ in 0..least {
        if text.len() >= least {
            break;
        }
        let place = random.below(POOL) as usize;
        if let Some(piece) = pool.get(place) {
            text.extend_from_slice(piece)?;
        }
        let rest = random.below(20_000) as usize;
        let whole = text.len().saturating_add(rest);
        text.resize(whole, b'1')?;
    }
    Ok(text)
}

/// Returns this many random levels, rounded down to a multiple of 64.
fn noise(alloc: Global, random: &mut Random, count: usize) -> Result<Vec<u8>, AllocError> {
    let mut text = Vec::with_capacity(alloc, count.min(1 << 30))?;
    for _ in 0..count / 64 {
        let mut number = random.next();
        for _ in 0..64 {
            text.push(b'0' + (number % 2) as u8)?;
            number /= 2;
        }
    }
    Ok(text)
}
