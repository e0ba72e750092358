//! A call of a program on a text.
ghost use Rattle.std.specs.Prelude.{◌≡◌, false};
ghost use Rattle.can_stream.specs.Wrapped.{read_ended, read_failed, write_failed};

use crate::digest::Digest;
use can_stream::pieces::{Pieces, Stop, Taker, reader_of, writer_of};
use can_stream::{FromRead, ToWrite};
use std::alloc::{AllocError, Global};

/// A program: what it does with its words and streams.
#[derive(Clone, Copy)]
pub enum Program {
    Canbit,
    Canhold,
    Canplan,
}

/// How many bytes a reader gives at once.
const PIECE: usize = 1 << 16;

/// Returns what the program writes for this text and subcommand. It is put into the digest, with the line of a fault
/// and the status.
pub fn answered(
    alloc: Global,
    program: Program,
    subcommand: &str,
    text: &[u8],
    digest: &mut Digest,
) -> Result<Vec<u8>, AllocError> {
    let mut words = Vec::new(alloc);
    words.push(String::from_str(alloc, "program")?)?;
    if !subcommand.is_empty() {
        words.push(String::from_str(alloc, subcommand)?)?;
    }
    let mut reader = reader_of(text, PIECE, Stop::Nothing);
    let mut writer = writer_of(alloc, usize::MAX, usize::MAX, Stop::Nothing);
    let mut errors = writer_of(alloc, usize::MAX, usize::MAX, Stop::Nothing);
    let status = execute(
        alloc,
        program,
        words.as_slice(),
        &mut reader,
        &mut writer,
        &mut errors,
    );
    let written = writer.into_inner().taken;
    digest.put_text(&written);
    digest.put_text(&errors.into_inner().taken);
    digest.put(u64::from(status));
    Ok(written)
}

/// Does what a program does.
fn execute(
    alloc: Global,
    program: Program,
    words: &[String],
    reader: &mut FromRead<Pieces<'_>>,
    writer: &mut ToWrite<Taker>,
    errors: &mut ToWrite<Taker>,
) -> u8
    requires unfailed { read_failed reader.old ≡ false }
    requires unended { read_ended reader.old ≡ false }
    requires unwritten { write_failed writer.old ≡ false }
{
    match program {
        Program::Canbit => canbit_commands::execute(alloc, words, reader, writer, errors),
        Program::Canhold => canhold_commands::execute(alloc, words, reader, writer, errors),
        Program::Canplan => can_plan_text::execute(alloc, words, reader, writer, errors),
    }
}
