//! Replies to the lines of a runner, one after another.
ghost use Rattle.std.specs.Prelude.{◌≡◌, false};
ghost use Rattle.can_stream.specs.Faults.{is_err_by, is_read, is_write};
ghost use Rattle.can_stream.specs.Told.{Told};
ghost use Rattle.canhold_commands.specs.Plays.{Plays};

use crate::adapter::Adapter;
use can_stream::{LineReader, Outbox, Sink, Source, TraceFault, write_all};
use std::alloc::Global;

/// The number of bytes that are kept of a line: one more than the longest line of the protocol. The proofs use this
/// number too.
const KEPT: usize = 4102;

/// The first line that an adapter writes.
const GREETING: &[u8] = b"can-kit 1 Riddlesage, the proved reference\n";

/// Plays the reference for a runner: it writes a greeting, reads the runner's lines, and replies to each before it
/// reads on.
///
/// The line `quit` or the end of the input ends it. A line ends with 0x0a, and may have any length. If a line is not in
/// the protocol, the reply begins with `error`.
///
/// - `Read`, `Long`: the reader failed, or the input has more than 2^63 bytes. All complete lines have their replies.
/// - `Memory`: an allocation failed. The first lines, before some line, have their replies.
/// - `Write`: the writer failed. It has a prefix of the greeting and of the replies to the first lines.
///
/// It allocates a port at each `case` line, and memory for the longest reply, of at most 4096 bit times.
pub fn play_lines<R: Source, W: Sink>(alloc: Global, r: &mut R, w: &mut W) -> Result<(), TraceFault>
    requires reader_unfailed { R.has_failed r.old ≡ false }
    requires reader_unended { R.has_ended r.old ≡ false }
    requires writer_unfailed { W.has_failed w.old ≡ false }
    ensures told { Told R.remaining r.old r.new W.contents w.old w.new (Plays result) }
    ensures write_failed { W.has_failed w.new ≡ is_err_by is_write result }
    ensures read_failed { R.has_failed r.new ≡ is_err_by is_read result }
{
    write_all(w, GREETING)?;
    let mut lines: LineReader<KEPT> = LineReader::new();
    let mut out = Outbox::new();
    let mut adapter = Adapter::new();
    let mut answer = Vec::new(alloc);
    while lines.next_line(r, w, &mut out)? {
        let line = lines.line();
        if line == b"quit".as_slice() {
            return Ok(());
        }
        let Ok(()) = adapter.answer(alloc, line, &mut answer) else {
            return Err(TraceFault::Memory);
        };
        write_all(w, &answer)?;
    }
    Ok(())
}
