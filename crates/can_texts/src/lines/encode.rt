ghost use Rattle.std.specs.Prelude.{◌≡◌, ℕ, ◌+◌, ◌<◌, ◌≤◌, ◌↔◌, true, false, [], ◌++◌, length, slice_range, is_err, IsTrue, IsFalse, IsErrOf, IfErr, OnOk, OnErr};
ghost use Rattle.std.specs.Io.KnownBytes.{IsAtEnd};
ghost use Rattle.can_frame.specs.declared.text.TextFault.{TextFault};
ghost use Rattle.can_stream.specs.declared.field.Field.{Field};
ghost use Rattle.can_stream.specs.Told.{Told};
ghost use Rattle.can_stream.specs.Outbox.{PassesOn, TakesFront};
ghost use Rattle.can_texts.specs.Coded.{coded_line, EncodesAll, EncodesEnded, EncodesTooLong, BeginsEncoding, IsFirstBadLine};
ghost use Rattle.can_texts.specs.Answering.{EncodesLine, FailsToAnswer, Encodes};
ghost use Rattle.can_stream.specs.Faults.{is_err_by, is_read, is_write};

use can_frame::Frame;
use can_stream::{LineReader, Outbox, Sink, Source, TraceFault};
use can_wire::{DIGITS_ROOM, driven_digits};

/// How many bytes of a line are kept: one more than the longest frame text has.
const KEPT: usize = 33;

/// Reads lines of frame text, and writes for each the levels that the frame's transmitter drives. An
/// output line has a `0` or `1` for each level.
///
/// A line ends with 0x0a; the last input line may lack it, and empty input has no lines. Lines may have
/// any length. The call allocates no memory. Before the call the reader must not have failed or ended,
/// and the writer must not have failed.
///
/// The result is `Ok` only if the reader ended in this call. Errors:
///
/// - `FrameLine`: the first line that is not a frame text, once it has ended.
/// - `Read`, `Write`: the reader or the writer failed. The failed call is not repeated.
/// - `Long`: the input has more than 2^63 bytes.
///
/// The output for all lines before the fault is written. After `Write`, a prefix of the output is
/// written.
pub fn encode_lines<R: Source, W: Sink>(r: &mut R, w: &mut W) -> Result<(), TraceFault>
    requires reader_unfailed { R.has_failed r.old ≡ false }
    requires reader_unended { R.has_ended r.old ≡ false }
    requires writer_unfailed { W.has_failed w.old ≡ false }

    // What was written for what was read.
    ensures ok { OnOk result (Told R.remaining r.old r.new W.contents w.old w.new EncodesAll) }
    ensures read { IsErrOf result TraceFault.Read → Told R.remaining r.old r.new W.contents w.old w.new EncodesEnded }
    ensures write { IsErrOf result TraceFault.Write →
        Told R.remaining r.old r.new W.contents w.old w.new (BeginsEncoding (R.has_ended r.new)) }
    ensures long { IsErrOf result TraceFault.Long → Told R.remaining r.old r.new W.contents w.old w.new EncodesTooLong }
    ensures line { (n : ℕ) (fault : TextFault) → IsErrOf result (TraceFault.FrameLine n fault) →
        Told R.remaining r.old r.new W.contents w.old w.new (IsFirstBadLine n fault (R.has_ended r.new)) }

    ensures no_byte { (place : ℕ) → IsErrOf result (TraceFault.BadByte place) → ⊥ }
    ensures no_field { (wrong : Field) → IsErrOf result (TraceFault.ScenarioField wrong) → ⊥ }
    ensures no_memory { IsErrOf result TraceFault.Memory → ⊥ }

    // The state of the reader and the writer.
    ensures ended { OnOk result (IsTrue (R.has_ended r.new)) }
    ensures at_end { OnOk result (IsAtEnd (R.remaining r.new)) }
    ensures read_unended { IsErrOf result TraceFault.Read → IsFalse (R.has_ended r.new) }
    ensures long_unended { IsErrOf result TraceFault.Long → IsFalse (R.has_ended r.new) }
    ensures write_failed { IsErrOf result TraceFault.Write ↔ IsTrue (W.has_failed w.new) }
    ensures read_failed { IsErrOf result TraceFault.Read ↔ (IsTrue (R.has_failed r.new) × IsFalse (W.has_failed w.new)) }
{
    let mut out = Outbox::new();
    let answered = answer_lines(r, w, &mut out);
    if !w.failed() {
        out.flush(w)?;
    }
    answered
}

/// Encodes all lines. The last output is still in the buffer.
fn answer_lines<R: Source, W: Sink>(
    r: &mut R,
    w: &mut W,
    out: &mut Outbox,
) -> Result<(), TraceFault>
    requires reader_unfailed { R.has_failed r.old ≡ false }
    requires reader_unended { R.has_ended r.old ≡ false }
    requires writer_unfailed { W.has_failed w.old ≡ false }
    requires empty { out.old ≡ [] }
    ensures told { Told R.remaining r.old r.new W.contents w.old w.new
        (λ input output. Encodes result (R.has_ended r.new) input (output ++ out.new)) }
    ensures dropped { IsErrOf result TraceFault.Write → out.new ≡ [] }
    ensures ended { OnOk result (R.has_ended r.new ≡ true) }
    ensures at_end { OnOk result (IsAtEnd (R.remaining r.new)) }
    ensures read_unended { IsErrOf result TraceFault.Read → R.has_ended r.new ≡ false }
    ensures long_unended { IsErrOf result TraceFault.Long → R.has_ended r.new ≡ false }
    ensures read_failed { R.has_failed r.new ≡ is_err_by is_read result }
    ensures write_failed { W.has_failed w.new ≡ is_err_by is_write result }
{
    let mut lines: LineReader<KEPT> = LineReader::new();
    let mut number = 0;
    while lines.next_line(r, w, out)? {
        number += 1;
        answer_line(lines.line(), number, w, out)?;
    }
    let last = lines.line();
    if !last.is_empty() {
        answer_line(last, number + 1, w, out)?;
    }
    Ok(())
}

/// Appends the levels of the frame whose text is this line.
fn answer_line<W: Sink>(
    line: &[u8],
    number: u64,
    w: &mut W,
    out: &mut Outbox,
) -> Result<(), TraceFault>
    requires { W.has_failed w.old ≡ false }
    ensures ok { OnOk result (EncodesLine line.now (W.contents w.old) (W.contents w.new) out.old out.new) }
    ensures err { IfErr result (λ e. FailsToAnswer e number line.now (W.contents w.old) (W.contents w.new) out.old out.new) }
    ensures failed { W.has_failed w.new ≡ is_err_by is_write result }
{
    match Frame::from_text(line) {
        Ok(frame) => put_frame(&frame, w, out),
        Err(fault) => Err(TraceFault::FrameLine {
            line: number,
            fault,
        }),
    }
}

/// Appends the line of the frame's levels, as its transmitter drives them.
fn put_frame<W: Sink>(frame: &Frame, w: &mut W, out: &mut Outbox) -> Result<(), TraceFault>
    requires { W.has_failed w.old ≡ false }
    ensures ok { OnOk result (PassesOn (W.contents w.old) (W.contents w.new) out.old out.new (coded_line frame.now)) }
    ensures err { OnErr result (TakesFront (W.contents w.old) (W.contents w.new) out.old) }
    ensures dropped { OnErr result (out.new ≡ []) }
    ensures failed { W.has_failed w.new ≡ is_err result }
    ensures fault { IfErr result (λ e. e ≡ TraceFault.Write) }
{
    let mut line = [0; DIGITS_ROOM];
    let (start, end) = write_line(frame, &mut line);
    out.put(w, &line[start..end])
}

/// Writes the line of the frame's levels, and returns its start and end.
fn write_line(frame: &Frame, line: &mut [u8; DIGITS_ROOM]) -> (usize, usize)
    ensures order { result.0 ≤ result.1 }
    ensures bound { result.1 ≤ DIGITS_ROOM }
    ensures line { slice_range line.new result.0 result.1 ≡ coded_line frame.now }
{
    let (start, end) = driven_digits(frame, line);
    line[end] = b'\n';
    (start, end + 1)
}
