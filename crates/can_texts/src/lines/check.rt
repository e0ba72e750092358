ghost use Rattle.std.specs.Prelude.{◌≡◌, ◌⊎◌, ℕ, ◌+◌, ◌^◌, ◌<◌, ◌≤◌, ◌↔◌, true, false, not, [], ◌++◌, length, Ok, IsTrue, IsFalse, IsErrOf, IfOk, IfErr, OnOk, OnErr};
ghost use Rattle.std.specs.Io.KnownBytes.{IsAtEnd};
ghost use Rattle.can_frame.specs.declared.text.TextFault.{TextFault};
ghost use Rattle.can_stream.specs.declared.field.Field.{Field};
ghost use Rattle.can_stream.specs.Told.{Told};
ghost use Rattle.can_stream.specs.Outbox.{Flushes};
ghost use Rattle.can_stream.specs.LineReader.{ReadsLine, inbox_of, is_found, line_of};
ghost use Rattle.can_stream.specs.Faults.{is_err_by, is_read, is_write};
ghost use Rattle.can_texts.specs.Checked.{BeginsChecking, ChecksAll, ChecksEach, ChecksEnded, ChecksTooLong, IsFirstBadByte, IsFirstBadVectorLine};
ghost use Rattle.can_texts.specs.Checking.{is_bad_byte, Comes, FailsToCheck, IsOpenFault, Judges, StopsChecking};

use crate::lines::vector::{BadLine, judge};
use crate::lines::verdict::{put_total, put_verdict};
use can_stream::{LineReader, Outbox, Sink, Source, TraceFault};

/// How many bytes of a line are kept: a frame text of 32, ` = `, 157 levels, and one more.
const KEPT: usize = 193;

/// Checks lines of frame text and levels, and returns how many lines passed, and of how many. A line is a
/// frame text, ` = ` and at most 157 levels, `0` or `1`. The levels are compared with those that the
/// frame's transmitter drives. For each line it writes `ok`, or `differs at ` and the first place at which
/// they differ (or the shorter length). At the end it writes `passed P of N`. Each output line ends with
/// 0x0a.
///
/// An input line ends with 0x0a; the last one may lack it, and empty input has no lines. Lines may have
/// any length. The call allocates no memory. Before the call the reader must not have failed or ended, and
/// the writer must not have failed.
///
/// The result is `Ok` only if the reader ended in this call. Errors:
///
/// - `FrameLine`: the first bad line, once it has ended. Its bytes before ` = ` are not a frame text, or
///   the line is a frame text alone.
/// - `BadByte`: the place in the input, from 0, of the first byte that is not a digit of a level, or that
///   follows 157 levels. The line is good before it, and need not have ended.
/// - `Read`, `Write`: the reader or the writer failed. The failed call is not repeated.
/// - `Long`: the input has more than 2^63 bytes.
///
/// The output for all lines before the fault is written. After `Write`, a prefix of the output is written.
pub fn check_lines<R: Source, W: Sink>(r: &mut R, w: &mut W) -> Result<(u64, u64), TraceFault>
    requires reader_unfailed { R.has_failed r.old ≡ false }
    requires reader_unended { R.has_ended r.old ≡ false }
    requires writer_unfailed { W.has_failed w.old ≡ false }

    // What was written for what was read.
    ensures ok { IfOk result (λ t. Told R.remaining r.old r.new W.contents w.old w.new (ChecksAll t.0 t.1)) }
    ensures read { IsErrOf result TraceFault.Read → Told R.remaining r.old r.new W.contents w.old w.new ChecksEnded }
    ensures write { IsErrOf result TraceFault.Write →
        Told R.remaining r.old r.new W.contents w.old w.new (BeginsChecking (R.has_ended r.new)) }
    ensures long { IsErrOf result TraceFault.Long → Told R.remaining r.old r.new W.contents w.old w.new ChecksTooLong }
    ensures line { (n : ℕ) (fault : TextFault) → IsErrOf result (TraceFault.FrameLine n fault) →
        Told R.remaining r.old r.new W.contents w.old w.new (IsFirstBadVectorLine n fault (R.has_ended r.new)) }
    ensures byte { (place : ℕ) → IsErrOf result (TraceFault.BadByte place) →
        Told R.remaining r.old r.new W.contents w.old w.new (IsFirstBadByte place) }
    ensures no_field { (wrong : Field) → IsErrOf result (TraceFault.ScenarioField wrong) → ⊥ }
    ensures no_memory { IsErrOf result TraceFault.Memory → ⊥ }

    // The state of the reader and the writer.
    ensures ended { OnOk result (IsTrue (R.has_ended r.new)) }
    ensures at_end { OnOk result (IsAtEnd (R.remaining r.new)) }
    ensures read_unended { IsErrOf result TraceFault.Read → IsFalse (R.has_ended r.new) }
    ensures long_unended { IsErrOf result TraceFault.Long → IsFalse (R.has_ended r.new) }
    ensures write_failed { IsErrOf result TraceFault.Write ↔ IsTrue (W.has_failed w.new) }
    ensures read_failed { IsErrOf result TraceFault.Read → IsTrue (R.has_failed r.new) × IsFalse (W.has_failed w.new) }
    ensures failed_read { IsTrue (R.has_failed r.new) → IsErrOf result TraceFault.Read
        ⊎ IsErrOf result TraceFault.Write ⊎ ((place : ℕ) × IsErrOf result (TraceFault.BadByte place)) }
{
    let mut out = Outbox::new();
    let checked = check_all(r, w, &mut out);
    if !w.failed() {
        out.flush(w)?;
    }
    checked
}

/// Checks all lines, then appends their total. The last output is still in the buffer.
fn check_all<R: Source, W: Sink>(
    r: &mut R,
    w: &mut W,
    out: &mut Outbox,
) -> Result<(u64, u64), TraceFault>
    requires reader_unfailed { R.has_failed r.old ≡ false }
    requires reader_unended { R.has_ended r.old ≡ false }
    requires writer_unfailed { W.has_failed w.old ≡ false }
    requires empty { out.old ≡ [] }
    ensures told { Told R.remaining r.old r.new W.contents w.old w.new
        (λ input output. Comes ChecksAll result (R.has_ended r.new) input (output ++ out.new)) }
    ensures dropped { IsErrOf result TraceFault.Write → out.new ≡ [] }
    ensures ended { OnOk result (R.has_ended r.new ≡ true) }
    ensures at_end { OnOk result (IsAtEnd (R.remaining r.new)) }
    ensures read_unended { IsErrOf result TraceFault.Read → R.has_ended r.new ≡ false }
    ensures long_unended { IsErrOf result TraceFault.Long → R.has_ended r.new ≡ false }
    ensures read_failed { IsErrOf result TraceFault.Read → R.has_failed r.new ≡ true }
    ensures failed_read { R.has_failed r.new ≡ true → IsTrue (is_err_by is_read result) ⊎ IsTrue (is_err_by is_bad_byte result) }
    ensures write_failed { W.has_failed w.new ≡ is_err_by is_write result }
{
    let tally = check_each(r, w, out)?;
    put_total(tally.0, tally.1, w, out)?;
    Ok(tally)
}

/// Checks all lines.
fn check_each<R: Source, W: Sink>(
    r: &mut R,
    w: &mut W,
    out: &mut Outbox,
) -> Result<(u64, u64), TraceFault>
    requires reader_unfailed { R.has_failed r.old ≡ false }
    requires reader_unended { R.has_ended r.old ≡ false }
    requires writer_unfailed { W.has_failed w.old ≡ false }
    requires empty { out.old ≡ [] }
    ensures told { Told R.remaining r.old r.new W.contents w.old w.new
        (λ input output. Comes ChecksEach result (R.has_ended r.new) input (output ++ out.new)) }
    ensures dropped { IsErrOf result TraceFault.Write → out.new ≡ [] }
    ensures ended { OnOk result (R.has_ended r.new ≡ true) }
    ensures at_end { OnOk result (IsAtEnd (R.remaining r.new)) }
    ensures unfailed { OnOk result (R.has_failed r.new ≡ false) }
    ensures read_unended { IsErrOf result TraceFault.Read → R.has_ended r.new ≡ false }
    ensures long_unended { IsErrOf result TraceFault.Long → R.has_ended r.new ≡ false }
    ensures read_failed { IsErrOf result TraceFault.Read → R.has_failed r.new ≡ true }
    ensures failed_read { R.has_failed r.new ≡ true → IsTrue (is_err_by is_read result) ⊎ IsTrue (is_err_by is_bad_byte result) }
    ensures write_failed { W.has_failed w.new ≡ is_err_by is_write result }
{
    let mut lines: LineReader<KEPT> = LineReader::new();
    let mut number = 0;
    let mut passed = 0;
    let mut start = 0;
    while next_line(&mut lines, start, r, w, out)? {
        number += 1;
        passed += check_line(lines.line(), number, start, w, out)?;
        start = lines.place();
    }
    let last = lines.line();
    if !last.is_empty() {
        number += 1;
        passed += check_line(last, number, start, w, out)?;
    }
    Ok((passed, number))
}

/// Reads the next line, which begins at this place of the input. If reading stops before the line's end, a
/// bad byte in the line so far is reported first, unless the writer has failed.
fn next_line<R: Source, W: Sink>(
    lines: &mut LineReader<KEPT>,
    start: u64,
    source: &mut R,
    w: &mut W,
    out: &mut Outbox,
) -> Result<bool, TraceFault>
    requires unfailed { R.has_failed source.old ≡ false }
    requires unended { R.has_ended source.old ≡ false }
    requires writer_unfailed { W.has_failed w.old ≡ false }
    requires fits { (inbox_of lines.old).taken < 2 ^ 64 }
    requires start { start + length (inbox_of lines.old).unread ≡ (inbox_of lines.old).taken }
    ensures reads { ReadsLine (is_found result) (R.remaining source.old) (R.remaining source.new) KEPT lines.old lines.new }
    ensures fits { (inbox_of lines.new).taken < 2 ^ 64 }
    ensures ended { IfOk result (λ found. R.has_ended source.new ≡ not found) }
    ensures end { result ≡ Ok false → IsAtEnd (R.remaining source.new) }
    ensures within { result ≡ Ok false → (inbox_of lines.new).taken ≤ 2 ^ 63 }
    ensures unfailed { OnOk result (R.has_failed source.new ≡ false) }
    ensures err { IfErr result (λ e. StopsChecking e start (line_of lines.new) (R.has_failed source.new) (inbox_of lines.new).taken) }
    ensures unended { OnErr result (R.has_ended source.new ≡ false) }
    ensures flushed { Flushes (W.has_failed w.new) (W.contents w.old) (W.contents w.new) out.old out.new }
    ensures write_failed { W.has_failed w.new ≡ is_err_by is_write result }
{
    match lines.next_line(source, w, out) {
        Err(fault) if !w.failed() => Err(open_fault(lines.line(), start, fault)),
        answer => answer,
    }
}

/// The fault of an input that stops in this line, which begins at place `start`: a bad byte in the line,
/// if there is one, otherwise `fault`.
fn open_fault(line: &[u8], start: u64, fault: TraceFault) -> TraceFault
    requires { start + length line.now < 2 ^ 64 }
    ensures { IsOpenFault start line.now fault result }
{
    match judge(line) {
        Err(BadLine::Byte(place)) => TraceFault::BadByte {
            place: start + place as u64,
        },
        _ => fault,
    }
}

/// Appends the verdict of the line, which begins at this place of the input. Returns 1 if it passes,
/// otherwise 0.
fn check_line<W: Sink>(
    line: &[u8],
    number: u64,
    start: u64,
    w: &mut W,
    out: &mut Outbox,
) -> Result<u64, TraceFault>
    requires unfailed { W.has_failed w.old ≡ false }
    requires fits { start + length line.now < 2 ^ 64 }
    ensures ok { IfOk result (λ passed. Judges line.now passed (W.contents w.old) (W.contents w.new) out.old out.new) }
    ensures one { IfOk result (λ passed. passed ≤ 1) }
    ensures err { IfErr result (λ e. FailsToCheck e number start line.now (W.contents w.old) (W.contents w.new) out.old out.new) }
    ensures failed { W.has_failed w.new ≡ is_err_by is_write result }
{
    match judge(line) {
        Ok(verdict) => {
            put_verdict(verdict, w, out)?;
            Ok(verdict.passed())
        }
        Err(BadLine::Frame(fault)) => Err(TraceFault::FrameLine {
            line: number,
            fault,
        }),
        Err(BadLine::Byte(place)) => Err(TraceFault::BadByte {
            place: start + place as u64,
        }),
    }
}
