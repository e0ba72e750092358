ghost use Rattle.std.specs.Prelude.{◌≡◌, ℕ, ◌+◌, ◌^◌, ◌<◌, ◌≤◌, ◌↔◌, true, false, [], ◌∷◌, ◌++◌, length, take, slice_index, IsTrue, IsFalse, IsErrOf, IfErr, IfOk, OnOk};
ghost use Rattle.std.specs.Io.KnownBytes.{IsAtEnd};
ghost use Rattle.can_frame.specs.declared.text.TextFault.{TextFault};
ghost use Rattle.can_frame.specs.Levels.{digit_of};
ghost use Rattle.can_stream.specs.declared.field.Field.{Field};
ghost use Rattle.can_stream.specs.Told.{Told};
ghost use Rattle.can_texts.specs.TraceText.{IsTraceText, levels_in, levels_of_byte};
ghost use Rattle.can_stream.specs.Faults.{is_err_by, is_read, is_write};
ghost use Rattle.can_texts.specs.Decoded.{BeginsDecoding, DecodesAll, DecodesSoFar, DecodesToBadByte, DecodesTooLong};
ghost use Rattle.can_texts.specs.Decoding.{Decodes, FailsToHear, Hears, HearsText, StopsHearing};

use crate::traces::finding::put_finding;
use crate::traces::gathered::{GATHERED_ROOM, Gathered, gather};
use crate::traces::idle::recessive_count;
use crate::traces::short_runs::ShortRuns;
use crate::traces::skipped::{is_skipped, skipped_count};
use crate::traces::trace::Trace;
use can_frame::Level;
use can_stream::{Inbox, Outbox, Sink, Source, TraceFault};

/// Reads a trace, and writes a line for each frame and each fault in it. Its levels are `0` and `1`. Spaces, 0x0a
/// and 0x0d are skipped. (Bosch CAN 2.0 part B, sections 3.2.1, 3.2.5 and 7.1)
///
/// Places count levels from 0. Between frames recessive levels are skipped. The line of a frame has:
///
/// - the place at which it begins, and its text;
/// - ` ack` or ` noack`;
/// - those of these words that apply: ` srr0` (SRR was dominant), ` r1` (r1 was recessive), ` r0` (r0 was
///   recessive), ` eof0` (the last level of the end of frame was dominant).
///
/// If no frame begins at a dominant level, the line has the place, ` fault `, the kind, ` at ` and the place of
/// the fault. The search for a frame continues after the first eleven recessive levels in a row from the fault on.
/// Each line ends with 0x0a.
///
/// The call allocates no memory. Before it the reader must not have failed or ended, and the writer must not have
/// failed. The result is `Ok` only if the reader ended in this call. Errors:
///
/// - `BadByte`: the place in the input, from 0, of the first byte that is neither a level nor skipped.
/// - `Read`, `Write`: the reader or the writer failed. The failed call is not repeated.
/// - `Long`: the input has more than 2^63 bytes.
///
/// All lines before the fault are written, except that of a frame in which the levels end. After `Write`, a prefix
/// of the output is written.
pub fn decode_stream<R: Source, W: Sink>(r: &mut R, w: &mut W) -> Result<(), TraceFault>
    requires reader_unfailed { R.has_failed r.old ≡ false }
    requires reader_unended { R.has_ended r.old ≡ false }
    requires writer_unfailed { W.has_failed w.old ≡ false }

    // What was written for what was read.
    ensures ok { OnOk result (Told R.remaining r.old r.new W.contents w.old w.new DecodesAll) }
    ensures read { IsErrOf result TraceFault.Read → Told R.remaining r.old r.new W.contents w.old w.new DecodesSoFar }
    ensures write { IsErrOf result TraceFault.Write → Told R.remaining r.old r.new W.contents w.old w.new BeginsDecoding }
    ensures long { IsErrOf result TraceFault.Long → Told R.remaining r.old r.new W.contents w.old w.new DecodesTooLong }
    ensures byte { (place : ℕ) → IsErrOf result (TraceFault.BadByte place) →
        Told R.remaining r.old r.new W.contents w.old w.new (DecodesToBadByte place) }

    ensures no_line { (n : ℕ) (fault : TextFault) → IsErrOf result (TraceFault.FrameLine n fault) → ⊥ }
    ensures no_field { (wrong : Field) → IsErrOf result (TraceFault.ScenarioField wrong) → ⊥ }
    ensures no_memory { IsErrOf result TraceFault.Memory → ⊥ }

    // The state of the reader and the writer.
    ensures ended { OnOk result (IsTrue (R.has_ended r.new)) }
    ensures at_end { OnOk result (IsAtEnd (R.remaining r.new)) }
    ensures read_unended { IsErrOf result TraceFault.Read → IsFalse (R.has_ended r.new) }
    ensures long_unended { IsErrOf result TraceFault.Long → IsFalse (R.has_ended r.new) }
    ensures write_failed { IsErrOf result TraceFault.Write ↔ IsTrue (W.has_failed w.new) }
    ensures read_failed { IsErrOf result TraceFault.Read ↔ (IsTrue (R.has_failed r.new) × IsFalse (W.has_failed w.new)) }
{
    let mut out = Outbox::new();
    let decoded = decode_all(r, w, &mut out);
    if !w.failed() {
        out.flush(w)?;
    }
    decoded
}

/// Decodes all of the input. The last lines are still in the buffer.
fn decode_all<R: Source, W: Sink>(r: &mut R, w: &mut W, out: &mut Outbox) -> Result<(), TraceFault>
    requires reader_unfailed { R.has_failed r.old ≡ false }
    requires reader_unended { R.has_ended r.old ≡ false }
    requires writer_unfailed { W.has_failed w.old ≡ false }
    requires empty { out.old ≡ [] }
    ensures told { Told R.remaining r.old r.new W.contents w.old w.new
        (λ input output. Decodes result input (output ++ out.new)) }
    ensures dropped { IsErrOf result TraceFault.Write → out.new ≡ [] }
    ensures ended { OnOk result (R.has_ended r.new ≡ true) }
    ensures at_end { OnOk result (IsAtEnd (R.remaining r.new)) }
    ensures read_unended { IsErrOf result TraceFault.Read → R.has_ended r.new ≡ false }
    ensures long_unended { IsErrOf result TraceFault.Long → R.has_ended r.new ≡ false }
    ensures read_failed { R.has_failed r.new ≡ is_err_by is_read result }
    ensures write_failed { W.has_failed w.new ≡ is_err_by is_write result }
{
    let mut inbox = Inbox::new();
    let mut trace = Trace::begin();
    let mut digits = [0; GATHERED_ROOM];
    while inbox.flush_and_fill(r, w, out)? > 0 {
        let bytes = inbox.unread();
        hear_bytes(bytes, inbox.place(), &mut trace, &mut digits, w, out)?;
        let count = bytes.len();
        inbox.consume(count);
    }
    match trace.open_fault() {
        Some(finding) => put_finding(&finding, w, out),
        None => Ok(()),
    }
}

/// Decodes bytes, the first of which has this place in the input. The buffer is for digits that have to be
/// gathered.
fn hear_bytes<W: Sink>(
    bytes: &[u8],
    place: u64,
    trace: &mut Trace,
    digits: &mut [u8; GATHERED_ROOM],
    w: &mut W,
    out: &mut Outbox,
) -> Result<(), TraceFault>
    requires unfailed { W.has_failed w.old ≡ false }
    requires fits { place + length bytes.now < 2 ^ 64 }
    requires within { trace.old.place ≤ place }
    ensures ok { OnOk result (HearsText trace.old trace.new bytes.now (W.contents w.old) (W.contents w.new) out.old out.new) }
    ensures err { IfErr result (λ e. StopsHearing e trace.old trace.new place bytes.now (W.contents w.old) (W.contents w.new) out.old out.new) }
    ensures failed { W.has_failed w.new ≡ is_err_by is_write result }
{
    let mut index = skipped_count(bytes);
    // the beginning of the current run of digits
    let mut begun = index;
    let mut short_runs = ShortRuns::none();
    while index < bytes.len() {
        index += hear_levels(&bytes[index..], trace);
        if index < bytes.len() {
            if let Some(level) = Level::from_digit(bytes[index]) {
                hear_level(level, trace, w, out)?;
                index += 1;
            } else if is_skipped(bytes[index]) {
                let run = index - begun;
                index += 1 + skipped_count(&bytes[index + 1..]);
                if short_runs.are_enough_behind(run, trace.is_in_frame()) {
                    let gathered = hear_gathered(&bytes[index..], digits, trace, w, out)?;
                    short_runs.forget_in_vain(&gathered);
                    index += gathered.taken;
                }
                begun = index;
            } else {
                return Err(TraceFault::BadByte {
                    place: place + index as u64,
                });
            }
        }
    }
    Ok(())
}

/// Gathers some digits at the front of the bytes, and decodes them.
#[inline(never)]
fn hear_gathered<W: Sink>(
    bytes: &[u8],
    digits: &mut [u8; GATHERED_ROOM],
    trace: &mut Trace,
    w: &mut W,
    out: &mut Outbox,
) -> Result<Gathered, TraceFault>
    requires unfailed { W.has_failed w.old ≡ false }
    requires fits { trace.old.place + length bytes.now < 2 ^ 64 }
    ensures within { IfOk result (λ g. g.taken ≤ length bytes.now) }
    ensures ok { IfOk result (λ g. HearsText trace.old trace.new (take g.taken bytes.now) (W.contents w.old) (W.contents w.new) out.old out.new) }
    ensures err { IfErr result (λ e. FailsToHear e trace.old trace.new bytes.now (W.contents w.old) (W.contents w.new) out.old out.new) }
    ensures place { IfOk result (λ g. trace.new.place ≤ trace.old.place + g.taken) }
    ensures failed { W.has_failed w.new ≡ is_err_by is_write result }
{
    let gathered = gather(bytes, digits);
    hear_to_end(&digits[..gathered.count], trace, w, out)?;
    Ok(gathered)
}

/// Decodes the levels at the front of the bytes, before the first byte that is not a digit, and returns how many.
fn hear_to_end<W: Sink>(
    bytes: &[u8],
    trace: &mut Trace,
    w: &mut W,
    out: &mut Outbox,
) -> Result<usize, TraceFault>
    requires unfailed { W.has_failed w.old ≡ false }
    requires fits { trace.old.place + length bytes.now < 2 ^ 64 }
    ensures within { IfOk result (λ n. n ≤ length bytes.now) }
    ensures stops { IfOk result (λ n. n < length bytes.now → levels_of_byte (slice_index bytes.now n) ≡ []) }
    ensures ok { IfOk result (λ n. HearsText trace.old trace.new (take n bytes.now) (W.contents w.old) (W.contents w.new) out.old out.new) }
    ensures err { IfErr result (λ e. FailsToHear e trace.old trace.new bytes.now (W.contents w.old) (W.contents w.new) out.old out.new) }
    ensures place { IfOk result (λ n. trace.new.place ≤ trace.old.place + n) }
    ensures failed { W.has_failed w.new ≡ is_err_by is_write result }
{
    let mut index = 0;
    while index < bytes.len() {
        index += hear_levels(&bytes[index..], trace);
        if index < bytes.len() {
            let Some(level) = Level::from_digit(bytes[index]) else {
                return Ok(index);
            };
            hear_level(level, trace, w, out)?;
            index += 1;
        }
    }
    Ok(index)
}

/// Decodes some levels at the front of the bytes that complete no frame or fault, and returns how many.
fn hear_levels(bytes: &[u8], trace: &mut Trace) -> usize
    requires { trace.old.place + length bytes.now < 2 ^ 64 }
    ensures within { result ≤ length bytes.now }
    ensures text { IsTraceText (take result bytes.now) }
    ensures hears { Hears trace.old trace.new (levels_in (take result bytes.now)) [] }
    ensures place { trace.new.place ≤ trace.old.place + result }
{
    let row = skip_row(bytes, trace);
    let begun = row + hear_start(&bytes[row..], trace);
    if trace.is_idle() {
        return begun;
    }
    begun + trace.hear_digits(&bytes[begun..])
}

/// Skips the recessive levels at the front of the bytes, if they are between frames, and returns how many.
fn skip_row(bytes: &[u8], trace: &mut Trace) -> usize
    requires { trace.old.place + length bytes.now < 2 ^ 64 }
    ensures within { result ≤ length bytes.now }
    ensures text { IsTraceText (take result bytes.now) }
    ensures hears { Hears trace.old trace.new (levels_in (take result bytes.now)) [] }
    ensures place { trace.new.place ≤ trace.old.place + result }
{
    if !trace.is_idle() {
        return 0;
    }
    let count = recessive_count(bytes);
    trace.skip(count);
    count
}

/// Takes the level at the front of the bytes if a frame begins with it, and returns how many levels it took.
fn hear_start(bytes: &[u8], trace: &mut Trace) -> usize
    requires { trace.old.place + length bytes.now < 2 ^ 64 }
    ensures within { result ≤ length bytes.now }
    ensures text { IsTraceText (take result bytes.now) }
    ensures hears { Hears trace.old trace.new (levels_in (take result bytes.now)) [] }
    ensures place { trace.new.place ≤ trace.old.place + result }
{
    if bytes.is_empty() || bytes[0] != b'0' || !trace.is_idle() {
        return 0;
    }
    trace.begin_frame();
    1
}

/// Decodes one level. It is inlined, so that the finding is not moved in memory.
#[inline(always)]
fn hear_level<W: Sink>(
    level: Level,
    trace: &mut Trace,
    w: &mut W,
    out: &mut Outbox,
) -> Result<(), TraceFault>
    requires unfailed { W.has_failed w.old ≡ false }
    requires fits { trace.old.place + 1 < 2 ^ 64 }
    ensures ok { OnOk result (HearsText trace.old trace.new (digit_of level ∷ []) (W.contents w.old) (W.contents w.new) out.old out.new) }
    ensures err { IfErr result (λ e. FailsToHear e trace.old trace.new (digit_of level ∷ []) (W.contents w.old) (W.contents w.new) out.old out.new) }
    ensures place { trace.new.place ≤ trace.old.place + 1 }
    ensures failed { W.has_failed w.new ≡ is_err_by is_write result }
{
    match trace.hear(level) {
        Some(finding) => put_finding(&finding, w, out),
        None => Ok(()),
    }
}
