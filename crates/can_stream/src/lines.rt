ghost use Rattle.std.specs.Prelude.{◌≡◌, ℕ, ◌+◌, ◌-◌, ◌==◌, ◌<◌, ◌≤◌, ◌^◌, true, false, not, List, [], ◌∷◌, ◌++◌, length, take, position, IsTrue, IsFalse, IfOk, IfErr, OnOk, OnErr};
ghost use Rattle.std.specs.Io.KnownBytes.{Consumes, IsAtEnd};
ghost use Rattle.can_stream.specs.Lines.{IsLine, SplitsLine};
ghost use Rattle.can_stream.specs.Inbox.{StopsTurn};
ghost use Rattle.can_stream.specs.Outbox.{Flushes};
ghost use Rattle.can_stream.specs.Faults.{is_err_by, is_write};

use crate::fault::TraceFault;
use crate::inbox::Inbox;
use crate::outbox::Outbox;
use crate::sink::Sink;
use crate::source::Source;
use arrayvec::ArrayVec;
use memchr::memchr;

/// Reads the lines of a source, one after another. It keeps only the first `KEPT` bytes of a line, so lines
/// may have any length. Contracts see these bytes, `line_of`, and the bytes read and not yet used,
/// `inbox_of`.
#[derive(Drop)]
pub struct LineReader<const KEPT: usize> {
    inbox: Inbox,
    line: ArrayVec<u8, KEPT>,
}

impl<const KEPT: usize> LineReader<KEPT> {
    ghost use Rattle.can_stream.specs.LineReader.{ReadsLine, inbox_of, is_found, line_of};

    /// Returns a reader, before any read.
    pub fn new() -> LineReader<KEPT>
        ensures inbox { inbox_of result ≡ record { unread = []; taken = 0 } }
    {
        LineReader {
            inbox: Inbox::new(),
            line: ArrayVec::new(),
        }
    }

    /// The first bytes of the line that was read last, at most `KEPT`.
    pub fn line(&self) -> &[u8]
        ensures { result.now ≡ line_of self.now }
    {
        &self.line
    }

    /// The place of the next line's first byte in the input.
    pub fn place(&self) -> u64
        requires { length (inbox_of self.now).unread ≤ (inbox_of self.now).taken }
        ensures { result ≡ (inbox_of self.now).taken - length (inbox_of self.now).unread }
    {
        self.inbox.place()
    }

    /// Reads the next line, and returns `Ok(true)` if its end was found. If the source ends or an error
    /// occurs before that, the result is `Ok(false)` or the error. Then the line has the bytes that were read
    /// of it, maybe none.
    ///
    /// All buffered output is written to the sink before each read. If the sink fails, the result is `Write`.
    pub fn next_line<R: Source, W: Sink>(
        &mut self,
        source: &mut R,
        sink: &mut W,
        out: &mut Outbox,
    ) -> Result<bool, TraceFault>
        requires unfailed { R.has_failed source.old ≡ false }
        requires unended { R.has_ended source.old ≡ false }
        requires sink_unfailed { W.has_failed sink.old ≡ false }
        requires fits { (inbox_of self.old).taken < 2 ^ 64 }
        ensures reads { ReadsLine (is_found result) (R.remaining source.old) (R.remaining source.new) KEPT self.old self.new }
        ensures fits { (inbox_of self.new).taken < 2 ^ 64 }

        ensures ended { IfOk result (λ found. R.has_ended source.new ≡ not found) }
        ensures end { result ≡ Ok false → IsAtEnd (R.remaining source.new) }
        ensures within { result ≡ Ok false → (inbox_of self.new).taken ≤ 2 ^ 63 }
        ensures unfailed { OnOk result (R.has_failed source.new ≡ false) }

        ensures err { IfErr result (λ e. StopsTurn e (R.has_failed source.new) (inbox_of self.new).taken) }
        ensures unended { OnErr result (R.has_ended source.new ≡ false) }

        ensures flushed { Flushes (W.has_failed sink.new) (W.contents sink.old) (W.contents sink.new) out.old out.new }
        ensures write_failed { W.has_failed sink.new ≡ is_err_by is_write result }
    {
        self.line.clear();
        while !self.take_line() {
            if self.inbox.flush_and_fill(source, sink, out)? == 0 {
                return Ok(false);
            }
        }
        Ok(true)
    }

    /// Takes the unread bytes into the line, before the line's end if it is among them. Returns whether it
    /// is.
    fn take_line(&mut self) -> bool
        ensures splits { (part : List ℕ) × SplitsLine result self.old.inbox.unread [] part self.new.inbox.unread
            × (self.new.line.items ≡ take KEPT (self.old.line.items ++ part)) }
        ensures taken { self.new.inbox.taken ≡ self.old.inbox.taken }
    {
        let unread = self.inbox.unread();
        match first_end(unread) {
            Some(length) => {
                keep_front(&mut self.line, &unread[..length]);
                self.inbox.consume(length + 1);
                true
            }
            None => {
                keep_front(&mut self.line, unread);
                let length = unread.len();
                self.inbox.consume(length);
                false
            }
        }
    }
}

/// The place of the first line end.
fn first_end(bytes: &[u8]) -> Option<usize>
    ensures { result ≡ position (λ byte. byte == 10) bytes.now }
{
    memchr(b'\n', bytes)
}

/// Appends as many of the bytes as fit.
fn keep_front<const KEPT: usize>(kept: &mut ArrayVec<u8, KEPT>, bytes: &[u8])
    ensures { kept.new.items ≡ take KEPT (kept.old.items ++ bytes.now) }
{
    let count = bytes.len().min(kept.remaining_capacity());
    let Ok(()) = kept.try_extend_from_slice(&bytes[..count]) else {
        unreachable!();
    };
}
