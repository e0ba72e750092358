ghost use Rattle.std.specs.Prelude.{◌≡◌, ℕ, ◌+◌, ◌-◌, ◌^◌, ◌<◌, ◌≤◌, ◌==◌, false, List, [], length, drop, IfOk, IfErr, OnOk, OnErr};
ghost use Rattle.std.specs.Io.KnownBytes.{Consumes, IsAtEnd};

use crate::fault::TraceFault;
use crate::outbox::Outbox;
use crate::sink::Sink;
use crate::source::Source;
use std::marker::Model;

/// The maximum number of bytes that one read returns.
const CAPACITY: usize = 65536;

/// The maximum number of bytes of an input, 2^63.
const MAX_BYTES: u64 = 1 << 63;

/// A read buffer: the bytes that were read from a source, in large pieces, and not yet used. Contracts
/// see these bytes, `unread`, and the number of bytes read in total, `taken`.
#[derive(Drop)]
pub struct Inbox {
    bytes: [u8; CAPACITY],
    start: usize,
    end: usize,
    taken: u64,
}

impl Model for Inbox {
    ghost use Rattle.std.specs.Prelude.{◌≤◌, slice_range};
    ghost use Rattle.can_stream.specs.Inbox.{Received};
    ghost use Rattle.can_stream.specs.declared.inbox.TheConstants.{CAPACITY};

    ghost Value = { Received };

    ghost view = { λ a. record { unread = slice_range a.bytes a.start a.end; taken = a.taken } };

    ghost invariant = { λ a. (a.start ≤ a.end) × (a.end ≤ CAPACITY) };
}

impl Inbox {
    ghost use Rattle.can_stream.specs.Inbox.{StopsReading, StopsTurn};
    ghost use Rattle.can_stream.specs.Outbox.{Flushes};
    ghost use Rattle.can_stream.specs.Faults.{is_err_by, is_write};

    /// Returns an empty buffer, before any read.
    pub fn new() -> Inbox
        ensures { result ≡ record { unread = []; taken = 0 } }
    {
        Inbox {
            bytes: [0; CAPACITY],
            start: 0,
            end: 0,
            taken: 0,
        }
    }

    /// The bytes that were read and not yet used.
    pub fn unread(&self) -> &[u8]
        ensures { result.now ≡ self.now.unread }
    {
        &self.bytes[self.start..self.end]
    }

    /// The number of bytes that were used.
    pub fn place(&self) -> u64
        requires { length self.now.unread ≤ self.now.taken }
        ensures { result ≡ self.now.taken - length self.now.unread }
    {
        self.taken - self.unread().len() as u64
    }

    /// Marks the first `count` bytes as used.
    pub fn consume(&mut self, count: usize)
        requires { count ≤ length self.old.unread }
        ensures { self.new ≡ record self.old { unread = drop count self.old.unread } }
    {
        self.start += count;
    }

    /// Reads once, when all bytes are used, and returns the number of bytes read. It is 0 only if the
    /// source ended. Errors:
    ///
    /// - `Read`: the source failed.
    /// - `Long`: more than 2^63 bytes had been read before this call, which then reads nothing.
    fn fill<R: Source>(&mut self, source: &mut R) -> Result<usize, TraceFault>
        requires used { self.old.unread ≡ [] }
        requires unfailed { R.has_failed source.old ≡ false }
        requires unended { R.has_ended source.old ≡ false }
        ensures bytes { Consumes (R.remaining source.old) (R.remaining source.new) self.new.unread }
        ensures taken { self.new.taken ≡ self.old.taken + length self.new.unread }
        ensures fits { self.new.taken < 2 ^ 64 }

        ensures count { IfOk result (λ n. n ≡ length self.new.unread) }
        ensures ended { IfOk result (λ n. R.has_ended source.new ≡ (n == 0)) }
        ensures end { IfOk result (λ n. n ≡ 0 → IsAtEnd (R.remaining source.new)) }
        ensures within { OnOk result (self.old.taken ≤ 2 ^ 63) }
        ensures unfailed { OnOk result (R.has_failed source.new ≡ false) }

        ensures err { IfErr result (λ e. StopsReading e (R.has_failed source.new) self.new.taken) }
        ensures none { OnErr result (self.new.unread ≡ []) }
        ensures unended { OnErr result (R.has_ended source.new ≡ false) }
    {
        if self.taken > MAX_BYTES {
            return Err(TraceFault::Long);
        }
        self.start = 0;
        self.end = 0;
        match source.read(&mut self.bytes) {
            Ok(count) => {
                self.end = count;
                self.taken += count as u64;
                Ok(count)
            }
            Err(_) => Err(TraceFault::Read),
        }
    }

    /// Writes all buffered output to the sink, then reads once from the source. So no output is pending
    /// during a read. The result is that of a read: the number of bytes, or `Read` or `Long`. `Write`
    /// means that the sink failed; then nothing is read.
    pub fn flush_and_fill<R: Source, W: Sink>(
        &mut self,
        source: &mut R,
        sink: &mut W,
        out: &mut Outbox,
    ) -> Result<usize, TraceFault>
        requires used { self.old.unread ≡ [] }
        requires unfailed { R.has_failed source.old ≡ false }
        requires unended { R.has_ended source.old ≡ false }
        requires sink_unfailed { W.has_failed sink.old ≡ false }
        requires within { self.old.taken < 2 ^ 64 }
        ensures bytes { Consumes (R.remaining source.old) (R.remaining source.new) self.new.unread }
        ensures taken { self.new.taken ≡ self.old.taken + length self.new.unread }
        ensures fits { self.new.taken < 2 ^ 64 }
        ensures flushed { Flushes (W.has_failed sink.new) (W.contents sink.old) (W.contents sink.new) out.old out.new }
        ensures empty { out.new ≡ [] }

        ensures count { IfOk result (λ n. n ≡ length self.new.unread) }
        ensures ended { IfOk result (λ n. R.has_ended source.new ≡ (n == 0)) }
        ensures end { IfOk result (λ n. n ≡ 0 → IsAtEnd (R.remaining source.new)) }
        ensures within { OnOk result (self.old.taken ≤ 2 ^ 63) }
        ensures unfailed { OnOk result (R.has_failed source.new ≡ false) }

        ensures err { IfErr result (λ e. StopsTurn e (R.has_failed source.new) self.new.taken) }
        ensures none { OnErr result (self.new.unread ≡ []) }
        ensures unended { OnErr result (R.has_ended source.new ≡ false) }
        ensures write_failed { W.has_failed sink.new ≡ is_err_by is_write result }
    {
        out.flush(sink)?;
        self.fill(source)
    }
}
