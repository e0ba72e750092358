ghost use Rattle.std.specs.Prelude.{◌≡◌, ℕ, ◌+◌, ◌<◌, ◌≤◌, false, List, [], ◌++◌, length, take, is_err, IfOk, OnOk, OnErr, IfErr};
ghost use Rattle.std.specs.Io.KnownBytes.{Appends, Keeps};
ghost use Rattle.can_stream.specs.Outbox.{PassesOn, TakesFront};

use crate::fault::TraceFault;
use crate::sink::Sink;
use std::marker::Model;

/// The capacity of an [`Outbox`], in bytes.
pub const OUTBOX_ROOM: usize = 65536;

/// A write buffer: the bytes for a sink, which are written in large pieces. Contracts see the list of
/// pending bytes. A sink that failed is not written to again; the bytes that it did not take are
/// dropped.
#[derive(Drop)]
pub struct Outbox {
    bytes: [u8; OUTBOX_ROOM],
    length: usize,
}

impl Model for Outbox {
    ghost use Rattle.std.specs.Prelude.{ℕ, ◌≤◌, List, take};
    ghost use Rattle.can_stream.specs.declared.outbox.TheConstants.{OUTBOX_ROOM};

    ghost Value = { List ℕ };

    ghost view = { λ a. take a.length a.bytes };

    ghost invariant = { λ a. a.length ≤ OUTBOX_ROOM };
}

impl Outbox {
    /// Returns an empty buffer.
    pub fn new() -> Outbox
        ensures { result ≡ [] }
    {
        Outbox {
            bytes: [0; OUTBOX_ROOM],
            length: 0,
        }
    }

    /// Appends bytes to the buffer. If they do not fit, all pending bytes are first written to the
    /// sink. On an `Err` these are dropped.
    pub fn put<W: Sink>(&mut self, sink: &mut W, bytes: &[u8]) -> Result<(), TraceFault>
        requires fits { length bytes.now ≤ OUTBOX_ROOM }
        requires unfailed { W.has_failed sink.old ≡ false }
        ensures ok { OnOk result (PassesOn (W.contents sink.old) (W.contents sink.new) self.old self.new bytes.now) }
        ensures err { OnErr result (TakesFront (W.contents sink.old) (W.contents sink.new) self.old) }
        ensures dropped { OnErr result (self.new ≡ []) }
        ensures failed { W.has_failed sink.new ≡ is_err result }
        ensures fault { IfErr result (λ e. e ≡ TraceFault.Write) }
    {
        if OUTBOX_ROOM - self.length < bytes.len() {
            self.flush(sink)?;
        }
        self.extend(bytes);
        Ok(())
    }

    /// Appends bytes that fit.
    fn extend(&mut self, bytes: &[u8])
        requires { length self.old + length bytes.now ≤ OUTBOX_ROOM }
        ensures { self.new ≡ self.old ++ bytes.now }
    {
        let end = self.length + bytes.len();
        self.bytes[self.length..end].copy_from_slice(bytes);
        self.length = end;
    }

    /// Writes all pending bytes to the sink. On an `Err` the bytes that it did not take are dropped.
    pub fn flush<W: Sink>(&mut self, sink: &mut W) -> Result<(), TraceFault>
        requires { W.has_failed sink.old ≡ false }
        ensures ok { OnOk result (Appends (W.contents sink.old) (W.contents sink.new) self.old) }
        ensures err { OnErr result (TakesFront (W.contents sink.old) (W.contents sink.new) self.old) }
        ensures empty { self.new ≡ [] }
        ensures failed { W.has_failed sink.new ≡ is_err result }
        ensures fault { IfErr result (λ e. e ≡ TraceFault.Write) }
    {
        let written = write_all(sink, &self.bytes[..self.length]);
        self.length = 0;
        written
    }
}

/// Writes all the bytes to the sink, in several writes if needed. The only error is `Write`.
pub fn write_all<W: Sink>(sink: &mut W, bytes: &[u8]) -> Result<(), TraceFault>
    requires { W.has_failed sink.old ≡ false }
    ensures ok { OnOk result (Appends (W.contents sink.old) (W.contents sink.new) bytes.now) }
    ensures err { OnErr result (TakesFront (W.contents sink.old) (W.contents sink.new) bytes.now) }
    ensures failed { W.has_failed sink.new ≡ is_err result }
    ensures fault { IfErr result (λ e. e ≡ TraceFault.Write) }
{
    let mut taken = 0;
    while taken < bytes.len() {
        taken += write_some(sink, &bytes[taken..])?;
    }
    Ok(())
}

/// Writes once. An `Err` of the sink is a fault, and so is a write that takes no byte.
fn write_some<W: Sink>(sink: &mut W, bytes: &[u8]) -> Result<usize, TraceFault>
    requires some { 0 < length bytes.now }
    requires unfailed { W.has_failed sink.old ≡ false }
    ensures bound { IfOk result (λ n. (0 < n) × (n ≤ length bytes.now)) }
    ensures ok { IfOk result (λ n. Appends (W.contents sink.old) (W.contents sink.new) (take n bytes.now)) }
    ensures err { OnErr result (Keeps (W.contents sink.old) (W.contents sink.new)) }
    ensures failed { W.has_failed sink.new ≡ is_err result }
    ensures fault { IfErr result (λ e. e ≡ TraceFault.Write) }
{
    match sink.write(bytes) {
        Ok(0) => Err(TraceFault::Write),
        Ok(count) => Ok(count),
        Err(_) => Err(TraceFault::Write),
    }
}
