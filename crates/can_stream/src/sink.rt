ghost use Rattle.std.specs.Prelude.{◌≡◌, ℕ, List, Bool, false, ◌||◌, Option, length, is_err};
ghost use Rattle.std.specs.Io.{WritesAtMost};
ghost use Rattle.std.specs.Io.KnownBytes.{WriteAppends};
ghost use Rattle.can_stream.specs.Told.{is_nothing};

use std::io;
use std::io::Write;

/// A writer of bytes, with the contract of std's `Write`, that records whether a write failed.
pub trait Sink {
    /// The bytes that the writer contains, if they are known.
    ghost contents: { Self → Option (List ℕ) };

    /// Whether some write has returned an `Err`, or `Ok(0)` for a slice that is not empty.
    ghost has_failed: { Self → Bool };

    /// Writes once, from the front of the slice, and returns the number of bytes taken.
    fn write(&mut self, buf: &[u8]) -> io::Result<usize>
        ensures bound { WritesAtMost result buf.now }
        ensures bytes { WriteAppends (contents self.old) (contents self.new) result buf.now }
        ensures failed { has_failed self.new
            ≡ (has_failed self.old || is_err result || is_nothing result (length buf.now)) };

    /// Whether some write has failed, or taken no byte of a slice that is not empty. Once true, it stays
    /// true.
    fn failed(&self) -> bool
        ensures { result ≡ has_failed self.now };
}

/// A writer of std as a `Sink`. To keep the writer, wrap a `&mut` to it.
#[derive(Drop)]
pub struct ToWrite<W> {
    inner: W,
    failed: bool,
}

impl<W> ToWrite<W> {
    ghost use Rattle.can_stream.specs.Wrapped.{wrapped_writer, write_failed};

    /// Wraps the writer, as one that has not failed.
    pub fn new(inner: W) -> ToWrite<W>
        ensures inner { wrapped_writer result ≡ inner }
        ensures unfailed { write_failed result ≡ false }
    {
        ToWrite {
            inner,
            failed: false,
        }
    }

    /// Returns the wrapped writer.
    pub fn into_inner(self) -> W
        ensures { result ≡ wrapped_writer self }
    {
        self.inner
    }
}

impl<W: Write> Sink for ToWrite<W> {
    ghost use Rattle.can_stream.specs.Wrapped.{wrapped_writer, write_failed};

    ghost contents = { λ s. W.contents (wrapped_writer s) };

    ghost has_failed = { write_failed };

    fn write(&mut self, buf: &[u8]) -> io::Result<usize> {
        let result = self.inner.write(buf);
        match &result {
            Ok(0) => self.failed |= !buf.is_empty(),
            Ok(_) => {}
            Err(_) => self.failed = true,
        }
        result
    }

    fn failed(&self) -> bool {
        self.failed
    }
}
