ghost use Rattle.std.specs.Prelude.{◌≡◌, ℕ, List, Bool, false, ◌||◌, Option, length, is_err};
ghost use Rattle.std.specs.Io.{ReadsAtMost};
ghost use Rattle.std.specs.Io.KnownBytes.{ReadConsumes};
ghost use Rattle.can_stream.specs.Told.{is_nothing};

use std::io;
use std::io::Read;

/// A reader of bytes, with the contract of std's `Read`, that records whether a read failed or
/// ended.
pub trait Source {
    /// The bytes that further reads will return, if they are known.
    ghost remaining: { Self → Option (List ℕ) };

    /// Whether some read has returned an `Err`.
    ghost has_failed: { Self → Bool };

    /// Whether some read into a slice that is not empty has returned `Ok(0)`.
    ghost has_ended: { Self → Bool };

    /// Reads once, into the front of the slice, and returns the number of bytes read.
    fn read(&mut self, buf: &mut [u8]) -> io::Result<usize>
        ensures bound { ReadsAtMost result buf.new }
        ensures bytes { ReadConsumes (remaining self.old) (remaining self.new) result buf.new }
        ensures failed { has_failed self.new ≡ (has_failed self.old || is_err result) }
        ensures ended { has_ended self.new ≡ (has_ended self.old || is_nothing result (length buf.new)) };

    /// Whether some read has failed. Once true, it stays true.
    fn failed(&self) -> bool
        ensures { result ≡ has_failed self.now };

    /// Whether some read into a slice that is not empty has returned no byte. Once true, it stays
    /// true.
    fn ended(&self) -> bool
        ensures { result ≡ has_ended self.now };
}

/// A reader of std as a `Source`. To keep the reader, wrap a `&mut` to it.
#[derive(Drop)]
pub struct FromRead<R> {
    inner: R,
    failed: bool,
    ended: bool,
}

impl<R> FromRead<R> {
    ghost use Rattle.can_stream.specs.Wrapped.{wrapped_reader, read_failed, read_ended};

    /// Wraps the reader, as one that has neither failed nor ended.
    pub fn new(inner: R) -> FromRead<R>
        ensures inner { wrapped_reader result ≡ inner }
        ensures unfailed { read_failed result ≡ false }
        ensures unended { read_ended result ≡ false }
    {
        FromRead {
            inner,
            failed: false,
            ended: false,
        }
    }

    /// Returns the wrapped reader, with what it has left.
    pub fn into_inner(self) -> R
        ensures { result ≡ wrapped_reader self }
    {
        self.inner
    }
}

impl<R: Read> Source for FromRead<R> {
    ghost use Rattle.can_stream.specs.Wrapped.{wrapped_reader, read_failed, read_ended};

    ghost remaining = { λ s. R.remaining (wrapped_reader s) };

    ghost has_failed = { read_failed };

    ghost has_ended = { read_ended };

    fn read(&mut self, buf: &mut [u8]) -> io::Result<usize> {
        let result = self.inner.read(buf);
        match &result {
            Ok(0) => self.ended |= !buf.is_empty(),
            Ok(_) => {}
            Err(_) => self.failed = true,
        }
        result
    }

    fn failed(&self) -> bool {
        self.failed
    }

    fn ended(&self) -> bool {
        self.ended
    }
}
