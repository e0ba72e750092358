ghost use Rattle.std.specs.Prelude.{◌≡◌, [], false};

use can_stream::Sink;
use std::io;

/// The capacity in bytes.
pub const ROOM: usize = 33_554_432;

/// The caller's buffer for lines of text, which are its first `count` bytes. Any content is allowed.
#[repr(C)]
#[derive(Drop)]
pub struct Lines {
    /// How many bytes are written.
    pub count: usize,
    /// Whether more bytes came when the buffer was full.
    pub full: bool,
    /// The bytes.
    pub bytes: [u8; ROOM],
}

impl Lines {
    ghost use Rattle.can_page.specs.Lines.{is_overfull, written_lines};

    /// Empties the buffer.
    pub(crate) fn clear(&mut self)
        ensures lines { written_lines self.new ≡ [] }
        ensures full { is_overfull self.new ≡ false }
    {
        self.count = 0;
        self.full = false;
    }
}

impl Sink for Lines {
    ghost use Rattle.std.specs.Prelude.{Some};
    ghost use Rattle.can_page.specs.Lines.{is_overfull, written_lines};

    ghost contents = { λ s. Some (written_lines s) };

    ghost has_failed = { is_overfull };

    fn write(&mut self, buf: &[u8]) -> io::Result<usize> {
        let start = self.count.min(ROOM);
        let taken = buf.len().min(ROOM - start);
        self.full = self.failed() || (taken == 0 && !buf.is_empty());
        self.bytes[start..start + taken].copy_from_slice(&buf[..taken]);
        self.count = start + taken;
        Ok(taken)
    }

    fn failed(&self) -> bool {
        self.full && self.count >= ROOM
    }
}
