ghost use Rattle.std.specs.Prelude.{false, Some};

use can_stream::Source;
use std::io;

/// Bytes in memory, read from the front. A read never fails.
#[derive(Drop)]
pub(crate) struct Text<'a> {
    rest: &'a [u8],
    ended: bool,
}

impl<'a> Text<'a> {
    ghost use Rattle.std.specs.Prelude.{◌≡◌};
    ghost use Rattle.can_page.specs.Texts.{has_ended, unread};

    /// Returns all of these bytes, unread.
    pub(crate) fn new(bytes: &'a [u8]) -> Text<'a>
        ensures unread { unread result ≡ bytes.now }
        ensures unended { has_ended result ≡ false }
    {
        Text {
            rest: bytes,
            ended: false,
        }
    }
}

impl<'a> Source for Text<'a> {
    ghost use Rattle.can_page.specs.Texts.{has_ended, unread};

    ghost remaining = { λ t. Some (unread t) };

    ghost has_failed = { λ t. false };

    ghost has_ended = { has_ended };

    fn read(&mut self, buf: &mut [u8]) -> io::Result<usize> {
        let count = self.rest.len().min(buf.len());
        let (front, rest) = self.rest.split_at(count);
        buf[..count].copy_from_slice(front);
        self.rest = rest;
        self.ended |= count == 0 && !buf.is_empty();
        Ok(count)
    }

    fn failed(&self) -> bool {
        false
    }

    fn ended(&self) -> bool {
        self.ended
    }
}
