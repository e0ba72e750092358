ghost use Rattle.std.specs.Prelude.{◌≡◌, false, Some};
ghost use Rattle.can_page.specs.Codes.{trace_byte, trace_text};

use crate::text::Text;
use can_stream::Source;
use std::io;

/// Levels as numbers, read as the digits of a trace. A read never fails.
#[derive(Drop)]
pub(crate) struct Levels<'a> {
    codes: Text<'a>,
}

impl<'a> Levels<'a> {
    ghost use Rattle.can_page.specs.Texts.{levels_ended, unread_digits};

    /// Returns all of these levels, unread.
    pub(crate) fn new(codes: &'a [u8]) -> Levels<'a>
        ensures unread { unread_digits result ≡ trace_text codes.now }
        ensures unended { levels_ended result ≡ false }
    {
        Levels {
            codes: Text::new(codes),
        }
    }
}

impl<'a> Source for Levels<'a> {
    ghost use Rattle.can_page.specs.Texts.{levels_ended, unread_digits};

    ghost remaining = { λ l. Some (unread_digits l) };

    ghost has_failed = { λ l. false };

    ghost has_ended = { levels_ended };

    fn read(&mut self, buf: &mut [u8]) -> io::Result<usize> {
        let count = self.codes.read(buf)?;
        write_digits(&mut buf[..count]);
        Ok(count)
    }

    fn failed(&self) -> bool {
        false
    }

    fn ended(&self) -> bool {
        self.codes.ended()
    }
}

/// Replaces the number of each level by its digit.
fn write_digits(codes: &mut [u8])
    ensures { codes.new ≡ trace_text codes.old }
{
    for code in codes.iter_mut() {
        *code = trace_byte(*code);
    }
}

/// Returns the digit of a level, or for any other number a byte that a trace may not contain.
fn trace_byte(code: u8) -> u8
    ensures { result ≡ trace_byte code }
{
    match code {
        0 => b'0',
        1 => b'1',
        _ => b'?',
    }
}
