//! A line that is built from parts.
ghost use Rattle.std.specs.Prelude.{◌≡◌, ◌+◌, ◌≤◌, ◌++◌, length, decimal};

use arrayvec::ArrayVec;
use itoa::Buffer;

/// The maximum number of bytes of a line: four numbers of 20 digits, and words of 32 bytes.
pub const LINE: usize = 112;

/// A line that is being built.
pub type Line = ArrayVec<u8, LINE>;

/// Appends a number in decimal. The call is inlined, so that a line's length stays in a register.
#[inline(always)]
pub fn push_number(line: &mut Line, number: u64)
    requires { length line.old.items + 20 ≤ LINE }
    ensures text { line.new.items ≡ line.old.items ++ decimal number }
    ensures bound { length line.new.items ≤ length line.old.items + 20 }
{
    let mut buffer = Buffer::new();
    push(line, buffer.format(number).as_bytes());
}

/// Appends bytes.
pub fn push(line: &mut Line, bytes: &[u8])
    requires { length line.old.items + length bytes.now ≤ LINE }
    ensures { line.new.items ≡ line.old.items ++ bytes.now }
{
    let Ok(()) = line.try_extend_from_slice(bytes) else {
        unreachable!();
    };
}

/// Appends a word, followed by a number in decimal.
pub fn push_named(line: &mut Line, name: &[u8], number: u64)
    requires { length line.old.items + length name.now + 20 ≤ LINE }
    ensures text { line.new.items ≡ line.old.items ++ (name.now ++ decimal number) }
    ensures bound { length line.new.items ≤ length line.old.items + length name.now + 20 }
{
    push(line, name);
    push_number(line, number);
}
