//! A text that is written piece by piece.
ghost use Rattle.std.specs.Prelude.{◌≡◌, [], ◌∷◌, true, decimal, IfOk};
ghost use Rattle.can_gates.specs.Texts.{Writes};

use itoa::Buffer;
use std::alloc::{AllocError, Global};

/// A text. If an allocation fails, the piece is not written, and the text is incomplete from then on. So calls that
/// write pieces cannot fail, and [`Text::finished`] is called once, after the last piece.
#[derive(Drop)]
pub(crate) struct Text {
    /// What has been written.
    bytes: Vec<u8>,
    /// Whether all pieces are in it.
    complete: bool,
}

impl Text {
    /// A text without pieces.
    pub(crate) fn new(alloc: Global) -> Text
        ensures { result.bytes.items ≡ [] }
    {
        Text {
            bytes: Vec::new(alloc),
            complete: true,
        }
    }

    /// Appends a piece.
    pub(crate) fn push(&mut self, piece: &[u8])
        ensures { Writes self.old self.new piece.now }
    {
        if self.bytes.extend_from_slice(piece).is_err() {
            self.complete = false;
        }
    }

    /// Appends a byte.
    pub(crate) fn push_byte(&mut self, byte: u8)
        ensures { Writes self.old self.new (byte ∷ []) }
    {
        self.push(&[byte]);
    }

    /// Appends a number in decimal.
    pub(crate) fn push_number(&mut self, number: u64)
        ensures { Writes self.old self.new (decimal number) }
    {
        let mut buffer = Buffer::new();
        self.push(buffer.format(number).as_bytes());
    }

    /// The whole text, if there was memory for each piece.
    pub(crate) fn finished(self) -> Result<Vec<u8>, AllocError>
        ensures { IfOk result (λ r. (self.complete ≡ true) × (r.items ≡ self.bytes.items)) }
    {
        if self.complete {
            Ok(self.bytes)
        } else {
            Err(AllocError)
        }
    }
}
