//! A text that is written piece by piece.

use std::alloc::{AllocError, Global};
use std::fmt::Write;

/// A text. If memory runs out, a piece is not written whole, and the text is incomplete from then on. So the calls that
/// write a piece cannot fail, and [`Text::finished`] is called once at the end.
#[derive(Drop)]
pub struct Text {
    /// What is written so far.
    written: String,
    /// Whether it has all pieces.
    is_complete: bool,
}

impl Text {
    /// Returns an empty text.
    pub fn new(alloc: Global) -> Text {
        Text {
            written: String::new(alloc),
            is_complete: true,
        }
    }

    /// Appends a piece.
    pub fn push(&mut self, piece: &str) {
        if self.written.push_str(piece).is_err() {
            self.is_complete = false;
        }
    }

    /// Appends a number in decimal.
    pub fn push_number(&mut self, number: u32) {
        if write!(self.written, "{number}").is_err() {
            self.is_complete = false;
        }
    }

    /// Appends a standard identifier, after its format letter.
    pub fn push_standard(&mut self, identifier: u32) {
        if write!(self.written, "S {identifier:03x}").is_err() {
            self.is_complete = false;
        }
    }

    /// Appends an extended identifier, after its format letter.
    pub fn push_extended(&mut self, identifier: u32) {
        if write!(self.written, "E {identifier:08x}").is_err() {
            self.is_complete = false;
        }
    }

    /// Appends levels, one digit each.
    pub fn push_digits(&mut self, digits: &[u8]) {
        for digit in digits {
            if self.written.push(char::from(*digit)).is_err() {
                self.is_complete = false;
            }
        }
    }

    /// Returns the whole text, or an error if memory ran out for a piece.
    pub fn finished(self) -> Result<String, AllocError> {
        if self.is_complete {
            Ok(self.written)
        } else {
            Err(AllocError)
        }
    }
}
